//! Laws of a catalogue over a journal: each is the contract of a function that does nothing.
ghost use Rattle.durable_catalogue.specs.Calls.{Outlasts};

use crate::durable::Durable;
use outside::Disk;

/// What was committed when a call was answered stays, whatever is called afterwards and whatever that answers: each image now, and
/// each that a crash may have left since then, starts with it. (`commit` is such a call, by `goes_on`.) This is a law for proofs;
/// the call does nothing.
pub fn what_is_committed_stays<D: Disk>(durable: &Durable<D>)
    ensures now { Outlasts durable.now (λ earlier c. (D.seen durable.now.journal.disk).image c) }
    ensures since { Outlasts durable.now (λ earlier c. (D.seen durable.now.journal.disk).left (D.seen earlier.journal.disk).moment c) }
{}
