//! To which share a piece comes.
ghost use Rattle.std.specs.Prelude.{◌≡◌, ◌≤◌, length, IsTrue, IfOk};
ghost use Rattle.marc_types.specs.Valid.{is_code};
ghost use Rattle.split_command.specs.Shares.{part_number, share_of};
ghost use Rattle.split_command.specs.Reading.{HasShare};

use entry_record::Prepared;
use marc_types::{Class, Key, NoMemory, RecordFault, Text};
use reading::prepare;
use std::alloc::Global;

/// A loader of nothing: what is dealt is prepared only to see where it comes to.
const LOADER: u32 = 0;

/// The number of the part that has a key.
#[tactic(auto, using(crate::proofs::Numbers::number_here, crate::proofs::Numbers::number_behind, crate::proofs::Numbers::number_last))]
fn part_number(bounds: &[Key], key: &Key) -> u64
    ensures number { result ≡ part_number bounds.now key.now }
    ensures few { result ≤ length bounds.now }
{
    let mut part = 0;
    for bound in bounds {
        if key.cmp(bound).is_lt() {
            return part;
        }
        part += 1;
    }
    part
}

/// The share of an entry.
#[tactic(auto, unfolding(crate::specs::Shares::share_of))]
fn share_of(bounds: &[Key], prepared: &Prepared) -> u64
    ensures { result ≡ share_of bounds.now prepared.now }
{
    let entry = prepared.entry();
    match entry.class {
        Class::Authority => 0,
        Class::Bibliographic => part_number(bounds, &entry.key) + 1,
    }
}

/// The share of a piece of a file of that library code, and none of one that is refused.
pub fn share_of_piece(
    alloc: Global,
    bytes: &[u8],
    code: &Text,
    ordinal: u64,
    bounds: &[Key],
) -> Result<Option<u64>, NoMemory>
    requires library { IsTrue (is_code code.now) }
    requires ordinal { 1 ≤ ordinal }
    ensures { IfOk result (HasShare code.now bytes.now ordinal bounds.now) }
{
    match prepare(alloc, bytes, code, LOADER, ordinal) {
        Ok(prepared) => Ok(Some(share_of(bounds, &prepared))),
        Err(RecordFault::Refused(_)) => Ok(None),
        Err(RecordFault::NoMemory) => Err(NoMemory),
    }
}
