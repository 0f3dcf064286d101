//! The authorities of an export, beside those of the first.
ghost use Rattle.std.specs.Prelude.{◌≡◌, ℕ, true, false, IfOk, IfSome, IsErrOf};
ghost use Rattle.parts_commands.specs.Taking.{ArePassed, GivesCompared, GoOnAs, GoesOn, HaveInputCause, IsUnlike};

use crate::keys::is_authority;
use crate::stop::Stop;
use crate::taking::{Taken, next_is_authority, take_next};
use marc_stream::Pieces;
use outside::Source;

/// What stands next in an export, beside what stands next in the first. Places count bytes of the file from 0.
#[derive(Clone, Copy, Debug, PartialEq, Eq)]
pub(crate) enum Compared {
    /// The same authority, at that place.
    Same(u64),
    /// A bibliographic record, at that place, where the first has no authority either.
    Record(u64),
    /// Nothing, where the first has no authority either.
    NoMore,
    /// Nothing, where the first has an authority.
    Fewer,
}

/// Takes the next item of the first and of an export, and compares them.
fn compare_next<S: Source>(
    first: &mut Pieces<S>,
    export: &mut Pieces<S>,
    beside: &mut Vec<u8>,
    piece: &mut Vec<u8>,
) -> Result<Compared, Stop>
    requires first { first.old.over ≡ false }
    requires export { export.old.over ≡ false }
    ensures gives { IfOk result (λ compared. first.old.tells ≡ true → export.old.tells ≡ true →
        GivesCompared first.old.coming export.old.coming compared piece.new.items first.new.coming export.new.coming) }
    ensures going { IfOk result (λ compared. GoOnAs compared first.old first.new export.old export.new) }
    ensures unlike { (place : ℕ) → IsErrOf result (Stop.Unlike place) → first.old.tells ≡ true → export.old.tells ≡ true →
        IsUnlike first.old.coming export.old.coming place }
    ensures input { HaveInputCause first.old.faults first.new.faults export.old.faults export.new.faults result }
    ensures output { IsErrOf result Stop.Output → ⊥ }
{
    let is_due = next_is_authority(first, beside)?;
    match take_next(export, piece)? {
        Taken::Piece(place) => {
            let is_next = is_authority(piece.as_slice());
            if is_next && is_due && piece.as_slice() == beside.as_slice() {
                Ok(Compared::Same(place))
            } else if is_next || is_due {
                Err(Stop::Unlike(place))
            } else {
                Ok(Compared::Record(place))
            }
        }
        Taken::NoPiece(place) => Err(Stop::Unlike(place)),
        Taken::End if is_due => Ok(Compared::Fewer),
        Taken::End => Ok(Compared::NoMore),
        Taken::Fault => Err(Stop::Input),
    }
}

/// Passes over the authorities of an export, which have to be those of the first. Answers the place of its first bibliographic record,
/// which is the piece taken then, or none where it has no record.
pub(crate) fn pass_authorities<S: Source>(
    first: &mut Pieces<S>,
    export: &mut Pieces<S>,
    beside: &mut Vec<u8>,
    piece: &mut Vec<u8>,
) -> Result<Option<u64>, Stop>
    requires first { first.old.over ≡ false }
    requires export { export.old.over ≡ false }
    ensures passed { IfOk result (λ place. first.old.tells ≡ true → export.old.tells ≡ true →
        ArePassed first.old.coming export.old.coming place piece.new.items export.new.coming) }
    ensures going { IfOk result (λ place. IfSome place (λ at. (export.new.over ≡ false) × (export.new.tells ≡ export.old.tells))) }
    ensures unlike { (place : ℕ) → IsErrOf result (Stop.Unlike place) → first.old.tells ≡ true → export.old.tells ≡ true →
        IsUnlike first.old.coming export.old.coming place }
    ensures input { HaveInputCause first.old.faults first.new.faults export.old.faults export.new.faults result }
    ensures output { IsErrOf result Stop.Output → ⊥ }
{
    let mut place = 0;
    'authorities: loop {
        match compare_next(first, export, beside, piece)? {
            Compared::Same(at) => place = at,
            Compared::Record(at) => return Ok(Some(at)),
            Compared::NoMore => return Ok(None),
            Compared::Fewer => return Err(Stop::Unlike(place)),
        }
    }
}
