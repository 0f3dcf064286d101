//! The pieces of exports, copied one by one.
ghost use Rattle.std.specs.Prelude.{◌≡◌, ◌≤◌, ℕ, true, false, IfOk, IsErrOf};
ghost use Rattle.parts_commands.specs.Taking.{GivesTaken, GoesOn, HasInputCause, IsNextAuthority};

use crate::keys::is_authority;
use crate::stop::Stop;
use marc_stream::{Next, Pieces};
use marc_types::NoMemory;
use outside::Source;

/// What stands next in an export. Places count bytes of the file from 0.
#[derive(Clone, Copy, Debug, PartialEq, Eq)]
pub(crate) enum Taken {
    /// A piece at that place, whose bytes were copied.
    Piece(u64),
    /// What is no piece, at that place.
    NoPiece(u64),
    End,
    /// The source failed.
    Fault,
}

/// Takes the next item, and copies a piece's bytes.
pub(crate) fn take_next<S: Source>(
    pieces: &mut Pieces<S>,
    piece: &mut Vec<u8>,
) -> Result<Taken, NoMemory>
    requires { pieces.old.over ≡ false }
    ensures gives { IfOk result (λ taken. GivesTaken pieces.old taken piece.new.items pieces.new) }
    ensures faults { pieces.old.faults ≤ pieces.new.faults }
{
    match pieces.next() {
        Next::Piece { offset, bytes, .. } => {
            piece.clear();
            piece.extend_from_slice(bytes)?;
            Ok(Taken::Piece(offset))
        }
        Next::Refused { offset, .. } => Ok(Taken::NoPiece(offset)),
        Next::End => Ok(Taken::End),
        Next::ReadFault => Ok(Taken::Fault),
    }
}

/// Takes the next item, and answers whether it is a piece of an authority.
pub(crate) fn next_is_authority<S: Source>(
    pieces: &mut Pieces<S>,
    piece: &mut Vec<u8>,
) -> Result<bool, Stop>
    requires { pieces.old.over ≡ false }
    ensures next { IfOk result (λ is. pieces.old.tells ≡ true →
        IsNextAuthority pieces.old.coming is piece.new.items pieces.new.coming) }
    ensures going { IfOk result (λ is. is ≡ true → GoesOn pieces.old pieces.new) }
    ensures like { (place : ℕ) → IsErrOf result (Stop.Unlike place) → ⊥ }
    ensures output { IsErrOf result Stop.Output → ⊥ }
    ensures input { HasInputCause pieces.old.faults pieces.new.faults result }
{
    match take_next(pieces, piece)? {
        Taken::Piece(_) => Ok(is_authority(piece.as_slice())),
        Taken::NoPiece(_) | Taken::End => Ok(false),
        Taken::Fault => Err(Stop::Input),
    }
}
