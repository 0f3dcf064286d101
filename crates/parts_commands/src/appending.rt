//! What a join writes of one export.
ghost use Rattle.std.specs.Prelude.{◌≡◌, ℕ, [], true, false, IfOk, OnOk, IsErrOf};
ghost use Rattle.std.specs.Io.KnownBytes.{Appends};
ghost use Rattle.parts_commands.specs.Exports.{authorities_of, bytes_of};
ghost use Rattle.parts_commands.specs.Taking.{AreAllCopied, AreCopied, AreNotAllCopied, AreNotCopied, GoesOn, HasInputCause, HasOutputCause, HaveInputCause, IsAppended, IsNextCopied, IsNotAppended};

use crate::comparing::pass_authorities;
use crate::keys::{is_authority, may_follow};
use crate::stop::Stop;
use crate::taking::{Taken, next_is_authority, take_next};
use marc_stream::Pieces;
use outside::{Sink, Source};
use std::alloc::Global;
use std::mem;

/// The memory of a join: the piece that was taken, the one beside it of the first export, and the last bibliographic record that was
/// written, which is empty before the first.
#[derive(Debug, Drop)]
pub(crate) struct Buffers {
    pub piece: Vec<u8>,
    pub beside: Vec<u8>,
    pub last: Vec<u8>,
}

impl Buffers {
    pub fn new(alloc: Global) -> Buffers
        ensures { result.last.items ≡ [] }
    {
        Buffers {
            piece: Vec::new(alloc),
            beside: Vec::new(alloc),
            last: Vec::new(alloc),
        }
    }
}

/// Writes the authorities with which an export begins.
pub(crate) fn write_authorities<S: Source, K: Sink>(
    first: &mut Pieces<S>,
    piece: &mut Vec<u8>,
    out: &mut K,
) -> Result<(), Stop>
    requires { first.old.over ≡ false }
    ensures wrote { OnOk result (first.old.tells ≡ true →
        Appends (K.written out.old) (K.written out.new) (bytes_of (authorities_of first.old.coming))) }
    ensures like { (place : ℕ) → IsErrOf result (Stop.Unlike place) → ⊥ }
    ensures input { HasInputCause first.old.faults first.new.faults result }
    ensures output { HasOutputCause (K.faults out.old) (K.faults out.new) result }
{
    'authorities: while next_is_authority(first, piece)? {
        out.write_all(piece.as_slice())?;
    }
    Ok(())
}

/// Writes the next record of an export, and keeps it as the last. Answers whether there was one.
fn copy_next<S: Source, K: Sink>(
    export: &mut Pieces<S>,
    piece: &mut Vec<u8>,
    last: &mut Vec<u8>,
    out: &mut K,
) -> Result<bool, Stop>
    requires { export.old.over ≡ false }
    ensures copied { IfOk result (λ is. export.old.tells ≡ true →
        IsNextCopied export.old.coming is last.old.items last.new.items export.new.coming (K.written out.old) (K.written out.new)) }
    ensures going { IfOk result (λ is. is ≡ true → GoesOn export.old export.new) }
    ensures other { (place : ℕ) → IsErrOf result (Stop.Unlike place) → export.old.tells ≡ true → AreNotCopied export.old.coming place }
    ensures input { HasInputCause export.old.faults export.new.faults result }
    ensures output { HasOutputCause (K.faults out.old) (K.faults out.new) result }
{
    match take_next(export, piece)? {
        Taken::Piece(place) if is_authority(piece.as_slice()) => Err(Stop::Unlike(place)),
        Taken::Piece(_) => {
            out.write_all(piece.as_slice())?;
            mem::swap(last, piece);
            Ok(true)
        }
        Taken::NoPiece(place) => Err(Stop::Unlike(place)),
        Taken::End => Ok(false),
        Taken::Fault => Err(Stop::Input),
    }
}

/// Writes the records that an export has from here on, and keeps the last of them.
fn copy_records<S: Source, K: Sink>(
    export: &mut Pieces<S>,
    piece: &mut Vec<u8>,
    last: &mut Vec<u8>,
    out: &mut K,
) -> Result<(), Stop>
    requires { export.old.over ≡ false }
    ensures copied { OnOk result (export.old.tells ≡ true →
        AreCopied export.old.coming last.old.items last.new.items (K.written out.old) (K.written out.new)) }
    ensures other { (place : ℕ) → IsErrOf result (Stop.Unlike place) → export.old.tells ≡ true → AreNotCopied export.old.coming place }
    ensures input { HasInputCause export.old.faults export.new.faults result }
    ensures output { HasOutputCause (K.faults out.old) (K.faults out.new) result }
{
    'records: while copy_next(export, piece, last, out)? {}
    Ok(())
}

/// Writes the bibliographic records of an export, the first of which was taken from that place, behind the last that was written.
fn write_records<S: Source, K: Sink>(
    alloc: Global,
    export: &mut Pieces<S>,
    first: u64,
    piece: &mut Vec<u8>,
    last: &mut Vec<u8>,
    out: &mut K,
) -> Result<(), Stop>
    requires { export.old.over ≡ false }
    ensures copied { OnOk result (export.old.tells ≡ true →
        AreAllCopied piece.old.items export.old.coming last.old.items last.new.items (K.written out.old) (K.written out.new)) }
    ensures other { (place : ℕ) → IsErrOf result (Stop.Unlike place) → export.old.tells ≡ true →
        AreNotAllCopied piece.old.items last.old.items first export.old.coming place }
    ensures input { HasInputCause export.old.faults export.new.faults result }
    ensures output { HasOutputCause (K.faults out.old) (K.faults out.new) result }
{
    if !may_follow(alloc, last.as_slice(), piece.as_slice())? {
        return Err(Stop::Unlike(first));
    }
    out.write_all(piece.as_slice())?;
    mem::swap(last, piece);
    copy_records(export, piece, last, out)
}

/// Writes what an export has behind the authorities, which have to be those of the first.
pub(crate) fn append_part<S: Source, K: Sink>(
    alloc: Global,
    first: &mut Pieces<S>,
    export: &mut Pieces<S>,
    buffers: &mut Buffers,
    out: &mut K,
) -> Result<(), Stop>
    requires first { first.old.over ≡ false }
    requires export { export.old.over ≡ false }
    ensures appended { OnOk result (first.old.tells ≡ true → export.old.tells ≡ true →
        IsAppended first.old.coming export.old.coming buffers.old.last.items buffers.new.last.items (K.written out.old) (K.written out.new)) }
    ensures other { (place : ℕ) → IsErrOf result (Stop.Unlike place) → first.old.tells ≡ true → export.old.tells ≡ true →
        IsNotAppended first.old.coming export.old.coming buffers.old.last.items place }
    ensures input { HaveInputCause first.old.faults first.new.faults export.old.faults export.new.faults result }
    ensures output { HasOutputCause (K.faults out.old) (K.faults out.new) result }
{
    match pass_authorities(first, export, &mut buffers.beside, &mut buffers.piece)? {
        Some(place) => write_records(
            alloc,
            export,
            place,
            &mut buffers.piece,
            &mut buffers.last,
            out,
        ),
        None => Ok(()),
    }
}
