//! The second reading of a file: each piece goes to the output of its share.
ghost use Rattle.std.specs.Prelude.{◌≡◌, ◌≤◌, false, length, IsTrue, OnOk, OnErr};
ghost use Rattle.marc_types.specs.Valid.{is_code};
ghost use Rattle.split_command.specs.Outputs.{AreDealt, HasSinkFault, due_to};
ghost use Rattle.split_command.specs.Reading.{DealsNext};
ghost use Rattle.split_command.specs.Dealing.{DealsSource, DealsStream};

use crate::fault::SplitFault;
use crate::share::share_of_piece;
use marc_stream::{Next, Pieces};
use marc_types::{Key, NoMemory, Text};
use outside::{Failed, Sink, Source};
use std::alloc::Global;

/// Writes a piece to the output of its share, where that is one of these, the first of which is of that share.
#[tactic(auto, using(crate::proofs::Dealt::dealt_before, crate::proofs::Dealt::dealt_past, crate::proofs::Dealt::dealt_here))]
fn put<K: Sink>(outs: &mut [K], first: u64, share: u64, piece: &[u8]) -> Result<(), Failed>
    ensures many { length outs.new ≡ length outs.old }
    ensures dealt { OnOk result (AreDealt K.written K.faults (due_to share piece.now) first outs.old outs.new) }
    ensures fault { OnErr result (HasSinkFault K.faults outs.old outs.new) }
{
    if share < first {
        return Ok(());
    }
    let place = share - first;
    if place >= outs.len() as u64 {
        return Ok(());
    }
    let out = &mut outs[place as usize];
    out.write_all(piece)
}

/// Deals the next item out, and answers whether there was one.
fn deal_next<S: Source, K: Sink>(
    alloc: Global,
    pieces: &mut Pieces<S>,
    code: &Text,
    bounds: &[Key],
    first: u64,
    outs: &mut [K],
) -> Result<bool, SplitFault>
    requires going { pieces.old.over ≡ false }
    requires proper { IsTrue (is_code code.now) }
    ensures many { length outs.new ≡ length outs.old }
    ensures faults { pieces.old.faults ≤ pieces.new.faults }
    ensures deals { DealsNext K.written K.faults code.now bounds.now first pieces.old pieces.new outs.old outs.new result }
{
    match pieces.next() {
        Next::Piece { ordinal, bytes, .. } => {
            match share_of_piece(alloc, bytes, code, ordinal, bounds) {
                Ok(Some(share)) => match put(outs, first, share, bytes) {
                    Ok(()) => Ok(true),
                    Err(Failed) => Err(SplitFault::Output),
                },
                Ok(None) => Ok(true),
                Err(NoMemory) => Err(SplitFault::Memory),
            }
        }
        Next::Refused { .. } => Ok(true),
        Next::End => Ok(false),
        Next::ReadFault => Err(SplitFault::Input),
    }
}

/// Deals all items out.
#[tactic(auto, using(crate::proofs::Stepped::has_dealt_none, crate::proofs::Stepped::has_dealt_more, crate::proofs::Stepped::item_falls, crate::proofs::Stepped::has_dealt_all, crate::proofs::Stepped::has_dealt_part))]
fn deal_all<S: Source, K: Sink>(
    alloc: Global,
    pieces: &mut Pieces<S>,
    code: &Text,
    bounds: &[Key],
    first: u64,
    outs: &mut [K],
) -> Result<(), SplitFault>
    requires going { pieces.old.over ≡ false }
    requires proper { IsTrue (is_code code.now) }
    ensures many { length outs.new ≡ length outs.old }
    ensures deals { DealsStream K.written K.faults code.now bounds.now first pieces.old pieces.new outs.old outs.new result }
{
    'items: while deal_next(alloc, pieces, code, bounds, first, outs)? {}
    Ok(())
}

/// Deals the pieces of a source out, which is a file of that library code, to the outputs of some shares, and gives the source back.
#[tactic(auto, using(crate::proofs::Stepped::dealt_source, crate::proofs::Stepped::undealt))]
pub fn deal_source<S: Source, K: Sink>(
    alloc: Global,
    source: S,
    code: &Text,
    bounds: &[Key],
    first: u64,
    outs: &mut [K],
) -> (Result<(), SplitFault>, S)
    requires { IsTrue (is_code code.now) }
    ensures many { length outs.new ≡ length outs.old }
    ensures deals { DealsSource K.written K.faults code.now bounds.now first (S.left source) (S.faults source) (S.faults result.1)
        outs.old outs.new result.0 }
{
    match Pieces::new(alloc, source) {
        Ok(mut pieces) => {
            let dealt = deal_all(alloc, &mut pieces, code, bounds, first, outs);
            (dealt, pieces.finish())
        }
        Err((source, NoMemory)) => (Err(SplitFault::Memory), source),
    }
}
