//! The reading of ties.
ghost use Rattle.std.specs.Prelude.{◌≡◌, ◌+◌, ◌<◌, IfSome, IfNone, IfOk, IfErr};
ghost use Rattle.checkpoint.specs.Format.{flag, tie_bytes};
ghost use Rattle.checkpoint.specs.Parts.{IsProperTie};
ghost use Rattle.checkpoint.specs.Fronts.{BeginWith, IsNoFront};
ghost use Rattle.checkpoint.specs.Reading.{ties_bytes, AreProperTies};

use crate::PartFault;
use crate::keys::read_optional_key;
use marc_types::Tie;
use std::alloc::Global;

/// What a tie's first byte says.
#[derive(Clone, Copy)]
struct Flags {
    linked: bool,
    whole: bool,
    awaits: bool,
}

impl Flags {
    fn new(linked: bool, whole: bool, awaits: bool) -> Flags
        ensures { result ≡ record { linked = linked; whole = whole; awaits = awaits } }
    {
        Flags {
            linked,
            whole,
            awaits,
        }
    }

    /// The sum of 1 where the field is linked, 2 where it is whole, and 4 where it awaits a key.
    fn of_byte(byte: u8) -> Option<Flags>
        ensures flags { IfSome result (λ f. flag 1 f.linked + flag 2 f.whole + flag 4 f.awaits ≡ byte) }
        ensures none { IfNone result (7 < byte) }
    {
        match byte {
            0 => Some(Flags::new(false, false, false)),
            1 => Some(Flags::new(true, false, false)),
            2 => Some(Flags::new(false, true, false)),
            3 => Some(Flags::new(true, true, false)),
            4 => Some(Flags::new(false, false, true)),
            5 => Some(Flags::new(true, false, true)),
            6 => Some(Flags::new(false, true, true)),
            7 => Some(Flags::new(true, true, true)),
            _ => None,
        }
    }
}

/// The tie with which bytes begin, and what stands behind it.
fn read_tie(alloc: Global, bytes: &[u8]) -> Result<(Tie, &[u8]), PartFault>
    ensures read { IfOk result (λ r. BeginWith tie_bytes IsProperTie bytes.now r.0 r.1.now) }
    ensures bad { IfErr result (IsNoFront tie_bytes IsProperTie bytes.now) }
{
    let Some((byte, behind)) = bytes.split_first() else {
        return Err(PartFault::BadPart);
    };
    let Some(flags) = Flags::of_byte(*byte) else {
        return Err(PartFault::BadPart);
    };
    let (key, behind_key) = read_optional_key(alloc, behind, flags.linked)?;
    let (awaits, rest) = read_optional_key(alloc, behind_key, flags.awaits)?;
    let tie = Tie {
        key,
        whole: flags.whole,
        awaits,
    };
    Ok((tie, rest))
}

/// So many ties, and what stands behind them.
pub(crate) fn read_ties(
    alloc: Global,
    bytes: &[u8],
    count: usize,
) -> Result<(Vec<Tie>, &[u8]), PartFault>
    ensures read { IfOk result (λ r. BeginWith ties_bytes (AreProperTies count) bytes.now r.0.items r.1.now) }
    ensures bad { IfErr result (IsNoFront ties_bytes (AreProperTies count) bytes.now) }
{
    let mut ties = Vec::with_capacity(alloc, count)?;
    let mut rest = bytes;
    for _done in 0..count {
        let (tie, behind) = read_tie(alloc, rest)?;
        ties.push(tie)?;
        rest = behind;
    }
    Ok((ties, rest))
}
