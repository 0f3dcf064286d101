ghost use Rattle.std.specs.Prelude.{◌≡◌, ◌≤◌, is_some, OnOk};
ghost use Rattle.std.specs.Io.KnownBytes.{Appends};
ghost use Rattle.marc_types.specs.Limits.{most_made};
ghost use Rattle.outside.specs.Fault.{HasWriteCause};
ghost use Rattle.outside.specs.Sink.{WritesFront};
ghost use Rattle.workload.specs.Workload.{workload_bytes};

use crate::maker::Maker;
use iso2709_record::encode;
use outside::{Sink, WriteFault};
use std::alloc::Global;

/// Writes the workload of a seed and a count of at most 1,048,576. After a fault some front of it was written, maybe none
/// or all; want of memory is a fault too.
#[tactic(auto, using(outside::proofs::Fronts::writing_begun, outside::proofs::Fronts::writing_more, outside::proofs::Fronts::writing_failed, outside::proofs::Fronts::writing_done, outside::proofs::Fronts::writing_stopped), unfolding(crate::specs::Workload::workload_bytes))]
pub fn make<K: Sink>(alloc: Global, seed: u64, count: u64, out: &mut K) -> Result<(), WriteFault>
    requires { count ≤ most_made }
    ensures bytes { OnOk result
        (Appends (K.written out.old) (K.written out.new) (workload_bytes seed count)) }
    ensures front { WritesFront (K.written out.old) (K.written out.new) (workload_bytes seed count) }
    ensures tells { is_some (K.written out.new) ≡ is_some (K.written out.old) }
    ensures cause { HasWriteCause (K.faults out.old) (K.faults out.new) result }
{
    let mut maker = Maker::new(seed, count);
    while let Some(rec) = maker
        .next(alloc)
        .map_err(|_no_memory| WriteFault::NoMemory)?
    {
        encode(&rec, out)?;
    }
    Ok(())
}
