ghost use Rattle.std.specs.Prelude.{IfOk, IfErr};
ghost use Rattle.file_holdings.specs.Making.{MakesHolding, IsNotMade};

use holdings::{Holding, HoldingFault, admit_holding};
use marc_types::Text;
use reading::read_record;
use std::alloc::Global;

/// The holding of a piece of a file of that library code. A piece is refused for the first reason that there is against it: as
/// by [`reading::read_record`], and then as by [`holdings::admit_holding`].
pub fn prepare_holding(alloc: Global, bytes: &[u8], code: &Text) -> Result<Holding, HoldingFault>
    ensures made { IfOk result (MakesHolding code.now bytes.now) }
    ensures refused { IfErr result (IsNotMade code.now bytes.now) }
{
    match read_record(alloc, bytes) {
        Ok(rec) => admit_holding(alloc, rec, code),
        Err(fault) => Err(HoldingFault::from(fault)),
    }
}
