ghost use Rattle.std.specs.Prelude.{IsTrue};
ghost use Rattle.marc_types.specs.Valid.{is_record};

use crate::copying::{NoMemory, TryCopy};
use crate::field::{Fields, Leader};
use std::alloc::Global;

/// A MARC 21 record. Its type keeps what a reader checks: leader bytes, indicators and codes are printable, tags are of
/// digits and letters, control fields are those whose tag begins with `00`, texts hold no terminator or delimiter,
/// there are at most 8,331 fields, and all texts with two bytes per subfield come to at most 1,000,000 bytes.
#[derive(Debug, Drop)]
pub struct Record {
    pub leader: Leader,
    pub fields: Fields,
    ghost valid: { IsTrue (is_record leader fields) },
}

impl TryCopy for Record {
    fn copy(&self, alloc: Global) -> Result<Self, NoMemory> {
        Ok(Record {
            leader: self.leader,
            fields: self.fields.copy(alloc)?,
        })
    }
}
