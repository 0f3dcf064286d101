//! What a commit asks of an entry beside its record.
ghost use Rattle.std.specs.Prelude.{◌≡◌, map, IfOk};
ghost use Rattle.entry_record.specs.Headings.{heading_forms};
ghost use Rattle.entry_record.specs.Prepared.{AreFacts};

use crate::access::{Access, access_of, has_bare_heading};
use crate::headings::Headings;
use crate::identity::is_deletion;
use crate::successor::successor;
use marc_types::{Class, Form, Forms, Key, NoMemory, Record, TryCopy};
use std::alloc::Global;

/// What a commit asks of an entry beside its record, its class and its key: each is found once, when the entry is prepared.
#[derive(Debug, Drop)]
pub(crate) struct Facts {
    pub(crate) deletes: bool,
    pub(crate) bare: bool,
    pub(crate) established: Option<Form>,
    pub(crate) see_from: Forms,
    pub(crate) headings: Headings,
    pub(crate) successor: Option<Key>,
}

impl TryCopy for Facts {
    fn copy(&self, alloc: Global) -> Result<Self, NoMemory> {
        Ok(Facts {
            deletes: self.deletes,
            bare: self.bare,
            established: self.established.copy(alloc)?,
            see_from: self.see_from.copy(alloc)?,
            headings: self.headings.copy(alloc)?,
            successor: self.successor.copy(alloc)?,
        })
    }
}

/// The facts of a record of that class under that key, whose heading fields have those forms.
pub(crate) fn facts_of(
    alloc: Global,
    rec: &Record,
    class: Class,
    key: &Key,
    headings: Headings,
) -> Result<Facts, NoMemory>
    requires headings { headings ≡ map (heading_forms class) rec.now.fields }
    ensures { IfOk result (AreFacts class key.now rec.now) }
{
    let fields = rec.fields.as_slice();
    let Access {
        established,
        see_from,
    } = access_of(alloc, fields, class)?;
    let successor = successor(alloc, &rec.leader, key, fields)?;
    Ok(Facts {
        deletes: is_deletion(&rec.leader),
        bare: has_bare_heading(fields),
        established,
        see_from,
        headings,
        successor,
    })
}
