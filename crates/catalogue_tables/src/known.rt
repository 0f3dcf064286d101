//! What is known of an authority by its row alone: no record is looked at.
ghost use Rattle.std.specs.Prelude.{◌≡◌, ◌++◌, [], ◌∷◌, IfOk, OnOk};
ghost use Rattle.catalogue_tables.specs.Known.{forms_with};
ghost use Rattle.catalogue_tables.specs.Answers.{IsKnownUnderAny};

use crate::tables::CatalogueTables;
use marc_types::{Form, Kind, NoMemory, TryCopy};
use numbering::Numbering;
use std::alloc::Global;

/// The kind of an authority to which fields can be linked, and the forms under which it is found.
#[derive(Drop)]
pub struct KnownAuthority {
    pub kind: Kind,
    pub forms: Vec<Form>,
}

// The form with the number is put behind the others, if there is one.
fn push_form(
    names: &Numbering<Form>,
    alloc: Global,
    number: u32,
    forms: &mut Vec<Form>,
) -> Result<(), NoMemory>
    ensures { OnOk result (forms.new.items ≡ forms.old.items ++ forms_with names.now (number ∷ [])) }
{
    if let Some(form) = names.at(number) {
        forms.push(form.copy(alloc)?)?;
    }
    Ok(())
}

// The forms with these numbers are put behind the others.
fn push_forms(
    names: &Numbering<Form>,
    alloc: Global,
    numbers: &[u32],
    forms: &mut Vec<Form>,
) -> Result<(), NoMemory>
    ensures { OnOk result (forms.new.items ≡ forms.old.items ++ forms_with names.now numbers.now) }
{
    for number in numbers {
        push_form(names, alloc, *number, forms)?;
    }
    Ok(())
}

impl CatalogueTables {
    /// The kind and the forms of the authority under the key that has the number, where fields can be linked to it.
    pub fn known_authority(
        &self,
        alloc: Global,
        number: u32,
    ) -> Result<Option<KnownAuthority>, NoMemory>
        ensures { IfOk result (IsKnownUnderAny self.now.forms self.now.index number) }
    {
        // each form has one number
        let _count = self.forms.len();
        let Some(row) = self.index.row(number) else {
            return Ok(None);
        };
        let Some(established) = self.forms.at(row.established()) else {
            return Ok(None);
        };
        let mut forms = Vec::new(alloc);
        forms.push(established.copy(alloc)?)?;
        push_forms(&self.forms, alloc, row.see_from(), &mut forms)?;
        Ok(Some(KnownAuthority {
            kind: established.kind,
            forms,
        }))
    }
}
