//! Seats from several lists, each once.
ghost use Rattle.std.specs.Prelude.{OnOk, IfOk};
ghost use Rattle.std.specs.List.{IsDistinct, list_any};
ghost use Rattle.numbering.specs.Seats.{same_seat};
ghost use Rattle.postings.specs.Listed.{ListsEach};
ghost use Rattle.wait_table.specs.Table.{waits};
ghost use Rattle.catalogue_tables.specs.Lent.{shown_forms};
ghost use Rattle.catalogue_tables.specs.Waiting.{asks_known, waits_for};
ghost use Rattle.catalogue_tables.specs.Gathering.{NotesThose};

use crate::tables::CatalogueTables;
use marc_types::{Form, NoMemory};
use numbering::{Numbering, Seat};
use std::alloc::Global;

/// Notes the seats that aren't noted yet, behind those that are.
pub fn gather(found: &mut Numbering<Seat>, alloc: Global, seats: &[Seat]) -> Result<(), NoMemory>
    ensures { OnOk result (NotesThose (λ s. list_any (same_seat s) seats.now) found.old found.new) }
{
    for seat in seats {
        found.add(alloc, seat)?;
    }
    Ok(())
}

// A numbering has each seat once.
fn once(found: &Numbering<Seat>)
    ensures { IsDistinct same_seat found.now }
{
    found.len();
}

impl CatalogueTables {
    /// All seats that wait for one of the forms or for the key, each once, in any order: the numbers of the answer go from 0 on.
    pub fn waiting(
        &self,
        alloc: Global,
        forms: &[&Form],
        key: u32,
    ) -> Result<Numbering<Seat>, NoMemory>
        ensures { IfOk result (λ seats. ListsEach same_seat (waits_for self.now.forms (shown_forms forms.now) key (waits self.now.waits)) seats) }
    {
        let mut found = Numbering::new(alloc);
        self.gather_asking(&mut found, alloc, forms)?;
        let naming = self.waits.by_key(alloc, key)?;
        gather(&mut found, alloc, &naming)?;
        once(&found);
        Ok(found)
    }

    // Notes the seats that wait for one of the forms.
    fn gather_asking(
        &self,
        found: &mut Numbering<Seat>,
        alloc: Global,
        forms: &[&Form],
    ) -> Result<(), NoMemory>
        ensures { OnOk result
            (NotesThose (λ s. list_any (λ form. asks_known self.now.forms (waits self.now.waits) s form.now) forms.now) found.old found.new) }
    {
        for form in forms {
            self.gather_form(found, alloc, form)?;
        }
        Ok(())
    }

    // Notes the seats that wait for the form.
    fn gather_form(
        &self,
        found: &mut Numbering<Seat>,
        alloc: Global,
        form: &Form,
    ) -> Result<(), NoMemory>
        ensures { OnOk result (NotesThose (λ s. asks_known self.now.forms (waits self.now.waits) s form.now) found.old found.new) }
    {
        let Some(number) = self.forms.number_of(form) else {
            return Ok(());
        };
        let seats = self.waits.by_form(alloc, number)?;
        gather(found, alloc, &seats)?;
        Ok(())
    }
}
