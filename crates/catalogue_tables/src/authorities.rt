//! Rows of the index, which come and go with authorities.
ghost use Rattle.std.specs.Prelude.{◌≡◌, ◌<◌, length, None, IfOk, IfSome, IfNone, OnErr, OnOk};
ghost use Rattle.std.specs.Option.{option_map};
ghost use Rattle.marc_types.specs.Order.{same_form};
ghost use Rattle.numbering.specs.Numbers.{Keeps};
ghost use Rattle.catalogue_tables.specs.Rows.{PutsAuthority};
ghost use Rattle.catalogue_tables.specs.Waiting.{AreNumbersOf};
ghost use Rattle.form_index.specs.Index.{IsHeld, IsInOrder, PutsBack, TakesOut, row_under, taken};

use crate::tables::CatalogueTables;
use form_index::{FormRow, RowForms};
use marc_types::{Form, Key, NoMemory};
use numbering::Numbering;
use std::alloc::Global;

#[tactic(auto, using(crate::proofs::Seams::keeps_then))]
// The numbers of forms, which get them if they had none.
fn numbers_of(
    forms: &mut Numbering<Form>,
    alloc: Global,
    things: &[Form],
) -> Result<Vec<u32>, NoMemory>
    ensures keeps { Keeps same_form forms.old forms.new }
    ensures ok { IfOk result (λ numbers. AreNumbersOf same_form forms.new things.now numbers.items) }
{
    let mut numbers = Vec::new(alloc);
    for thing in things {
        let number = forms.add(alloc, thing)?;
        numbers.push(number)?;
    }
    Ok(numbers)
}

impl CatalogueTables {
    ghost use Rattle.catalogue_tables.specs.Tables.{OnlyIndex, OnlyIndexAndForms};

    #[tactic(auto, using(crate::proofs::Seams::keeps_then))]
    /// Puts an authority under the number of its key, which has no row: its established form, its see-from forms, and whether its
    /// heading is bare. `NoMemory` leaves every row as it was.
    pub fn put_authority(
        &mut self,
        alloc: Global,
        keys: &Numbering<Key>,
        number: u32,
        established: &Form,
        see_from: &[Form],
        bare: bool,
    ) -> Result<(), NoMemory>
        requires known { number < length keys.now }
        requires free { row_under number self.old.index ≡ None }
        requires ordered { IsInOrder keys.now self.old.index }
        ensures only { OnlyIndexAndForms keys.now self.old self.new }
        ensures ok { OnOk result (PutsAuthority self.new.forms number established.now see_from.now bare self.old.index self.new.index) }
        ensures err { OnErr result (self.new.index ≡ self.old.index) }
    {
        let own = self.forms.add(alloc, established)?;
        let traced = numbers_of(&mut self.forms, alloc, see_from)?;
        let row = RowForms::new(own, traced, bare);
        self.index.put(alloc, keys, number, row)?;
        Ok(())
    }

    /// Takes the row of an authority out, if there is one. It may come back by `put_authority_back`, or be let go.
    pub fn take_authority(&mut self, keys: &Numbering<Key>, number: u32) -> Option<FormRow>
        requires known { number < length keys.now }
        requires ordered { IsInOrder keys.now self.old.index }
        ensures only { OnlyIndex keys.now self.old self.new }
        ensures row { result ≡ option_map (taken number) (row_under number self.old.index) }
        ensures some { IfSome result (λ row. TakesOut keys.now row self.old.index self.new.index) }
        ensures none { IfNone result (self.new.index ≡ self.old.index) }
    {
        self.index.take(keys, number)
    }

    /// Puts a row back that was taken. It takes no memory.
    pub fn put_authority_back(&mut self, keys: &Numbering<Key>, row: FormRow)
        requires known { row.number < length keys.now }
        requires free { row_under row.number self.old.index ≡ None }
        requires held { IsHeld row self.old.index }
        requires ordered { IsInOrder keys.now self.old.index }
        ensures only { OnlyIndex keys.now self.old self.new }
        ensures back { PutsBack keys.now row self.old.index self.new.index }
    {
        self.index.put_back(keys, row);
    }
}
