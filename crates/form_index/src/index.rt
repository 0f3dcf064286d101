ghost use Rattle.std.specs.Prelude.{◌≡◌, ℕ, ◌<◌, ◌==◌, true, [], List, length, if◌then◌else◌};
ghost use Rattle.std.specs.Prelude.{None, Some, IfSome, IfNone, OnOk, OnErr};
ghost use Rattle.std.specs.Option.{option_copied, option_map};
ghost use Rattle.form_index.specs.Index.{IsHeld, IsInOrder, Puts, PutsBack, TakesOut, let_go, no_index, row_under, rows_in, slot_at, taken};
ghost use Rattle.numbering.specs.Pages.{is_there};
ghost use Rattle.form_index.specs.Candidates.{IsAnswer};

use crate::among::{Among, By};
use crate::candidates::Candidates;
use crate::key_list::Step;
use crate::listings::Listings;
use crate::row::{FormRow, RowForms};
use marc_types::{Key, NoMemory};
use numbering::{Numbering, Pages};
use std::alloc::Global;
use std::marker::Model;
use std::mem;

/// Authorities by the forms of their headings, which is all in numbers: of keys and of forms.
///
/// The lists of key numbers stand in key order, so what changes them borrows the keys. Contracts see the rows by key number
/// and the lists; the order of the lists is `IsInOrder`, which stays while the keys' numbering grows.
#[derive(Drop)]
pub struct FormIndex {
    rows: Pages<Option<RowForms>>,
    lists: Listings,
}

impl Model for FormIndex {
    ghost use Rattle.std.specs.Prelude.{is_none};
    ghost use Rattle.numbering.specs.Pages.{is_there};
    ghost use Rattle.form_index.specs.Trimmed.{trimmed};
    ghost use Rattle.form_index.specs.Index.{Indexed, rows_in};
    ghost use Rattle.form_index.specs.Stands.{Stands};

    ghost Value = { Indexed };

    ghost view = { λ i. record { rows = trimmed is_none (rows_in i.rows); lists = i.lists } };

    ghost invariant = { λ i. Stands (rows_in i.rows) (is_there i.rows) i.lists };
}

impl FormIndex {
    /// An index without rows.
    pub fn new(alloc: Global) -> FormIndex
        ensures value { result ≡ no_index }
        ensures ordered { (keys : List Key) → IsInOrder keys result }
    {
        FormIndex {
            rows: Pages::new(alloc),
            lists: Listings::new(alloc),
        }
    }

    /// The row under a key's number.
    pub fn row(&self, number: u32) -> Option<&RowForms>
        ensures { option_copied result ≡ row_under number self.now }
    {
        slot(&self.rows, number)
    }

    /// The authorities that have the form as their heading, or, where there is none, those with a see-from form that is it.
    pub fn candidates(&self, form: u32, among: Among) -> Candidates<'_>
        ensures { IsAnswer among form self.now result }
    {
        let established = self.lists.live(among, By::Established, form);
        if !established.is_empty() {
            return Candidates::Established(established);
        }
        let see_from = self.lists.live(among, By::SeeFrom, form);
        if see_from.is_empty() {
            return Candidates::Nobody;
        }
        Candidates::SeeFrom(see_from)
    }

    /// Puts a row under the number of a key, which has none.
    pub fn put(
        &mut self,
        alloc: Global,
        keys: &Numbering<Key>,
        number: u32,
        forms: RowForms,
    ) -> Result<(), NoMemory>
        requires known { number < length keys.now }
        requires free { row_under number self.old ≡ None }
        requires ordered { IsInOrder keys.now self.old }
        ensures ok { OnOk result (Puts (taken number forms) self.old self.new) }
        ensures ordered { IsInOrder keys.now self.new }
        ensures err { OnErr result (self.new ≡ self.old) }
    {
        self.rows.reach(alloc, number)?;
        self.lists.hold(alloc, number, &forms)?;
        self.lists.step(Step::Enter, keys, number, &forms);
        set_slot(&mut self.rows, number, forms);
        Ok(())
    }

    /// Takes the row under a key's number out. The lists hold its places until it is put back or let go.
    pub fn take(&mut self, keys: &Numbering<Key>, number: u32) -> Option<FormRow>
        requires known { number < length keys.now }
        requires ordered { IsInOrder keys.now self.old }
        ensures row { result ≡ option_map (taken number) (row_under number self.old) }
        ensures some { IfSome result (λ row. TakesOut keys.now row self.old self.new) }
        ensures none { IfNone result (self.new ≡ self.old) }
        ensures ordered { IsInOrder keys.now self.new }
    {
        let Some(forms) = empty_slot(&mut self.rows, number) else {
            return None;
        };
        self.lists.step(Step::Withdraw, keys, number, &forms);
        Some(FormRow { number, forms })
    }

    /// Puts a row back that was taken out, where its key has no row. It takes no memory.
    pub fn put_back(&mut self, keys: &Numbering<Key>, row: FormRow)
        requires known { row.number < length keys.now }
        requires free { row_under row.number self.old ≡ None }
        requires held { IsHeld row self.old }
        requires ordered { IsInOrder keys.now self.old }
        ensures back { PutsBack keys.now row self.old self.new }
        ensures ordered { IsInOrder keys.now self.new }
    {
        let FormRow { number, forms } = row;
        self.lists.step(Step::Enter, keys, number, &forms);
        set_slot(&mut self.rows, number, forms);
    }

    /// Gives up the places that are held for a row. It takes no memory.
    pub fn let_go(&mut self, row: FormRow)
        ensures value { self.new ≡ let_go row self.old }
        ensures rows { (n : ℕ) → row_under n self.new ≡ row_under n self.old }
        ensures ordered { (keys : List Key) → IsInOrder keys self.old → IsInOrder keys self.new }
    {
        self.lists.release(row.number, &row.forms);
    }
}

fn slot(rows: &Pages<Option<RowForms>>, number: u32) -> Option<&RowForms>
    ensures { option_copied result ≡ slot_at (rows_in rows.now) number }
{
    match rows.get(number) {
        Some(slot) => slot.as_ref(),
        None => None,
    }
}

fn set_slot(rows: &mut Pages<Option<RowForms>>, number: u32, forms: RowForms)
    requires { is_there rows.old number ≡ true }
    ensures slots { (n : ℕ) → slot_at (rows_in rows.new) n ≡ (if n == number then Some forms else slot_at (rows_in rows.old) n) }
    ensures stays { (n : ℕ) → is_there rows.old n ≡ true → is_there rows.new n ≡ true }
{
    let _before = mem::replace(rows.row_mut(number), Some(forms));
}

fn empty_slot(rows: &mut Pages<Option<RowForms>>, number: u32) -> Option<RowForms>
    ensures row { result ≡ slot_at (rows_in rows.old) number }
    ensures slots { (n : ℕ) → slot_at (rows_in rows.new) n ≡ (if n == number then None else slot_at (rows_in rows.old) n) }
    ensures stays { (n : ℕ) → is_there rows.old n ≡ true → is_there rows.new n ≡ true }
{
    match rows.get_mut(number) {
        Some(slot) => slot.take(),
        None => None,
    }
}
