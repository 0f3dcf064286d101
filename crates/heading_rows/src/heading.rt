//! What a table of rows takes of an entry.
ghost use Rattle.std.specs.Prelude.{◌≡◌, IfOk};
ghost use Rattle.std.specs.Option.{option_copied, option_map};
ghost use Rattle.marc_types.specs.declared.key.Class.TheVariants.{Authority};
ghost use Rattle.catalogue_rules.specs.Settle.{arrival_of};
ghost use Rattle.heading_rows.specs.Listing.{change_of, row_in};
ghost use Rattle.heading_rows.specs.Rows.{browse_row};

use crate::shared_row::SharedRow;
use entry_record::{Preparation, Prepared};
use marc_types::{Class, Entry, Form, Key, NoMemory, Sequence, TryCopy};
use std::alloc::Global;
use std::marker::Model;
use std::snapshot::Snapshot;
use std::sync::Arc;

/// What an entry does to the authorities that are there.
#[derive(Drop)]
pub(crate) enum Change {
    Nothing,
    TakenAway,
    Kept(Option<SharedRow>),
}

/// The key of an entry, and what it does to the authority there. Contracts see it as the whole entry.
#[derive(Drop)]
pub(crate) struct KeyedChange {
    whole: Snapshot<Entry>,
    pub(crate) key: Key,
    pub(crate) change: Change,
}

impl Model for KeyedChange {
    ghost use Rattle.std.specs.Prelude.{◌≡◌};
    ghost use Rattle.marc_types.specs.declared.entry.Entry.{Entry};
    ghost use Rattle.catalogue_rules.specs.Settle.{arrival_of};
    ghost use Rattle.heading_rows.specs.Listing.{change_of};

    ghost Value = { Entry };

    ghost view = { λ h. h.whole.value };

    ghost invariant = { λ h. (h.key ≡ h.whole.value.key) × (h.change ≡ change_of (arrival_of h.whole.value)) };
}

/// The row of a form under a key, if there is a form.
fn row_of_form(alloc: Global, form: Option<&Form>, key: &Key) -> Result<Option<SharedRow>, NoMemory>
    ensures { IfOk result (λ row. row ≡ option_map (λ form. browse_row form key.now) (option_copied form.entry)) }
{
    match form {
        Some(form) => Ok(Some(SharedRow::of(alloc, form, key)?)),
        None => Ok(None),
    }
}

/// The row of an authority, if fields can be linked to it.
pub(crate) fn established_row(
    alloc: Global,
    preparation: &Preparation,
) -> Result<Option<SharedRow>, NoMemory>
    requires { preparation.now.class ≡ Authority }
    ensures { IfOk result (λ row. row ≡ row_in preparation.now.key preparation.now.rec.fields) }
{
    row_of_form(alloc, preparation.established(), preparation.key())
}

/// The same, of an entry that was prepared for a commit.
fn prepared_row(alloc: Global, item: &Prepared) -> Result<Option<SharedRow>, NoMemory>
    requires { item.now.class ≡ Authority }
    ensures { IfOk result (λ row. row ≡ row_in item.now.key item.now.rec.fields) }
{
    row_of_form(alloc, item.established(), &item.entry().key)
}

/// What an entry does to the authorities, of what was prepared of it.
#[tactic(auto, unfolding(crate::specs::Listing::change_of))]
fn change_of(alloc: Global, preparation: &Preparation) -> Result<Change, NoMemory>
    ensures { IfOk result (λ change. change ≡ change_of (arrival_of preparation.now)) }
{
    match preparation.class() {
        Class::Bibliographic => Ok(Change::Nothing),
        Class::Authority => {
            if preparation.is_deletion() {
                return Ok(Change::TakenAway);
            }
            Ok(Change::Kept(established_row(alloc, preparation)?))
        }
    }
}

/// The same, of an entry that was prepared for a commit.
#[tactic(auto, unfolding(crate::specs::Listing::change_of))]
fn change_by(alloc: Global, item: &Prepared) -> Result<Change, NoMemory>
    ensures { IfOk result (λ change. change ≡ change_of (arrival_of item.now)) }
{
    match item.entry().class {
        Class::Bibliographic => Ok(Change::Nothing),
        Class::Authority => {
            if item.is_deletion() {
                return Ok(Change::TakenAway);
            }
            Ok(Change::Kept(prepared_row(alloc, item)?))
        }
    }
}

/// What a table of rows takes of an entry. It stands once in memory, however many have it. Contracts see it as the whole entry.
#[derive(Drop)]
pub struct Heading {
    keyed: Arc<KeyedChange, Global>,
}

impl Model for Heading {
    ghost use Rattle.marc_types.specs.declared.entry.Entry.{Entry};

    ghost Value = { Entry };

    ghost view = { λ h. h.keyed.value };
}

/// What a table takes of entries in a row.
pub type Headings = Sequence<Heading>;

impl Heading {
    /// The heading of an entry that does this.
    fn of_change(alloc: Global, entry: &Entry, change: Change) -> Result<Heading, NoMemory>
        requires { change ≡ change_of (arrival_of entry.now) }
        ensures { IfOk result (λ heading. heading ≡ entry.now) }
    {
        let keyed = KeyedChange {
            whole: Snapshot::of(entry),
            key: entry.key.copy(alloc)?,
            change,
        };
        Ok(Heading {
            keyed: Arc::new(alloc, keyed)?,
        })
    }

    /// What a table takes of an entry that was prepared for a commit.
    pub fn of_prepared(alloc: Global, item: &Prepared) -> Result<Heading, NoMemory>
        ensures { IfOk result (λ heading. heading ≡ item.now) }
    {
        let change = change_by(alloc, item)?;
        Heading::of_change(alloc, item.entry(), change)
    }

    /// What a table takes of an entry.
    pub fn of_entry(alloc: Global, entry: &Entry) -> Result<Heading, NoMemory>
        ensures { IfOk result (λ heading. heading ≡ entry.now) }
    {
        let key = entry.key.copy(alloc)?;
        let rec = entry.rec.copy(alloc)?;
        let (_, preparation) = Preparation::of_record(alloc, entry.class, key, rec)?;
        let change = change_of(alloc, &preparation)?;
        Heading::of_change(alloc, entry, change)
    }

    /// The same, for one more owner. It takes no memory; there is a greatest number of owners.
    pub fn again(&self) -> Result<Heading, NoMemory>
        ensures { IfOk result (λ twin. twin ≡ self.now) }
    {
        Ok(Heading {
            keyed: Arc::try_clone(&self.keyed)?,
        })
    }

    pub(crate) fn keyed(&self) -> &KeyedChange
        ensures { result.now ≡ self.now }
    {
        &self.keyed
    }
}
