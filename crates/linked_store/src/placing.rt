//! A record that comes into its place, with its rows in the tables.
ghost use Rattle.std.specs.Prelude.{◌≡◌, ◌≤◌, ◌++◌, length, IfOk, IsTrue, OnOk, OnErr};
ghost use Rattle.std.specs.Option.{option_map};
ghost use Rattle.marc_types.specs.Order.{same_key};
ghost use Rattle.numbering.specs.Numbers.{IsNumberOf};
ghost use Rattle.iso2709_record.specs.Written.{fits};
ghost use Rattle.catalogue_tables.specs.Seam.{keys_in};
ghost use Rattle.catalogue_rules.specs.Settle.{arrival_of};
ghost use Rattle.numbered_store.specs.Kept.{kept_record};
ghost use Rattle.linking_laws.specs.Commits.{placed_by};
ghost use Rattle.linking_laws.specs.Partway.{HasAtMost};
ghost use Rattle.linked_store.specs.Linked.{IsAhead, IsNumber, IsUnchanged, key_of};
ghost use Rattle.linked_store.specs.Placing.{AreRowsOf, IsRowAt, fields_brought, noted_rows, own_record, record_brought};
ghost use Rattle.linked_store.specs.Turns.{row_lent};
ghost use Rattle.linked_store.specs.Finding.{brought_at};

use crate::back::go_back;
use crate::lending::{LentForms, lent_forms};
use crate::own::OwnRecord;
use crate::seating::FieldRow;
use crate::store::LinkedStore;
use crate::turns::LentRow;
use crate::wanted::named;
use entry_record::Preparation;
use marc_types::{Class, Field, NoMemory, Record};
use numbered_store::{NEW_TIE, StoredRecord};
use std::alloc::Global;
use written_record::WrittenRecord;

impl LinkedStore {
    /// Puts an entry's record under its key, in place of the one that stood there; a deletion takes that away. The fields stand as
    /// they came, with no link. The keys that they name get numbers, also where memory ends; the record is gone then. The caller may
    /// look at what it placed.
    pub fn place(
        &mut self,
        alloc: Global,
        number: u32,
        rec: Record,
        item: &Preparation,
    ) -> Result<OwnRecord, NoMemory>
        requires own { rec ≡ item.now.rec }
        requires fit { IsTrue (fits item.now.rec.fields) }
        requires number { IsNumberOf same_key (keys_in item.now.class self.old.keys) item.now.key number }
        ensures ok { OnOk result (self.new.state ≡ placed_by item.now.class self.old.state item.now) }
        ensures own { IfOk result (λ own. own ≡ own_record item.now.class number) }
        ensures err { OnErr result (self.new.state ≡ self.old.state) }
        ensures ahead { IsAhead self.old self.new }
    {
        let rows = self.rows_for(alloc, brought(&rec, item), item)?;
        let kept = kept_of(alloc, rec, item)?;
        self.put(alloc, number, kept, rows, item)?;
        let class = item.class();
        Ok(OwnRecord { class, number })
    }

    // What the seats of the fields that the entry brings are to wait for.
    fn rows_for<'a>(
        &mut self,
        alloc: Global,
        fields: &[Field],
        item: &'a Preparation,
    ) -> Result<Vec<FieldRow<'a>>, NoMemory>
        requires { fields.now ≡ fields_brought (arrival_of item.now) }
        ensures unchanged { IsUnchanged self.old self.new }
        ensures rows { IfOk result (λ rows.
            AreRowsOf item.now.class self.new.keys.authorities (fields_brought (arrival_of item.now)) rows.items) }
    {
        let places = count_of(fields);
        let mut rows = Vec::new(alloc);
        for place in 0..places {
            let row = self.row_at(alloc, fields, item, place)?;
            note_row(&mut rows, place, row)?;
        }
        Ok(rows)
    }

    // How many fields the record under the key that has the number has.
    fn fields_under(&self, class: Class, number: u32) -> u32
        requires { IsNumber class number self.now.keys }
        ensures { HasAtMost class (key_of class number self.now.keys) result self.now.state }
    {
        match self.look(class, number) {
            Some(kept) => kept.field_count(),
            None => 0,
        }
    }

    // What the entry's field at a place is to wait for, if there is one: the forms that were made with the entry, and the keys that
    // the field names.
    fn row_at<'a>(
        &mut self,
        alloc: Global,
        fields: &[Field],
        item: &'a Preparation,
        place: u32,
    ) -> Result<Option<LentRow<'a>>, NoMemory>
        requires { fields.now ≡ fields_brought (arrival_of item.now) }
        ensures unchanged { IsUnchanged self.old self.new }
        ensures ok { IfOk result (λ row. IsRowAt item.now.class self.new.keys.authorities
            (brought_at (arrival_of item.now) place) (option_map row_lent row)) }
    {
        let Some(field) = fields.get(place as usize) else {
            return Ok(None);
        };
        let Some(LentForms { form, other }) = lent_forms(item, field, place) else {
            return Ok(None);
        };
        let named = named(alloc, field, &NEW_TIE)?;
        let keys = self.numbers(alloc, named.as_slice())?;
        Ok(Some(LentRow { form, other, keys }))
    }

    // Puts the record into its place with its rows, or leaves all as it was.
    fn put(
        &mut self,
        alloc: Global,
        number: u32,
        kept: Option<StoredRecord>,
        rows: Vec<FieldRow<'_>>,
        item: &Preparation,
    ) -> Result<(), NoMemory>
        requires number { IsNumberOf same_key (keys_in item.now.class self.old.keys) item.now.key number }
        requires kept { option_map kept_record kept ≡ record_brought (arrival_of item.now) }
        requires rows { AreRowsOf item.now.class self.old.keys.authorities (fields_brought (arrival_of item.now)) rows.items }
        ensures ok { OnOk result (self.new.state ≡ placed_by item.now.class self.old.state item.now) }
        ensures err { OnErr result (self.new.state ≡ self.old.state) }
        ensures ahead { IsAhead self.old self.new }
    {
        let fields = self.fields_under(item.class(), number);
        self.transaction.tables.each_form_has_one_number();
        let position = self.transaction.log.len();
        if let Err(error) = self
            .transaction
            .place(alloc, number, fields, kept, rows, item)
        {
            go_back(&mut self.transaction, position);
            return Err(error);
        }
        Ok(())
    }
}

// Notes the row of a field, if it has one.
fn note_row<'a>(
    rows: &mut Vec<FieldRow<'a>>,
    field: u32,
    row: Option<LentRow<'a>>,
) -> Result<(), NoMemory>
    ensures { OnOk result (rows.new.items ≡ rows.old.items ++ noted_rows field row.entry) }
{
    let Some(row) = row else {
        return Ok(());
    };
    rows.push(FieldRow { field, row })?;
    Ok(())
}

// How many fields a record has: there is room for 8331.
fn count_of(fields: &[Field]) -> u32
    requires { length fields.now ≤ 8331 }
    ensures { result ≡ length fields.now }
{
    fields.len() as u32
}

// The fields that an entry brings; a deletion brings none.
fn brought<'r>(rec: &'r Record, item: &Preparation) -> &'r [Field]
    requires { rec.now ≡ item.now.rec }
    ensures { result.now ≡ fields_brought (arrival_of item.now) }
{
    if item.is_deletion() {
        return &[];
    }
    rec.fields.as_slice()
}

// The record that an entry brings, as it is kept; a deletion brings none.
fn kept_of(alloc: Global, rec: Record, item: &Preparation) -> Result<Option<StoredRecord>, NoMemory>
    requires own { rec ≡ item.now.rec }
    requires fit { IsTrue (fits item.now.rec.fields) }
    ensures { IfOk result (λ kept. option_map kept_record kept ≡ record_brought (arrival_of item.now)) }
{
    if item.is_deletion() {
        return Ok(None);
    }
    let written = WrittenRecord::of(alloc, &rec)?;
    Ok(Some(StoredRecord::new(written)))
}
