//! Rows put into an empty store: each record comes in as a new one behind those before it, and then gets its ties.
ghost use Rattle.std.specs.Prelude.{◌≡◌, ◌↔◌, ◌<◌, true, false, length, slice_get, All, IfOk, IsTrue, OnOk, Some};
ghost use Rattle.marc_types.specs.Fields.{tag_of};
ghost use Rattle.marc_types.specs.declared.field.Field.{Field};
ghost use Rattle.heading_fields.specs.Tables.{is_subdividable};
ghost use Rattle.entry_record.specs.Identity.{is_deletion};
ghost use Rattle.catalogue_rules.specs.State.{empty_state, kept_field, new_record, new_tie};
ghost use Rattle.catalogue_tables.specs.Seam.{HasKey};
ghost use Rattle.linked_store.specs.Linked.{IsAhead, IsNumber, key_of};
ghost use Rattle.kept_rows.specs.Rows.{are_in_order, row_of, state_of_rows};
ghost use Rattle.kept_rows.specs.Standing.{IsSoundRow};
ghost use Rattle.restoring.specs.Feeding.{IsLastKey, IsSwapped, IsThere, with_last};

use entry_record::Preparation;
use kept_rows::KeptRow;
use linked_store::LinkedStore;
use marc_types::{Class, Key, NoMemory, Tie};
use numbering::Seat;
use std::alloc::Global;
use written_record::WrittenRecord;

/// Puts kept rows into an empty store, one behind the other, each with its ties.
pub(crate) fn feed(
    alloc: Global,
    store: &mut LinkedStore,
    rows: Vec<KeptRow>,
) -> Result<(), NoMemory>
    requires empty { store.old.state ≡ empty_state }
    requires order { are_in_order rows.items ≡ true }
    requires sound { All (λ r. IsSoundRow r.class (row_of r)) rows.items }
    ensures { OnOk result (store.new.state ≡ state_of_rows rows.items) }
{
    for row in rows {
        put_row(alloc, store, row)?;
        store.keep();
    }
    Ok(())
}

/// Puts a row behind the others of its class.
fn put_row(alloc: Global, store: &mut LinkedStore, row: KeptRow) -> Result<(), NoMemory>
    requires last { IsLastKey row.class row.key store.old.state }
    requires sound { IsSoundRow row.class (row_of row) }
    ensures { OnOk result (store.new.state ≡ with_last row.class (row_of row) store.old.state) }
{
    let KeptRow {
        class,
        key,
        rec,
        ties,
    } = row;
    let number = put_record(alloc, store, class, key, &rec)?;
    let mut seat = Seat {
        class,
        number,
        field: 0,
    };
    for tie in ties.into_vec() {
        if !is_new(&tie) {
            put_tie(alloc, store, seat, &rec, tie)?;
        }
        seat.field += 1;
    }
    Ok(())
}

/// Puts a record behind the others of its class, as a new one; it has the number that is told.
fn put_record(
    alloc: Global,
    store: &mut LinkedStore,
    class: Class,
    key: Key,
    rec: &WrittenRecord,
) -> Result<u32, NoMemory>
    requires last { IsLastKey class key store.old.state }
    requires living { is_deletion rec.now.leader ≡ false }
    ensures number { IfOk result (λ number. IsNumber class number store.new.keys) }
    ensures key { IfOk result (λ number. key_of class number store.new.keys ≡ key) }
    ensures state { OnOk result
        (store.new.state ≡ with_last class (key, new_record rec.now.leader rec.now.fields) store.old.state) }
{
    rec.fits();
    let number = store.number(alloc, class, &key)?;
    let (rec, item) = Preparation::of_record(alloc, class, key, rec.to_record(alloc)?)?;
    store.place(alloc, number, rec, &item)?;
    Ok(number)
}

/// Whether a tie is that of a record that comes in.
pub(crate) fn is_new(tie: &Tie) -> bool
    ensures { IsTrue result ↔ (tie.now ≡ new_tie) }
{
    tie.key.is_none() && !tie.whole && tie.awaits.is_none()
}

/// Gives the field at a seat its tie. The field itself stays.
fn put_tie(
    alloc: Global,
    store: &mut LinkedStore,
    seat: Seat,
    rec: &WrittenRecord,
    tie: Tie,
) -> Result<(), NoMemory>
    requires known { HasKey store.old.keys seat }
    requires there { IsThere seat rec.now.leader rec.now.fields store.old }
    requires within { seat.field < length rec.now.fields }
    requires whole { (f : Field) → slice_get rec.now.fields seat.field ≡ Some f → tie.whole ≡ true
        → is_subdividable seat.class (tag_of f) ≡ true }
    ensures ok { (f : Field) → slice_get rec.now.fields seat.field ≡ Some f
        → OnOk result (IsSwapped seat (kept_field f tie) store.old store.new) }
    ensures ahead { OnOk result (IsAhead store.old store.new) }
{
    rec.fits();
    // a field stands there, since the seat is one of the record's
    let field = rec.field_at(alloc, seat.field)?.unwrap();
    store.exchange_field(alloc, seat, field, tie)
}
