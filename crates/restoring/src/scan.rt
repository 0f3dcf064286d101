//! The scan of a store of kept records: whether each field rests among the authorities, by the records and the tables alone.
ghost use Rattle.std.specs.Prelude.{◌≡◌, ◌↔◌, All, IfOk, IsTrue, Some};
ghost use Rattle.catalogue_rules.specs.Receipt.{kept_under};
ghost use Rattle.catalogue_rules.specs.State.{linkable_authorities, rows_of};
ghost use Rattle.catalogue_rules.specs.Valid.{EachField, IsAscending};
ghost use Rattle.kept_rows.specs.Standing.{DoesRest};
ghost use Rattle.linking_laws.specs.Middle.{AreAuthoritiesInOrder};
ghost use Rattle.linked_store.specs.Linked.{IsNumber, record_at};
ghost use Rattle.numbered_store.specs.Kept.{kept_record};
ghost use Rattle.restoring.specs.Resting.{DoRowsRest};

use crate::resting::place_rests;
use linked_store::ReadableStore;
use marc_types::{Class, Key, NoMemory};
use numbered_store::StoredRecord;
use numbering::Seat;
use std::alloc::Global;

/// Whether each field of a state rests among its authorities.
pub(crate) fn each_field_rests(store: &ReadableStore, alloc: Global) -> Result<bool, NoMemory>
    requires ordered { AreAuthoritiesInOrder store.now.state }
    requires ascends { IsAscending store.now.state.bibliographic }
    ensures { IfOk result (λ told. IsTrue told
        ↔ EachField (DoesRest (linkable_authorities store.now.state)) store.now.state) }
{
    if !class_rests(store, alloc, Class::Authority)? {
        return Ok(false);
    }
    class_rests(store, alloc, Class::Bibliographic)
}

// Whether each field of the records of a class rests.
fn class_rests(store: &ReadableStore, alloc: Global, class: Class) -> Result<bool, NoMemory>
    requires ordered { AreAuthoritiesInOrder store.now.state }
    requires ascends { IsAscending (rows_of class store.now.state) }
    ensures { IfOk result (λ told. IsTrue told
        ↔ DoRowsRest (linkable_authorities store.now.state) class (rows_of class store.now.state)) }
{
    let rows = store.rows(alloc, class)?;
    for (key, kept) in rows {
        if !row_rests(store, alloc, class, key, kept)? {
            return Ok(false);
        }
    }
    Ok(true)
}

// Whether each field of the record that stands under a key rests.
fn row_rests(
    store: &ReadableStore,
    alloc: Global,
    class: Class,
    key: &Key,
    kept: &StoredRecord,
) -> Result<bool, NoMemory>
    requires ordered { AreAuthoritiesInOrder store.now.state }
    requires stands { kept_under class key.now store.now.state ≡ Some (kept_record kept.now) }
    ensures { IfOk result (λ told. IsTrue told
        ↔ All (DoesRest (linkable_authorities store.now.state) class) (kept_record kept.now).fields) }
{
    let linked = store.as_linked();
    linked.each_record_has_a_number();
    let number = linked.number_of(class, key).unwrap();
    record_rests(store, alloc, class, number, kept)
}

// Whether each field of the record under the key that has the number rests.
fn record_rests(
    store: &ReadableStore,
    alloc: Global,
    class: Class,
    number: u32,
    kept: &StoredRecord,
) -> Result<bool, NoMemory>
    requires ordered { AreAuthoritiesInOrder store.now.state }
    requires known { IsNumber class number store.now.keys }
    requires stands { record_at class number store.now ≡ Some (kept_record kept.now) }
    ensures { IfOk result (λ told. IsTrue told
        ↔ All (DoesRest (linkable_authorities store.now.state) class) (kept_record kept.now).fields) }
{
    let places = kept.field_count();
    for place in 0..places {
        let seat = Seat {
            class,
            number,
            field: place,
        };
        if !place_rests(store, alloc, seat, kept)? {
            return Ok(false);
        }
    }
    Ok(true)
}
