//! The tables of established headings of a catalogue, made of the authorities that stand there.
ghost use Rattle.std.specs.Prelude.{◌≡◌, [], IfOk, OnOk};
ghost use Rattle.std.specs.BTreeMap.{insert_entry};
ghost use Rattle.marc_types.specs.Order.{key_cmp};
ghost use Rattle.marc_types.specs.declared.key.Class.TheVariants.{Authority};
ghost use Rattle.catalogue_rules.specs.State.{fields_of};
ghost use Rattle.heading_rows.specs.Listing.{row_in, table_of};
ghost use Rattle.numbered_store.specs.Kept.{kept_record};

use catalogue_core::Catalogue;
use entry_record::Preparation;
use heading_rows::Table;
use marc_types::{Class, Key, NoMemory, RecordFault, TryCopy};
use numbered_store::StoredRecord;
use reading::read_record;
use std::alloc::Global;

/// What a table takes of an authority that stands under its key.
#[tactic(auto, using(crate::proofs::Stands::read_again, crate::proofs::Stands::never_refused))]
fn standing(alloc: Global, key: &Key, kept: &StoredRecord) -> Result<Preparation, NoMemory>
    ensures class { IfOk result (λ standing. standing.class ≡ Authority) }
    ensures key { IfOk result (λ standing. standing.key ≡ key.now) }
    ensures fields { IfOk result (λ standing. standing.rec.fields ≡ fields_of (kept_record kept.now)) }
{
    kept.each_text_is_utf8();
    let rec = match read_record(alloc, kept.as_bytes()) {
        Ok(rec) => rec,
        Err(RecordFault::NoMemory) => return Err(NoMemory),
        // what was written of a record is read as that record
        Err(RecordFault::Refused(_)) => unreachable!(),
    };
    let (_, standing) = Preparation::of_record(alloc, Class::Authority, key.copy(alloc)?, rec)?;
    Ok(standing)
}

/// An authority that stands comes into both tables, at its key's place.
fn keep_standing(
    alloc: Global,
    tables: &mut (Table, Table),
    key: &Key,
    kept: &StoredRecord,
) -> Result<(), NoMemory>
    ensures first { OnOk result (tables.new.0.listing ≡
        insert_entry key_cmp tables.old.0.listing key.now (row_in key.now (fields_of (kept_record kept.now)))) }
    ensures second { OnOk result (tables.new.1.listing ≡
        insert_entry key_cmp tables.old.1.listing key.now (row_in key.now (fields_of (kept_record kept.now)))) }
{
    let standing = standing(alloc, key, kept)?;
    tables.0.keep(alloc, &standing)?;
    tables.1.keep(alloc, &standing)
}

/// Two tables of a catalogue's history.
pub fn standing_tables(alloc: Global, core: &Catalogue) -> Result<(Table, Table), NoMemory>
    requires { core.now.staged ≡ [] }
    ensures { IfOk result (λ tables. (tables.0 ≡ table_of core.now.history) × (tables.1 ≡ table_of core.now.history)) }
{
    core.engine().stays_valid();
    let rows = core.engine().rows(alloc, Class::Authority)?;
    let mut tables = (Table::new(alloc), Table::new(alloc));
    for (key, kept) in &rows {
        keep_standing(alloc, &mut tables, key, kept)?;
    }
    let count = core.history_len();
    let (first, second) = tables;
    Ok((first.behind(count), second.behind(count)))
}
