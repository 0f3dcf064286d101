//! Laws of a linked store, and for those who put records in: each is the contract of a function that does nothing.
ghost use Rattle.marc_types.specs.declared.entry.Entry.{Entry};
ghost use Rattle.entry_record.specs.History.{IsAdmitted};
ghost use Rattle.catalogue_rules.specs.State.{State};
ghost use Rattle.linking_laws.specs.Commits.{placed_by};
ghost use Rattle.linking_laws.specs.Middle.{AreAuthoritiesInOrder};
ghost use Rattle.linked_store.specs.Agreement.{TablesAgree};

use crate::store::LinkedStore;
use catalogue_tables::CatalogueTables;
use std::snapshot::Snapshot;

/// The tables of a store agree with its records, at every moment that a caller sees. They are given for contracts alone.
pub fn tables_agree(store: &LinkedStore) -> Snapshot<CatalogueTables>
    ensures { TablesAgree result.value store.now }
{
    Snapshot::of(&store.transaction.tables)
}

/// With an admitted entry's record in its place the authorities stand in key order under proper keys, where they did before.
pub fn placing_keeps_authorities_in_order()
    ensures { (s : State) (e : Entry) → IsAdmitted e → AreAuthoritiesInOrder s → AreAuthoritiesInOrder (placed_by e.class s e) }
{}
