//! Laws of the rows: each is the contract of a function that does nothing.
ghost use Rattle.std.specs.Prelude.{◌≡◌, List, length};
ghost use Rattle.marc_types.specs.declared.entry.Entry.{Entry};
ghost use Rattle.catalogue_rules.specs.Settle.{state_of};
ghost use Rattle.heading_rows.specs.Listing.{rows_of_listing, table_of};
ghost use Rattle.heading_rows.specs.Rows.{rows_of_state};

/// The table of any list of entries has the rows of the state behind that list, as a scan of all its authorities finds them, though
/// no catalogue was made.
#[tactic(auto, using(crate::proofs::Tables::rows_are_of_state))]
pub fn a_table_has_the_rows_of_the_state()
    ensures { (history : List Entry) → rows_of_listing (table_of history).listing ≡ rows_of_state (state_of history) }
{}

/// The table of a list counts its entries.
#[tactic(auto, using(crate::proofs::Tables::upto_is_length))]
pub fn a_table_counts_its_entries()
    ensures { (history : List Entry) → (table_of history).upto ≡ length history }
{}
