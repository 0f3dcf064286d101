//! Laws of the match report: each is the contract of a function that does nothing.
ghost use Rattle.std.specs.Prelude.{◌≡◌, List};
ghost use Rattle.marc_types.specs.declared.entry.Entry.{Entry};
ghost use Rattle.catalogue_rules.specs.Settle.{state_of};
ghost use Rattle.match_report.specs.Groups.{lines_of, matches_of};
ghost use Rattle.match_report.specs.Matches.{match_report_of, numbered_rows, table_after};

/// After the entries of any history the table has the numbers of the records that the catalogue then keeps, as a scan of them all
/// finds them, though it made no catalogue.
#[tactic(auto, using(crate::proofs::Tables::table_is_of_state))]
pub fn a_table_has_the_numbers_of_the_kept_records()
    ensures { (history : List Entry) → table_after history ≡ numbered_rows (state_of history) }
{}

/// So the lines of its groups are the match report of that state.
#[tactic(auto, using(crate::proofs::Tables::lines_are_of_state))]
pub fn a_table_makes_the_match_report()
    ensures { (history : List Entry) → lines_of (matches_of (table_after history)) ≡ match_report_of (state_of history) }
{}
