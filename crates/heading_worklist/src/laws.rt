//! Laws of worklists: each is the contract of a function that does nothing.
ghost use Rattle.std.specs.Prelude.{◌≡◌, ◌+◌, ℕ, List, length, map};
ghost use Rattle.csv.specs.Reading.{default_config, records, strip_bom};
ghost use Rattle.catalogue_rules.specs.State.{State};
ghost use Rattle.catalogue_rules.specs.Output.{count_all};
ghost use Rattle.catalogue_rules.specs.Receipt.{is_ambiguous, is_unlinked};
ghost use Rattle.heading_worklist.specs.Csv.{CsvLine, list_bytes, meant, shown, line_texts};
ghost use Rattle.heading_worklist.specs.Headings.{open_headings};

/// Whoever takes one apostrophe off in front of a cell has its text.
pub fn a_cell_shows_its_text()
    ensures { (text : List ℕ) → meant (shown text) ≡ text }
{}

/// A reader as the kit's `csv` defines it reads a list back, line by line and cell by cell.
pub fn a_reader_gives_the_cells_back()
    ensures { (lines : List CsvLine) → records default_config (strip_bom (list_bytes lines)) ≡ map (λ line. map shown (line_texts line)) lines }
{}

/// There are as many open headings as the report's totals count ambiguous and unlinked ones.
pub fn as_many_as_a_report_counts()
    ensures { (s : State) → length (open_headings s) ≡ count_all is_ambiguous s + count_all is_unlinked s }
{}
