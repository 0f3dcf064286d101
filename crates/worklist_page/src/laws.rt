//! Laws of the page: each is the contract of a function that does nothing.
ghost use Rattle.std.specs.Prelude.{◌≡◌, ℕ, List, false};
ghost use Rattle.std.specs.List.{list_any};
ghost use Rattle.catalogue_rules.specs.State.{State};
ghost use Rattle.catalogue_rules.specs.Output.{count_all};
ghost use Rattle.catalogue_rules.specs.Receipt.{is_ambiguous, is_linked, is_unlinked};
ghost use Rattle.worklist_page.specs.Figures.{figures_of};
ghost use Rattle.worklist_page.specs.Pieces.{Piece, own_tags, page_bytes};
ghost use Rattle.worklist_page.specs.Reading.{shown_text, tags_in, text_in};
ghost use Rattle.worklist_page.specs.Texts.{html_text, is_control, is_markup};

/// A text within a page has no byte that could begin or end a tag, or end a value.
pub fn a_text_has_no_markup()
    ensures { (text : List ℕ) → list_any is_markup (html_text text) ≡ false }
{}

/// A reader finds the text, with its control characters replaced.
pub fn a_reader_finds_the_text()
    ensures { (text : List ℕ) → text_in (html_text text) ≡ shown_text text }
{}

/// A text without control characters is shown as it is.
pub fn a_plain_text_is_shown()
    ensures { (text : List ℕ) → list_any is_control text ≡ false → shown_text text ≡ text }
{}

/// A reader finds in a page the tags that it has of its own and no others, whatever its texts and values are.
pub fn a_page_has_its_own_tags()
    ensures { (pieces : List Piece) → tags_in (page_bytes pieces) ≡ own_tags pieces }
{}

/// The totals of the figures are the numbers in the last line of the report.
pub fn the_totals_are_those_of_the_report()
    ensures linked { (s : State) → (figures_of s).totals.linked ≡ count_all is_linked s }
    ensures ambiguous { (s : State) → (figures_of s).totals.ambiguous ≡ count_all is_ambiguous s }
    ensures unlinked { (s : State) → (figures_of s).totals.unlinked ≡ count_all is_unlinked s }
{}
