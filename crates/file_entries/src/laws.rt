//! Laws of a file's items: each is the contract of a function that does nothing.
ghost use Rattle.std.specs.Prelude.{◌≡◌, ℕ, List};
ghost use Rattle.marc_types.specs.declared.entry.Entry.{Entry};
ghost use Rattle.marc_stream.specs.Pieces.{Item};
ghost use Rattle.file_entries.specs.Files.{IsJudged};
ghost use Rattle.file_entries.specs.Judgement.{HasJudgement};
ghost use Rattle.file_entries.specs.declared.refused.RefusedItem.{RefusedItem};

use marc_types::Text;

/// The items of a file of a library are judged in one way: they have one list of accepted entries, and one of refused items.
/// This is a law for proofs; the call does nothing.
#[tactic(auto, using(crate::proofs::Once::entries_once, crate::proofs::Once::refused_once))]
pub fn items_are_judged_once(library: &Text)
    ensures accepted { (loader : ℕ) (items : List Item) (one other : List Entry) (refused again : List RefusedItem) →
        IsJudged library.now loader items one refused → IsJudged library.now loader items other again → one ≡ other }
    ensures refused { (loader : ℕ) (items : List Item) (one other : List Entry) (refused again : List RefusedItem) →
        IsJudged library.now loader items one refused → IsJudged library.now loader items other again → refused ≡ again }
{}

/// Every file has a judgement: whatever its items are, they have a list of accepted entries and one of refused items. This is
/// a law for proofs; the call does nothing.
#[tactic(auto, using(crate::proofs::Every::every_judged))]
pub fn every_file_is_judged(library: &Text)
    ensures { (loader : ℕ) (items : List Item) → HasJudgement library.now loader items }
{}
