//! Laws of a file's items: each is the contract of a function that does nothing.
ghost use Rattle.std.specs.Prelude.{List};
ghost use Rattle.marc_stream.specs.Pieces.{Item};
ghost use Rattle.file_holdings.specs.Judgement.{HaveHoldings, AreJudgedOnce};

use marc_types::Text;

/// The items of a file of a library are judged in one way: they have one list of accepted holdings, and one of refused items.
/// This is a law for proofs; the call does nothing.
#[tactic(auto, using(crate::proofs::Once::judged_once))]
pub fn items_are_judged_once(library: &Text)
    ensures { (items : List Item) → AreJudgedOnce library.now items }
{}

/// Every file has a judgement: whatever its items are, they have a list of accepted holdings and one of refused items. This is
/// a law for proofs; the call does nothing.
#[tactic(auto, using(crate::proofs::Every::every_judged))]
pub fn every_file_is_judged(library: &Text)
    ensures { (items : List Item) → HaveHoldings library.now items }
{}
