//! Laws of checkpoints: each is the contract of a function that does nothing.
ghost use Rattle.std.specs.Prelude.{◌≡◌, ◌≤◌, ℕ, true, List, [], ◌++◌, length, take, Some, is_some};
ghost use Rattle.marc_types.specs.declared.entry.Entry.{Entry};
ghost use Rattle.catalogue_rules.specs.State.{State};
ghost use Rattle.catalogue_rules.specs.Settle.{state_of};
ghost use Rattle.kept_rows.specs.declared.row.KeptRow.{KeptRow};
ghost use Rattle.checkpoint.specs.Format.{row_bytes};
ghost use Rattle.checkpoint.specs.Parts.{IsKeptRow, IsPartOf};
ghost use Rattle.checkpoint.specs.Points.{point_of, last_point, IsCheckpoint, HasCheckpoint};
ghost use Rattle.checkpoint.specs.Resuming.{resumed};
ghost use Rattle.checkpoint.specs.declared.part.Part.{Part};
ghost use Rattle.checkpoint.specs.declared.point.Point.{Point};

/// From the state behind a front of a history the entries behind that front lead to the state behind the whole.
#[tactic(auto, using(crate::proofs::Going::resumed_whole))]
pub fn a_history_goes_on_from_a_front()
    ensures { (history : List Entry) (taken : ℕ) (s : State) → s ≡ state_of (take taken history) → resumed s taken history ≡ state_of history }
{}

/// A payload is one part.
#[tactic(auto, using(crate::proofs::Sorts::part_once))]
pub fn a_payload_is_one_part()
    ensures { (payload : List ℕ) (one other : Part) → IsPartOf payload one → IsPartOf payload other → one ≡ other }
{}

/// A whole checkpoint is the last one of parts that end with it, whatever stands before it.
#[tactic(auto, using(crate::proofs::Wholes::whole_read))]
pub fn a_whole_checkpoint_is_the_last()
    ensures { (before parts : List Part) (entries : ℕ) (rows : List KeptRow) →
        IsCheckpoint entries rows parts → last_point (before ++ parts) ≡ Some (point_of entries rows) }
{}

/// A front of a checkpoint that isn't all of it leaves the last whole checkpoint as it was.
#[tactic(auto, using(crate::proofs::Wholes::half_counts_nothing))]
pub fn half_a_checkpoint_counts_for_nothing()
    ensures { (before front rest parts : List Part) (entries : ℕ) (rows : List KeptRow) →
        IsCheckpoint entries rows parts → parts ≡ front ++ rest → (rest ≡ [] → ⊥) → last_point (before ++ front) ≡ last_point before }
{}

/// The last whole checkpoint of parts stands among them, and where one stands among them, there is a last one.
#[tactic(auto, using(crate::proofs::Wholes::last_is_whole, crate::proofs::Wholes::whole_is_found))]
pub fn the_last_checkpoint_is_whole()
    ensures whole { (parts : List Part) (point : Point) → last_point parts ≡ Some point → HasCheckpoint parts point.entries point.rows }
    ensures found { (parts : List Part) (entries : ℕ) (rows : List KeptRow) → HasCheckpoint parts entries rows → is_some (last_point parts) ≡ true }
{}

/// A kept record has room in a journal's frame, with the byte before it.
#[tactic(auto, using(crate::proofs::Bounds::row_length))]
pub fn a_kept_record_fits_a_frame()
    ensures { (r : KeptRow) → IsKeptRow r → length (row_bytes r) ≤ 1474636 }
{}
