//! Laws of checkpoints and the catalogues that begin with them: each is the contract of a function that does nothing.
ghost use Rattle.std.specs.Prelude.{ℕ, List, All, Option, IfSome};
ghost use Rattle.marc_types.specs.declared.entry.Entry.{Entry};
ghost use Rattle.entry_record.specs.History.{IsAdmitted};
ghost use Rattle.catalogue_rules.specs.State.{State};
ghost use Rattle.commit_journal.specs.declared.frame.Frame.{Frame};
ghost use Rattle.checkpoint.specs.Points.{IsPointOf};
ghost use Rattle.checkpoint.specs.declared.point.Point.{Point};
ghost use Rattle.restoring.specs.Resuming.{IsInOrder, IsOfFront, IsTakenUpBy};
ghost use Rattle.restoring.specs.Writing.{HasLast, HasNewLast, HasPoint};

/// The last whole checkpoint of a log is in order.
pub fn a_found_checkpoint_is_in_order()
    ensures { (frames : List Frame) (found : Option Point) → IsPointOf frames found → IfSome found IsInOrder }
{}

/// A checkpoint of a front of a history is taken up.
pub fn a_checkpoint_of_a_front_is_taken_up()
    ensures { (history : List Entry) (point : Point) → All IsAdmitted history → IsOfFront history point → IsTakenUpBy history point }
{}

/// Behind a log of checkpoints a whole checkpoint is the last one.
pub fn a_new_checkpoint_is_the_last()
    ensures { (entries : ℕ) (s : State) (last : Option Point) (log image : List ℕ) → HasLast last log → HasPoint entries s log image → HasNewLast entries s image }
{}
