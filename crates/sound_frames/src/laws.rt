//! Laws of what is sound: each is the contract of a function that does nothing.
ghost use Rattle.std.specs.Prelude.{◌≡◌, ℕ, List};
ghost use Rattle.sound_frames.specs.Sound.{SoundPart, IsSoundOf, HasEntries};

/// What is sound of a log is one thing.
pub fn one_thing_is_sound_of_a_log()
    ensures { (log : List ℕ) (one other : SoundPart) → IsSoundOf log one → IsSoundOf log other → one ≡ other }
{}

/// What is sound of a log is the history of some journal.
pub fn what_is_sound_is_a_history()
    ensures { (log : List ℕ) (all : SoundPart) → IsSoundOf log all → HasEntries all.entries }
{}
