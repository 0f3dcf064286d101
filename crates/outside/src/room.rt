ghost use Rattle.std.specs.Prelude.{◌≡◌, ℕ, ◌<◌, ◌≤◌, max, length, List, [], Option, true, false, Some, None, IsSome, is_some, IsErr, IfOk, OnOk, OnErr, ◌∷◌};
ghost use Rattle.outside.specs.Fault.{HasCause, count_sum};
ghost use Rattle.outside.specs.Disk.{SameDisk};
ghost use Rattle.outside.specs.Room.{RoomView, AsOutput, AsLog, bytes_or_none, SameBut, IsUntouched, IsPut, IsPutOrNot, IsPromiseKept};

use crate::{Disk, Failed, Sink, Source};

/// Files by name. Each object that a room opens is given back to it by a close of its sort; an output may be given up in its place.
pub trait Room {
    /// What an input is read by.
    type In: Source + Send;

    /// What an output is written to.
    type Out: Sink;

    /// What a log is read and written by.
    type Log: Disk + Send;

    // What a room is, for the clauses: its limits, files, closed logs, open names, counts of faults, how far outputs came that failed, what
    // closed inputs had left, and what it promises.
    ghost seen: { Self → RoomView };

    /// Whether commands over it take the limits of a large catalogue.
    fn is_large(&self) -> bool
        ensures { result ≡ (seen self.now).is_large };

    /// Whether there is a file of that name. Where that can't be known, there is one.
    fn is_there(&self, name: &str) -> bool
        ensures { (seen self.now).tells ≡ true → result ≡ is_some ((seen self.now).file name.now) };

    /// Opens the file of that name to be read. It fails where there is no such file.
    fn open_in(&mut self, name: &str) -> Result<Self::In, Failed>
        requires { (seen self.old).open_as name.now ≡ None }
        ensures stays { SameBut (seen self.old) (seen self.new) [] }
        ensures lefts { (seen self.new).lefts ≡ (seen self.old).lefts }
        ensures cause { HasCause ((seen self.old).in_faults name.now) ((seen self.new).in_faults name.now) result }

        // The object has no fault yet, and gives the file's bytes.
        ensures fresh { IfOk result (λ object. Self.In.faults object ≡ 0) }
        ensures there { OnOk result ((seen self.old).tells ≡ true → IsSome ((seen self.old).file name.now)) }
        ensures bytes { IfOk result (λ object.
            (seen self.old).tells ≡ true → Self.In.left object ≡ (seen self.old).file name.now) };

    /// Begins an output of that name, which is open until it is closed or given up. Until then the file of that name stays as it is.
    fn open_out(&mut self, name: &str) -> Result<Self::Out, Failed>
        requires { (seen self.old).open_as name.now ≡ None }
        ensures apart { SameBut (seen self.old) (seen self.new) (name.now ∷ []) }
        ensures untouched { IsUntouched (seen self.old) (seen self.new) name.now }
        ensures failed_at { (seen self.new).failed_at name.now ≡ (seen self.old).failed_at name.now }
        ensures lefts { (seen self.new).lefts ≡ (seen self.old).lefts }
        ensures opened { OnOk result ((seen self.new).open_as name.now ≡ Some AsOutput) }
        ensures failed { OnErr result (SameBut (seen self.old) (seen self.new) []) }
        ensures cause { HasCause ((seen self.old).out_faults name.now) ((seen self.new).out_faults name.now) result }

        // The object has no fault yet, and nothing is written to it.
        ensures fresh { IfOk result (λ object. Self.Out.faults object ≡ 0) }
        ensures empty { IfOk result (λ object.
            (seen self.old).tells ≡ true → Self.Out.written object ≡ Some []) };

    /// Opens the file of that name as a log, which is open until it is closed: a disk with the file's bytes, an empty one
    /// where there is no such file. It fails where the file is longer than a disk can be.
    fn open_log(&mut self, name: &str) -> Result<Self::Log, Failed>
        requires { (seen self.old).open_as name.now ≡ None }
        ensures apart { SameBut (seen self.old) (seen self.new) (name.now ∷ []) }
        ensures lefts { (seen self.new).lefts ≡ (seen self.old).lefts }
        ensures opened { OnOk result ((seen self.new).open_as name.now ≡ Some AsLog) }
        ensures failed { OnErr result (SameBut (seen self.old) (seen self.new) []) }
        ensures cause { HasCause ((seen self.old).log_faults name.now) ((seen self.new).log_faults name.now) result }

        // The object has no fault yet, its time begins, and it has the file's bytes.
        ensures fresh { IfOk result (λ object. (Self.Log.seen object).faults ≡ 0) }
        ensures beginning { IfOk result (λ object. (Self.Log.seen object).moment ≡ 0) }
        ensures bytes { IfOk result (λ object. (seen self.old).tells ≡ true →
            (Self.Log.seen object).content ≡ Some (bytes_or_none ((seen self.old).file name.now))) };

    /// Takes an input back, and adds its faults to the count of that name's inputs.
    fn close_in(&mut self, name: &str, object: Self::In)
        ensures stays { SameBut (seen self.old) (seen self.new) [] }
        ensures left { (seen self.new).lefts ≡ Self.In.left object ∷ (seen self.old).lefts }
        ensures counted { (seen self.new).in_faults name.now
            ≡ count_sum ((seen self.old).in_faults name.now) (Self.In.faults object) };

    /// Takes an output back, puts it in the place of the file of that name, and adds its faults to the count of that name's outputs. It is put
    /// there whole or not at all: one that had a fault isn't.
    fn close_out(&mut self, name: &str, object: Self::Out) -> Result<(), Failed>
        requires { (seen self.old).open_as name.now ≡ Some AsOutput }
        ensures apart { SameBut (seen self.old) (seen self.new) (name.now ∷ []) }
        ensures lefts { (seen self.new).lefts ≡ (seen self.old).lefts }
        ensures closed { (seen self.new).open_as name.now ≡ None }

        // The file has all that was written. Where the call fails, it is as it was, or has that too.
        ensures put { OnOk result (IsPut (seen self.old) (seen self.new) name.now (Self.Out.written object)) }
        ensures put_or_not { OnErr result (IsPutOrNot (seen self.old) (seen self.new) name.now (Self.Out.written object)) }
        ensures refused { 0 < Self.Out.faults object → IsErr result }
        ensures untouched { 0 < Self.Out.faults object → IsUntouched (seen self.old) (seen self.new) name.now }

        // It fails only where the count rose above the sum, which is the count where it doesn't fail.
        ensures counted { OnOk result ((seen self.new).out_faults name.now
            ≡ count_sum ((seen self.old).out_faults name.now) (Self.Out.faults object)) }
        ensures cause { HasCause (count_sum ((seen self.old).out_faults name.now) (Self.Out.faults object))
            ((seen self.new).out_faults name.now) result }
        ensures failed_at { (seen self.new).failed_at name.now
            ≤ max ((seen self.old).failed_at name.now) (length (bytes_or_none (Self.Out.written object))) };

    /// Takes an output back that is given up, and adds its faults to the count of that name's outputs. The file of that name is as it was when
    /// the output was begun.
    fn give_up_out(&mut self, name: &str, object: Self::Out)
        requires { (seen self.old).open_as name.now ≡ Some AsOutput }
        ensures apart { SameBut (seen self.old) (seen self.new) (name.now ∷ []) }
        ensures untouched { IsUntouched (seen self.old) (seen self.new) name.now }
        ensures lefts { (seen self.new).lefts ≡ (seen self.old).lefts }
        ensures closed { (seen self.new).open_as name.now ≡ None }
        ensures counted { (seen self.new).out_faults name.now
            ≡ count_sum ((seen self.old).out_faults name.now) (Self.Out.faults object) }
        ensures failed_at { (seen self.new).failed_at name.now
            ≤ max ((seen self.old).failed_at name.now) (length (bytes_or_none (Self.Out.written object))) };

    /// Takes a log back as the file of that name, which is a closed log with the moments of the object, and adds its faults
    /// to the count of that name's logs.
    fn close_log(&mut self, name: &str, object: Self::Log)
        requires { (seen self.old).open_as name.now ≡ Some AsLog }
        ensures apart { SameBut (seen self.old) (seen self.new) (name.now ∷ []) }
        ensures lefts { (seen self.new).lefts ≡ (seen self.old).lefts }
        ensures closed { (seen self.new).open_as name.now ≡ None }
        ensures bytes { (seen self.old).tells ≡ true → (seen self.new).file name.now ≡ (Self.Log.seen object).content }
        ensures log { (seen self.old).tells ≡ true → (seen self.new).has_log name.now ≡ true }
        ensures moments { (seen self.old).tells ≡ true → SameDisk (Self.Log.seen object) ((seen self.new).log name.now) }
        ensures counted { (seen self.new).log_faults name.now
            ≡ count_sum ((seen self.old).log_faults name.now) (Self.Log.seen object).faults };

    // A name that is open as a log has no told file, and no closed log.
    ghost open_untold: { (room : Self) (name : List ℕ) → (seen room).open_as name ≡ Some AsLog → (seen room).file name ≡ None };

    ghost open_unlogged: { (room : Self) (name : List ℕ) → (seen room).open_as name ≡ Some AsLog → (seen room).has_log name ≡ false };

    // What it promises holds.
    ghost promised: { (room : Self) (name : List ℕ) → IsPromiseKept (seen room) name ((seen room).promise name) };
}
