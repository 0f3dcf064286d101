ghost use Rattle.std.specs.Prelude.{◌≤◌, length, IfOk, OnOk, ⊤};

use crate::cause::Cause;
use crate::draft::Draft;
use crate::heard::Heard;
use crate::opening::synced;
use crate::tally::Tally;
use std::fs::File;
use std::io;
use std::io::Write;
use std::rt::Files;
use std::time::Clock;

/// What can be asked to keep what was written to it over a crash.
pub trait Keep {
    // It keeps all that was written to it, as far as it can.
    ghost keeps: { Self → Type 0 };

    /// Has the system keep what was written. Some systems tell only then that they couldn't.
    fn keep(&self) -> Result<(), Cause>
        ensures { OnOk result (keeps self.now) };
}

/// Where an output goes: a new file that is to replace another, a file that is written straight, or what the runtime prints to, which can be
/// heard.
#[derive(Drop)]
pub enum Target<R> {
    Draft(Draft, Tally<R>),
    File(File, Tally<R>),
    Console(R, Option<Heard>),
}

impl<R> Target<R> {
    /// Puts a draft in its place.
    pub fn put<F: Files>(&mut self, files: &F) -> Result<(), Cause> {
        match self {
            Target::Draft(draft, _) => draft.put(files),
            Target::File(_, _) | Target::Console(_, _) => Ok(()),
        }
    }

    /// Removes a draft that isn't in its place. What was written straight stays.
    pub fn give_up<F: Files>(&self, files: &F) -> Result<(), Cause> {
        match self {
            Target::Draft(draft, _) => draft.give_up(files),
            Target::File(_, _) | Target::Console(_, _) => Ok(()),
        }
    }

    /// What was counted of it; nothing of the console.
    pub fn tally(&self) -> Option<&Tally<R>> {
        match self {
            Target::Draft(_, tally) | Target::File(_, tally) => Some(tally),
            Target::Console(_, _) => None,
        }
    }

    /// What was heard of the console.
    pub fn heard(&self) -> Option<&Heard> {
        match self {
            Target::Console(_, heard) => heard.as_ref(),
            Target::Draft(_, _) | Target::File(_, _) => None,
        }
    }

    /// The new file, where there is one.
    pub fn draft(&self) -> Option<&File> {
        match self {
            Target::Draft(draft, _) => Some(&draft.file),
            Target::File(_, _) | Target::Console(_, _) => None,
        }
    }
}

impl<R> Keep for Target<R> {
    // What the system does isn't known.
    ghost keeps = { λ _. ⊤ };

    fn keep(&self) -> Result<(), Cause> {
        match self {
            Target::Draft(draft, _) => draft.keep(),
            Target::File(file, _) => synced(file),
            Target::Console(_, _) => Ok(()),
        }
    }
}

impl<R: Print + Eprint + Clock> Write for Target<R> {
    fn write(&mut self, buf: &[u8]) -> io::Result<usize> {
        match self {
            Target::Draft(draft, tally) => {
                let answer = draft.file.write(buf);
                tally.count(&answer, buf);
                answer
            }
            Target::File(file, tally) => {
                let answer = file.write(buf);
                tally.count(&answer, buf);
                answer
            }
            Target::Console(rt, heard) => {
                let answer = rt.write_some(buf);
                if let Some(heard) = heard {
                    heard.hear(&answer, buf);
                }
                answer
            }
        }
    }

    fn flush(&mut self) -> io::Result<()> {
        match self {
            Target::Draft(draft, _) => draft.file.flush(),
            Target::File(file, _) => file.flush(),
            Target::Console(_, _) => Ok(()),
        }
    }
}
