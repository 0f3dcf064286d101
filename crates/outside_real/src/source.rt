ghost use Rattle.std.specs.Prelude.{◌≡◌, ◌+◌, ◌<◌, ◌≤◌, length, take, None, IfOk, OnErr};
ghost use Rattle.std.specs.Io.{ReadsAtMost};
ghost use Rattle.std.specs.Io.KnownBytes.{Consumes, IsAtEnd};
ghost use Rattle.outside.specs.Fault.{HasCause, counted};

use crate::cause::Cause;
use crate::count::raised;
use outside::{Failed, Source};
use std::io;
use std::io::Read;

/// The longest input: one gibibyte.
pub const LONGEST_INPUT: u64 = 1_073_741_824;

/// The longest input of a command that takes the limits of a large catalogue: one tebibyte.
pub const LONGEST_LARGE_INPUT: u64 = 1_099_511_627_776;

/// A file that is read, or any other reader, up to a most of bytes. A further byte is a fault.
#[derive(Drop)]
pub struct FileSource<F: Read> {
    file: F,
    longest: u64,
    remaining: u64,
    faults: u64,
    cause: Option<Cause>,
}

impl<F: Read> FileSource<F> {
    /// A source of at most so many bytes, [`LONGEST_INPUT`] or [`LONGEST_LARGE_INPUT`].
    pub fn new(file: F, longest: u64) -> Self
        ensures fresh { ⟦<FileSource<F> as Source>⟧.faults result ≡ 0 }
        ensures bound { ⟦<FileSource<F> as Source>⟧.bound result ≡ longest }
        ensures file { result.file ≡ file }
    {
        FileSource {
            file,
            longest,
            remaining: longest,
            faults: 0,
            cause: None,
        }
    }

    /// How many calls failed.
    pub fn faults(&self) -> u64
        ensures { result ≡ ⟦<FileSource<F> as Source>⟧.faults self.now }
    {
        self.faults
    }

    /// Why the last call that failed did.
    pub fn cause(&self) -> Option<Cause> {
        self.cause
    }
}

impl<F: Read> Source for FileSource<F> {
    ghost left = { λ _. None };

    ghost bound = { λ s. s.remaining };

    ghost faults = { λ s. s.faults };

    ghost left_within_bound = { λ _. tt };

    fn remaining(&self) -> u64 {
        self.remaining
    }

    fn read(&mut self, buf: &mut [u8]) -> Result<usize, Failed>
        requires { 0 < length buf.old }
        ensures at_most { ReadsAtMost result buf.new }
        ensures cause { HasCause self.old.faults self.new.faults result }

        // It gives the file's next bytes, and the end only where the file ends. A fault counts once.
        ensures bytes { IfOk result (λ n. Consumes (F.remaining self.old.file) (F.remaining self.new.file) (take n buf.new)) }
        ensures end { IfOk result (λ n. n ≡ 0 → IsAtEnd (F.remaining self.new.file)) }
        ensures falls { IfOk result (λ n. self.new.remaining + n ≡ self.old.remaining) }
        ensures failed { OnErr result (self.new.remaining ≡ self.old.remaining) }
        ensures counts { self.new.faults ≡ counted result self.old.faults }
    {
        // At the limit one byte is asked for, to tell the end from a longer input.
        let most = self.remaining.clamp(1, buf.len() as u64) as usize;
        match self.file.read(&mut buf[..most]) {
            Ok(count) if count as u64 <= self.remaining => {
                self.remaining -= count as u64;
                Ok(count)
            }
            answer => {
                self.cause = Some(cause_of(&answer, self.longest));
                self.faults = raised(self.faults);
                Err(Failed)
            }
        }
    }
}

// A read that gives bytes is a fault only behind the longest input.
fn cause_of(answer: &io::Result<usize>, longest: u64) -> Cause {
    match answer {
        Ok(_) if longest > LONGEST_INPUT => Cause::LongerThanTebibyte,
        Ok(_) => Cause::LongerThanGibibyte,
        Err(error) => Cause::of(error),
    }
}
