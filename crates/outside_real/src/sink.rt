ghost use Rattle.std.specs.Prelude.{◌≡◌, ◌≤◌, ◌<◌, ◌++◌, [], None, is_ok, IsErr, OnOk};
ghost use Rattle.std.specs.Io.KnownBytes.{append_known, Appends};
ghost use Rattle.outside.specs.Fault.{HasCause, counted};
ghost use Rattle.outside.specs.Sink.{WritesFront};
ghost use Rattle.outside_real.specs.Gathering.{GathersNothing};

use crate::cause::Cause;
use crate::count::raised;
use crate::heard::Heard;
use crate::tally::Tally;
use crate::target::{Keep, Target};
use crate::writing::{pass_on, write_whole};
use outside::{Failed, Sink};
use std::alloc::Global;
use std::fs::File;
use std::io::Write;
use std::rt::Files;
use std::time::Clock;

/// How many bytes a file's sink gathers before it writes them.
const BUFFER: usize = 131_072;

/// A file that is written, or any other writer. What goes to a file is gathered into large writes; a console's sink hands each
/// piece on at once.
#[derive(Drop)]
pub struct FileSink<W: Write + Drop> {
    to: W,
    gathered: Vec<u8>,
    faults: u64,
    cause: Option<Cause>,
}

impl<W: Write + Drop> FileSink<W> {
    /// A sink that gathers what it is given, where there is memory for that.
    pub fn gathering(alloc: Global, to: W) -> Self
        ensures fresh { ⟦<FileSink<W> as Sink>⟧.faults result ≡ 0 }
        ensures to { result.to ≡ to }
        ensures none { result.gathered.items ≡ [] }
    {
        let gathered = Vec::with_capacity(alloc, BUFFER).unwrap_or(Vec::new(alloc));
        FileSink {
            to,
            gathered,
            faults: 0,
            cause: None,
        }
    }

    /// A sink that hands each piece on at once.
    pub fn direct(alloc: Global, to: W) -> Self
        ensures fresh { ⟦<FileSink<W> as Sink>⟧.faults result ≡ 0 }
        ensures to { result.to ≡ to }
        ensures none { result.gathered.items ≡ [] }
        ensures direct { GathersNothing result }
    {
        FileSink {
            to,
            gathered: Vec::new(alloc),
            faults: 0,
            cause: None,
        }
    }

    /// How many calls failed.
    pub fn faults(&self) -> u64
        ensures { result ≡ ⟦<FileSink<W> as Sink>⟧.faults self.now }
    {
        self.faults
    }

    /// Why the first call that failed did.
    pub fn cause(&self) -> Option<Cause> {
        self.cause
    }

    /// Writes what was gathered. Where a call failed before, some of that may be lost: then this fails too, and writes nothing.
    #[tactic(auto, using(outside::proofs::Fronts::front_none))]
    pub fn flush(&mut self) -> Result<(), Failed>
        // The writer has all that was gathered, and nothing is left to be written.
        ensures written { OnOk result (Appends (W.contents self.old.to) (W.contents self.new.to) self.old.gathered.items) }
        ensures none { self.new.gathered.items ≡ [] }

        // Whatever it answers, the writer gained a front of that and nothing else, and a direct sink stays one.
        ensures front { WritesFront (W.contents self.old.to) (W.contents self.new.to) self.old.gathered.items }
        ensures direct { GathersNothing self.old → GathersNothing self.new }

        // A fault counts once. Behind one all calls fail, and nothing more is written.
        ensures counts { self.new.faults ≡ counted result self.old.faults }
        ensures cause { HasCause (⟦<FileSink<W> as Sink>⟧.faults self.old) (⟦<FileSink<W> as Sink>⟧.faults self.new) result }
        ensures behind { 0 < self.old.faults → IsErr result }
        ensures still { 0 < self.old.faults → self.new.to ≡ self.old.to }
    {
        if self.faults > 0 {
            self.gathered.clear();
            return self.counted(Err(Cause::Other));
        }
        let written = pass_on(&mut self.to, self.gathered.as_slice());
        self.gathered.clear();
        self.counted(written)
    }

    // Takes a piece in, for which there is place.
    fn gather(&mut self, piece: &[u8]) -> Result<(), Failed>
        ensures to { self.new.to ≡ self.old.to }
        ensures gathered { OnOk result (self.new.gathered.items ≡ self.old.gathered.items ++ piece.now) }
        ensures counts { self.new.faults ≡ counted result self.old.faults }
        ensures cause { HasCause (⟦<FileSink<W> as Sink>⟧.faults self.old) (⟦<FileSink<W> as Sink>⟧.faults self.new) result }
    {
        match self.gathered.extend_from_slice(piece) {
            Ok(()) => self.counted(Ok(())),
            Err(_) => self.counted(Err(Cause::NoMemory)),
        }
    }

    // A fault counts, and the first is the one that is told.
    fn counted(&mut self, done: Result<(), Cause>) -> Result<(), Failed>
        ensures answer { is_ok result ≡ is_ok done }
        ensures to { self.new.to ≡ self.old.to }
        ensures gathered { self.new.gathered ≡ self.old.gathered }
        ensures counts { self.new.faults ≡ counted result self.old.faults }
        ensures cause { HasCause (⟦<FileSink<W> as Sink>⟧.faults self.old) (⟦<FileSink<W> as Sink>⟧.faults self.new) result }
    {
        let Err(cause) = done else {
            return Ok(());
        };
        if self.cause.is_none() {
            self.cause = Some(cause);
        }
        self.faults = raised(self.faults);
        Err(Failed)
    }
}

impl<W: Write + Keep + Drop> FileSink<W> {
    /// Writes what was gathered, and has the system keep what the writer was given.
    pub fn finish(&mut self) -> Result<(), Failed>
        // The writer has all that was gathered, and keeps it.
        ensures written { OnOk result (Appends (W.contents self.old.to) (W.contents self.new.to) self.old.gathered.items) }
        ensures kept { OnOk result (W.keeps self.new.to) }

        // Whatever it answers, the writer gained a front of what was gathered and nothing else, and a direct sink stays one.
        ensures front { WritesFront (W.contents self.old.to) (W.contents self.new.to) self.old.gathered.items }
        ensures direct { GathersNothing self.old → GathersNothing self.new }

        // A fault counts once. Behind one this fails, and nothing more is written.
        ensures counts { self.new.faults ≡ counted result self.old.faults }
        ensures cause { HasCause (⟦<FileSink<W> as Sink>⟧.faults self.old) (⟦<FileSink<W> as Sink>⟧.faults self.new) result }
        ensures behind { 0 < self.old.faults → IsErr result }
        ensures still { 0 < self.old.faults → self.new.to ≡ self.old.to }
    {
        self.flush()?;
        let kept = self.to.keep();
        self.counted(kept)
    }
}

impl<R: Print + Eprint + Clock + Drop> FileSink<Target<R>> {
    /// Writes what was gathered, has the system keep it, and puts a draft in its place. Where that fails, a draft is removed.
    pub fn close<F: Files>(&mut self, files: &F) -> Result<(), Failed>
        // A fault counts once. Behind one this fails.
        ensures counts { self.new.faults ≡ counted result self.old.faults }
        ensures cause { HasCause (⟦<FileSink<Target<R>> as Sink>⟧.faults self.old) (⟦<FileSink<Target<R>> as Sink>⟧.faults self.new) result }
        ensures behind { 0 < self.old.faults → IsErr result }
    {
        let put = self.put(files);
        if put.is_err() {
            let _removed = self.to.give_up(files);
        }
        put
    }

    // A draft is put in its place only once all that was gathered is written and kept.
    fn put<F: Files>(&mut self, files: &F) -> Result<(), Failed>
        ensures counts { self.new.faults ≡ counted result self.old.faults }
        ensures cause { HasCause (⟦<FileSink<Target<R>> as Sink>⟧.faults self.old) (⟦<FileSink<Target<R>> as Sink>⟧.faults self.new) result }
        ensures behind { 0 < self.old.faults → IsErr result }
    {
        self.finish()?;
        let put = self.to.put(files);
        self.counted(put)
    }

    /// Removes a draft. What is gathered isn't written.
    pub fn give_up<F: Files>(&self, files: &F) -> Result<(), Cause> {
        self.to.give_up(files)
    }

    /// What was counted of what was written; nothing of the console.
    pub fn tally(&self) -> Option<&Tally<R>> {
        self.to.tally()
    }

    /// What was heard of the console.
    pub fn heard(&self) -> Option<&Heard> {
        self.to.heard()
    }

    /// The new file, where there is one.
    pub fn draft(&self) -> Option<&File> {
        self.to.draft()
    }
}

impl<W: Write + Drop> Sink for FileSink<W> {
    ghost written = { λ _. None };

    ghost faults = { λ s. s.faults };

    #[tactic(auto, using(outside::proofs::Fronts::front_none, outside::proofs::Fronts::front_all, outside::proofs::Fronts::front_more))]
    fn write_all(&mut self, piece: &[u8]) -> Result<(), Failed>
        // The writer has, or will have at the next flush, what it had and then the piece.
        ensures bytes { OnOk result (Appends (append_known (W.contents self.old.to) self.old.gathered.items)
            (append_known (W.contents self.new.to) self.new.gathered.items) piece.now) }

        // Whatever it answers, the writer gained a front of what was gathered and then the piece, and nothing else.
        ensures gained { WritesFront (W.contents self.old.to) (W.contents self.new.to) (self.old.gathered.items ++ piece.now) }

        // A direct sink stays one, and then its writer has the piece.
        ensures direct { GathersNothing self.old → GathersNothing self.new }
        ensures at_once { GathersNothing self.old → OnOk result (Appends (W.contents self.old.to) (W.contents self.new.to) piece.now) }

        // A fault counts once. Behind one all calls fail, and nothing more is written.
        ensures counts { self.new.faults ≡ counted result self.old.faults }
        ensures cause { HasCause self.old.faults self.new.faults result }
        ensures behind { 0 < self.old.faults → IsErr result }
        ensures still { 0 < self.old.faults → self.new.to ≡ self.old.to }
    {
        // What was gathered may be lost, so nothing may come behind it.
        if self.faults != 0 {
            return self.counted(Err(Cause::Other));
        }
        if piece.len() < self.gathered.capacity() - self.gathered.len() {
            return self.gather(piece);
        }
        self.flush()?;
        if piece.len() < self.gathered.capacity() {
            return self.gather(piece);
        }
        let written = write_whole(&mut self.to, piece);
        self.counted(written)
    }
}
