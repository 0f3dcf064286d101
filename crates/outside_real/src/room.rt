ghost use Rattle.std.specs.Prelude.{◌≡◌, ◌≢◌, ℕ, ◌<◌, List, false, Some, None, IsErr, IfOk, OnOk, OnErr, ◌∷◌, []};
ghost use Rattle.outside.specs.Fault.{HasCause, count_sum, counted};
ghost use Rattle.outside.specs.Room.{AsOutput, AsLog, SameBut, IsUntouched, IsPut, IsPutOrNot};
ghost use Rattle.outside_real.specs.Held.{has_file, Holds};
ghost use Rattle.outside_real.specs.View.{file_room_view, longest_of, HasCounts};

use crate::beside::{Way, way_of};
use crate::cause::Cause;
use crate::count::{added, raised};
use crate::disk::FileDisk;
use crate::folder::folder_of;
use crate::held::HeldFiles;
use crate::names::Names;
use crate::opening::{
    OpenedAs, bytes_at, emptied, foreign_sort, gives_once, is_journal, is_missing,
};
use crate::sink::FileSink;
use crate::slips::is_library_word;
use crate::source::{FileSource, LONGEST_INPUT, LONGEST_LARGE_INPUT};
use crate::straight::Straight;
use crate::tally::Tally;
use crate::target::Target;
use crate::watch::{Line, Sort, Watch};
use crate::watched::WatchedFile;
use outside::{Disk, Failed, GivenUp, Room, Sink, Source};
use std::alloc::Global;
use std::fs;
use std::fs::File;
use std::rt::Files;
use std::sync::Arc;
use std::time::Clock;

/// The files of the system, by their names. It keeps one count of faults per sort, which stands for every name.
///
/// A regular file is held from its opening until its name is opened again or the room is dropped: an input shared, an output and
/// a log alone. Who can't have it, this room under another name included, finds that the opening fails, and the file as it was.
///
/// An output is written to a new file beside its own, which takes its place when it is closed; or over it, where that can't be.
#[derive(Drop)]
pub struct FileRoom<R: Files + Eprint + Clock> {
    rt: R,
    alloc: Global,
    process: u32,
    large: bool,
    outputs: Names,
    open_logs: Names,
    held: HeldFiles,
    ins: u64,
    outs: u64,
    logs: u64,
    closed: GivenUp<FileSource<WatchedFile<R>>>,
    intent: Intent,
    // the line of progress; none where there is no memory for it
    line: Option<Arc<Line>>,
}

/// What a command is about to do with its files, so that a slip of the hand is found before anything is loaded.
#[derive(Drop)]
pub struct Intent {
    /// The names of the command's outputs.
    pub outputs: Vec<String>,
    /// The journal that the command only reads, so that one that isn't there is told.
    pub reads: Option<String>,
    /// Whether the command can look at that journal without holding it, so that one that is held can be read otherwise.
    pub has_reading: bool,
    /// Whether it looks at its inputs without holding them.
    pub looks: bool,
    /// The file whose pieces the command judges, where it is one alone.
    pub judged: Option<String>,
    /// The inputs that the command opens more than once, so that one which gives its bytes once alone, as a pipe does, is refused.
    pub reopened: Vec<String>,
    /// What is told of how much was written.
    pub counts: Counts,
    /// An output of which that isn't told.
    pub uncounted: Option<String>,
    /// Whether standard error is a terminal.
    pub is_terminal: bool,
    /// The most bytes that a crash leaves behind a journal's end, so that no more are cut off there.
    pub most_behind: u64,
    /// The log of which that isn't so.
    pub points: Option<String>,
}

impl Intent {
    /// Nothing is known of what the command does.
    pub fn none(alloc: Global) -> Self {
        Intent {
            outputs: Vec::new(alloc),
            reads: None,
            has_reading: false,
            looks: false,
            judged: None,
            reopened: Vec::new(alloc),
            counts: Counts::Nothing,
            uncounted: None,
            is_terminal: false,
            most_behind: u64::MAX,
            points: None,
        }
    }
}

/// What is told of how much a command wrote into its outputs.
#[derive(Clone, Copy, Debug, PartialEq, Eq)]
pub enum Counts {
    Nothing,
    /// How many records.
    Records,
    /// How many records of a code; that there are none is most often a slip.
    RecordsOfCode,
    Lines,
}

// Whether a name is that one.
fn is_named(wanted: &Option<String>, name: &str) -> bool {
    match wanted {
        Some(wanted) => wanted.as_str() == name,
        None => false,
    }
}

impl<R: Files<File = File> + Print + Eprint + Clock + Alloc + Clone + Drop> FileRoom<R> {
    /// A room of the process with that number, for commands that take the limits of a large catalogue or not.
    pub fn new(rt: R, alloc: Global, process: u32, large: bool) -> Self
        ensures size { (file_room_view result).is_large ≡ large }
        ensures closed { (n : List ℕ) → (file_room_view result).open_as n ≡ None }
        ensures counts { HasCounts result 0 0 0 }
        ensures unheld { (n : List ℕ) → has_file result.held n ≡ false }
    {
        let line = Arc::new(alloc, Line::new(&rt)).ok();
        FileRoom {
            rt,
            alloc,
            process,
            large,
            outputs: Names::new(alloc),
            open_logs: Names::new(alloc),
            held: HeldFiles::new(alloc),
            ins: 0,
            outs: 0,
            logs: 0,
            closed: GivenUp::none(),
            intent: Intent::none(alloc),
            line,
        }
    }

    /// The command that uses the room next is of that intent.
    pub fn intend(&mut self, intent: Intent)
        ensures names { (n : List ℕ) → (file_room_view self.new).open_as n ≡ (file_room_view self.old).open_as n }
        ensures counts { HasCounts self.new self.old.ins self.old.outs self.old.logs }
        ensures held { self.new.held ≡ self.old.held }
        ensures lefts { self.new.closed ≡ self.old.closed }
        ensures size { self.new.large ≡ self.old.large }
    {
        self.intent = intent;
    }

    // The disk over a log's file.
    fn disk_of(&self, name: &str, file: File) -> Result<FileDisk<R>, Cause>
        ensures fresh { IfOk result (λ disk. (⟦<FileDisk<R> as Disk>⟧.seen disk).faults ≡ 0) }
    {
        let mut disk = FileDisk::new(file)?;
        let watch = self.watch_of(name, Sort::Journal, Some(disk.len()));
        disk.watch(watch);
        if !is_named(&self.intent.points, name) {
            disk.limit_cut(self.intent.most_behind);
        }

        // A new file is empty, and so is one that an opening made which then failed to sync the folder.
        if disk.len() == 0 {
            self.sync_folder(name)?;
        }
        Ok(disk)
    }

    // Without this a crash of the machine may lose the name of a new file.
    fn sync_folder(&self, name: &str) -> Result<(), Cause> {
        match File::open(&self.rt, folder_of(name)) {
            Ok(folder) => match folder.sync_all() {
                Ok(()) => Ok(()),
                Err(error) => Err(Cause::of(&error)),
            },
            Err(error) => Err(Cause::of(&error)),
        }
    }

    // Who tells how far a file has come, of so many bytes where that is known.
    fn watch_of(&self, name: &str, sort: Sort, of: Option<u64>) -> Option<Watch<R>> {
        let line = self.line.as_ref()?;
        let is_terminal = self.intent.is_terminal;
        Watch::new(self.alloc, &self.rt, line, is_terminal, name, sort, of)
    }

    /// The line of progress goes, before others are written to standard error.
    pub fn end_progress(&self) {
        if let Some(line) = &self.line {
            line.clear(&self.rt);
        }
    }

    // The most bytes of an input.
    fn longest_input(&self) -> u64
        ensures { result ≡ longest_of self.now.large }
    {
        if self.large {
            LONGEST_LARGE_INPUT
        } else {
            LONGEST_INPUT
        }
    }

    // An input that was opened. A journal that is only looked at is read as one.
    fn watched(&self, name: &str, file: File) -> WatchedFile<R> {
        let sort = if self.intent.looks {
            Sort::Journal
        } else {
            Sort::Input
        };
        let of = match file.metadata() {
            Ok(found) if found.is_file() => Some(found.len()),
            _ => None,
        };
        WatchedFile::new(file, self.watch_of(name, sort, of))
    }

    /// The bytes of a regular file from a place on, at most so many; none where they can't be had. The file is only looked at.
    pub fn bytes_at(&self, name: &str, place: u64, most: usize) -> Option<Vec<u8>> {
        bytes_at(self.alloc, &self.rt, name, place, most)
    }

    // Tells of which file a fault is, and why. A line that can't be written is no fault of the command.
    fn tell(&self, name: &str, cause: Cause) {
        self.end_progress();
        let _told = eprintln!(self.rt; "union_cat: {name}{cause}");
    }

    fn tell_some(&self, name: &str, cause: Option<Cause>) {
        if let Some(cause) = cause {
            self.tell(name, cause);
        }
    }

    // An input that is to be MARC and begins like something else. A journal that is only looked at isn't to be MARC.
    fn tell_foreign(&self, name: &str) {
        if self.intent.looks && !is_named(&self.intent.judged, name) {
            return;
        }
        if let Some(sort) = foreign_sort(&self.rt, name) {
            self.end_progress();
            let _told = eprintln!(self.rt;
                "union_cat: {name}: this looks like no MARC file ({sort})"
            );
        }
    }

    /// Tells that a file looks like no MARC whose first pieces are all refused, so many, unless its first bytes have told it.
    pub fn tell_refused_front(&self, name: &str, pieces: usize) {
        if foreign_sort(&self.rt, name).is_none() {
            let _told = eprintln!(self.rt;
                "union_cat: {name}: this looks like no MARC file (its first {pieces} pieces are refused)"
            );
        }
    }

    /// The file whose pieces the command judges, where it is one alone.
    pub fn judged(&self) -> Option<&str> {
        match &self.intent.judged {
            Some(name) => Some(name.as_str()),
            None => None,
        }
    }

    // What is to be done behind a sync that failed, since the next command would read what the system keeps.
    fn tell_unsynced(&self, name: &str, object: &FileDisk<R>) {
        if object.has_failed_sync() {
            let _told = eprintln!(self.rt;
                "union_cat: {name}: mount its disk anew, or restart, before the next command: what is shown of it may not be there"
            );
        }
    }

    // A command that only reads its journal was given none, and goes on as if it were empty.
    fn tell_empty(&self, name: &str, is_new: bool) {
        if is_new {
            let _told = eprintln!(self.rt; "union_cat: {name} wasn't there: an empty catalogue");
        }
    }

    // Why no output may come under that name: it would take a journal's place, or it is a library's word.
    fn slip_of(&self, name: &str) -> Option<Cause> {
        match is_journal(&self.rt, name) {
            Ok(true) => Some(Cause::IsJournal),
            Ok(false) if is_library_word(name) && is_missing(&self.rt, name) => {
                Some(Cause::LibraryWord)
            }
            Ok(false) => None,
            Err(cause) => Some(cause),
        }
    }

    // Whether an output of the command is a slip, which is told then.
    fn has_slip(&self) -> bool {
        for name in &self.intent.outputs {
            if let Some(cause) = self.slip_of(name.as_str()) {
                self.tell(name.as_str(), cause);
                return true;
            }
        }
        false
    }

    // Whether an input is to be opened more than once, and gives its bytes once alone, which is told then.
    fn is_spent(&self, name: &str) -> bool {
        for reopened in &self.intent.reopened {
            if reopened.as_str() == name && gives_once(&self.rt, name) {
                self.tell(name, Cause::GivesOnce);
                return true;
            }
        }
        false
    }

    // An output that is written over its file tells so, since a failure then leaves a part of it.
    fn tell_straight(&self, name: &str, why: Straight) {
        if why.is_told() {
            self.end_progress();
            let _told = eprintln!(self.rt;
                "union_cat: {name}{why}: a failure leaves a part of what is written there"
            );
        }
    }

    fn tally_of(&self, name: &str) -> Tally<R> {
        Tally::new(self.watch_of(name, Sort::Output, None))
    }

    // How much is in an output that was closed.
    fn tell_count(&self, name: &str, tally: &Tally<R>) {
        if is_named(&self.intent.uncounted, name) {
            return;
        }
        let (records, lines) = (tally.records(), tally.lines());
        let _told = match self.intent.counts {
            Counts::Nothing => return,
            Counts::RecordsOfCode if records == 0 => {
                eprintln!(self.rt; "union_cat: {name}: no records: no key has that code")
            }
            Counts::Records | Counts::RecordsOfCode => {
                eprintln!(self.rt; "union_cat: {name}: {records} records")
            }
            Counts::Lines => eprintln!(self.rt; "union_cat: {name}: {lines} lines"),
        };
    }

    fn tell_closed(&self, name: &str, is_closed: bool, object: &FileSink<Target<R>>) {
        if let Some(tally) = object.tally() {
            if is_closed {
                self.tell_count(name, tally);
            }
        }
    }

    // Another command has the journal, which can be looked at meanwhile.
    fn tell_held(&self, name: &str, cause: Cause) {
        if cause == Cause::InUse && self.intent.has_reading {
            let _told = eprintln!(self.rt;
                "union_cat: {name} can be read meanwhile: with `reading` before export, report, matches, holdings, headings or worklist"
            );
        }
    }

    // Where an output goes whose file is held: to a new file beside it, or over it, which is empty then.
    fn target_of(&self, name: &str, file: File, is_new: bool) -> Result<Target<R>, Cause> {
        if is_journal(&self.rt, name)? {
            return Err(Cause::IsJournal);
        }
        match way_of(self.alloc, &self.rt, name, &file, is_new, self.process)? {
            Way::Beside(draft) => Ok(Target::Draft(draft, self.tally_of(name))),
            Way::Straight(why) => {
                self.tell_straight(name, why);
                emptied(&file)?;
                Ok(Target::File(file, self.tally_of(name)))
            }
        }
    }

    // An output that is begun. One that can't be leaves no file that was made for it.
    fn output_of(&self, name: &str, file: File, is_new: bool) -> Result<FileSink<Target<R>>, Cause>
        ensures fresh { IfOk result (λ object. ⟦<FileSink<Target<R>> as Sink>⟧.faults object ≡ 0) }
    {
        match self.target_of(name, file, is_new) {
            Ok(target) => Ok(FileSink::gathering(self.alloc, target)),
            Err(cause) => {
                if is_new {
                    let _removed = fs::remove_file(&self.rt, name);
                }
                Err(cause)
            }
        }
    }

    // An output that is begun, with its file and its new file held.
    fn held_output(&mut self, name: &str) -> Result<FileSink<Target<R>>, Cause>
        ensures fresh { IfOk result (λ object. ⟦<FileSink<Target<R>> as Sink>⟧.faults object ≡ 0) }
        ensures outputs { self.new.outputs ≡ self.old.outputs }
        ensures logs { self.new.open_logs ≡ self.old.open_logs }
        ensures counts { HasCounts self.new self.old.ins self.old.outs self.old.logs }
        ensures holds { Holds self.old.held self.new.held name.now result }
        ensures lefts { self.new.closed ≡ self.old.closed }
        ensures size { self.new.large ≡ self.old.large }
    {
        let is_new = is_missing(&self.rt, name);
        let file = self
            .held
            .open(self.alloc, &self.rt, name, OpenedAs::Output)?;
        let sink = self.output_of(name, file, is_new)?;
        match self.held.hold_draft(self.alloc, name, sink.draft()) {
            Ok(()) => Ok(sink),
            Err(cause) => {
                let _removed = sink.give_up(&self.rt);
                Err(cause)
            }
        }
    }

    // An output under a name that isn't open, which is open then. One that can't be begun leaves the name as it is.
    fn begun(&mut self, name: &str) -> Result<FileSink<Target<R>>, Cause>
        requires { (file_room_view self.old).open_as name.now ≡ None }
        ensures fresh { IfOk result (λ object. ⟦<FileSink<Target<R>> as Sink>⟧.faults object ≡ 0) }
        ensures opened { OnOk result ((file_room_view self.new).open_as name.now ≡ Some AsOutput) }
        ensures others { (n : List ℕ) → n ≢ name.now → (file_room_view self.new).open_as n ≡ (file_room_view self.old).open_as n }
        ensures failed { OnErr result ((n : List ℕ) → (file_room_view self.new).open_as n ≡ (file_room_view self.old).open_as n) }
        ensures counts { HasCounts self.new self.old.ins self.old.outs self.old.logs }
        ensures holds { Holds self.old.held self.new.held name.now result }
        ensures lefts { self.new.closed ≡ self.old.closed }
        ensures size { self.new.large ≡ self.old.large }
    {
        // The name first, so that want of memory leaves the file as it was.
        if self.outputs.add(self.alloc, name).is_err() {
            return Err(Cause::NoMemory);
        }
        match self.held_output(name) {
            Ok(sink) => Ok(sink),
            Err(cause) => {
                self.outputs.remove(name);
                Err(cause)
            }
        }
    }

    // The name is open in no way any more.
    fn forget(&mut self, name: &str)
        ensures closed { (file_room_view self.new).open_as name.now ≡ None }
        ensures others { (n : List ℕ) → n ≢ name.now
            → (file_room_view self.new).open_as n ≡ (file_room_view self.old).open_as n }
        ensures counts { HasCounts self.new self.old.ins self.old.outs self.old.logs }
        ensures held { self.new.held ≡ self.old.held }
        ensures lefts { self.new.closed ≡ self.old.closed }
        ensures size { self.new.large ≡ self.old.large }
    {
        self.outputs.remove(name);
        self.open_logs.remove(name);
    }
}

impl<R: Files<File = File> + Print + Eprint + Clock + Alloc + Clone + Send + Drop> Room
    for FileRoom<R> {
    ghost use Rattle.std.proofs.Common.{refl};

    type In = FileSource<WatchedFile<R>>;

    type Out = FileSink<Target<R>>;

    type Log = FileDisk<R>;

    ghost seen = { file_room_view };

    ghost open_untold = { λ room name _. refl };

    ghost open_unlogged = { λ room name _. refl };

    ghost promised = { λ room name. tt };

    fn is_large(&self) -> bool
        ensures { result ≡ self.now.large }
    {
        self.large
    }

    fn is_there(&self, name: &str) -> bool {
        if is_missing(&self.rt, name) {
            return false;
        }
        self.tell(name, Cause::Stands);
        true
    }

    fn open_in(&mut self, name: &str) -> Result<FileSource<WatchedFile<R>>, Failed>
        requires { (file_room_view self.old).open_as name.now ≡ None }
        ensures stays { SameBut (file_room_view self.old) (file_room_view self.new) [] }
        ensures cause { HasCause self.old.ins self.new.ins result }
        ensures fresh { IfOk result (λ object. ⟦<FileSource<WatchedFile<R>> as Source>⟧.faults object ≡ 0) }

        // It gives at most as many bytes as an input of this room may have.
        ensures bound { IfOk result (λ object. ⟦<FileSource<WatchedFile<R>> as Source>⟧.bound object ≡ longest_of self.old.large) }

        // A fault counts once, and the other counts stay.
        ensures counts { HasCounts self.new (counted result self.old.ins) self.old.outs self.old.logs }
        ensures holds { Holds self.old.held self.new.held name.now result }
        ensures lefts { self.new.closed ≡ self.old.closed }
    {
        let sort = if self.intent.looks {
            OpenedAs::Look
        } else {
            OpenedAs::Input
        };
        if !self.is_spent(name) {
            match self.held.open(self.alloc, &self.rt, name, sort) {
                Ok(file) => {
                    self.tell_foreign(name);
                    return Ok(FileSource::new(self.watched(name, file), self.longest_input()));
                }
                Err(cause) => self.tell(name, cause),
            }
        }
        self.ins = raised(self.ins);
        Err(Failed)
    }

    #[tactic(auto, using(crate::proofs::Outputs::untold_untouched))]
    fn open_out(&mut self, name: &str) -> Result<FileSink<Target<R>>, Failed>
        requires { (file_room_view self.old).open_as name.now ≡ None }
        ensures apart { SameBut (file_room_view self.old) (file_room_view self.new) (name.now ∷ []) }
        ensures untouched { IsUntouched (file_room_view self.old) (file_room_view self.new) name.now }
        ensures opened { OnOk result ((file_room_view self.new).open_as name.now ≡ Some AsOutput) }
        ensures failed { OnErr result (SameBut (file_room_view self.old) (file_room_view self.new) []) }
        ensures cause { HasCause self.old.outs self.new.outs result }
        ensures fresh { IfOk result (λ object. ⟦<FileSink<Target<R>> as Sink>⟧.faults object ≡ 0) }

        // A fault counts once, and the other counts stay.
        ensures counts { HasCounts self.new self.old.ins (counted result self.old.outs) self.old.logs }
        ensures holds { Holds self.old.held self.new.held name.now result }
        ensures lefts { self.new.closed ≡ self.old.closed }
    {
        match self.begun(name) {
            Ok(sink) => Ok(sink),
            Err(cause) => {
                self.tell(name, cause);
                self.outs = raised(self.outs);
                Err(Failed)
            }
        }
    }

    fn open_log(&mut self, name: &str) -> Result<FileDisk<R>, Failed>
        requires { (file_room_view self.old).open_as name.now ≡ None }
        ensures apart { SameBut (file_room_view self.old) (file_room_view self.new) (name.now ∷ []) }
        ensures opened { OnOk result ((file_room_view self.new).open_as name.now ≡ Some AsLog) }
        ensures failed { OnErr result (SameBut (file_room_view self.old) (file_room_view self.new) []) }
        ensures cause { HasCause self.old.logs self.new.logs result }
        ensures fresh { IfOk result (λ object. (⟦<FileDisk<R> as Disk>⟧.seen object).faults ≡ 0) }

        // A fault counts once, and the other counts stay.
        ensures counts { HasCounts self.new self.old.ins self.old.outs (counted result self.old.logs) }
        ensures holds { Holds self.old.held self.new.held name.now result }
        ensures lefts { self.new.closed ≡ self.old.closed }
    {
        if !self.has_slip() && self.open_logs.add(self.alloc, name).is_ok() {
            let is_new = is_named(&self.intent.reads, name) && is_missing(&self.rt, name);
            match self.held.open(self.alloc, &self.rt, name, OpenedAs::Log) {
                Ok(file) => match self.disk_of(name, file) {
                    Ok(disk) => {
                        self.tell_empty(name, is_new);
                        return Ok(disk);
                    }
                    Err(cause) => self.tell(name, cause),
                },
                Err(cause) => {
                    self.tell(name, cause);
                    self.tell_held(name, cause);
                }
            }
            self.open_logs.remove(name);
        }
        self.logs = raised(self.logs);
        Err(Failed)
    }

    fn close_in(&mut self, name: &str, object: FileSource<WatchedFile<R>>)
        ensures stays { SameBut (file_room_view self.old) (file_room_view self.new) [] }
        ensures counts { HasCounts self.new (count_sum self.old.ins (⟦<FileSource<WatchedFile<R>> as Source>⟧.faults object)) self.old.outs self.old.logs }
        ensures held { self.new.held ≡ self.old.held }
        ensures left { self.new.closed ≡ ⟦<FileSource<WatchedFile<R>> as Source>⟧.left object ∷ self.old.closed }
    {
        self.end_progress();
        self.tell_some(name, object.cause());
        self.ins = added(self.ins, object.faults());
        self.closed.give_up(&object);
    }

    #[tactic(auto, using(crate::proofs::Outputs::untold_untouched, crate::proofs::Outputs::untold_put, crate::proofs::Outputs::untold_put_or_not))]
    fn close_out(&mut self, name: &str, mut object: FileSink<Target<R>>) -> Result<(), Failed>
        requires { (file_room_view self.old).open_as name.now ≡ Some AsOutput }
        ensures apart { SameBut (file_room_view self.old) (file_room_view self.new) (name.now ∷ []) }
        ensures untouched { IsUntouched (file_room_view self.old) (file_room_view self.new) name.now }
        ensures closed { (file_room_view self.new).open_as name.now ≡ None }
        ensures put { OnOk result (IsPut (file_room_view self.old) (file_room_view self.new) name.now None) }
        ensures put_or_not { OnErr result (IsPutOrNot (file_room_view self.old) (file_room_view self.new) name.now None) }
        ensures refused { 0 < ⟦<FileSink<Target<R>> as Sink>⟧.faults object → IsErr result }
        ensures cause { HasCause (count_sum self.old.outs (⟦<FileSink<Target<R>> as Sink>⟧.faults object)) self.new.outs result }

        // A fault of the close counts once, and the other counts stay.
        ensures counts { HasCounts self.new self.old.ins
            (count_sum self.old.outs (counted result (⟦<FileSink<Target<R>> as Sink>⟧.faults object))) self.old.logs }
        ensures held { self.new.held ≡ self.old.held }
        ensures lefts { self.new.closed ≡ self.old.closed }
    {
        let closed = object.close(&self.rt);
        self.end_progress();
        self.tell_some(name, object.cause());
        self.tell_closed(name, closed.is_ok(), &object);
        self.outs = added(self.outs, object.faults());
        self.forget(name);
        closed
    }

    #[tactic(auto, using(crate::proofs::Outputs::untold_untouched))]
    fn give_up_out(&mut self, name: &str, object: FileSink<Target<R>>)
        requires { (file_room_view self.old).open_as name.now ≡ Some AsOutput }
        ensures apart { SameBut (file_room_view self.old) (file_room_view self.new) (name.now ∷ []) }
        ensures untouched { IsUntouched (file_room_view self.old) (file_room_view self.new) name.now }
        ensures closed { (file_room_view self.new).open_as name.now ≡ None }
        ensures counts { HasCounts self.new self.old.ins (count_sum self.old.outs (⟦<FileSink<Target<R>> as Sink>⟧.faults object)) self.old.logs }
        ensures held { self.new.held ≡ self.old.held }
        ensures lefts { self.new.closed ≡ self.old.closed }
    {
        let _removed = object.give_up(&self.rt);
        self.end_progress();
        self.tell_some(name, object.cause());
        self.outs = added(self.outs, object.faults());
        self.forget(name);
    }

    fn close_log(&mut self, name: &str, object: FileDisk<R>)
        requires { (file_room_view self.old).open_as name.now ≡ Some AsLog }
        ensures apart { SameBut (file_room_view self.old) (file_room_view self.new) (name.now ∷ []) }
        ensures closed { (file_room_view self.new).open_as name.now ≡ None }
        ensures counts { HasCounts self.new self.old.ins self.old.outs
            (count_sum self.old.logs (⟦<FileDisk<R> as Disk>⟧.seen object).faults) }
        ensures held { self.new.held ≡ self.old.held }
        ensures lefts { self.new.closed ≡ self.old.closed }
    {
        self.end_progress();
        self.tell_some(name, object.cause());
        self.tell_unsynced(name, &object);
        self.logs = added(self.logs, object.faults());
        self.forget(name);
    }
}
