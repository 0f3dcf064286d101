ghost use Rattle.std.specs.Prelude.{◌≡◌, ℕ, ◌<◌, ◌≤◌, List, [], ◌∷◌, length, Option, Some, None, true, false, IsErr, is_err, not, IfOk, IfErr, IfSome, IfNone, OnOk, OnErr, OnSome, IsSome};
ghost use Rattle.std.specs.Option.{option_copied};
ghost use Rattle.outside.specs.Disk.{SameDisk, longest_disk};
ghost use Rattle.outside.specs.Fault.{HasCause, count_sum, counted};
ghost use Rattle.outside.specs.Room.{AsOutput, AsLog, bytes_or_none, SameBut, IsUntouched, IsPut, IsPutOrNot};
ghost use Rattle.outside_mem.specs.Files.{closed_as, file_in, told_file, with_fail, with_no_opening, with_output, with_state};
ghost use Rattle.outside_mem.specs.Room.{file_under, room_view, open_sort, is_closed_log, SameFiles, SameCounts, HasCounts, in_count, out_count, ChangesUnder, IsSourceOf, IsSinkOf, IsLogOf, log_count, log_view, can_be_put};
ghost use Rattle.outside_mem.specs.MemDisk.{disk_view};
ghost use Rattle.outside_mem.specs.declared.files.FileState.TheVariants.{Absent, Closed, ClosedLog, OpenLog};

use crate::files::{self, FileState, MemFile};
use crate::{MemDisk, MemSink, MemSource};
use outside::{Bytes, Failed, GivenUp, LONGEST_DISK, NoMemory, Room, Source};
use std::alloc::Global;

/// A room in memory, which tells its files and closed logs. It keeps one count of faults per sort, which stands for every name. It takes the
/// limits of a large catalogue only where it is made to.
#[derive(Debug, Drop)]
pub struct MemRoom {
    alloc: Global,
    large: bool,
    files: Vec<MemFile>,
    in_faults: u64,
    out_faults: u64,
    log_faults: u64,
    closed: GivenUp<MemSource>,
}

impl MemRoom {
    /// An empty room, which isn't large.
    #[tactic(auto, using(crate::proofs::Places::file_in_none))]
    pub fn new(alloc: Global) -> Self
        ensures files { (n : List ℕ) → file_under result n ≡ record { state = Absent; fails = []; opening_fails = false; is_output = false } }
        ensures closed { (n : List ℕ) → (room_view result).open_as n ≡ None }
        ensures counts { HasCounts result 0 0 0 }
        ensures size { (room_view result).is_large ≡ false }
    {
        MemRoom {
            alloc,
            large: false,
            files: Vec::new(alloc),
            in_faults: 0,
            out_faults: 0,
            log_faults: 0,
            closed: GivenUp::none(),
        }
    }

    /// Commands over it take the limits of a large catalogue from now on, or no more.
    pub fn set_large(&mut self, large: bool)
        ensures size { (room_view self.new).is_large ≡ large }
        ensures files { SameFiles self.old self.new }
        ensures open { (n : List ℕ) → (room_view self.new).open_as n ≡ (room_view self.old).open_as n }
        ensures counts { SameCounts self.old self.new }
        ensures lefts { self.new.closed ≡ self.old.closed }
    {
        self.large = large;
    }

    /// Makes a file of these bytes.
    pub fn put(&mut self, name: &str, bytes: Vec<u8>) -> Result<(), NoMemory>
        requires { (room_view self.old).open_as name.now ≡ None }
        ensures ok { OnOk result (ChangesUnder self.old self.new name.now (closed_as (Closed bytes.items) (file_under self.old name.now))) }
        ensures err { OnErr result (SameFiles self.old self.new) }
        ensures counts { SameCounts self.old self.new }
        ensures size { self.new.large ≡ self.old.large }
    {
        let place = files::enter(self.alloc, &mut self.files, name)?;
        files::close(
            &mut self.files,
            place,
            FileState::Closed(Bytes::from_vec(bytes)),
        );
        Ok(())
    }

    /// Lets the call with that number, counted from 0, fail on each object that is opened by this name.
    pub fn fail(&mut self, name: &str, call: u64) -> Result<(), NoMemory>
        ensures ok { OnOk result (ChangesUnder self.old self.new name.now (with_fail call (file_under self.old name.now))) }
        ensures err { OnErr result (SameFiles self.old self.new) }
        ensures counts { SameCounts self.old self.new }
        ensures size { self.new.large ≡ self.old.large }
    {
        let place = files::enter(self.alloc, &mut self.files, name)?;
        files::let_call_fail(&mut self.files, place, call)?;
        Ok(())
    }

    /// Lets each opening by this name fail.
    pub fn fail_opening(&mut self, name: &str) -> Result<(), NoMemory>
        ensures ok { OnOk result (ChangesUnder self.old self.new name.now (with_no_opening (file_under self.old name.now))) }
        ensures err { OnErr result (SameFiles self.old self.new) }
        ensures counts { SameCounts self.old self.new }
        ensures size { self.new.large ≡ self.old.large }
    {
        let place = files::enter(self.alloc, &mut self.files, name)?;
        files::let_opening_fail(&mut self.files, place);
        Ok(())
    }

    /// The bytes of the file of that name, a closed log's among them, where there is one that isn't open.
    pub fn file(&self, name: &str) -> Option<&[u8]>
        ensures { option_copied result ≡ (room_view self.now).file name.now }
    {
        match files::entry_of(&self.files, name) {
            Some(file) => file.state.bytes(),
            None => None,
        }
    }

    /// The disk that was closed last as a log of that name, with its moments, where the name's file is still that.
    pub fn log_of(&self, name: &str) -> Option<&MemDisk>
        ensures log { IfSome result (λ disk. (file_under self.now name.now).state ≡ ClosedLog disk.now) }
        ensures none { IfNone result ((room_view self.now).has_log name.now ≡ false) }
    {
        match files::entry_of(&self.files, name) {
            Some(
                MemFile {
                    state: FileState::ClosedLog(disk),
                    ..
                },
            ) => Some(disk),
            _ => None,
        }
    }
}

/// A source of a copy of the file, where there is one that may be opened, and memory for it.
fn open_copy(alloc: Global, files: &[MemFile], name: &str) -> Option<MemSource>
    ensures { IfSome result (IsSourceOf (file_in files.now name.now)) }
{
    let file = files::entry_of(files, name)?;
    if file.opening_fails {
        return None;
    }
    let copy = file.state.bytes()?.to_vec(alloc).ok()?;
    let fails = file.fails.to_vec(alloc).ok()?;
    Some(MemSource::new(copy, usize::MAX, fails))
}

/// A copy of a file's bytes, and no bytes where there is no file. None where a disk can't have them, or memory lacks.
fn log_bytes(alloc: Global, state: &FileState) -> Option<Vec<u8>>
    ensures bytes { IfSome result (λ bytes. bytes.items ≡ bytes_or_none (told_file state.now)) }
    ensures short { IfSome result (λ bytes. length bytes.items ≤ longest_disk) }
{
    match state.bytes() {
        None => Some(Vec::new(alloc)),
        Some(bytes) if bytes.len() as u64 <= LONGEST_DISK => bytes.to_vec(alloc).ok(),
        Some(_) => None,
    }
}

/// A disk with a copy of the file, an empty one where there is none, where it may be opened, and memory for it.
fn disk_copy(alloc: Global, files: &[MemFile], name: &str) -> Option<MemDisk>
    ensures { IfSome result (IsLogOf (file_in files.now name.now)) }
{
    match files::entry_of(files, name) {
        None => Some(MemDisk::new(alloc, Vec::new(alloc), Vec::new(alloc))),
        Some(file) if !file.opening_fails => {
            let copy = log_bytes(alloc, &file.state)?;
            let fails = file.fails.to_vec(alloc).ok()?;
            Some(MemDisk::new(alloc, copy, fails))
        }
        Some(_) => None,
    }
}

impl MemRoom {
    /// An empty sink under that name, where it may be opened and there is memory for it.
    fn start_output(&mut self, name: &str) -> Option<MemSink>
        ensures lefts { self.new.closed ≡ self.old.closed }
        ensures sink { IfSome result (IsSinkOf (file_under self.old name.now)) }
        ensures open { OnSome result (ChangesUnder self.old self.new name.now (with_output true (file_under self.old name.now))) }
        ensures none { IfNone result (SameFiles self.old self.new) }
        ensures counts { SameCounts self.old self.new }
        ensures size { self.new.large ≡ self.old.large }
    {
        let place = files::enter(self.alloc, &mut self.files, name).ok()?;
        let fails = files::fails_of_opening(self.alloc, &self.files, place)?;
        files::set_output(&mut self.files, place, true);
        Some(MemSink::new(self.alloc, fails))
    }

    /// The output of that name is open no more, and what stands under the name is as it was.
    #[tactic(auto, using(crate::proofs::Places::file_in_nameless))]
    fn end_output(&mut self, name: &str)
        requires { (room_view self.old).open_as name.now ≡ Some AsOutput }
        ensures lefts { self.new.closed ≡ self.old.closed }
        ensures closed { ChangesUnder self.old self.new name.now (with_output false (file_under self.old name.now)) }
        ensures counts { SameCounts self.old self.new }
        ensures size { self.new.large ≡ self.old.large }
    {
        if let Some(place) = files::place_of(&self.files, name) {
            files::set_output(&mut self.files, place, false);
        }
    }

    /// The output of that name takes the place of what stands there.
    #[tactic(auto, using(crate::proofs::Places::file_in_nameless))]
    fn put_output(&mut self, name: &str, object: MemSink)
        requires { (room_view self.old).open_as name.now ≡ Some AsOutput }
        ensures lefts { self.new.closed ≡ self.old.closed }
        ensures closed { ChangesUnder self.old self.new name.now (closed_as (Closed object.bytes) (file_under self.old name.now)) }
        ensures counts { SameCounts self.old self.new }
        ensures size { self.new.large ≡ self.old.large }
    {
        if let Some(place) = files::place_of(&self.files, name) {
            let bytes = Bytes::from_vec(object.into_bytes());
            files::close(&mut self.files, place, FileState::Closed(bytes));
        }
    }

    /// A disk of the file under that name, where it may be opened and there is memory for it.
    fn start_log(&mut self, name: &str) -> Option<MemDisk>
        ensures lefts { self.new.closed ≡ self.old.closed }
        ensures disk { IfSome result (IsLogOf (file_under self.old name.now)) }
        ensures open { OnSome result (ChangesUnder self.old self.new name.now (with_state OpenLog (file_under self.old name.now))) }
        ensures none { IfNone result (SameFiles self.old self.new) }
        ensures counts { SameCounts self.old self.new }
        ensures size { self.new.large ≡ self.old.large }
    {
        let disk = disk_copy(self.alloc, &self.files, name)?;
        let place = files::enter(self.alloc, &mut self.files, name).ok()?;
        files::set_state(&mut self.files, place, FileState::OpenLog);
        Some(disk)
    }
}

impl Room for MemRoom {
    type In = MemSource;

    type Out = MemSink;

    type Log = MemDisk;

    ghost seen = { room_view };

    fn is_large(&self) -> bool
        ensures { result ≡ self.now.large }
    {
        self.large
    }

    fn is_there(&self, name: &str) -> bool {
        self.file(name).is_some()
    }

    #[tactic(auto, using(crate::proofs::Rooms::stays_same))]
    fn open_in(&mut self, name: &str) -> Result<MemSource, Failed>
        requires { (room_view self.old).open_as name.now ≡ None }
        ensures stays { SameBut (room_view self.old) (room_view self.new) [] }
        ensures cause { HasCause ((room_view self.old).in_faults name.now) ((room_view self.new).in_faults name.now) result }

        // It gives the closed file. A fault counts once, and all else stays.
        ensures source { IfOk result (IsSourceOf (file_under self.old name.now)) }
        ensures files { SameFiles self.old self.new }
        ensures counts { HasCounts self.new (counted result (in_count self.old)) (out_count self.old) (log_count self.old) }
        ensures lefts { self.new.closed ≡ self.old.closed }
    {
        match open_copy(self.alloc, &self.files, name) {
            Some(source) => Ok(source),
            None => {
                self.in_faults = self.in_faults.saturating_add(1);
                Err(Failed)
            }
        }
    }

    #[tactic(auto, using(crate::proofs::Rooms::stays_same, crate::proofs::Rooms::apart_changed, crate::proofs::Rooms::apart_same, crate::proofs::Rooms::untouched_output, crate::proofs::Rooms::untouched_files, crate::proofs::Rooms::begun_sort))]
    fn open_out(&mut self, name: &str) -> Result<MemSink, Failed>
        requires { (room_view self.old).open_as name.now ≡ None }
        ensures apart { SameBut (room_view self.old) (room_view self.new) (name.now ∷ []) }
        ensures untouched { IsUntouched (room_view self.old) (room_view self.new) name.now }
        ensures opened { OnOk result ((room_view self.new).open_as name.now ≡ Some AsOutput) }
        ensures stays { OnErr result (SameBut (room_view self.old) (room_view self.new) []) }
        ensures cause { HasCause ((room_view self.old).out_faults name.now) ((room_view self.new).out_faults name.now) result }

        // It gives an empty sink, and the name is open. A fault counts once, and all else stays.
        ensures sink { IfOk result (IsSinkOf (file_under self.old name.now)) }
        ensures open { OnOk result (ChangesUnder self.old self.new name.now (with_output true (file_under self.old name.now))) }
        ensures failed { OnErr result (SameFiles self.old self.new) }
        ensures counts { HasCounts self.new (in_count self.old) (counted result (out_count self.old)) (log_count self.old) }
        ensures lefts { self.new.closed ≡ self.old.closed }
    {
        match self.start_output(name) {
            Some(sink) => Ok(sink),
            None => {
                self.out_faults = self.out_faults.saturating_add(1);
                Err(Failed)
            }
        }
    }

    #[tactic(auto, using(crate::proofs::Rooms::stays_same, crate::proofs::Rooms::apart_changed, crate::proofs::Rooms::apart_same))]
    fn open_log(&mut self, name: &str) -> Result<MemDisk, Failed>
        requires { (room_view self.old).open_as name.now ≡ None }
        ensures apart { SameBut (room_view self.old) (room_view self.new) (name.now ∷ []) }
        ensures stays { OnErr result (SameBut (room_view self.old) (room_view self.new) []) }
        ensures cause { HasCause ((room_view self.old).log_faults name.now) ((room_view self.new).log_faults name.now) result }

        // It gives a disk with the file's bytes, and the name is open. A fault counts once, and all else stays.
        ensures disk { IfOk result (IsLogOf (file_under self.old name.now)) }
        ensures open { OnOk result (ChangesUnder self.old self.new name.now (with_state OpenLog (file_under self.old name.now))) }
        ensures failed { OnErr result (SameFiles self.old self.new) }
        ensures counts { HasCounts self.new (in_count self.old) (out_count self.old) (counted result (log_count self.old)) }
        ensures lefts { self.new.closed ≡ self.old.closed }
    {
        match self.start_log(name) {
            Some(disk) => Ok(disk),
            None => {
                self.log_faults = self.log_faults.saturating_add(1);
                Err(Failed)
            }
        }
    }

    #[tactic(auto, using(crate::proofs::Rooms::stays_same))]
    fn close_in(&mut self, _name: &str, object: MemSource)
        ensures stays { SameBut (room_view self.old) (room_view self.new) [] }
        ensures files { SameFiles self.old self.new }
        ensures counts { HasCounts self.new (count_sum (in_count self.old) object.calls.faults) (out_count self.old) (log_count self.old) }
        ensures left { self.new.closed ≡ ⟦<MemSource as Source>⟧.left object ∷ self.old.closed }
    {
        self.in_faults = self.in_faults.saturating_add(object.faults());
        self.closed.give_up(&object);
    }

    #[tactic(auto, using(crate::proofs::Rooms::apart_changed, crate::proofs::Rooms::untouched_output, crate::proofs::Rooms::put_output, crate::proofs::Rooms::not_put, crate::proofs::Rooms::ended_sort))]
    fn close_out(&mut self, name: &str, object: MemSink) -> Result<(), Failed>
        requires { (room_view self.old).open_as name.now ≡ Some AsOutput }
        ensures apart { SameBut (room_view self.old) (room_view self.new) (name.now ∷ []) }
        ensures is_closed { (room_view self.new).open_as name.now ≡ None }
        ensures put { OnOk result (IsPut (room_view self.old) (room_view self.new) name.now (Some object.bytes)) }
        ensures put_or_not { OnErr result (IsPutOrNot (room_view self.old) (room_view self.new) name.now (Some object.bytes)) }
        ensures untouched { 0 < object.calls.faults → IsUntouched (room_view self.old) (room_view self.new) name.now }
        ensures cause { HasCause (count_sum (out_count self.old) object.calls.faults) (out_count self.new) result }

        // It is put in its place exactly where that can be. Else what stands there is as it was.
        ensures fails { is_err result ≡ not (can_be_put object) }
        ensures closed { OnOk result (ChangesUnder self.old self.new name.now
            (closed_as (Closed object.bytes) (file_under self.old name.now))) }
        ensures failed { OnErr result (ChangesUnder self.old self.new name.now (with_output false (file_under self.old name.now))) }
        ensures counts { HasCounts self.new (in_count self.old) (count_sum (out_count self.old) (counted result object.calls.faults)) (log_count self.old) }
        ensures lefts { self.new.closed ≡ self.old.closed }
    {
        let faults = object.faults();
        if faults == 0 && !object.is_next_listed() {
            self.out_faults = self.out_faults.saturating_add(faults);
            self.put_output(name, object);
            return Ok(());
        }
        self.out_faults = self.out_faults.saturating_add(faults.saturating_add(1));
        self.end_output(name);
        Err(Failed)
    }

    #[tactic(auto, using(crate::proofs::Rooms::apart_changed, crate::proofs::Rooms::untouched_output, crate::proofs::Rooms::ended_sort))]
    fn give_up_out(&mut self, name: &str, object: MemSink)
        requires { (room_view self.old).open_as name.now ≡ Some AsOutput }
        ensures apart { SameBut (room_view self.old) (room_view self.new) (name.now ∷ []) }
        ensures untouched { IsUntouched (room_view self.old) (room_view self.new) name.now }
        ensures is_closed { (room_view self.new).open_as name.now ≡ None }

        // What stands under the name is as it was.
        ensures closed { ChangesUnder self.old self.new name.now (with_output false (file_under self.old name.now)) }
        ensures counts { HasCounts self.new (in_count self.old) (count_sum (out_count self.old) object.calls.faults) (log_count self.old) }
        ensures lefts { self.new.closed ≡ self.old.closed }
    {
        self.out_faults = self.out_faults.saturating_add(object.faults());
        self.end_output(name);
    }

    #[tactic(auto, using(crate::proofs::Places::file_in_nameless, crate::proofs::Rooms::apart_changed, crate::proofs::Rooms::closed_log))]
    fn close_log(&mut self, name: &str, object: MemDisk)
        requires { (room_view self.old).open_as name.now ≡ Some AsLog }
        ensures apart { SameBut (room_view self.old) (room_view self.new) (name.now ∷ []) }

        // The name has the disk as its closed log.
        ensures moments { SameDisk (disk_view object) (log_view (file_under self.new name.now).state) }
        ensures closed { ChangesUnder self.old self.new name.now (closed_as (ClosedLog object) (file_under self.old name.now)) }
        ensures counts { HasCounts self.new (in_count self.old) (out_count self.old) (count_sum (log_count self.old) object.calls.faults) }
        ensures lefts { self.new.closed ≡ self.old.closed }
    {
        self.log_faults = self.log_faults.saturating_add(object.faults());
        if let Some(place) = files::place_of(&self.files, name) {
            files::close(&mut self.files, place, FileState::ClosedLog(object));
        }
    }

    ghost use Rattle.outside_mem.specs.Room.{open_is_untold, open_is_unlogged};

    ghost open_untold = { λ room name. open_is_untold (file_under room name) };

    ghost open_unlogged = { λ room name. open_is_unlogged (file_under room name) };

    ghost promised = { λ room name. tt };
}
