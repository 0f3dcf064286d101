ghost use Rattle.std.specs.Prelude.{◌≡◌, ℕ, ◌+◌, ◌<◌, ◌≤◌, max, List, [], ◌∷◌, length, Option, Some, None, IsErr, IsSome, IfOk, IfSome, IfNone, OnOk, OnErr, is_err, is_none, nat_eq, not, true, false};
ghost use Rattle.std.specs.Option.{option_copied};
ghost use Rattle.outside.specs.Disk.{SameDisk, longest_disk, longest_write};
ghost use Rattle.outside.specs.Fault.{HasCause, count_sum, counted};
ghost use Rattle.outside.specs.Room.{AsOutput, AsLog, bytes_or_none, SameBut, IsUntouched, IsPut, IsPutOrNot};
ghost use Rattle.outside_sure.specs.SureState.{source_faults};
ghost use Rattle.outside_sure.specs.SureSink.{sink_state};
ghost use Rattle.outside_sure.specs.SureDisk.{disk_state, sure_disk_view};
ghost use Rattle.outside_sure.specs.SureKept.{told_kept, is_input, can_open};
ghost use Rattle.outside_sure.specs.declared.kept.Kept.TheVariants.{Input};
ghost use Rattle.outside_sure.specs.declared.drawer.Opened.TheVariants as opened;
ghost use Rattle.outside_sure.specs.declared.drawer.Closing.TheVariants as closing;

use crate::drawer::{Closing, Drawer, Opened};
use crate::kept::Kept;
use crate::sure_files::SureFiles;
use crate::{SureDisk, SureSink, SureSource};
use outside::{Failed, GivenUp, NoMemory, Room};
use std::alloc::Global;

/// A room in memory whose outputs and logs fail for want of room alone, and which takes memory at no call of the trait. It tells its files and
/// closed logs. Its three counts are of the openings that failed, as input, as output and as log; each drawer has a count of its own. It takes
/// the limits of a large catalogue only where it is made to.
#[derive(Debug, Drop)]
pub struct SureRoom<'a, const ROOM: usize> {
    alloc: Global,
    large: bool,
    files: SureFiles<'a, ROOM>,
    in_faults: u64,
    out_faults: u64,
    log_faults: u64,
    closed: GivenUp<SureSource<'a>>,
    ghost short: { ROOM + longest_write ≤ longest_disk },
}

impl<'a, const ROOM: usize> SureRoom<'a, ROOM> {
    ghost use Rattle.outside_sure.specs.SureRoom.{sure_room_view, kept_under, SameKept, KeepsUnder, MakesDrawer, HasSureCounts};

    /// An empty room, which isn't large.
    pub fn new(alloc: Global) -> Self
        requires { ROOM + longest_write ≤ longest_disk }
        ensures empty { (n : List ℕ) → kept_under result n ≡ None }
        ensures counts { HasSureCounts result 0 0 0 }
        ensures lefts { result.closed ≡ [] }
        ensures size { (sure_room_view result).is_large ≡ false }
    {
        SureRoom {
            alloc,
            large: false,
            files: SureFiles::new(alloc),
            in_faults: 0,
            out_faults: 0,
            log_faults: 0,
            closed: GivenUp::none(),
        }
    }

    /// Commands over it take the limits of a large catalogue from now on, or no more.
    pub fn set_large(&mut self, large: bool)
        ensures size { (sure_room_view self.new).is_large ≡ large }
        ensures kept { (n : List ℕ) → kept_under self.new n ≡ kept_under self.old n }
        ensures counts { HasSureCounts self.new self.old.in_faults self.old.out_faults self.old.log_faults }
        ensures lefts { self.new.closed ≡ self.old.closed }
    {
        self.large = large;
    }

    /// Makes the name an input of these bytes, whatever it was.
    pub fn give(&mut self, name: &str, bytes: &'a [u8]) -> Result<(), NoMemory>
        ensures ok { OnOk result (KeepsUnder self.old self.new name.now (Some (Input bytes.now))) }
        ensures err { OnErr result (SameKept self.old self.new) }
        ensures counts { HasSureCounts self.new self.old.in_faults self.old.out_faults self.old.log_faults }
        ensures lefts { self.new.closed ≡ self.old.closed }
    {
        let input = Kept::Input(SureSource::new(bytes));
        self.files.keep(self.alloc, name, input)
    }

    /// Makes the name a drawer for outputs and logs, with a file of these bytes or none yet, whatever it was. Takes twice `ROOM` bytes: an
    /// output leaves the file until it is closed.
    #[tactic(auto, using(crate::proofs::Kepts::well_new))]
    pub fn make_drawer(&mut self, name: &str, bytes: Option<&[u8]>) -> Result<(), NoMemory>
        requires { IfSome (option_copied bytes) (λ b. length b ≤ ROOM) }
        ensures ok { OnOk result (MakesDrawer self.old self.new name.now (option_copied bytes.entry)) }
        ensures err { OnErr result (SameKept self.old self.new) }
        ensures counts { HasSureCounts self.new self.old.in_faults self.old.out_faults self.old.log_faults }
        ensures lefts { self.new.closed ≡ self.old.closed }
    {
        let drawer = Drawer::new(self.alloc, bytes)?;
        self.files.keep(self.alloc, name, Kept::InDrawer(drawer))
    }

    /// The bytes of the file of that name, a closed log's among them, where there is one that isn't open as a log.
    pub fn file(&self, name: &str) -> Option<&[u8]>
        ensures { option_copied result ≡ (sure_room_view self.now).file name.now }
    {
        match self.files.under(name) {
            Some(kept) => kept.bytes(),
            None => None,
        }
    }

    // The input of that name.
    fn input(&self, name: &str) -> Option<SureSource<'a>>
        ensures none { is_none result ≡ not (is_input (kept_under self.now name.now)) }
        ensures source { IfSome result (λ source. kept_under self.now name.now ≡ Some (Input source)) }
    {
        match self.files.under(name) {
            Some(Kept::Input(source)) => Some(SureSource::new(source.bytes())),
            Some(Kept::InDrawer(_)) | None => None,
        }
    }
}

impl<'a, const ROOM: usize> Room for SureRoom<'a, ROOM> {
    ghost use Rattle.outside_sure.specs.SureRoom.{sure_room_view, kept_under, SameKept, Opens, Closes, HasSureCounts};

    type In = SureSource<'a>;

    type Out = SureSink<ROOM>;

    type Log = SureDisk<ROOM>;

    ghost seen = { sure_room_view };

    fn is_large(&self) -> bool
        ensures { result ≡ self.now.large }
    {
        self.large
    }

    fn is_there(&self, name: &str) -> bool {
        self.file(name).is_some()
    }

    #[tactic(auto, using(crate::proofs::SureRooms::stays_kept))]
    fn open_in(&mut self, name: &str) -> Result<SureSource<'a>, Failed>
        requires { (sure_room_view self.old).open_as name.now ≡ None }
        ensures stays { SameBut (sure_room_view self.old) (sure_room_view self.new) [] }
        ensures lefts { (sure_room_view self.new).lefts ≡ (sure_room_view self.old).lefts }
        ensures cause { HasCause ((sure_room_view self.old).in_faults name.now) ((sure_room_view self.new).in_faults name.now) result }
        ensures fresh { IfOk result (λ object. source_faults object ≡ 0) }
        ensures there { OnOk result ((sure_room_view self.old).tells ≡ true → IsSome ((sure_room_view self.old).file name.now)) }
        ensures bytes { IfOk result (λ object. (sure_room_view self.old).tells ≡ true → Some object ≡ (sure_room_view self.old).file name.now) }

        // It fails exactly where the name isn't an input, and gives the input's bytes.
        ensures fails { is_err result ≡ not (is_input (kept_under self.old name.now)) }
        ensures source { IfOk result (λ source. kept_under self.old name.now ≡ Some (Input source)) }
        ensures kept { SameKept self.old self.new }
        ensures counts { HasSureCounts self.new (counted result self.old.in_faults) self.old.out_faults self.old.log_faults }
    {
        match self.input(name) {
            Some(source) => Ok(source),
            None => {
                self.in_faults = self.in_faults.saturating_add(1);
                Err(Failed)
            }
        }
    }

    #[tactic(auto, using(crate::proofs::SureRooms::apart_opened, crate::proofs::SureRooms::stays_refused, crate::proofs::SureRooms::begun_untouched, crate::proofs::SureRooms::begun_failed_at, crate::proofs::SureRooms::begun_sort))]
    fn open_out(&mut self, name: &str) -> Result<SureSink<ROOM>, Failed>
        requires { (sure_room_view self.old).open_as name.now ≡ None }
        ensures apart { SameBut (sure_room_view self.old) (sure_room_view self.new) (name.now ∷ []) }
        ensures untouched { IsUntouched (sure_room_view self.old) (sure_room_view self.new) name.now }
        ensures failed_at { (sure_room_view self.new).failed_at name.now ≡ (sure_room_view self.old).failed_at name.now }
        ensures lefts { (sure_room_view self.new).lefts ≡ (sure_room_view self.old).lefts }
        ensures opened { OnOk result ((sure_room_view self.new).open_as name.now ≡ Some AsOutput) }
        ensures failed { OnErr result (SameBut (sure_room_view self.old) (sure_room_view self.new) []) }
        ensures cause { HasCause ((sure_room_view self.old).out_faults name.now) ((sure_room_view self.new).out_faults name.now) result }
        ensures fresh { IfOk result (λ object. object.faults ≡ 0) }
        ensures empty { IfOk result (λ object. (sure_room_view self.old).tells ≡ true → Some object.held.buffer.items ≡ Some []) }

        // It fails exactly where the name isn't a drawer, or its log had a fault.
        ensures fails { is_err result ≡ not (can_open opened.Output (kept_under self.old name.now)) }
        ensures sink { IfOk result (λ sink. sink_state sink ≡ record { bytes = []; faults = 0 }) }
        ensures kept { Opens self.old self.new name.now opened.Output }
        ensures counts { HasSureCounts self.new self.old.in_faults (counted result self.old.out_faults) self.old.log_faults }
    {
        match self.files.open(name, Opened::Output) {
            Some(held) => Ok(SureSink::of_held(held)),
            None => {
                self.out_faults = self.out_faults.saturating_add(1);
                Err(Failed)
            }
        }
    }

    #[tactic(auto, using(crate::proofs::SureRooms::apart_opened, crate::proofs::SureRooms::stays_refused, crate::proofs::SureRooms::log_sort))]
    fn open_log(&mut self, name: &str) -> Result<SureDisk<ROOM>, Failed>
        requires { (sure_room_view self.old).open_as name.now ≡ None }
        ensures apart { SameBut (sure_room_view self.old) (sure_room_view self.new) (name.now ∷ []) }
        ensures lefts { (sure_room_view self.new).lefts ≡ (sure_room_view self.old).lefts }
        ensures opened { OnOk result ((sure_room_view self.new).open_as name.now ≡ Some AsLog) }
        ensures failed { OnErr result (SameBut (sure_room_view self.old) (sure_room_view self.new) []) }
        ensures cause { HasCause ((sure_room_view self.old).log_faults name.now) ((sure_room_view self.new).log_faults name.now) result }
        ensures fresh { IfOk result (λ object. (sure_disk_view object).faults ≡ 0) }
        ensures beginning { IfOk result (λ object. (sure_disk_view object).moment ≡ 0) }
        ensures bytes { IfOk result (λ object. (sure_room_view self.old).tells ≡ true →
            (sure_disk_view object).content ≡ Some (bytes_or_none ((sure_room_view self.old).file name.now))) }

        // It fails exactly where the name isn't a drawer, or its log had a fault.
        ensures fails { is_err result ≡ not (can_open opened.Log (kept_under self.old name.now)) }
        ensures disk { IfOk result (λ disk. disk_state disk ≡ record { bytes = bytes_or_none (told_kept (kept_under self.old name.now)); faults = 0 }) }
        ensures kept { Opens self.old self.new name.now opened.Log }
        ensures counts { HasSureCounts self.new self.old.in_faults self.old.out_faults (counted result self.old.log_faults) }
    {
        match self.files.open(name, Opened::Log) {
            Some(held) => Ok(SureDisk::of_held(held)),
            None => {
                self.log_faults = self.log_faults.saturating_add(1);
                Err(Failed)
            }
        }
    }

    // A sure source has no faults to add.
    #[tactic(auto, using(crate::proofs::SureRooms::stays_kept, crate::proofs::SureRooms::counts_none))]
    fn close_in(&mut self, _name: &str, object: SureSource<'a>)
        ensures stays { SameBut (sure_room_view self.old) (sure_room_view self.new) [] }
        ensures left { (sure_room_view self.new).lefts ≡ Some object.entry ∷ (sure_room_view self.old).lefts }
        ensures counted { (sure_room_view self.new).in_faults _name.now
            ≡ count_sum ((sure_room_view self.old).in_faults _name.now) (source_faults object.entry) }
        ensures kept { SameKept self.old self.new }
        ensures counts { HasSureCounts self.new self.old.in_faults self.old.out_faults self.old.log_faults }
    {
        self.in_faults = self.in_faults.saturating_add(0);
        self.closed.give_up(&object);
    }

    #[tactic(auto, using(crate::proofs::SureRooms::apart_closed, crate::proofs::SureRooms::closed_sort, crate::proofs::SureRooms::put_told, crate::proofs::SureRooms::given_up_not_put, crate::proofs::SureRooms::given_up_untouched, crate::proofs::SureRooms::output_counts, crate::proofs::SureRooms::output_failed_at, crate::proofs::SureRooms::faulty_failed_at))]
    fn close_out(&mut self, name: &str, object: SureSink<ROOM>) -> Result<(), Failed>
        requires { (sure_room_view self.old).open_as name.now ≡ Some AsOutput }
        ensures apart { SameBut (sure_room_view self.old) (sure_room_view self.new) (name.now ∷ []) }
        ensures lefts { (sure_room_view self.new).lefts ≡ (sure_room_view self.old).lefts }
        ensures closed { (sure_room_view self.new).open_as name.now ≡ None }
        ensures put { OnOk result (IsPut (sure_room_view self.old) (sure_room_view self.new) name.now (Some object.entry.held.buffer.items)) }
        ensures put_or_not { OnErr result
            (IsPutOrNot (sure_room_view self.old) (sure_room_view self.new) name.now (Some object.entry.held.buffer.items)) }
        ensures refused { 0 < object.entry.faults → IsErr result }
        ensures untouched { 0 < object.entry.faults → IsUntouched (sure_room_view self.old) (sure_room_view self.new) name.now }
        ensures counted { OnOk result ((sure_room_view self.new).out_faults name.now
            ≡ count_sum ((sure_room_view self.old).out_faults name.now) object.entry.faults) }
        ensures cause { HasCause (count_sum ((sure_room_view self.old).out_faults name.now) object.entry.faults)
            ((sure_room_view self.new).out_faults name.now) result }
        ensures failed_at { (sure_room_view self.new).failed_at name.now
            ≤ max ((sure_room_view self.old).failed_at name.now) (length object.entry.held.buffer.items) }

        // It fails exactly where the sink had a fault. Else the drawer has a file of what was written.
        ensures fails { is_err result ≡ not (nat_eq object.entry.faults 0) }
        ensures kept { OnOk result (Closes self.old self.new name.now (closing.Put object.entry.held) object.entry.faults) }
        ensures left { OnErr result (Closes self.old self.new name.now (closing.GivenUp object.entry.held) (count_sum object.entry.faults 1)) }
        ensures counts { HasSureCounts self.new self.old.in_faults self.old.out_faults self.old.log_faults }
    {
        let faults = object.faults();
        if faults == 0 {
            self.files
                .close(name, Closing::Put(object.into_held()), faults);
            return Ok(());
        }
        let given_up = Closing::GivenUp(object.into_held());
        self.files.close(name, given_up, faults.saturating_add(1));
        Err(Failed)
    }

    #[tactic(auto, using(crate::proofs::SureRooms::apart_closed, crate::proofs::SureRooms::closed_sort, crate::proofs::SureRooms::given_up_untouched, crate::proofs::SureRooms::output_counts, crate::proofs::SureRooms::output_failed_at))]
    fn give_up_out(&mut self, name: &str, object: SureSink<ROOM>)
        requires { (sure_room_view self.old).open_as name.now ≡ Some AsOutput }
        ensures apart { SameBut (sure_room_view self.old) (sure_room_view self.new) (name.now ∷ []) }
        ensures untouched { IsUntouched (sure_room_view self.old) (sure_room_view self.new) name.now }
        ensures lefts { (sure_room_view self.new).lefts ≡ (sure_room_view self.old).lefts }
        ensures closed { (sure_room_view self.new).open_as name.now ≡ None }
        ensures counted { (sure_room_view self.new).out_faults name.now
            ≡ count_sum ((sure_room_view self.old).out_faults name.now) object.entry.faults }
        ensures failed_at { (sure_room_view self.new).failed_at name.now
            ≤ max ((sure_room_view self.old).failed_at name.now) (length object.entry.held.buffer.items) }

        // The drawer has what it had.
        ensures kept { Closes self.old self.new name.now (closing.GivenUp object.entry.held) object.entry.faults }
        ensures counts { HasSureCounts self.new self.old.in_faults self.old.out_faults self.old.log_faults }
    {
        let faults = object.faults();
        self.files
            .close(name, Closing::GivenUp(object.into_held()), faults);
    }

    #[tactic(auto, using(crate::proofs::SureRooms::apart_closed, crate::proofs::SureRooms::closed_sort, crate::proofs::SureRooms::log_counts, crate::proofs::SureRooms::log_told, crate::proofs::SureRooms::log_is_log, crate::proofs::SureRooms::closed_log))]
    fn close_log(&mut self, name: &str, object: SureDisk<ROOM>)
        requires { (sure_room_view self.old).open_as name.now ≡ Some AsLog }
        ensures apart { SameBut (sure_room_view self.old) (sure_room_view self.new) (name.now ∷ []) }
        ensures lefts { (sure_room_view self.new).lefts ≡ (sure_room_view self.old).lefts }
        ensures closed { (sure_room_view self.new).open_as name.now ≡ None }
        ensures bytes { (sure_room_view self.old).tells ≡ true → (sure_room_view self.new).file name.now ≡ (sure_disk_view object.entry).content }
        ensures log { (sure_room_view self.old).tells ≡ true → (sure_room_view self.new).has_log name.now ≡ true }
        ensures moments { (sure_room_view self.old).tells ≡ true → SameDisk (sure_disk_view object.entry) ((sure_room_view self.new).log name.now) }
        ensures counted { (sure_room_view self.new).log_faults name.now
            ≡ count_sum ((sure_room_view self.old).log_faults name.now) (sure_disk_view object.entry).faults }

        // The drawer has the disk as its closed log.
        ensures kept { Closes self.old self.new name.now (closing.Log object.entry) object.entry.faults }
        ensures counts { HasSureCounts self.new self.old.in_faults self.old.out_faults self.old.log_faults }
    {
        let faults = object.faults();
        self.files.close(name, Closing::Log(object), faults);
    }

    ghost use Rattle.outside_sure.specs.SureRoom.{kept_untold, kept_unlogged};
    ghost use Rattle.outside_sure.specs.SurePromise.{keeps_promise};
    ghost use Rattle.std.proofs.Common.{refl};

    ghost open_untold = { λ room name. kept_untold (kept_under room name) };

    ghost open_unlogged = { λ room name. kept_unlogged (kept_under room name) };

    ghost promised = { λ room name. keeps_promise room name (kept_under room name) refl (room.files.well name) };
}
