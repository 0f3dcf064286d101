ghost use Rattle.std.specs.Prelude.{◌≡◌, ◌≤◌, length, not, is_none, IfSome, IfOk};
ghost use Rattle.std.specs.Option.{option_copied};
ghost use Rattle.outside.specs.Room.{bytes_or_none};
ghost use Rattle.outside_sure.specs.SureKept.{told_stored, can_open_drawer, drawer_opened, drawer_closed, IsNewDrawer};
ghost use Rattle.outside_sure.specs.declared.drawer.Opened.TheVariants.{Log};

use crate::SureDisk;
use crate::held::Held;
use crate::stored::Stored;
use outside::NoMemory;
use std::alloc::Global;
use std::mem;

/// What a drawer is opened as.
#[derive(Clone, Copy, Debug, PartialEq, Eq)]
pub enum Opened {
    Output,
    Log,
}

/// What a drawer is given back.
#[derive(Debug, Drop)]
pub enum Closing<const ROOM: usize> {
    /// A log, which is its file then.
    Log(SureDisk<ROOM>),
    /// The memory of an output, whose bytes are its file then.
    Put(Held<ROOM>),
    /// The memory of an output that is given up.
    GivenUp(Held<ROOM>),
}

/// A drawer for outputs and logs. It has memory for its file, and for an output beside it.
#[derive(Debug, Drop)]
pub struct Drawer<const ROOM: usize> {
    /// What it has.
    pub stored: Stored<ROOM>,
    /// The memory for an output; none while one is open.
    pub spare: Option<Held<ROOM>>,
    /// The faults of its outputs.
    pub out_faults: u64,
    /// The faults of its logs.
    pub log_faults: u64,
}

impl<const ROOM: usize> Drawer<ROOM> {
    /// A drawer with a file of these bytes, or room for one; takes its memory here.
    pub fn new(alloc: Global, bytes: Option<&[u8]>) -> Result<Self, NoMemory>
        requires { IfSome (option_copied bytes) (λ b. length b ≤ ROOM) }
        ensures { IfOk result (IsNewDrawer (option_copied bytes.entry)) }
    {
        Ok(Drawer {
            stored: Stored::new(alloc, bytes)?,
            spare: Some(Held::new(alloc)?),
            out_faults: 0,
            log_faults: 0,
        })
    }

    /// Opens it, and answers memory: for a log with the file's bytes, for an output with any. One whose log had a fault isn't opened, and
    /// counts one more.
    pub fn open(&mut self, sort: Opened) -> Option<Held<ROOM>>
        ensures none { is_none result ≡ not (can_open_drawer sort self.old) }
        ensures bytes { IfSome result (λ held. sort ≡ Log → held.buffer.items ≡ bytes_or_none (told_stored self.old.stored)) }
        ensures now { self.new ≡ drawer_opened sort self.old }
    {
        match sort {
            Opened::Output if self.log_faults == 0 => self.spare.take(),
            Opened::Log if self.log_faults == 0 => {
                mem::replace(&mut self.stored, Stored::OpenLog).into_held()
            }
            Opened::Output => {
                self.out_faults = self.out_faults.saturating_add(1);
                None
            }
            Opened::Log => {
                self.log_faults = self.log_faults.saturating_add(1);
                None
            }
        }
    }

    /// Takes back what was opened, with so many faults.
    pub fn close(&mut self, closing: Closing<ROOM>, more: u64)
        ensures { self.new ≡ drawer_closed closing.entry more self.old }
    {
        match closing {
            Closing::Log(disk) => {
                self.stored = Stored::Log(disk);
                self.log_faults = self.log_faults.saturating_add(more);
            }
            Closing::Put(held) => {
                self.spare = mem::replace(&mut self.stored, Stored::File(held)).into_memory();
                self.out_faults = self.out_faults.saturating_add(more);
            }
            Closing::GivenUp(held) => {
                self.spare = Some(held);
                self.out_faults = self.out_faults.saturating_add(more);
            }
        }
    }
}
