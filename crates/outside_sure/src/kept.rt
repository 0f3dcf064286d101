ghost use Rattle.std.specs.Prelude.{◌≡◌, Some, not, is_none, IfSome};
ghost use Rattle.std.specs.Option.{option_copied};
ghost use Rattle.outside.specs.Room.{bytes_or_none};
ghost use Rattle.outside_sure.specs.SureKept.{told_kept, can_open, kept_opened, kept_closed};
ghost use Rattle.outside_sure.specs.declared.drawer.Opened.TheVariants.{Log};

use crate::SureSource;
use crate::drawer::{Closing, Drawer, Opened};
use crate::held::Held;

/// What a sure room keeps under a name.
#[derive(Debug, Drop)]
pub enum Kept<'a, const ROOM: usize> {
    /// A file that is only read.
    Input(SureSource<'a>),
    /// What is in a drawer for outputs and logs.
    InDrawer(Drawer<ROOM>),
}

impl<'a, const ROOM: usize> Kept<'a, ROOM> {
    /// The bytes of a file that isn't open as a log.
    pub fn bytes(&self) -> Option<&[u8]>
        ensures { option_copied result ≡ told_kept (Some self.now) }
    {
        match self {
            Kept::Input(source) => Some(source.bytes()),
            Kept::InDrawer(drawer) => drawer.stored.bytes(),
        }
    }

    /// Opens a drawer, and answers memory: for a log with the file's bytes, for an output with any. One whose log had a fault isn't opened,
    /// and counts one more.
    pub fn open(&mut self, sort: Opened) -> Option<Held<ROOM>>
        ensures none { is_none result ≡ not (can_open sort (Some self.old)) }
        ensures bytes { IfSome result (λ held. sort ≡ Log → held.buffer.items ≡ bytes_or_none (told_kept (Some self.old))) }
        ensures now { Some self.new ≡ kept_opened sort (Some self.old) }
    {
        match self {
            Kept::Input(_) => None,
            Kept::InDrawer(drawer) => drawer.open(sort),
        }
    }

    /// A drawer takes back what was opened, with so many faults.
    pub fn close(&mut self, closing: Closing<ROOM>, more: u64)
        ensures { Some self.new ≡ kept_closed closing.entry more (Some self.old) }
    {
        if let Kept::InDrawer(drawer) = self {
            drawer.close(closing, more);
        }
    }
}
