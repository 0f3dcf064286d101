//! A window on the copy that a writer's readers take.
ghost use Rattle.std.specs.Prelude.{◌≡◌, ◌⊎◌, IsOk};
ghost use mathlib.Core.List.{IsPrefix};

use crate::board::Board;
use crate::book::{Front, Naming};
use crate::window::{Away, Window};
use heading_rows::Table;
use left_right::ReadHandle;

/// A reader's place at the copies, if it got one, and the front that it has seen.
#[derive(Drop)]
pub struct Shared<J: Naming> {
    handle: Option<ReadHandle<Board<J>>>,
    known: Front<J>,
    refused: u64,
}

impl<J: Naming> Shared<J> {
    pub(crate) fn new(handle: Option<ReadHandle<Board<J>>>, seen: Front<J>) -> Shared<J>
        ensures { result.known ≡ seen }
    {
        Shared {
            handle,
            known: seen,
            refused: 0,
        }
    }

    /// The front that it has seen.
    pub(crate) fn known(&self) -> &Front<J>
        ensures { result.now ≡ self.now.known }
    {
        &self.known
    }

    /// Whatever it shows from now on begins with the mark too.
    pub(crate) fn learn(&mut self, mark: &Front<J>)
        ensures mark { IsPrefix mark.now self.new.known }
        ensures begins { IsPrefix self.old.known self.new.known }
        ensures either { (self.new.known ≡ self.old.known) ⊎ (self.new.known ≡ mark.now) }
        ensures refused { self.new.refused ≡ self.old.refused }
    {
        if !self.known.covers(mark) {
            self.known = mark.again();
        }
    }
}

impl<J: Naming> Window for Shared<J> {
    ghost known = { λ s. s.known };

    ghost refused = { λ s. s.refused };

    fn with<T, F: FnOnce(&Table) -> T>(&mut self, read: F) -> Result<T, Away> {
        if let Some(handle) = &mut self.handle {
            if let Some(board) = handle.enter() {
                if board.front().covers(&self.known) {
                    self.known = board.front().again();
                    return Ok(read(board.table()));
                }
            }
        }
        self.refused = self.refused.saturating_add(1);
        Err(Away)
    }
}
