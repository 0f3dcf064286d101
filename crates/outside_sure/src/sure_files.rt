ghost use Rattle.std.specs.Prelude.{◌≡◌, ◌≢◌, ℕ, ◌<◌, List, [], length, Some, None, IfSome, IfNone, IfOk, OnOk, OnErr, not, is_none};
ghost use Rattle.std.specs.Option.{option_copied};
ghost use Rattle.outside.specs.Room.{bytes_or_none};
ghost use Rattle.outside_sure.specs.SureKept.{told_kept, kept_sort, can_open, kept_opened, kept_closed, closing_sort, IsFull, IsKeptWell};
ghost use Rattle.outside_sure.specs.SureFiles.{kept_in, IsAt, IsUncalled, ChangesKept, ChangesKeptAt};
ghost use Rattle.outside_sure.specs.SureWell.{are_kept_well_prop};
ghost use Rattle.outside_sure.specs.declared.drawer.Opened.TheVariants.{Log};

use crate::drawer::{Closing, Opened};
use crate::held::Held;
use crate::kept::Kept;
use outside::NoMemory;
use std::alloc::Global;

/// A name, and what is kept under it.
#[derive(Debug, Drop)]
pub struct SureFile<'a, const ROOM: usize> {
    pub name: String,
    pub kept: Kept<'a, ROOM>,
}

/// What a sure room keeps, by name.
#[derive(Debug, Drop)]
pub struct SureFiles<'a, const ROOM: usize> {
    items: Vec<SureFile<'a, ROOM>>,
    ghost well: { (n : List ℕ) → IsKeptWell (kept_in items.items n) } by { are_kept_well_prop items.items },
}

// The place of the entry of that name.
#[tactic(auto, using(crate::proofs::Kepts::place_is, crate::proofs::Kepts::none_more, crate::proofs::Kepts::none_is, crate::proofs::Kepts::none_yet))]
fn place_of<'a, const ROOM: usize>(files: &[SureFile<'a, ROOM>], name: &str) -> Option<usize>
    ensures found { IfSome result (IsAt files.now name.now) }
    ensures missing { IfNone result (IsUncalled files.now name.now) }
{
    for place in 0..files.len() {
        if files[place].name.as_str() == name {
            return Some(place);
        }
    }
    None
}

// Adds an entry.
#[tactic(auto, using(crate::proofs::Kepts::kept_entered))]
fn add<'a, const ROOM: usize>(
    alloc: Global,
    files: &mut Vec<SureFile<'a, ROOM>>,
    name: &str,
    kept: Kept<'a, ROOM>,
) -> Result<(), NoMemory>
    requires { IsUncalled files.old.items name.now }
    ensures ok { OnOk result (ChangesKept files.old.items files.new.items name.now (Some kept.entry)) }
    ensures err { OnErr result (files.new.items ≡ files.old.items) }
{
    let own = String::from_str(alloc, name)?;
    files.push(SureFile { name: own, kept })?;
    Ok(())
}

// Keeps something else at that place.
fn replace<'a, const ROOM: usize>(
    files: &mut Vec<SureFile<'a, ROOM>>,
    place: usize,
    kept: Kept<'a, ROOM>,
)
    requires { place < length files.old.items }
    ensures { (name : List ℕ) → IsAt files.old.items name place → ChangesKept files.old.items files.new.items name (Some kept.entry) }
{
    let file = &mut files[place];
    file.kept = kept;
}

// Opens what is kept at that place.
fn open_at<'a, const ROOM: usize>(
    files: &mut Vec<SureFile<'a, ROOM>>,
    place: usize,
    sort: Opened,
) -> Option<Held<ROOM>>
    requires { place < length files.old.items }
    ensures none { (name : List ℕ) → IsAt files.old.items name place → is_none result ≡ not (can_open sort (kept_in files.old.items name)) }
    ensures bytes { IfSome result (λ held. (name : List ℕ) → IsAt files.old.items name place
        → sort ≡ Log → held.buffer.items ≡ bytes_or_none (told_kept (kept_in files.old.items name))) }
    ensures now { ChangesKeptAt files.old.items files.new.items place (kept_opened sort) }
{
    let file = &mut files[place];
    file.kept.open(sort)
}

// Closes what is kept at that place.
fn close_at<'a, const ROOM: usize>(
    files: &mut Vec<SureFile<'a, ROOM>>,
    place: usize,
    closing: Closing<ROOM>,
    more: u64,
)
    requires { place < length files.old.items }
    ensures { ChangesKeptAt files.old.items files.new.items place (kept_closed closing.entry more) }
{
    let file = &mut files[place];
    file.kept.close(closing, more);
}

impl<'a, const ROOM: usize> SureFiles<'a, ROOM> {
    /// Nothing.
    #[tactic(auto, using(crate::proofs::Kepts::kept_in_none, crate::proofs::Kepts::well_none))]
    pub fn new(alloc: Global) -> Self
        ensures { (n : List ℕ) → kept_in result.items.items n ≡ None }
    {
        SureFiles {
            items: Vec::new(alloc),
        }
    }

    /// What is kept under that name.
    #[tactic(auto, using(crate::proofs::Kepts::kept_at, crate::proofs::Kepts::kept_nowhere))]
    pub fn under(&self, name: &str) -> Option<&Kept<'a, ROOM>>
        ensures { option_copied result ≡ kept_in self.now.items.items name.now }
    {
        let place = place_of(&self.items, name)?;
        Some(&self.items[place].kept)
    }

    /// Keeps this under that name, in place of what was there.
    #[tactic(auto, using(crate::proofs::Kepts::well_changed))]
    pub fn keep(&mut self, alloc: Global, name: &str, kept: Kept<'a, ROOM>) -> Result<(), NoMemory>
        requires { IsKeptWell (Some kept) }
        ensures ok { OnOk result (ChangesKept self.old.items.items self.new.items.items name.now (Some kept.entry)) }
        ensures err { OnErr result (self.new.items.items ≡ self.old.items.items) }
    {
        match place_of(&self.items, name) {
            Some(place) => replace(&mut self.items, place, kept),
            None => add(alloc, &mut self.items, name, kept)?,
        }
        Ok(())
    }

    /// Opens a drawer that isn't open, and answers memory: for a log with the file's bytes, for an output with any. One whose log had a fault
    /// isn't opened, and counts one more.
    #[tactic(auto, using(crate::proofs::Kepts::well_changed, crate::proofs::Kepts::well_opened, crate::proofs::Kepts::opened_nowhere, crate::proofs::Kepts::ready_nowhere))]
    pub fn open(&mut self, name: &str, sort: Opened) -> Option<Held<ROOM>>
        requires { kept_sort (kept_in self.old.items.items name.now) ≡ None }
        ensures none { is_none result ≡ not (can_open sort (kept_in self.old.items.items name.now)) }
        ensures bytes { IfSome result (λ held. sort ≡ Log → held.buffer.items ≡ bytes_or_none (told_kept (kept_in self.old.items.items name.now))) }
        ensures now { ChangesKept self.old.items.items self.new.items.items name.now
            (kept_opened sort (kept_in self.old.items.items name.now)) }
    {
        let place = place_of(&self.items, name)?;
        open_at(&mut self.items, place, sort)
    }

    /// The drawer of that name takes back what was opened, with so many faults.
    #[tactic(auto, using(crate::proofs::Kepts::well_changed, crate::proofs::Kepts::well_closed, crate::proofs::Kepts::closed_nowhere))]
    pub fn close(&mut self, name: &str, closing: Closing<ROOM>, more: u64)
        requires is_open { kept_sort (kept_in self.old.items.items name.now) ≡ Some (closing_sort closing) }
        requires full { IsFull closing more }
        ensures { ChangesKept self.old.items.items self.new.items.items name.now
            (kept_closed closing.entry more (kept_in self.old.items.items name.now)) }
    {
        if let Some(place) = place_of(&self.items, name) {
            close_at(&mut self.items, place, closing, more);
        }
    }
}
