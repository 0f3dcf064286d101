ghost use Rattle.std.specs.Prelude.{◌≡◌, ◌≢◌, ℕ, List, false};
ghost use Rattle.outside_real.specs.Held.{has_file, Holds};

use crate::cause::Cause;
use crate::opening::{OpenedAs, opened};
use std::alloc::Global;
use std::collections::BTreeMap;
use std::fs::File;
use std::rt::Files;

/// The files that were opened, by their names. Each is held until its name is opened again or all are dropped, and so also
/// when what was opened is closed.
#[derive(Drop)]
pub struct HeldFiles {
    pub files: BTreeMap<String, File>,
    /// The new files of outputs, by the outputs' names.
    drafts: BTreeMap<String, File>,
}

impl HeldFiles {
    /// No file is held.
    pub fn new(alloc: Global) -> Self
        ensures { (n : List ℕ) → has_file result n ≡ false }
    {
        HeldFiles {
            files: BTreeMap::new(alloc),
            drafts: BTreeMap::new(alloc),
        }
    }

    /// Opens the file of that name, which then has the bytes that it had.
    pub fn open<R: Files<File = File>>(
        &mut self,
        alloc: Global,
        rt: &R,
        name: &str,
        sort: OpenedAs,
    ) -> Result<File, Cause>
        ensures holds { Holds self.old self.new name.now result }
    {
        self.let_draft_go(name);
        self.let_go(name);
        let file = opened(rt, name, sort)?;
        self.keep(alloc, name, &file)?;
        Ok(file)
    }

    /// Holds the new file of an output of that name, where there is one, as long as the file of that name.
    pub fn hold_draft(
        &mut self,
        alloc: Global,
        name: &str,
        draft: Option<&File>,
    ) -> Result<(), Cause>
        ensures files { (n : List ℕ) → has_file self.new n ≡ has_file self.old n }
    {
        let Some(file) = draft else {
            return Ok(());
        };
        let Ok(key) = String::from_str(alloc, name) else {
            return Err(Cause::NoMemory);
        };
        let Ok(again) = file.try_clone() else {
            return Err(Cause::Other);
        };
        match self.drafts.insert(key, again) {
            Ok(_) => Ok(()),
            Err(_) => Err(Cause::NoMemory),
        }
    }

    fn let_draft_go(&mut self, name: &str)
        ensures files { (n : List ℕ) → has_file self.new n ≡ has_file self.old n }
    {
        self.drafts.remove(name);
    }

    // A second handle of one opening holds the file as long as the first.
    fn keep(&mut self, alloc: Global, name: &str, file: &File) -> Result<(), Cause>
        ensures holds { Holds self.old self.new name.now result }
    {
        let Ok(key) = String::from_str(alloc, name) else {
            return Err(Cause::NoMemory);
        };
        let Ok(again) = file.try_clone() else {
            return Err(Cause::Other);
        };
        match self.files.insert(key, again) {
            Ok(_) => Ok(()),
            Err(_) => Err(Cause::NoMemory),
        }
    }

    fn let_go(&mut self, name: &str)
        ensures gone { has_file self.new name.now ≡ false }
        ensures others { (n : List ℕ) → n ≢ name.now → has_file self.new n ≡ has_file self.old n }
    {
        self.files.remove(name);
    }
}
