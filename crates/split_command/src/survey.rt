//! What the first reading of files comes to: what the console is to be told, and a sample of keys.
ghost use Rattle.std.specs.Prelude.{◌≡◌, ◌++◌, [], true, false, IfOk, OnOk, string_bytes};
ghost use Rattle.console_lines.specs.Lines.{refused_line};
ghost use Rattle.split_command.specs.Console.{counted_line};
ghost use Rattle.split_command.specs.Surveying.{TakesKey};

use crate::sample::Sample;
use console_lines::refused_lines;
use entry_record::Prepared;
use file_entries::RefusedItem;
use marc_types::{Class, NoMemory};
use std::alloc::Global;

/// How many items of a file are accepted, and how many refused.
#[derive(Clone, Copy, Debug)]
pub struct Counts {
    pub accepted: u64,
    pub refused: u64,
}

/// What was read so far.
#[derive(Drop)]
pub struct Survey {
    pub sample: Sample,
    pub text: String,
    pub has_refused: bool,
}

/// The line of what was counted of a file.
#[tactic(auto, unfolding(crate::specs::Console::counted_line))]
fn counted_line(alloc: Global, file: &str, counts: Counts) -> Result<String, NoMemory>
    ensures { IfOk result (λ text. string_bytes text ≡ counted_line file.now counts.accepted counts.refused) }
{
    let accepted = counts.accepted;
    let refused = counts.refused;
    Ok(format!(in alloc; "{file}: accepted {accepted}, refused {refused}\n")?)
}

impl Survey {
    /// Nothing was read yet.
    pub fn new(alloc: Global) -> Survey
        ensures keys { result.sample.keys.items ≡ [] }
        ensures text { string_bytes result.text ≡ [] }
        ensures refused { result.has_refused ≡ false }
    {
        Survey {
            sample: Sample::new(alloc),
            text: String::new(alloc),
            has_refused: false,
        }
    }

    /// An entry is accepted: the key of a bibliographic one may come into the sample.
    pub fn accept(&mut self, alloc: Global, prepared: &Prepared) -> Result<(), NoMemory>
        ensures keys { OnOk result (TakesKey prepared.now self.old.sample.keys.items self.new.sample.keys.items) }
        ensures text { string_bytes self.new.text ≡ string_bytes self.old.text }
        ensures refused { self.new.has_refused ≡ self.old.has_refused }
    {
        let entry = prepared.entry();
        match entry.class {
            Class::Authority => Ok(()),
            Class::Bibliographic => self.sample.offer(&entry.key, alloc),
        }
    }

    /// An item of a file is refused.
    pub fn refuse(&mut self, alloc: Global, file: &str, item: &RefusedItem) -> Result<(), NoMemory>
        ensures text { OnOk result (string_bytes self.new.text ≡ string_bytes self.old.text ++ refused_line file.now item.now) }
        ensures keys { self.new.sample ≡ self.old.sample }
        ensures refused { OnOk result (self.new.has_refused ≡ true) }
    {
        let line = refused_lines(alloc, file, &[*item])?;
        self.text.push_str(line.as_str())?;
        self.has_refused = true;
        Ok(())
    }

    /// A file was read to its end.
    pub fn count(&mut self, alloc: Global, file: &str, counts: Counts) -> Result<(), NoMemory>
        ensures text { OnOk result (string_bytes self.new.text ≡ string_bytes self.old.text ++ counted_line file.now counts.accepted counts.refused) }
        ensures keys { self.new.sample ≡ self.old.sample }
        ensures refused { self.new.has_refused ≡ self.old.has_refused }
    {
        let line = counted_line(alloc, file, counts)?;
        self.text.push_str(line.as_str())?;
        Ok(())
    }
}
