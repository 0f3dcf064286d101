//! Entries, each with all that a catalogue asks of it.
ghost use Rattle.std.specs.Prelude.{◌≡◌, ◌≤◌, None, map, IsTrue, IfOk, OnOk, IfErr};
ghost use Rattle.std.specs.Option.{option_copied};
ghost use Rattle.marc_types.specs.Valid.{is_code};
ghost use Rattle.entry_record.specs.Admission.{admission_refusal};
ghost use Rattle.entry_record.specs.History.{IsAdmitted, entry_size, in_run};
ghost use Rattle.entry_record.specs.Answers.{IsRefusalOf};
ghost use Rattle.entry_record.specs.Headings.{heading_forms};
ghost use Rattle.entry_record.specs.Identity.{is_deletion};
ghost use Rattle.entry_record.specs.Prepared.{established_of, new_entry};

use crate::admission::{Examined, examine};
use crate::facts::{Facts, facts_of};
use crate::headings::Headings;
use crate::identity::class_of;
use crate::preparation::Preparation;
use iso2709_record::encoded_len;
use marc_types::{Entry, Form, NoMemory, Record, RecordFault, Text, TryCopy};
use std::alloc::Global;
use std::marker::Model;

/// What an entry counts besides its written record: the ordinal, and the record's length.
const HEAD_LEN: u64 = 12;

/// An entry that a catalogue takes, with its size and all that a commit asks of it, each found once. Contracts see it as the entry.
#[derive(Debug, Drop)]
pub struct Prepared {
    entry: Entry,
    size: u64,
    facts: Facts,
}

impl Model for Prepared {
    ghost use Rattle.std.specs.Prelude.{◌≡◌};
    ghost use Rattle.marc_types.specs.declared.entry.Entry.{Entry};
    ghost use Rattle.entry_record.specs.History.{IsAdmitted, entry_size};
    ghost use Rattle.entry_record.specs.Prepared.{AreFacts};

    ghost Value = { Entry };

    ghost view = { λ p. p.entry };

    ghost invariant = { λ p. IsAdmitted p.entry × (p.size ≡ entry_size p.entry) × AreFacts p.entry.class p.entry.key p.entry.rec p.facts };
}

impl Prepared {
    /// The entry; a catalogue takes it.
    pub fn entry(&self) -> &Entry
        ensures value { result.now ≡ self.now }
        ensures admitted { IsAdmitted self.now }
    {
        &self.entry
    }

    /// The entry's record, and what else a commit asks of the entry. It takes no memory.
    pub fn into_parts(self) -> (Record, Preparation)
        ensures record { result.0 ≡ self.rec }
        ensures rest { result.1 ≡ self }
        ensures admitted { IsAdmitted self }
    {
        let Prepared { entry, facts, .. } = self;
        Preparation::of_entry(entry, facts)
    }

    /// Whether the entry takes away what stands under its key.
    pub fn is_deletion(&self) -> bool
        ensures { result ≡ is_deletion self.now.rec.leader }
    {
        self.facts.deletes
    }

    /// The form under which fields are put under the entry's authority; none where they can't be.
    pub fn established(&self) -> Option<&Form>
        ensures { option_copied result ≡ established_of self.now }
    {
        self.facts.established.as_ref()
    }

    /// Puts the entry into a run; takes no memory.
    pub fn set_run(&mut self, run: u64)
        ensures { self.new ≡ in_run run self.old }
    {
        self.entry.run = run;
    }

    /// What the entry counts against the limit in bytes: 12, and its written record.
    #[tactic(auto, using(crate::proofs::Admitted::admitted_length))]
    pub fn size(&self) -> u64
        ensures value { result ≡ entry_size self.now }
        ensures small { result ≤ 100011 }
    {
        self.size
    }
}

impl TryCopy for Prepared {
    fn copy(&self, alloc: Global) -> Result<Self, NoMemory> {
        Ok(Prepared {
            entry: self.entry.copy(alloc)?,
            size: self.size,
            facts: self.facts.copy(alloc)?,
        })
    }
}

#[tactic(auto, using(crate::proofs::Admitted::admitted_length))]
fn prepare_entry(alloc: Global, entry: Entry, headings: Headings) -> Result<Prepared, NoMemory>
    requires admitted { IsAdmitted entry }
    requires headings { headings ≡ map (heading_forms entry.class) entry.rec.fields }
    ensures { IfOk result (λ made. made ≡ entry) }
{
    let facts = facts_of(alloc, &entry.rec, entry.class, &entry.key, headings)?;
    let size = HEAD_LEN + encoded_len(&entry.rec);
    Ok(Prepared { entry, size, facts })
}

/// The entry of a record in a file of that library code, as the piece of that ordinal, counted from 1, that the loader
/// brings. A record is refused for the first reason that there is against it.
pub fn admit(
    alloc: Global,
    rec: Record,
    code: &Text,
    loader: u32,
    ordinal: u64,
) -> Result<Prepared, RecordFault>
    requires library { IsTrue (is_code code.now) }
    requires ordinal { 1 ≤ ordinal }
    ensures entry { IfOk result (λ made. made ≡ new_entry code.now loader ordinal rec) }
    ensures taken { OnOk result (admission_refusal code.now rec.leader rec.fields ≡ None) }
    ensures refused { IfErr result (IsRefusalOf (admission_refusal code.now rec.leader rec.fields)) }
{
    let Examined { key, headings } = examine(alloc, &rec, code)?;
    let class = class_of(&rec.leader);
    let library = code.copy(alloc)?;
    let entry = Entry {
        loader,
        ordinal,
        rec,
        class,
        key,
        run: 0,
        library,
    };
    Ok(prepare_entry(alloc, entry, headings)?)
}
