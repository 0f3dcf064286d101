//! What a commit asks of an entry beside its record.
ghost use Rattle.std.specs.Prelude.{◌≡◌, IfOk};
ghost use Rattle.std.specs.Option.{option_copied};
ghost use Rattle.entry_record.specs.Identity.{is_deletion};
ghost use Rattle.entry_record.specs.Prepared.{AreFacts, entry_successor, established_of, field_form_of, full_form_of, has_bare_heading, kept_entry, see_from_of};

use crate::facts::{Facts, facts_of};
use crate::headings::{forms_at, heading_forms};
use marc_types::{Class, Entry, Form, Forms, Key, NoMemory, Record, Text};
use std::alloc::Global;
use std::marker::Model;
use std::snapshot::Snapshot;

/// All that a commit asks of an entry but its record, which goes into its place. Contracts see it as the whole entry.
#[derive(Drop)]
pub struct Preparation {
    whole: Snapshot<Entry>,
    class: Class,
    key: Key,
    facts: Facts,
}

impl Model for Preparation {
    ghost use Rattle.std.specs.Prelude.{◌≡◌};
    ghost use Rattle.marc_types.specs.declared.entry.Entry.{Entry};
    ghost use Rattle.entry_record.specs.Prepared.{AreFacts};

    ghost Value = { Entry };

    ghost view = { λ p. p.whole.value };

    ghost invariant = { λ p. (p.class ≡ p.whole.value.class) × (p.key ≡ p.whole.value.key)
        × AreFacts p.whole.value.class p.whole.value.key p.whole.value.rec p.facts };
}

impl Preparation {
    /// The record of an entry, and the rest of what a commit asks of it. It takes no memory.
    pub(crate) fn of_entry(entry: Entry, facts: Facts) -> (Record, Preparation)
        requires facts { AreFacts entry.class entry.key entry.rec facts }
        ensures record { result.0 ≡ entry.rec }
        ensures rest { result.1 ≡ entry }
    {
        let whole = Snapshot::of(&entry);
        let Entry {
            rec,
            class,
            key,
            ..
        } = entry;
        let preparation = Preparation {
            whole,
            class,
            key,
            facts,
        };
        (rec, preparation)
    }

    /// A record that stands under its key already, and what a commit asks of it beside. The entry is one of no loader's, in no run.
    pub fn of_record(
        alloc: Global,
        class: Class,
        key: Key,
        rec: Record,
    ) -> Result<(Record, Preparation), NoMemory>
        ensures record { IfOk result (λ parts. parts.0 ≡ rec) }
        ensures rest { IfOk result (λ parts. parts.1 ≡ kept_entry class key rec) }
    {
        let headings = heading_forms(alloc, rec.fields.as_slice(), class)?;
        let facts = facts_of(alloc, &rec, class, &key, headings)?;
        let entry = Entry {
            loader: 0,
            ordinal: 0,
            rec,
            class,
            key,
            run: 0,
            library: Text::from_str(alloc, "")?,
        };
        Ok(Preparation::of_entry(entry, facts))
    }

    /// The class of the entry's record.
    pub fn class(&self) -> Class
        ensures { result ≡ self.now.class }
    {
        self.class
    }

    /// The key under which the record stands.
    pub fn key(&self) -> &Key
        ensures { result.now ≡ self.now.key }
    {
        &self.key
    }

    /// Whether the entry takes away what stands under its key.
    pub fn is_deletion(&self) -> bool
        ensures { result ≡ is_deletion self.now.rec.leader }
    {
        self.facts.deletes
    }

    /// Whether the heading of an authority has no subdivision; so it is where there is no heading.
    pub fn has_bare_heading(&self) -> bool
        ensures { result ≡ has_bare_heading self.now.rec.fields }
    {
        self.facts.bare
    }

    /// The form under which fields are put under the entry's authority; none where they can't be.
    pub fn established(&self) -> Option<&Form>
        ensures { option_copied result ≡ established_of self.now }
    {
        self.facts.established.as_ref()
    }

    /// The further forms under which the authority is found; none where it has no established form.
    pub fn see_from(&self) -> &Forms
        ensures { result.now ≡ see_from_of self.now }
    {
        &self.facts.see_from
    }

    /// The base form of the field at a place, counted from 0; none where there is no heading field.
    pub fn field_form(&self, field: u32) -> Option<&Form>
        ensures { option_copied result ≡ field_form_of self.now field }
    {
        match forms_at(self.facts.headings.as_slice(), field) {
            Some(forms) => Some(&forms.base),
            None => None,
        }
    }

    /// The full form of the field at a place, counted from 0; none where there is no heading field.
    pub fn full_form(&self, field: u32) -> Option<&Form>
        ensures { option_copied result ≡ full_form_of self.now field }
    {
        match forms_at(self.facts.headings.as_slice(), field) {
            Some(forms) => Some(forms.full()),
            None => None,
        }
    }

    /// The key that a replaced authority hands its links on to; none where it has no successor.
    pub fn successor(&self) -> Option<&Key>
        ensures { option_copied result ≡ entry_successor self.now }
    {
        self.facts.successor.as_ref()
    }
}
