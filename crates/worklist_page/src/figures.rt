//! The headings of a catalogue, counted by library and by kind.
ghost use Rattle.std.specs.Prelude.{◌≡◌, fold, map, IfOk, OnOk};
ghost use Rattle.std.specs.Ordering.{nat_cmp};
ghost use Rattle.marc_types.specs.Order.{kind_rank};
ghost use Rattle.catalogue_rules.specs.State.{linkable_authorities};
ghost use Rattle.numbered_store.specs.Kept.{found_field, kept_record, shown_row};
ghost use Rattle.worklist_page.specs.Figures.{code_cmp, figures_of, mark_of, marks_at, no_figures, row_marks, shares_at, tally, tally_kind, with_class, with_mark, with_rows};

use crate::shares::Shares;
use catalogue_core::{Engine, Standing};
use heading_fields::heading_kind;
use marc_types::{Class, Key, Kind, NoMemory, Text, TryCopy};
use numbered_store::{FoundField, RowMap, StoredRecord};
use std::alloc::Global;
use std::collections::BTreeMap;
use std::marker::Model;

/// The headings of a catalogue: all, and those under each library's code and under each kind.
#[derive(Drop)]
pub struct Figures {
    totals: Shares,
    libraries: BTreeMap<Text, Shares>,
    kinds: BTreeMap<u8, Shares>,
}

impl Model for Figures {
    ghost use Rattle.worklist_page.specs.Figures.{Figured};

    ghost Value = { Figured };

    ghost view = { λ f. record { totals = f.totals; libraries = f.libraries.entries; kinds = f.kinds.entries } };
}

/// The place of a kind in the order of kinds.
fn rank(kind: Kind) -> u8
    ensures { result ≡ kind_rank kind }
{
    match kind {
        Kind::Personal => 0,
        Kind::Corporate => 1,
        Kind::Meeting => 2,
        Kind::Title => 3,
        Kind::Chronological => 4,
        Kind::Topical => 5,
        Kind::Geographic => 6,
        Kind::Genre => 7,
    }
}

/// One more field is counted under a library's code.
fn add_to_library(
    rows: &mut BTreeMap<Text, Shares>,
    alloc: Global,
    code: &Text,
    standing: &Standing,
) -> Result<(), NoMemory>
    ensures { OnOk result (rows.new.entries ≡ tally code_cmp standing.now rows.old.entries code.now) }
{
    let so_far = rows.get(code).copied().unwrap_or(Shares::none());
    let more = so_far.with(standing)?;
    rows.insert(code.copy(alloc)?, more)?;
    Ok(())
}

/// One more field is counted under a kind.
fn add_to_kind(
    rows: &mut BTreeMap<u8, Shares>,
    kind: Option<Kind>,
    standing: &Standing,
) -> Result<(), NoMemory>
    ensures { OnOk result (rows.new.entries ≡ tally_kind kind standing.now rows.old.entries) }
{
    let Some(kind) = kind else {
        return Ok(());
    };
    let place = rank(kind);
    let so_far = rows.get(&place).copied().unwrap_or(Shares::none());
    let more = so_far.with(standing)?;
    rows.insert(place, more)?;
    Ok(())
}

impl Figures {
    fn none(alloc: Global) -> Figures
        ensures { result ≡ no_figures }
    {
        Figures {
            totals: Shares::none(),
            libraries: BTreeMap::new(alloc),
            kinds: BTreeMap::new(alloc),
        }
    }

    /// All headings.
    pub fn totals(&self) -> Shares
        ensures { result ≡ self.now.totals }
    {
        self.totals
    }

    /// Those under each library's code, in the order of the codes.
    pub fn libraries(&self) -> &BTreeMap<Text, Shares>
        ensures { result.now.entries ≡ self.now.libraries }
    {
        &self.libraries
    }

    /// Those of a kind.
    pub fn of_kind(&self, kind: Kind) -> Shares
        ensures { result ≡ shares_at nat_cmp self.now.kinds (kind_rank kind) }
    {
        self.kinds
            .get(&rank(kind))
            .copied()
            .unwrap_or(Shares::none())
    }

    #[tactic(auto, unfolding(crate::specs::Figures::with_mark))]
    fn add(
        &mut self,
        alloc: Global,
        code: &Text,
        kind: Option<Kind>,
        standing: &Standing,
    ) -> Result<(), NoMemory>
        ensures { OnOk result (self.new ≡ with_mark self.old (record { code = code.now; kind = kind; standing = standing.now })) }
    {
        self.totals = self.totals.with(standing)?;
        add_to_library(&mut self.libraries, alloc, code, standing)?;
        add_to_kind(&mut self.kinds, kind, standing)
    }

    fn add_field(
        &mut self,
        alloc: Global,
        engine: &Engine,
        class: Class,
        key: &Key,
        found: &FoundField<'_>,
    ) -> Result<(), NoMemory>
        ensures { OnOk result (self.new ≡ with_mark self.old (mark_of (linkable_authorities engine.now.state) class key.now (found_field found.now))) }
    {
        let (field, tie) = found.parts();
        let standing = engine.standing(alloc, class, field, tie)?;
        self.add(alloc, &key.code, heading_kind(field, class), &standing)
    }

    // The field at a place, if there is one.
    #[tactic(auto, using(crate::proofs::Marks::marked, crate::proofs::Marks::not_marked))]
    fn add_place(
        &mut self,
        alloc: Global,
        engine: &Engine,
        class: Class,
        key: &Key,
        kept: &StoredRecord,
        place: u32,
    ) -> Result<(), NoMemory>
        ensures { OnOk result (self.new
            ≡ fold with_mark self.old (marks_at (linkable_authorities engine.now.state) class (key.now, kept_record kept.now) place)) }
    {
        match kept.found_at(alloc, place)? {
            Some(found) => self.add_field(alloc, engine, class, key, &found),
            None => Ok(()),
        }
    }

    /// The fields of a record are counted.
    fn add_record(
        &mut self,
        alloc: Global,
        engine: &Engine,
        class: Class,
        key: &Key,
        kept: &StoredRecord,
    ) -> Result<(), NoMemory>
        ensures { OnOk result (self.new ≡ fold with_mark self.old
            (row_marks (linkable_authorities engine.now.state) class (key.now, kept_record kept.now))) }
    {
        let places = kept.field_count();
        for place in 0..places {
            self.add_place(alloc, engine, class, key, kept, place)?;
        }
        Ok(())
    }

    /// The fields of rows are counted.
    #[tactic(auto, using(crate::proofs::Marks::next_row, crate::proofs::Marks::no_row))]
    fn add_rows(
        &mut self,
        alloc: Global,
        engine: &Engine,
        class: Class,
        rows: &RowMap<'_>,
    ) -> Result<(), NoMemory>
        ensures { OnOk result (self.new ≡ with_rows (linkable_authorities engine.now.state) class self.old (map shown_row rows.now.entries)) }
    {
        for (key, kept) in rows {
            self.add_record(alloc, engine, class, key, kept)?;
        }
        Ok(())
    }

    fn add_class(&mut self, alloc: Global, engine: &Engine, class: Class) -> Result<(), NoMemory>
        ensures { OnOk result (self.new ≡ with_class engine.now.state self.old class) }
    {
        let rows = engine.rows(alloc, class)?;
        self.add_rows(alloc, engine, class, &rows)
    }
}

/// The figures of a state, in one pass over its records.
#[tactic(auto, unfolding(crate::specs::Figures::figures_of))]
pub fn figures_of(alloc: Global, engine: &Engine) -> Result<Figures, NoMemory>
    ensures { IfOk result (λ figures. figures ≡ figures_of engine.now.state) }
{
    let mut figures = Figures::none(alloc);
    figures.add_class(alloc, engine, Class::Authority)?;
    figures.add_class(alloc, engine, Class::Bibliographic)?;
    Ok(figures)
}
