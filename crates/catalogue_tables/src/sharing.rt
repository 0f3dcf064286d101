//! Authorities that share the form of a heading, and those under whose heading one is found: by the index, without a scan.
ghost use Rattle.std.specs.Prelude.{◌≡◌, ◌++◌, not, filter, IfOk, OnOk, option_and_then, slice_get};
ghost use Rattle.std.specs.List.Sorted.{IsStrictlySortedBy};
ghost use Rattle.std.specs.Option.{option_copied, option_to_list};
ghost use Rattle.marc_types.specs.Order.{key_cmp, same_key};
ghost use Rattle.form_index.specs.Index.{row_under};
ghost use Rattle.catalogue_tables.specs.Choosing.{AnswersAs, number_known};
ghost use Rattle.catalogue_tables.specs.Lent.{keys_at};
ghost use Rattle.catalogue_tables.specs.Sharing.{AreHeaded, established_in, keys_crossing, keys_sharing, shown_keys};
ghost use Rattle.catalogue_tables.specs.Answers.{AreHeadedByAny};
ghost use Rattle.catalogue_tables.specs.Gathering.{AddsKeys};

use crate::tables::CatalogueTables;
use form_index::{Among, Candidates, RowForms};
use marc_types::{Key, NoMemory};
use numbering::Numbering;
use std::alloc::Global;
use std::collections::BTreeSet;

fn established_in(candidates: Candidates<'_>) -> &[u32]
    ensures { result.now ≡ established_in candidates.entry }
{
    match candidates {
        Candidates::Established(numbers) => numbers,
        Candidates::SeeFrom(_) | Candidates::Nobody => &[],
    }
}

fn lend_at<'a>(
    found: &mut Vec<&'a Key>,
    keys: &'a Numbering<Key>,
    number: u32,
) -> Result<(), NoMemory>
    ensures { OnOk result (shown_keys found.new.items ≡ shown_keys found.old.items ++ option_to_list (slice_get keys.now number)) }
{
    let Some(key) = keys.at(number) else {
        return Ok(());
    };
    found.push(key)?;
    Ok(())
}

fn lent_keys<'a>(
    alloc: Global,
    keys: &'a Numbering<Key>,
    numbers: &[u32],
) -> Result<Vec<&'a Key>, NoMemory>
    ensures { IfOk result (λ found. shown_keys found.items ≡ keys_at keys.now numbers.now) }
{
    let mut found = Vec::with_capacity(alloc, numbers.len())?;
    for number in numbers {
        lend_at(&mut found, keys, *number)?;
    }
    Ok(found)
}

fn add_at<'a>(
    found: &mut BTreeSet<&'a Key>,
    keys: &'a Numbering<Key>,
    number: u32,
) -> Result<(), NoMemory>
    ensures { OnOk result (AddsKeys (shown_keys found.old.keys) (option_to_list (slice_get keys.now number)) (shown_keys found.new.keys)) }
{
    let Some(key) = keys.at(number) else {
        return Ok(());
    };
    found.insert(key)?;
    Ok(())
}

fn add_keys<'a>(
    found: &mut BTreeSet<&'a Key>,
    keys: &'a Numbering<Key>,
    numbers: &[u32],
) -> Result<(), NoMemory>
    ensures { OnOk result (AddsKeys (shown_keys found.old.keys) (keys_at keys.now numbers.now) (shown_keys found.new.keys)) }
{
    for number in numbers {
        add_at(found, keys, *number)?;
    }
    Ok(())
}

/// The keys of a set but one, in their order.
fn others<'a>(alloc: Global, found: BTreeSet<&'a Key>, own: &Key) -> Result<Vec<&'a Key>, NoMemory>
    ensures are { IfOk result (λ list. shown_keys list.items ≡ filter (λ k. not (same_key own.now k)) (shown_keys found.entry.keys)) }
    ensures ordered { IsStrictlySortedBy key_cmp (shown_keys found.entry.keys) }
{
    let mut list = Vec::new(alloc);
    for key in found {
        if own != key {
            list.push(key)?;
        }
    }
    Ok(list)
}

impl CatalogueTables {
    /// The keys of all authorities whose heading has the form of that of a key's authority, in key order; none where the key has
    /// none.
    pub fn sharing<'a>(
        &self,
        alloc: Global,
        keys: &'a Numbering<Key>,
        key: &Key,
    ) -> Result<Vec<&'a Key>, NoMemory>
        ensures { IfOk result (λ found. AnswersAs self.now.forms keys.now self.now.index (keys_sharing key.now) (shown_keys found.items)) }
    {
        let Some(row) = self.row_of(keys, key) else {
            return Ok(Vec::new(alloc));
        };
        lent_keys(alloc, keys, self.headed(row.established()))
    }

    /// The keys of the other authorities under whose heading a key's authority is found, in key order; none where the key has
    /// none.
    pub fn crossing<'a>(
        &self,
        alloc: Global,
        keys: &'a Numbering<Key>,
        key: &Key,
    ) -> Result<Vec<&'a Key>, NoMemory>
        ensures { IfOk result (λ found. AnswersAs self.now.forms keys.now self.now.index (keys_crossing key.now) (shown_keys found.items)) }
    {
        let Some(row) = self.row_of(keys, key) else {
            return Ok(Vec::new(alloc));
        };
        let found = self.headed_by_any(alloc, keys, row.see_from())?;
        others(alloc, found, key)
    }

    /// The row of the authority under a key.
    fn row_of(&self, keys: &Numbering<Key>, key: &Key) -> Option<&RowForms>
        ensures { option_copied result ≡ option_and_then (λ number. row_under number self.now.index) (number_known keys.now key.now) }
    {
        let Some(number) = keys.number_of(key) else {
            return None;
        };
        self.index.row(number)
    }

    /// The authorities with a form as their heading, by the numbers of their keys, in key order.
    fn headed(&self, form: u32) -> &[u32]
        ensures { AreHeaded form self.now.index result.now }
    {
        established_in(self.index.candidates(form, Among::All))
    }

    /// The keys of the authorities with one of the forms as their heading.
    fn headed_by_any<'a>(
        &self,
        alloc: Global,
        keys: &'a Numbering<Key>,
        forms: &[u32],
    ) -> Result<BTreeSet<&'a Key>, NoMemory>
        ensures { IfOk result (λ found. AreHeadedByAny keys.now self.now.index forms.now (shown_keys found.keys)) }
    {
        let mut found = BTreeSet::new(alloc);
        for form in forms {
            add_keys(&mut found, keys, self.headed(*form))?;
        }
        Ok(found)
    }
}
