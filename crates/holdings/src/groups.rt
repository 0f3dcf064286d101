//! The holdings of each record.
ghost use Rattle.std.specs.Prelude.{◌≡◌, ◌≤◌, length, IfOk, OnOk};
ghost use Rattle.std.specs.List.{flat_map};
ghost use Rattle.std.specs.List.Sorted.{IsSorted, IsStable};
ghost use Rattle.std.specs.Io.KnownBytes.{Appends};
ghost use Rattle.marc_types.specs.Order.{key_cmp};
ghost use Rattle.outside.specs.Fault.{HasCause};
ghost use Rattle.outside.specs.Sink.{WritesFront};
ghost use Rattle.holdings.specs.Shelves.{written_holding, target_of_row, holdings_of};
ghost use Rattle.holdings.specs.ByTarget.{target_cmp, is_below_key, is_upto_key, IsPlace};

use crate::packed::PackedHolding;
use crate::shelf::HoldingShelf;
use marc_types::{Key, NoMemory};
use outside::{Failed, Sink};
use packed_keys::PackedKey;
use std::alloc::{AllocError, Global};
use std::cmp::Ordering;
use std::marker::Model;

/// A holding that a shelf lends.
#[derive(Drop)]
pub(crate) struct LentHolding<'a> {
    key: &'a PackedKey,
    held: &'a PackedHolding,
}

impl<'a> Model for LentHolding<'a> {
    ghost use Rattle.holdings.specs.Shelves.{ShelfRow};

    ghost Value = { ShelfRow };

    ghost view = { λ h. (h.key.now, h.held.now) };
}

impl LentHolding<'_> {
    /// How the target compares with a key.
    #[tactic(auto, unfolding(marc_types::specs::Order::key_cmp))]
    fn cmp_target(&self, key: &Key) -> Ordering
        ensures { result ≡ key_cmp (target_of_row self.now) key.now }
    {
        self.key
            .code()
            .cmp(key.code.as_bytes())
            .then_with(|| self.held.target_number().cmp(key.number.as_bytes()))
    }

    /// How the target compares with that of another.
    #[tactic(auto, unfolding(crate::specs::ByTarget::target_cmp, marc_types::specs::Order::key_cmp))]
    fn cmp_targets(&self, other: &Self) -> Ordering
        ensures { result ≡ target_cmp self.now other.now }
    {
        self.key.code().cmp(other.key.code()).then_with(|| self
            .held
            .target_number()
            .cmp(other.held.target_number()))
    }
}

/// The holdings on a shelf in the order of their keys, as they are lent.
fn lent<'a>(alloc: Global, shelf: &'a HoldingShelf) -> Result<Vec<LentHolding<'a>>, NoMemory>
    ensures { IfOk result (λ rows. rows.items ≡ shelf.now) }
{
    let mut rows = Vec::with_capacity(alloc, shelf.len() as usize)?;
    for (key, held) in shelf.rows() {
        rows.push(LentHolding { key, held })?;
    }
    Ok(rows)
}

/// Brings holdings into the order of their targets. Those of one target stay as they stand.
fn sort_by_target(rows: &mut Vec<LentHolding<'_>>) -> Result<(), AllocError>
    ensures sorted { OnOk result (IsSorted target_cmp rows.new.items) }
    ensures stable { IsStable target_cmp rows.old.items rows.new.items }
{
    rows.sort_by(|one, other| one.cmp_targets(other))
}

/// How many targets are before a key.
fn count_below(rows: &[LentHolding<'_>], key: &Key) -> usize
    requires { IsSorted target_cmp rows.now }
    ensures bound { result ≤ length rows.now }
    ensures place { IsPlace (is_below_key key.now) rows.now result }
{
    rows.partition_point(|row| row.cmp_target(key).is_lt())
}

/// How many targets are before a key, or the same.
fn count_upto(rows: &[LentHolding<'_>], key: &Key) -> usize
    requires { IsSorted target_cmp rows.now }
    ensures bound { result ≤ length rows.now }
    ensures place { IsPlace (is_upto_key key.now) rows.now result }
{
    rows.partition_point(|row| row.cmp_target(key).is_le())
}

/// The holdings of the record under a key among some in the order of their targets.
fn group_in<'r, 'a>(rows: &'r [LentHolding<'a>], key: &Key) -> &'r [LentHolding<'a>]
    requires { IsSorted target_cmp rows.now }
    ensures { result.now ≡ holdings_of key.now rows.now }
{
    let first = count_below(rows, key);
    let end = count_upto(rows, key);
    &rows[first..end]
}

/// The holdings on a shelf by the records that they belong to. Contracts see them as the shelf.
#[derive(Drop)]
pub struct HoldingGroups<'a> {
    shelf: &'a HoldingShelf,
    rows: Vec<LentHolding<'a>>,
}

impl<'a> Model for HoldingGroups<'a> {
    ghost use Rattle.std.specs.Prelude.{List};
    ghost use Rattle.holdings.specs.Shelves.{ShelfRow};
    ghost use Rattle.holdings.specs.ByTarget.{IsByTarget};

    ghost Value = { List ShelfRow };

    ghost view = { λ g. g.shelf.now };

    ghost invariant = { λ g. IsByTarget g.shelf.now g.rows.items };
}

impl<'a> HoldingGroups<'a> {
    /// The groups of a shelf. All their memory is taken here.
    pub fn of(alloc: Global, shelf: &'a HoldingShelf) -> Result<HoldingGroups<'a>, NoMemory>
        ensures { IfOk result (λ groups. groups ≡ shelf.now) }
    {
        let mut rows = lent(alloc, shelf)?;
        // a record's holdings stay in the order of their own keys
        sort_by_target(&mut rows)?;
        Ok(HoldingGroups { shelf, rows })
    }

    /// The holdings of the record under a key, in the order of their own keys.
    fn group(&self, key: &Key) -> &[LentHolding<'a>]
        ensures { result.now ≡ holdings_of key.now self.now }
    {
        group_in(self.rows.as_slice(), key)
    }

    /// Writes the holdings of the record under a key, in the order of their own keys. After `Failed` some front of that was
    /// written.
    #[tactic(auto, using(outside::proofs::Fronts::writing_begun, outside::proofs::Fronts::writing_done))]
    pub fn write_group<K: Sink>(&self, key: &Key, out: &mut K) -> Result<(), Failed>
        ensures bytes { OnOk result (Appends (K.written out.old) (K.written out.new) (flat_map written_holding (holdings_of key.now self.now))) }
        ensures front { WritesFront (K.written out.old) (K.written out.new) (flat_map written_holding (holdings_of key.now self.now)) }
        ensures cause { HasCause (K.faults out.old) (K.faults out.new) result }
    {
        for row in self.group(key) {
            out.write_all(row.held.written())?;
        }
        Ok(())
    }
}
