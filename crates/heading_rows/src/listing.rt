//! The authorities that are there, by key and by row.
ghost use Rattle.std.specs.Prelude.{◌≡◌, [], true, false, not, ◌&&◌, ◌||◌, IfOk, IsOk, OnOk, OnErr};
ghost use Rattle.std.specs.BTreeMap.{insert_entry};
ghost use Rattle.std.specs.Map.{remove_entry};
ghost use Rattle.std.specs.Set.{is_member};
ghost use Rattle.std.specs.List.Sorted.{IsStrictlySortedBy};
ghost use Rattle.marc_types.specs.Order.{key_cmp, same_key};
ghost use Rattle.heading_rows.specs.Rows.{row_cmp, same_row, page_of};
ghost use Rattle.heading_rows.specs.Listing.{IsKeyed, is_row, is_same, rows_of_listing};
ghost use Rattle.heading_rows.specs.declared.row.BrowseRow.{BrowseRow};

use crate::row::BrowseRows;
use crate::shared_row::SharedRow;
use marc_types::{Form, Key, NoMemory, Text};
use packed_keys::PackedKey;
use std::alloc::Global;
use std::collections::{BTreeMap, BTreeSet};
use std::marker::Model;

/// The authorities that are there, each under its key with its row, and these rows in order. Contracts see the authorities in key
/// order.
#[derive(Drop)]
pub(crate) struct Listing {
    authorities: BTreeMap<PackedKey, Option<SharedRow>>,
    rows: BTreeSet<SharedRow>,
}

impl Model for Listing {
    ghost use Rattle.std.specs.Prelude.{List};
    ghost use Rattle.heading_rows.specs.Listing.{AreRowsOf, Listed};

    ghost Value = { List Listed };

    ghost view = { λ l. l.authorities.entries };

    ghost invariant = { λ l. AreRowsOf l.authorities.entries l.rows.keys };
}

/// The same row, if there is one.
fn again(row: &Option<SharedRow>) -> Result<Option<SharedRow>, NoMemory>
    ensures { IfOk result (λ twin. twin ≡ row.now) }
{
    match row {
        Some(row) => Ok(Some(row.again()?)),
        None => Ok(None),
    }
}

/// Whether both are there and the same.
fn is_same(one: &Option<SharedRow>, other: &Option<SharedRow>) -> bool
    ensures { result ≡ is_same one.now other.now }
{
    match (one, other) {
        (Some(one), Some(other)) => one == other,
        _ => false,
    }
}

/// Puts a row among the rows, if there is one, and tells whether it is new there.
fn add_row(rows: &mut BTreeSet<SharedRow>, row: &Option<SharedRow>) -> Result<bool, NoMemory>
    ensures rows { OnOk result ((q : BrowseRow) → is_member same_row rows.new.keys q ≡ (is_row row.now q || is_member same_row rows.old.keys q)) }
    ensures new { IfOk result (λ added. added ≡ true → (q : BrowseRow) → is_row row.now q ≡ true → is_member same_row rows.old.keys q ≡ false) }
    ensures known { IfOk result (λ added. added ≡ false → rows.new.keys ≡ rows.old.keys) }
    ensures err { OnErr result (rows.new.keys ≡ rows.old.keys) }
{
    match row {
        Some(row) => {
            let twin = row.again()?;
            Ok(rows.insert(twin)?)
        }
        None => Ok(false),
    }
}

/// Takes a row out of the rows, if there is one.
fn drop_row(rows: &mut BTreeSet<SharedRow>, row: &Option<SharedRow>)
    ensures { (q : BrowseRow) → is_member same_row rows.new.keys q ≡ (not (is_row row.now q) && is_member same_row rows.old.keys q) }
{
    if let Some(row) = row {
        rows.remove(row);
    }
}

#[tactic(auto, using(crate::proofs::Former::former_stays, crate::proofs::Former::former_goes))]
/// Takes the row that stood under a key out of the rows, unless it is the one that stands there now.
fn drop_former(
    rows: &mut BTreeSet<SharedRow>,
    former: &Option<SharedRow>,
    standing: &Option<SharedRow>,
)
    requires { (q : BrowseRow) → is_row standing.now q ≡ true → is_member same_row rows.old.keys q ≡ true }
    ensures { (q : BrowseRow) → is_member same_row rows.new.keys q ≡ (is_row standing.now q || (not (is_row former.now q) && is_member same_row rows.old.keys q)) }
{
    if !is_same(former, standing) {
        drop_row(rows, former);
    }
}

/// The first rows whose form isn't before a form, so many of them.
fn rows_from(
    alloc: Global,
    rows: &BTreeSet<SharedRow>,
    from: &Form,
    most: u32,
) -> Result<BrowseRows, NoMemory>
    ensures page { IfOk result (λ found. found ≡ page_of rows.now.keys from.now most) }
    ensures ascending { IsOk result → IsStrictlySortedBy row_cmp rows.now.keys }
{
    let least = Key {
        code: Text::new(),
        number: Text::new(),
    };
    let first = SharedRow::of(alloc, from, &least)?;
    let mut found = Vec::new(alloc);
    for row in rows.range(first..).take(most as usize) {
        found.push(row.unpacked(alloc)?)?;
    }
    Ok(BrowseRows::from_vec(found))
}

impl Listing {
    /// No authority is there.
    pub(crate) fn new(alloc: Global) -> Listing
        ensures { result ≡ [] }
    {
        Listing {
            authorities: BTreeMap::new(alloc),
            rows: BTreeSet::new(alloc),
        }
    }

    /// An authority comes into its key's place, with its row where it has one. Want of memory changes nothing.
    pub(crate) fn keep(
        &mut self,
        alloc: Global,
        key: &Key,
        row: &Option<SharedRow>,
    ) -> Result<(), NoMemory>
        requires keyed { IsKeyed key.now row.now }
        ensures ok { OnOk result (self.new ≡ insert_entry key_cmp self.old key.now row.now) }
        ensures err { OnErr result (self.new ≡ self.old) }
    {
        let own = PackedKey::of(alloc, key)?;
        let twin = again(row)?;
        let added = add_row(&mut self.rows, row)?;
        match self.authorities.insert(own, twin) {
            Ok(former) => {
                drop_former(&mut self.rows, &former.flatten(), row);
                Ok(())
            }
            Err(_) => {
                if added {
                    drop_row(&mut self.rows, row);
                }
                Err(NoMemory)
            }
        }
    }

    /// What stands under a key goes. Want of memory changes nothing.
    pub(crate) fn take_away(&mut self, alloc: Global, key: &Key) -> Result<(), NoMemory>
        ensures ok { OnOk result (self.new ≡ remove_entry (same_key key.now) self.old) }
        ensures err { OnErr result (self.new ≡ self.old) }
    {
        let own = PackedKey::of(alloc, key)?;
        let former = self.authorities.remove(&own).flatten();
        drop_row(&mut self.rows, &former);
        Ok(())
    }

    /// The first rows whose form isn't before a form, so many of them.
    #[tactic(auto, using(crate::proofs::Members::rows_are))]
    pub(crate) fn page(&self, alloc: Global, from: &Form, most: u32) -> Result<BrowseRows, NoMemory>
        ensures { IfOk result (λ rows. rows ≡ page_of (rows_of_listing self.now) from.now most) }
    {
        rows_from(alloc, &self.rows, from, most)
    }
}
