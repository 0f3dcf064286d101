//! A table of rows that each entry changes.
ghost use Rattle.std.specs.Prelude.{◌≡◌, IfOk, OnOk, OnErr};
ghost use Rattle.std.specs.BTreeMap.{insert_entry};
ghost use Rattle.marc_types.specs.Order.{key_cmp};
ghost use Rattle.marc_types.specs.declared.key.Class.TheVariants.{Authority};
ghost use Rattle.heading_rows.specs.Listing.{empty_table, page_at, row_in, take_entry};

use crate::heading::{Change, Heading, KeyedChange, established_row};
use crate::listing::Listing;
use crate::row::BrowsePage;
use entry_record::Preparation;
use marc_types::{Form, NoMemory};
use std::alloc::Global;
use std::marker::Model;

/// The rows that a list of entries leads to, without a catalogue. Contracts see how many entries it has taken, and the authorities
/// that are there with their rows.
#[derive(Drop)]
pub struct Table {
    listing: Listing,
    upto: u64,
}

impl Model for Table {
    ghost use Rattle.heading_rows.specs.Listing.{BrowseTable};

    ghost Value = { BrowseTable };

    ghost view = { λ t. record { upto = t.upto; listing = t.listing } };
}

impl Table {
    /// No entry was taken.
    pub fn new(alloc: Global) -> Table
        ensures { result ≡ empty_table }
    {
        Table {
            listing: Listing::new(alloc),
            upto: 0,
        }
    }

    /// Takes an entry. Want of memory changes nothing; it is told too where the number of entries would pass a u64.
    pub fn put(&mut self, alloc: Global, heading: &Heading) -> Result<(), NoMemory>
        ensures ok { OnOk result (self.new ≡ take_entry self.old heading.now) }
        ensures err { OnErr result (self.new ≡ self.old) }
    {
        let upto = self.upto.checked_add(1).ok_or(NoMemory)?;
        let KeyedChange { key, change, .. } = heading.keyed();
        match change {
            Change::Nothing => {}
            Change::TakenAway => self.listing.take_away(alloc, key)?,
            Change::Kept(row) => self.listing.keep(alloc, key, row)?,
        }
        self.upto = upto;
        Ok(())
    }

    /// An authority that stands comes into its key's place, and no entry was taken. Want of memory changes nothing.
    #[tactic(auto, using(crate::proofs::Tables::row_keyed))]
    pub fn keep(&mut self, alloc: Global, standing: &Preparation) -> Result<(), NoMemory>
        requires { standing.now.class ≡ Authority }
        ensures ok { OnOk result (self.new ≡ record {
          upto = self.old.upto;
          listing = insert_entry key_cmp self.old.listing standing.now.key (row_in standing.now.key standing.now.rec.fields);
        }) }
        ensures err { OnErr result (self.new ≡ self.old) }
    {
        let row = established_row(alloc, standing)?;
        self.listing.keep(alloc, standing.key(), &row)
    }

    /// The same authorities, behind so many entries.
    pub fn behind(self, upto: u64) -> Table
        ensures { result ≡ record { upto = upto; listing = self.listing } }
    {
        Table {
            listing: self.listing,
            upto,
        }
    }

    /// How many entries were taken.
    pub fn upto(&self) -> u64
        ensures { result ≡ self.now.upto }
    {
        self.upto
    }

    /// The first rows whose form isn't before a form, so many of them, and how many entries were taken.
    pub fn page(&self, alloc: Global, from: &Form, most: u32) -> Result<BrowsePage, NoMemory>
        ensures { IfOk result (λ page. page ≡ page_at self.now from.now most) }
    {
        let rows = self.listing.page(alloc, from, most)?;
        Ok(BrowsePage {
            upto: self.upto,
            rows,
        })
    }
}
