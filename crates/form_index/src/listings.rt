ghost use Rattle.std.specs.Prelude.{◌≡◌, ◌<◌, length, OnOk, OnErr};
ghost use Rattle.form_index.specs.Listed.{released, stepped, with_held};
ghost use Rattle.form_index.specs.Index.{HeadedInOrder, IsShortHeaded, IsShortListing, ListingInOrder, Took, TookHeaded};
ghost use Rattle.form_index.specs.Index.{headed_by, headed_step, listed, listing_step, no_headed};

use crate::among::{Among, By};
use crate::key_list::Step;
use crate::lists::Lists;
use crate::row::RowForms;
use marc_types::{Key, NoMemory};
use numbering::Numbering;
use std::alloc::Global;
use std::marker::Model;

/// The lists of some rows: by their established form, and by their see-from forms.
#[derive(Drop)]
pub(crate) struct Headings {
    established: Lists,
    see_from: Lists,
}

impl Model for Headings {
    ghost use Rattle.form_index.specs.Index.{Headed};

    ghost Value = { Headed };

    ghost view = { λ h. record { established = h.established; see_from = h.see_from } };
}

impl Headings {
    fn new(alloc: Global) -> Headings
        ensures { result ≡ no_headed }
    {
        Headings {
            established: Lists::new(alloc),
            see_from: Lists::new(alloc),
        }
    }

    fn lists(&self, by: By) -> &Lists
        ensures { result.now ≡ headed_by by self.now }
    {
        match by {
            By::Established => &self.established,
            By::SeeFrom => &self.see_from,
        }
    }

    fn hold(&mut self, alloc: Global, number: u32, row: &RowForms) -> Result<(), NoMemory>
        requires { IsShortHeaded self.old }
        ensures ok { OnOk result (TookHeaded row.now (with_held number) self.old self.new) }
        ensures err { OnErr result (self.new ≡ self.old) }
        ensures short { OnOk result (IsShortHeaded self.new) }
    {
        let established = [row.established()];
        self.established.hold(alloc, number, &established)?;
        if let Err(fault) = self.see_from.hold(alloc, number, row.see_from()) {
            self.established.release(number, &established);
            return Err(fault);
        }
        Ok(())
    }

    fn release(&mut self, number: u32, row: &RowForms)
        ensures { self.new ≡ headed_step row.now (released number) self.old }
    {
        self.established.release(number, &[row.established()]);
        self.see_from.release(number, row.see_from());
    }

    fn step(&mut self, step: Step, keys: &Numbering<Key>, number: u32, row: &RowForms)
        requires known { number < length keys.now }
        requires ordered { HeadedInOrder keys.now self.old }
        ensures stepped { self.new ≡ headed_step row.now (stepped keys.now number step) self.old }
        ensures ordered { HeadedInOrder keys.now self.new }
    {
        self.established
            .step(step, keys, number, &[row.established()]);
        self.see_from.step(step, keys, number, row.see_from());
    }
}

/// The lists of all rows, and those of the bare ones.
#[derive(Drop)]
pub(crate) struct Listings {
    all: Headings,
    bare: Headings,
}

impl Model for Listings {
    ghost use Rattle.form_index.specs.Index.{Listing};

    ghost Value = { Listing };

    ghost view = { λ l. record { all = l.all; bare = l.bare } };
}

impl Listings {
    pub(crate) fn new(alloc: Global) -> Listings
        ensures { result ≡ record { all = no_headed; bare = no_headed } }
    {
        Listings {
            all: Headings::new(alloc),
            bare: Headings::new(alloc),
        }
    }

    /// The numbers of the rows that belong to a form's list, in key order.
    pub(crate) fn live(&self, among: Among, by: By, form: u32) -> &[u32]
        ensures { result.now ≡ (listed among by form self.now).live }
    {
        match among {
            Among::All => self.all.lists(by).live(form),
            Among::Bare => self.bare.lists(by).live(form),
        }
    }

    /// Makes a place for a number in each list to which its row belongs.
    pub(crate) fn hold(
        &mut self,
        alloc: Global,
        number: u32,
        row: &RowForms,
    ) -> Result<(), NoMemory>
        requires { IsShortListing self.old }
        ensures ok { OnOk result (Took row.now (with_held number) self.old self.new) }
        ensures err { OnErr result (self.new ≡ self.old) }
        ensures short { OnOk result (IsShortListing self.new) }
    {
        self.all.hold(alloc, number, row)?;
        if row.is_bare() {
            if let Err(fault) = self.bare.hold(alloc, number, row) {
                self.all.release(number, row);
                return Err(fault);
            }
        }
        Ok(())
    }

    /// Gives up the places that these lists hold for the number.
    pub(crate) fn release(&mut self, number: u32, row: &RowForms)
        ensures { self.new ≡ listing_step row.now (released number) self.old }
    {
        self.all.release(number, row);
        if row.is_bare() {
            self.bare.release(number, row);
        }
    }

    /// Moves the number into the order of these lists, or out of it.
    pub(crate) fn step(&mut self, step: Step, keys: &Numbering<Key>, number: u32, row: &RowForms)
        requires known { number < length keys.now }
        requires ordered { ListingInOrder keys.now self.old }
        ensures stepped { self.new ≡ listing_step row.now (stepped keys.now number step) self.old }
        ensures ordered { ListingInOrder keys.now self.new }
    {
        self.all.step(step, keys, number, row);
        if row.is_bare() {
            self.bare.step(step, keys, number, row);
        }
    }
}
