//! A history, taken entry by entry: its catalogue, and who brought its entries.
ghost use Rattle.std.specs.Prelude.{◌≡◌, ◌<◌, []};
ghost use Rattle.durable_catalogue.specs.Loading.{IsBuilt};
ghost use Rattle.worklist_page.specs.Brought.{brought_by};

use durable_catalogue::Building;
use entry_record::Prepared;
use journal_files::EntryTaker;
use marc_types::{Limits, NoMemory};
use std::alloc::Global;
use std::sync::ledger::{Blank, Ledger};
use worklist_page::Brought;

/// A catalogue of the entries so far, and how many of them each loader brought.
#[derive(Drop)]
pub(crate) struct CataloguingAndCounting<L: Ledger> {
    pub(crate) building: Building<L>,
    pub(crate) brought: Brought,
}

impl<L: Ledger> CataloguingAndCounting<L> {
    /// Of no entry, with the most that the catalogue takes.
    pub(crate) fn new(alloc: Global, limits: Limits, blank: Blank) -> CataloguingAndCounting<L>
        requires name { blank.name ≡ L.name }
        requires parts { blank.parts ≡ L.parts }
        requires shared { 0 < blank.parts }
        ensures limits { result.building.limits ≡ limits }
        ensures built { IsBuilt result.building.limits [] result.building.core }
        ensures brought { result.brought ≡ brought_by [] }
    {
        let building = Building::new(alloc, limits, blank);
        let brought = Brought::new(alloc);
        CataloguingAndCounting { building, brought }
    }
}

impl<L: Ledger> EntryTaker for CataloguingAndCounting<L> {
    ghost use Rattle.std.specs.Prelude.{◌≡◌};
    ghost use Rattle.durable_catalogue.specs.Loading.{IsBuilt};
    ghost use Rattle.worklist_page.specs.Brought.{brought_by};

    ghost has = { λ begun l entries. (l.building.limits ≡ begun.building.limits)
        × IsBuilt l.building.limits entries l.building.core × (l.brought ≡ brought_by entries) };

    fn take(&mut self, alloc: Global, item: Prepared) -> Result<(), NoMemory> {
        self.brought.count(alloc, item.entry())?;
        self.building.take(alloc, item)
    }
}
