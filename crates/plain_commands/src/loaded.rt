ghost use Rattle.std.specs.Prelude.{◌≡◌, ◌≤◌, OnOk, OnErr, IfErr, [], length, nat_lt};
ghost use Rattle.marc_types.specs.Limits.{most_entries};
ghost use Rattle.catalogue_core.specs.Catalogues.{IsDue};
ghost use Rattle.catalogue_rules.specs.Receipts.{receipts_behind};
ghost use Rattle.console_lines.specs.Totals.{totals_of};
ghost use Rattle.plain_commands.specs.Totals.{holding, sums_behind, IsWithinLimits};
ghost use Rattle.plain_commands.specs.Loading.{nothing_loaded, lacks_room, with_accepted, with_refused};

use catalogue_core::{Catalogue, CoreFault};
use catalogue_rules::Steps;
use console_lines::Totals;
use entry_record::Prepared;
use file_entries::RefusedItem;
use marc_types::{Limits, NoMemory, Sums};
use std::alloc::Global;
use std::marker::Model;
use std::sync::ledger::Ledger;

/// What became of a file's items: a catalogue of the accepted entries, the sums over their receipts, and the refused items.
#[derive(Drop)]
pub struct Loaded {
    core: Catalogue,
    sums: Sums,
    refused: Vec<RefusedItem>,
}

impl Model for Loaded {
    ghost use Rattle.plain_commands.specs.Loading.{LoadedView, IsCommitted};

    ghost Value = { LoadedView };

    ghost view = { λ l. record { limits = l.core.limits; accepted = l.core.history; refused = l.refused.items } };

    ghost invariant = { λ l. IsCommitted l.core l.sums };
}

impl Loaded {
    /// No item yet, and a catalogue with these limits.
    #[tactic(auto, using(crate::proofs::Summed::committed_none))]
    pub fn new(alloc: Global, limits: Limits) -> Loaded
        requires few { limits.entries ≤ most_entries }
        ensures { result ≡ nothing_loaded limits }
    {
        Loaded {
            core: Catalogue::empty(alloc, limits),
            sums: Sums::none(),
            refused: Vec::new(alloc),
        }
    }

    /// Commits an entry. Full comes before all else, where with this entry the limits would be passed. After either fault
    /// nothing is changed.
    #[tactic(auto, unfolding(crate::specs::Loading::lacks_room))]
    pub fn commit<L: Ledger>(
        &mut self,
        alloc: Global,
        item: Prepared,
        steps: &mut Steps<L>,
    ) -> Result<(), CoreFault>
        ensures accepted { OnOk result (self.new ≡ with_accepted self.old item) }
        ensures fault { IfErr result (IsDue (lacks_room self.old.limits self.old.accepted item)) }
        ensures err { OnErr result (self.new ≡ self.old) }
    {
        let receipt = self.core.commit(alloc, item, steps)?;
        self.sums.add(&receipt);
        Ok(())
    }

    /// Lists a refused item.
    pub fn refuse(&mut self, item: RefusedItem) -> Result<(), NoMemory>
        ensures refused { OnOk result (self.new ≡ with_refused self.old item) }
        ensures err { OnErr result (self.new ≡ self.old) }
    {
        self.refused.push(item)?;
        Ok(())
    }

    /// The catalogue of the accepted entries.
    pub fn core(&self) -> &Catalogue
        ensures { result.now ≡ holding self.now.limits self.now.accepted }
    {
        &self.core
    }

    /// The items that were refused, in their order.
    pub fn refused(&self) -> &[RefusedItem]
        ensures { result.now ≡ self.now.refused }
    {
        self.refused.as_slice()
    }

    /// Whether an item was refused.
    pub fn has_refused(&self) -> bool
        ensures { result ≡ nat_lt 0 (length self.now.refused) }
    {
        !self.refused.is_empty()
    }

    /// What is counted of the file.
    pub fn totals(&self) -> Totals
        ensures { result ≡ totals_of self.now.accepted self.now.refused (receipts_behind [] self.now.accepted) }
    {
        Totals {
            accepted: self.core.history_len(),
            refused: self.refused.len() as u64,
            sums: self.sums,
        }
    }

    /// The sums over their receipts.
    #[tactic(auto, unfolding(crate::specs::Totals::sums_behind))]
    pub fn sums(&self) -> Sums
        ensures { result ≡ sums_behind self.now.accepted }
    {
        self.sums
    }

    /// The accepted entries are within the limits.
    pub fn is_within_limits(&self)
        ensures { IsWithinLimits self.now.limits self.now.accepted }
    {
        let _core = &self.core;
    }
}
