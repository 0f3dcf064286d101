//! The holdings that wait for their record.
ghost use Rattle.std.specs.Prelude.{◌≡◌, ◌++◌, [], if◌then◌else◌, IfOk, OnOk};
ghost use Rattle.std.specs.Io.KnownBytes.{Appends};
ghost use Rattle.outside.specs.Fault.{HasCause};
ghost use Rattle.outside.specs.Sink.{WritesFront};
ghost use Rattle.catalogue_rules.specs.Settle.{state_of};
ghost use Rattle.holdings_export.specs.Output.{is_attached, holdings_rest};

use crate::counts::is_attached;
use catalogue_core::Catalogue;
use holdings::{HoldingShelf, PackedHolding};
use marc_types::NoMemory;
use outside::{Failed, Sink};
use packed_keys::PackedKey;
use std::alloc::Global;
use std::marker::Model;

/// The holdings on a shelf whose record isn't kept, in key order. Contracts see their written forms, one behind the other.
#[derive(Drop)]
pub struct WaitingHoldings<'a> {
    held: Vec<&'a PackedHolding>,
}

impl<'a> Model for WaitingHoldings<'a> {
    ghost use Rattle.std.specs.Prelude.{List, ℕ};
    ghost use Rattle.std.specs.List.{flat_map};

    ghost Value = { List ℕ };

    ghost view = { λ w. flat_map (λ held. held.now.written) w.held.items };
}

impl<'a> WaitingHoldings<'a> {
    /// Those of a shelf over a catalogue of which nothing is staged. All their memory is taken here.
    #[tactic(auto, unfolding(crate::specs::Output::holdings_rest))]
    pub fn of(
        alloc: Global,
        core: &Catalogue,
        shelf: &'a HoldingShelf,
    ) -> Result<WaitingHoldings<'a>, NoMemory>
        requires { core.now.staged ≡ [] }
        ensures { IfOk result (λ waiting. waiting ≡ holdings_rest (state_of core.now.history) shelf.now) }
    {
        let mut waiting = WaitingHoldings {
            held: Vec::new(alloc),
        };
        for (key, held) in shelf.rows() {
            waiting.take(alloc, core, key, held)?;
        }
        Ok(waiting)
    }

    /// Takes a holding whose record isn't kept.
    fn take(
        &mut self,
        alloc: Global,
        core: &Catalogue,
        key: &PackedKey,
        held: &'a PackedHolding,
    ) -> Result<(), NoMemory>
        requires { core.now.staged ≡ [] }
        ensures { OnOk result (self.new ≡ self.old ++ (if is_attached (state_of core.now.history) (key.now, held.now) then [] else held.now.written)) }
    {
        if !is_attached(alloc, core, key, held)? {
            self.held.push(held)?;
        }
        Ok(())
    }

    /// Writes them. Given as input again they attach where their record has come. After `Failed` some front of that was written.
    #[tactic(auto, using(outside::proofs::Fronts::writing_begun, outside::proofs::Fronts::writing_done))]
    pub fn write<K: Sink>(&self, out: &mut K) -> Result<(), Failed>
        ensures written { OnOk result (Appends (K.written out.old) (K.written out.new) self.now) }
        ensures front { WritesFront (K.written out.old) (K.written out.new) self.now }
        ensures cause { HasCause (K.faults out.old) (K.faults out.new) result }
    {
        for held in &self.held {
            out.write_all(held.written())?;
        }
        Ok(())
    }
}
