//! The records of a catalogue, as they are listed.
ghost use Rattle.std.specs.Prelude.{◌≡◌, [], IfOk};
ghost use Rattle.catalogue_rules.specs.Settle.{state_of};

use catalogue_core::Catalogue;
use marc_types::{Class, NoMemory};
use numbered_store::RowMap;
use std::alloc::Global;
use std::marker::Model;

/// The records of a catalogue, each class in key order. Contracts see them as its state.
#[derive(Drop)]
pub struct Listing<'a> {
    pub(crate) authorities: RowMap<'a>,
    pub(crate) bibliographic: RowMap<'a>,
}

impl<'a> Model for Listing<'a> {
    ghost use Rattle.std.specs.Prelude.{map};
    ghost use Rattle.catalogue_rules.specs.State.{State};
    ghost use Rattle.numbered_store.specs.Kept.{shown_row};
    ghost use Rattle.holdings_export.specs.Output.{state_of_rows};

    ghost Value = { State };

    ghost view = { λ l. state_of_rows (map shown_row l.authorities.entries) (map shown_row l.bibliographic.entries) };
}

impl<'a> Listing<'a> {
    /// The records of a catalogue, of which nothing is staged. All memory of a listing is taken here.
    pub fn of(alloc: Global, core: &'a Catalogue) -> Result<Listing<'a>, NoMemory>
        requires { core.now.staged ≡ [] }
        ensures { IfOk result (λ listing. listing ≡ state_of core.now.history) }
    {
        let engine = core.engine();
        let authorities = engine.rows(alloc, Class::Authority)?;
        let bibliographic = engine.rows(alloc, Class::Bibliographic)?;
        Ok(Listing {
            authorities,
            bibliographic,
        })
    }
}
