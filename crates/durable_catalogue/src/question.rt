//! What is asked of a catalogue over a journal, and what is told.
ghost use Rattle.std.specs.Prelude.{List, IfOk, IfSome};
ghost use Rattle.marc_types.specs.declared.entry.Entry.{Entry as AnyEntry};
ghost use Rattle.catalogue_rules.specs.Settle.{state_of};
ghost use Rattle.catalogue_core.specs.Catalogues.{all_entries};
ghost use Rattle.durable_catalogue.specs.Asked.{IsToldOf, IsToldSince};
ghost use Rattle.durable_catalogue.specs.News.{IsNewsOf, start_of};

use crate::news::News;
use crate::seen::{Seen, look_at};
use catalogue_core::Catalogue;
use heading_rows::Headings;
use marc_types::{NoMemory, Place};
use std::alloc::Global;

/// What is asked: how the field at a place stands, or for the first `most` entries from place `from` of the history on.
#[derive(Debug, Drop)]
pub enum Ask {
    Status(Place),
    Since { from: u64, most: u32 },
}

/// What is told: how the field stands; the entries, each as a heading; or that no news of them is kept.
#[derive(Drop)]
pub enum Told {
    Status(Seen),
    Since(Headings),
    NotKept,
}

/// How the field at a place stands.
pub fn tell_status(alloc: Global, core: &Catalogue, place: &Place) -> Result<Told, NoMemory>
    ensures { IfOk result (IsToldOf (state_of (all_entries core.now)) place.now) }
{
    Ok(Told::Status(look_at(alloc, core, place)?))
}

/// The first entries from a place of the history on, where news of that place is kept.
#[tactic(auto, using(crate::proofs::KeptNews::told_part))]
pub fn tell_since(
    alloc: Global,
    news: &Option<News>,
    from: u64,
    most: u32,
) -> Result<Told, NoMemory>
    ensures { IfOk result (λ told. (history : List AnyEntry) → IfSome news.now (IsNewsOf history)
        → IsToldSince (start_of news.now) history from most told) }
{
    match news {
        Some(news) if news.start() <= from => {
            Ok(Told::Since(news.part(alloc, from - news.start(), most)?))
        }
        _ => Ok(Told::NotKept),
    }
}
