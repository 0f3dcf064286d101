//! The stages of a commit, each for the entry that is committed.
ghost use Rattle.std.specs.Prelude.{◌≡◌, ◌+◌, ◌≤◌, true, IfOk, OnOk, find};
ghost use Rattle.std.specs.Option.{option_copied};
ghost use Rattle.entry_record.specs.Authority.{is_valid_key};
ghost use Rattle.entry_record.specs.History.{IsAdmitted};
ghost use Rattle.marc_types.specs.declared.key.Class.TheVariants.{Authority as AnAuthority};
ghost use Rattle.catalogue_rules.specs.Choice.{has_key};
ghost use Rattle.catalogue_rules.specs.Settle.{arrival_of};
ghost use Rattle.catalogue_rules.specs.State.{linkable_authorities};
ghost use Rattle.catalogue_tables.specs.Following.{authority_brought};
ghost use Rattle.linking_laws.specs.Middle.{CanDrop, IsMiddle};
ghost use Rattle.linking_laws.specs.Stages.{successor_in};
ghost use Rattle.linking_laws.specs.Weights.{sum_fields};
ghost use Rattle.linked_store.specs.Linked.{IsAhead, IsNumber, key_of};
ghost use Rattle.linked_store.specs.Placing.{own_record};
ghost use Rattle.commit_stages.specs.Turns.{CarriesOut};
ghost use Rattle.commit_stages.specs.OwnFields.{IsOwnSettled, own_visits_of};
ghost use Rattle.commit_stages.specs.Noted.{NotesChanges};
ghost use Rattle.commit_stages.specs.Stages.{AreCountsBrought, IsBrought, carry_of, carry_visits_of, drop_of, drop_visits_of, dropping_to};

use crate::brought::{Ending, brought_heading};
use crate::carrying::carry;
use crate::counts::HeadingCounts;
use crate::dropping::drop_links;
use crate::ending::EndingLinks;
use crate::own::settle_own;
use catalogue_rules::Steps;
use entry_record::Preparation;
use linked_store::{LinkedStore, OwnRecord};
use marc_types::NoMemory;
use numbering::{Numbering, Seat};
use std::alloc::Global;
use std::sync::ledger::Ledger;

/// The links to the entry's key that end are dropped.
pub(crate) fn drop_ended<L: Ledger>(
    store: &mut LinkedStore,
    alloc: Global,
    number: u32,
    item: &Preparation,
    ending: Ending,
    noted: &mut Numbering<Seat>,
    steps: &mut Steps<L>,
) -> Result<(), NoMemory>
    requires admitted { IsAdmitted item.now }
    requires number { IsNumber AnAuthority number store.old.keys }
    requires key { key_of AnAuthority number store.old.keys ≡ item.now.key }
    requires can { CanDrop (dropping_to ending) item.now.key store.old.state }
    ensures ok { OnOk result (CarriesOut (drop_of ending item.now (linkable_authorities store.old.state)) store.old store.new) }
    ensures noted { OnOk result (NotesChanges (drop_of ending item.now (linkable_authorities store.old.state)) store.old noted.old noted.new) }
    ensures ahead { IsAhead store.old store.new }
    ensures visits { steps.new ≤ steps.old + sum_fields (drop_visits_of ending item.now (linkable_authorities store.old.state)) store.old.state }
{
    match ending {
        Ending::Nothing => Ok(()),
        Ending::Bases => drop_links(store, alloc, number, ended(item, true), noted, steps),
        Ending::All => drop_links(store, alloc, number, ended(item, false), noted, steps),
    }
}

// The links to the entry's key, all or those by the base, with its successor.
fn ended(item: &Preparation, only_base: bool) -> EndingLinks<'_>
    requires admitted { IsAdmitted item.now }
    ensures key { result.key.now ≡ item.now.key }
    ensures only_base { result.only_base ≡ only_base }
    ensures successor { option_copied result.successor ≡ successor_in (arrival_of item.now) }
    ensures valid { is_valid_key item.now.key ≡ true }
{
    EndingLinks {
        key: item.key(),
        only_base,
        successor: item.successor(),
    }
}

/// The heading that the entry brings is carried to what is linked to its key.
pub(crate) fn carry_heading<L: Ledger>(
    store: &mut LinkedStore,
    alloc: Global,
    number: u32,
    own: OwnRecord,
    item: &Preparation,
    noted: &mut Numbering<Seat>,
    steps: &mut Steps<L>,
) -> Result<(), NoMemory>
    requires admitted { IsAdmitted item.now }
    requires class { item.now.class ≡ AnAuthority }
    requires placed { own ≡ own_record item.now.class number }
    requires number { IsNumber AnAuthority number store.old.keys }
    requires key { key_of AnAuthority number store.old.keys ≡ item.now.key }
    requires own { find (has_key item.now.key) (linkable_authorities store.old.state) ≡ authority_brought (arrival_of item.now) }
    requires middle { IsMiddle store.old.state }
    ensures ok { OnOk result (CarriesOut (carry_of item.now) store.old store.new) }
    ensures noted { OnOk result (NotesChanges (carry_of item.now) store.old noted.old noted.new) }
    ensures ahead { IsAhead store.old store.new }
    ensures visits { steps.new ≤ steps.old + sum_fields (carry_visits_of item.now) store.old.state }
{
    match brought_heading(item) {
        Some(_) => carry(store, alloc, number, own, item.key(), noted, steps),
        None => Ok(()),
    }
}

/// The fields of the record that the entry brings are settled; a deletion brings none.
pub(crate) fn settle_brought<L: Ledger>(
    store: &mut LinkedStore,
    alloc: Global,
    number: u32,
    own: OwnRecord,
    item: &Preparation,
    steps: &mut Steps<L>,
) -> Result<HeadingCounts, NoMemory>
    requires number { IsNumber item.now.class number store.old.keys }
    requires placed { own ≡ own_record item.now.class number }
    requires key { key_of item.now.class number store.old.keys ≡ item.now.key }
    requires came { IsBrought number item.now store.old }
    requires middle { IsMiddle store.old.state }
    ensures ok { OnOk result (IsOwnSettled (linkable_authorities store.old.state) item.now.class item.now.key store.old store.new) }
    ensures counts { IfOk result (AreCountsBrought (linkable_authorities store.old.state) item.now) }
    ensures ahead { IsAhead store.old store.new }
    ensures visits { steps.new ≤ steps.old + own_visits_of (linkable_authorities store.old.state) item.now.class item.now.key store.old.state }
{
    if item.is_deletion() {
        return Ok(HeadingCounts {
            linked: 0,
            ambiguous: 0,
            unlinked: 0,
        });
    }
    settle_own(store, alloc, item.class(), number, own, steps)
}
