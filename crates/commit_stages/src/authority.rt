//! The commit of an authority: what is linked to it or waits for it follows.
ghost use Rattle.std.specs.Prelude.{◌≡◌, ℕ, ◌+◌, ◌≤◌, ◌++◌, [], Option, IfOk, OnOk};
ghost use Rattle.std.specs.Option.{option_map_or};
ghost use Rattle.entry_record.specs.Authority.{Linkable};
ghost use Rattle.linking_laws.specs.Waiting.{AreSameForms, forms_of};
ghost use Rattle.catalogue_tables.specs.Known.{IsKnownAs};
ghost use Rattle.catalogue_tables.specs.Lent.{shown_forms};
ghost use Rattle.commit_stages.specs.Stages.{IsKnownIn, forms_of_brought};
ghost use Rattle.marc_types.specs.Order.{same_key};
ghost use Rattle.marc_types.specs.declared.key.Class.TheVariants.{Authority as AnAuthority};
ghost use Rattle.numbering.specs.Numbers.{IsNumberOf};
ghost use Rattle.catalogue_tables.specs.Seam.{keys_in};
ghost use Rattle.catalogue_rules.specs.Settle.{arrival_of, step};
ghost use Rattle.linking_laws.specs.Commits.{CanBeCommitted};
ghost use Rattle.linking_laws.specs.Receipts.{receipt_by};
ghost use Rattle.linking_laws.specs.Visits.{touched};
ghost use Rattle.linked_store.specs.Linked.{IsAhead};
ghost use Rattle.commit_stages.specs.Receipts.{AreReceiptCounts};

use crate::brought::links_that_end;
use crate::changed::count_records;
use crate::changes::CommitCounts;
use crate::stages::{carry_heading, drop_ended, settle_brought};
use crate::touched::settle_touched;
use catalogue_rules::Steps;
use catalogue_tables::KnownAuthority;
use entry_record::Preparation;
use linked_store::LinkedStore;
use marc_types::{Class, Form, NoMemory, Record};
use numbering::{Numbering, Seat};
use std::alloc::Global;
use std::sync::ledger::Ledger;

/// The entry's record comes into its place. Links to its key that can't stay are dropped, its heading is carried to the others, its own
/// fields are settled, and then those that wait for the key, or for a form under which the authority was found or is.
pub(crate) fn commit_authority<L: Ledger>(
    store: &mut LinkedStore,
    alloc: Global,
    number: u32,
    rec: Record,
    item: &Preparation,
    steps: &mut Steps<L>,
) -> Result<CommitCounts, NoMemory>
    requires own { rec ≡ item.now.rec }
    requires commit { CanBeCommitted AnAuthority store.old.state item.now }
    requires number { IsNumberOf same_key (keys_in AnAuthority store.old.keys) item.now.key number }
    ensures state { OnOk result (store.new.state ≡ step store.old.state (arrival_of item.now)) }
    ensures changes { IfOk result (λ changes. (at : ℕ) → AreReceiptCounts (receipt_by at store.old.state item.now) changes) }
    ensures ahead { IsAhead store.old store.new }
    ensures visits { steps.new ≤ steps.old + touched store.old.state item.now }
{
    let known = store.known_authority(alloc, number)?;
    let mut noted = Numbering::new(alloc);
    commit_known(store, alloc, number, rec, item, &known, &mut noted, steps)
}

// The same, of an authority that is known so before. What is known and what is noted is lent, so that no stage that fails gives it up.
fn commit_known<L: Ledger>(
    store: &mut LinkedStore,
    alloc: Global,
    number: u32,
    rec: Record,
    item: &Preparation,
    known: &Option<KnownAuthority>,
    noted: &mut Numbering<Seat>,
    steps: &mut Steps<L>,
) -> Result<CommitCounts, NoMemory>
    requires own { rec ≡ item.now.rec }
    requires commit { CanBeCommitted AnAuthority store.old.state item.now }
    requires number { IsNumberOf same_key (keys_in AnAuthority store.old.keys) item.now.key number }
    requires known { IsKnownIn number store.old known.now }
    requires none { noted.old ≡ [] }
    ensures state { OnOk result (store.new.state ≡ step store.old.state (arrival_of item.now)) }
    ensures changes { IfOk result (λ changes. (at : ℕ) → AreReceiptCounts (receipt_by at store.old.state item.now) changes) }
    ensures ahead { IsAhead store.old store.new }
    ensures visits { steps.new ≤ steps.old + touched store.old.state item.now }
{
    store.each_record_has_a_number();
    let ending = links_that_end(known.as_ref(), item);
    let own = store.place(alloc, number, rec, item)?;
    drop_ended(store, alloc, number, item, ending, noted, steps)?;
    carry_heading(store, alloc, number, own, item, noted, steps)?;
    let counts = settle_brought(store, alloc, number, own, item, steps)?;
    let forms = forms_then_and_now(alloc, known_forms(known), item)?;
    settle_touched(store, alloc, number, &forms, noted, steps)?;
    store.each_key_has_one_number();
    let changed_records = count_records(alloc, noted, Class::Authority, number)?;
    Ok(CommitCounts {
        linked: counts.linked,
        ambiguous: counts.ambiguous,
        unlinked: counts.unlinked,
        changed_records,
    })
}

// The forms under which the authority was found, and those that the entry brings, lent.
fn forms_then_and_now<'a>(
    alloc: Global,
    known: &'a [Form],
    item: &'a Preparation,
) -> Result<Vec<&'a Form>, NoMemory>
    requires { item.now.class ≡ AnAuthority }
    ensures { IfOk result (λ forms. shown_forms forms.items ≡ known.now ++ forms_of_brought (arrival_of item.now)) }
{
    let mut forms = Vec::new(alloc);
    lend(&mut forms, known)?;
    lend_brought(&mut forms, item)?;
    Ok(forms)
}

// The forms under which the authority is found that the entry brings; none where no field can be linked to it.
fn lend_brought<'a>(forms: &mut Vec<&'a Form>, item: &'a Preparation) -> Result<(), NoMemory>
    requires { item.now.class ≡ AnAuthority }
    ensures { OnOk result (shown_forms forms.new.items ≡ shown_forms forms.old.items ++ forms_of_brought (arrival_of item.now)) }
{
    if item.is_deletion() {
        return Ok(());
    }
    if let Some(form) = item.established() {
        forms.push(form)?;
        lend(forms, item.see_from().as_slice())?;
    }
    Ok(())
}

fn lend<'a>(forms: &mut Vec<&'a Form>, more: &'a [Form]) -> Result<(), NoMemory>
    ensures { OnOk result (shown_forms forms.new.items ≡ shown_forms forms.old.items ++ more.now) }
{
    for form in more {
        forms.push(form)?;
    }
    Ok(())
}

// The forms under which an authority was found.
fn known_forms(known: &Option<KnownAuthority>) -> &[Form]
    ensures { (before : Option Linkable) → IsKnownAs before known.now → AreSameForms result.now (option_map_or forms_of before []) }
{
    match known {
        Some(known) => &known.forms,
        None => &[],
    }
}
