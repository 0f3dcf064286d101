//! The fields that wait for an authority, or for one of the forms under which it was or is found, are given their choice.
ghost use Rattle.std.specs.Prelude.{◌≡◌, ◌+◌, ◌≤◌, true, OnOk};
ghost use Rattle.marc_types.specs.declared.key.Class.TheVariants.{Authority as AnAuthority};
ghost use Rattle.entry_record.specs.Authority.{is_valid_key};
ghost use Rattle.linking_laws.specs.Middle.{IsMiddle};
ghost use Rattle.linking_laws.specs.Weights.{sum_fields};
ghost use Rattle.linked_store.specs.Linked.{IsAhead, IsNumber, key_of};
ghost use Rattle.commit_stages.specs.Noted.{NotesChanges};
ghost use Rattle.commit_stages.specs.Touched.{choose_for, choose_visits_for};
ghost use Rattle.commit_stages.specs.Turns.{CarriesOut};

use crate::waiting::settle_at;
use catalogue_rules::Steps;
use linked_store::LinkedStore;
use marc_types::{Form, NoMemory};
use numbering::{Numbering, Seat};
use std::alloc::Global;
use std::sync::ledger::Ledger;

/// Each field that waits for the authority, or for one of the forms, is given its choice. The seats whose field changes are noted.
pub fn settle_touched<L: Ledger>(
    store: &mut LinkedStore,
    alloc: Global,
    number: u32,
    forms: &[&Form],
    noted: &mut Numbering<Seat>,
    steps: &mut Steps<L>,
) -> Result<(), NoMemory>
    requires number { IsNumber AnAuthority number store.old.keys }
    requires valid { is_valid_key (key_of AnAuthority number store.old.keys) ≡ true }
    requires middle { IsMiddle store.old.state }
    ensures ok { OnOk result (CarriesOut (choose_for forms.now number store.old) store.old store.new) }
    ensures noted { OnOk result (NotesChanges (choose_for forms.now number store.old) store.old noted.old noted.new) }
    ensures ahead { IsAhead store.old store.new }
    ensures visits { steps.new ≤ steps.old + sum_fields (choose_visits_for forms.now number store.old) store.old.state }
{
    store.each_key_has_one_number();
    let seats = store.waiting(alloc, forms, number)?;
    for seat in &seats {
        settle_at(store, alloc, *seat, noted, steps)?;
    }
    Ok(())
}
