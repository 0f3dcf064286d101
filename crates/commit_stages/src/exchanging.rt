//! The end of a turn: the field at a seat is exchanged, where a stage makes another of it.
ghost use Rattle.std.specs.Prelude.{◌≡◌, OnOk, OnErr, IfSome};
ghost use Rattle.marc_types.specs.declared.key.Class.{Class as AnyClass};
ghost use Rattle.catalogue_rules.specs.State.{KeptField};
ghost use Rattle.field_settling.specs.Held.{held_as};
ghost use Rattle.linking_laws.specs.Partway.{AreOrdered};
ghost use Rattle.linked_store.specs.Linked.{IsAhead, SuitsSeat};
ghost use Rattle.commit_stages.specs.Turns.{IsMadeOf, IsTurned};

use field_settling::Held;
use linked_store::LinkedStore;
use marc_types::NoMemory;
use numbering::Seat;
use std::alloc::Global;

/// Puts what a stage makes of a seat's field into the seat; none stands for the field that is there.
pub(crate) fn exchange_made(
    store: &mut LinkedStore,
    alloc: Global,
    seat: Seat,
    made: Option<Held>,
) -> Result<(), NoMemory>
    requires suits { IfSome made (λ held. SuitsSeat seat (held_as held) store.old) }
    requires ordered { AreOrdered store.old.state }
    ensures ok { OnOk result ((change : AnyClass → KeptField → KeptField) → IsMadeOf change seat store.old made → IsTurned change seat store.old store.new) }
    ensures err { OnErr result (store.new.state ≡ store.old.state) }
    ensures ahead { IsAhead store.old store.new }
{
    match made {
        Some(held) => store.exchange_field(alloc, seat, held.field, held.tie),
        None => Ok(()),
    }
}
