//! How a lock is opened, and its passes are dealt.
ghost use Rattle.std.specs.Prelude.{◌≡◌, ℕ, ◌<◌, ◌≤◌, ◌∷◌, [], length, map, vec_capacity, Option, Some, None};
ghost use Rattle.std.specs.List.{range_with_len};
ghost use Rattle.catalogue_lock.specs.History.{items_by, numbered};
ghost use Rattle.catalogue_lock.specs.Passes.{new_pass};
ghost use Rattle.catalogue_lock.specs.Steps.{IsTable, IsSameSeat, IsOpening};
ghost use Rattle.catalogue_lock.specs.Views.{opener, open_view, brought_in, unused_from};

use crate::object::Object;
use crate::pass::Pass;
use crate::rule::{
    Adding, BeginOpening, BringIn, COUNT, Deal, EndOpening, OBJECT, Place, SERVING, Steps,
};
use std::marker::Brand;

/// Raises the count by the items that the object brought.
fn bring_in<O: Object, D: Adding<O::Item>>(steps: &Steps<O>, seat: &mut Place<O>, object: &O)
    requires table { IsTable steps.now.table_id × (seat.old.table_id ≡ steps.now.table_id) }
    requires opening { IsOpening steps.now.key seat.old.me }
    requires added { D.added ≡ O.history object.now }
    ensures seat { IsSameSeat seat.old seat.new }
    ensures brought { seat.new.me ≡ (brought_in seat.old.me.0 D.added, seat.old.me.1) }
{
    let added = object.count();
    steps.fetch_add::<BringIn<D>>(seat, COUNT, added);
}

/// Puts the object into the table's slot, and serves the first ticket after its own.
pub(crate) fn open<O: Object>(steps: &Steps<O>, seat: &mut Place<O>, object: O)
    requires table { IsTable steps.now.table_id × (seat.old.table_id ≡ steps.now.table_id) }
    requires object { steps.now.key.object ≡ object }
    requires opener { seat.old.me ≡ (opener steps.now.key, []) }
    ensures seat { IsSameSeat seat.old seat.new }
    ensures open { seat.new.me ≡ (open_view object (numbered None (O.history object)) (unused_from 0 steps.now.key.callers), []) }
{
    steps.load::<BeginOpening>(seat, SERVING);
    bring_in::<O, Brand>(steps, seat, &object);
    let vacant = steps.exchange(seat, OBJECT, Some(object));
    let None = vacant else { unreachable!() };
    steps.fetch_add::<EndOpening>(seat, SERVING, 1);
}

/// Gives each pass one of the numbers that the seat has, in their order.
pub(crate) fn deal<O: Object>(
    steps: &Steps<O>,
    seat: Place<O>,
    passes: Vec<Pass<O>>,
) -> Vec<Pass<O>>
    requires table { IsTable steps.now.table_id × (seat.table_id ≡ steps.now.table_id) }
    requires callers { 0 < steps.now.key.callers }
    requires seat { seat.me ≡ (open_view steps.now.key.object seat.me.0.seen (unused_from 0 steps.now.key.callers), []) }
    requires seen { (k : ℕ) → items_by (Some k) seat.me.0.seen ≡ [] }
    requires room { (passes.items ≡ []) × (vec_capacity passes ≡ steps.now.key.callers) }
    ensures { result.items ≡ map (new_pass seat.table_id (Some steps.now.key.object) seat.me.0.seen) (range_with_len 0 steps.now.key.callers) }
{
    let mut seat = seat;
    let mut passes = passes;
    while passes.len() + 1 < passes.capacity() {
        let next = steps.split_seat::<Deal>(&mut seat);
        passes.push_reserved(Pass { seat: next });
    }
    passes.push_reserved(Pass { seat });
    passes
}
