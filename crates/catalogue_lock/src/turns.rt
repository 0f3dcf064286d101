//! One turn, step by step.
ghost use Rattle.std.specs.Prelude.{◌≡◌, ◌^◌, ◌<◌, ◌≤◌, ◌+◌, false, [], ◌∷◌, length, drop, Option, Some};
ghost use Rattle.catalogue_lock.specs.declared.view.Stage.TheVariants.{Waits};
ghost use Rattle.catalogue_lock.specs.Views.{passed, raised};
ghost use Rattle.catalogue_lock.specs.Steps.{IsTable, IsSameSeat, IsFree, Admitted, Entered, IsInTurn, HasPutBack};

use crate::bells::Bells;
use crate::object::Object;
use crate::rule::{
    Adding, COUNT, Draw, Look, OBJECT, PassOn, Place, Raise, SERVING, Steps, TICKET,
};
use std::marker::Brand;
use std::sync::Wait;
use std::sync::atomic::Ordering::SeqCst;
use std::thread;

/// How often a thread looks and yields before it parks.
const YIELDS: u32 = 4;

/// Waits until the seat's ticket is served.
///
/// How often the bell was rung is asked before each look, so that a ring behind the look ends the sleep.
fn wait_for<O: Object, R: Wait>(
    rt: &R,
    steps: &Steps<O>,
    bells: &Bells,
    seat: &mut Place<O>,
    ticket: u64,
)
    requires table { IsTable steps.now.table_id × (seat.old.table_id ≡ steps.now.table_id) }
    requires waits { (seat.old.me.0.stage ≡ Waits ticket) × (seat.old.me.0.opening ≡ false) × (seat.old.me.1 ≡ []) }
    ensures seat { IsSameSeat seat.old seat.new }
    ensures turn { Admitted O.history O.origin ticket seat.old.me seat.new.me }
{
    let bell = bells.of(ticket);
    let mut looks = 0;
    for _ in rt.forever() {
        let rung = bell.load(SeqCst);
        let serving = steps.load::<Look>(seat, SERVING);
        if serving == ticket {
            return;
        }
        if looks < YIELDS {
            looks += 1;
            thread::yield_now();
        } else {
            bell.park(rt, (rung & 0xffff_ffff) as u32);
        }
    }
    unreachable!()
}

/// Draws a ticket, waits until it is served, and takes the object.
pub(crate) fn enter<O: Object, R: Wait>(
    rt: &R,
    steps: &Steps<O>,
    bells: &Bells,
    seat: &mut Place<O>,
) -> O
    requires table { IsTable steps.now.table_id × (seat.old.table_id ≡ steps.now.table_id) }
    requires free { IsFree seat.old }
    requires room { seat.old.me.0.draws < 2 ^ 31 }
    ensures seat { IsSameSeat seat.old seat.new }
    ensures turn { Entered O.history O.origin seat.old.me seat.new.me result }
{
    let ticket = steps.fetch_add::<Draw>(seat, TICKET, 1);
    wait_for(rt, steps, bells, seat, ticket);
    let held = steps.exchange(seat, OBJECT, None);
    let Some(object) = held else { unreachable!() };
    object
}

/// Raises the count by what the object's history has beyond `before`.
fn raise<O: Object, D: Adding<O::Item>>(
    steps: &Steps<O>,
    seat: &mut Place<O>,
    object: &O,
    before: u64,
)
    requires table { IsTable steps.now.table_id × (seat.old.table_id ≡ steps.now.table_id) }
    requires before { before ≡ length seat.old.me.0.seen }
    requires turn { IsInTurn O.history O.origin seat.old.me object.now D.added }
    ensures seat { IsSameSeat seat.old seat.new }
    ensures raised { seat.new.me ≡ (raised seat.old.me.0 D.added, seat.old.me.1) }
{
    let added = object.count() - before;
    steps.fetch_add::<Raise<D>>(seat, COUNT, added);
}

/// Serves the next ticket, and rings its bell where it is drawn.
fn pass_on<O: Object>(steps: &Steps<O>, bells: &Bells, seat: &mut Place<O>)
    requires table { IsTable steps.now.table_id × (seat.old.table_id ≡ steps.now.table_id) }
    requires turn { HasPutBack O.history O.origin seat.old.me }
    ensures seat { IsSameSeat seat.old seat.new }
    ensures passed { seat.new.me ≡ (passed seat.old.me.0, []) }
{
    let served = steps.fetch_add::<PassOn>(seat, SERVING, 1);
    let next = served.wrapping_add(1);
    if steps.peek(TICKET) != next {
        bells.ring(next);
    }
}

/// Raises the count, puts the object back, and passes on.
pub(crate) fn leave<O: Object>(
    steps: &Steps<O>,
    bells: &Bells,
    seat: &mut Place<O>,
    object: O,
    before: u64,
)
    requires table { IsTable steps.now.table_id × (seat.old.table_id ≡ steps.now.table_id) }
    requires before { before ≡ length seat.old.me.0.seen }
    requires turn { IsInTurn O.history O.origin seat.old.me object (drop before (O.history object)) }
    ensures seat { IsSameSeat seat.old seat.new }
    ensures left { seat.new.me ≡ (passed (raised seat.old.me.0 (drop before (O.history object))), []) }
{
    raise::<O, Brand>(steps, seat, &object, before);
    let empty = steps.exchange(seat, OBJECT, Some(object));
    let None = empty else { unreachable!() };
    pass_on(steps, bells, seat);
}
