//! The lock.
ghost use Rattle.std.specs.Prelude.{◌≡◌, ◌^◌, ◌<◌, [], All, IfOk, IfErr, length, vec_capacity};
ghost use mathlib.Core.List.{IsPrefix};
ghost use Rattle.catalogue_lock.specs.Steps.{IsTable};
ghost use Rattle.catalogue_lock.specs.Views.{opener};
ghost use Rattle.catalogue_lock.specs.History.{items, longer};
ghost use Rattle.catalogue_lock.specs.Passes.{IsLockOf, IsPassOf, IsReady, HasSeenItsOwn, Turned, Closed, new_passes, having_seen, having_looked};

use crate::NoMemory;
use crate::bells::Bells;
use crate::object::Object;
use crate::opening::{deal, open};
use crate::pass::{Pass, Passes};
use crate::rule::{LockTable, OBJECT, Place};
use crate::sharing::{gather, show};
use crate::turns::{enter, leave};
use crate::view::Terms;
use std::alloc::Global;
use std::marker::Model;
use std::sync::Wait;

/// A lock round an object, which callers use by turns, each with its pass.
#[derive(Drop)]
pub struct HistoryLock<O: Object> {
    table: LockTable<O>,
    bells: Bells,
}

impl<O: Object> Model for HistoryLock<O> {
    ghost use Rattle.std.specs.Prelude.{◌<◌};
    ghost use Rattle.catalogue_lock.specs.Passes.{Lock};

    ghost Value = { Lock O };

    ghost use Rattle.catalogue_lock.specs.Steps.{IsTable};

    ghost view = { λ l. record { id = l.table.shared.table_id; callers = l.table.shared.key.callers; opened = l.table.shared.key.object } };

    ghost invariant = { λ l. IsTable l.table.shared.table_id × (0 < l.table.shared.key.callers) };
}

impl<O: Object> HistoryLock<O> {
    /// Makes a lock with this many passes. Without memory the object comes back as it was.
    pub fn new(
        alloc: Global,
        object: O,
        callers: u32,
    ) -> Result<(HistoryLock<O>, Passes<O>), (O, NoMemory)>
        requires { 0 < callers }
        ensures lock { IfOk result (λ r. IsLockOf r.0 object callers) }
        ensures passes { IfOk result (λ r. r.1 ≡ new_passes r.0 (O.history object)) }
        ensures len { IfOk result (λ r. length r.1 ≡ callers) }
        ensures ready { IfOk result (λ r. All (IsReady r.0) r.1) }
        ensures err { IfErr result (λ e. e.0 ≡ object) }
    {
        let Ok(passes) = Vec::with_capacity(alloc, callers as usize) else {
            return Err((object, NoMemory));
        };
        let terms = Terms { object, callers };
        let made = LockTable::<O>::vacant(alloc, &[1, 0, 0], 1, &terms);
        let Terms { object, callers } = terms;
        let Ok((table, seat)) = made else {
            return Err((object, NoMemory));
        };
        Ok(HistoryLock::opened(table, seat, object, passes))
    }

    /// Puts the object into its table, and deals the passes.
    fn opened(
        table: LockTable<O>,
        seat: Place<O>,
        object: O,
        passes: Vec<Pass<O>>,
    ) -> (HistoryLock<O>, Passes<O>)
        requires table { IsTable table.shared.table_id × (seat.table_id ≡ table.shared.table_id) }
        requires terms { (table.shared.key.object ≡ object) × (0 < table.shared.key.callers) }
        requires opener { seat.me ≡ (opener table.shared.key, []) }
        requires room { (passes.items ≡ []) × (vec_capacity passes ≡ table.shared.key.callers) }
        ensures lock { IsLockOf result.0 object table.shared.key.callers }
        ensures passes { result.1 ≡ new_passes result.0 (O.history object) }
        ensures len { length result.1 ≡ table.shared.key.callers }
        ensures ready { All (IsReady result.0) result.1 }
    {
        let mut seat = seat;
        open(&table.shared, &mut seat, object);
        let passes = deal(&table.shared, seat, passes);
        let bells = Bells::new();
        (HistoryLock { table, bells }, Passes::from_vec(passes))
    }

    /// Waits for its turn and makes one call.
    ///
    /// The reply is what the object's relation gives at the turn's point of the one history. That point begins with all
    /// that the pass had seen, and ends with the items that the call added. The pass has then seen it all.
    pub fn turn<R: Wait>(&self, rt: &R, pass: &mut Pass<O>, call: O::Call) -> O::Reply
        requires own { IsPassOf self.now pass.old }
        requires room { pass.old.turns < 2 ^ 31 }
        requires takes { O.takes call }
        ensures { Turned (O.replies (O.origin self.now.opened)) call result pass.old pass.new }
    {
        let steps = &self.table.shared;
        let mut object = enter(rt, steps, &self.bells, &mut pass.seat);
        let before = object.count();
        let reply = object.apply(call);
        leave(steps, &self.bells, &mut pass.seat, object, before);
        reply
    }

    /// Waits for its turn and asks one question. The pass has then seen the history of the answer.
    pub fn look<R: Wait>(&self, rt: &R, pass: &mut Pass<O>, question: &O::Question) -> O::Answer
        requires own { IsPassOf self.now pass.old }
        requires room { pass.old.turns < 2 ^ 31 }
        ensures answer { O.answers (O.origin self.now.opened) (items pass.new.seen) question.now result }
        ensures begins { IsPrefix pass.old.seen pass.new.seen }
        ensures pass { pass.new ≡ having_looked pass.old pass.new.seen }
        ensures own { HasSeenItsOwn pass.new }
    {
        let steps = &self.table.shared;
        let object = enter(rt, steps, &self.bells, &mut pass.seat);
        let before = object.count();
        let answer = object.look(question);
        leave(steps, &self.bells, &mut pass.seat, object, before);
        answer
    }

    /// Lets both passes have seen the longer of the two lists, which the other begins. It waits for nobody.
    pub fn meet(&self, first: &mut Pass<O>, second: &mut Pass<O>)
        requires first { IsPassOf self.now first.old }
        requires second { IsPassOf self.now second.old }
        ensures first { first.new ≡ having_seen first.old (longer second.old.seen first.old.seen) }
        ensures second { second.new ≡ having_seen second.old (longer second.old.seen first.old.seen) }
        ensures first_begins { IsPrefix first.old.seen first.new.seen }
        ensures second_begins { IsPrefix second.old.seen second.new.seen }
        ensures first_own { HasSeenItsOwn first.new }
        ensures second_own { HasSeenItsOwn second.new }
    {
        let steps = &self.table.shared;
        show(steps, &mut first.seat, &mut second.seat);
        show(steps, &mut second.seat, &mut first.seat);
    }

    /// Gives the object back, once all passes are there.
    pub fn close(self, passes: Passes<O>) -> O
        requires own { All (IsPassOf self) passes }
        requires all { length passes ≡ self.callers }
        ensures history { Closed self.callers passes (O.history self.opened) (O.history result) }
        ensures origin { O.origin result ≡ O.origin self.opened }
    {
        let HistoryLock { table, bells: _ } = self;
        let seat = gather(&table.shared, passes.into_vec());
        let mut closed = table.close_with(seat);
        let held = closed.take(OBJECT);
        closed.free();
        let Some(object) = held else { unreachable!() };
        object
    }
}
