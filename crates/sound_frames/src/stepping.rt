//! A step of the reading: from a gate to the next, or its end.
ghost use Rattle.std.specs.Prelude.{◌≡◌, ◌<◌, ◌∷◌, [], ℕ, length, true, false, if◌then◌else◌, IfOk, OnOk};
ghost use Rattle.sound_frames.specs.Looking.{HasLeft};
ghost use Rattle.sound_frames.specs.Sound.{closed_damage};
ghost use Rattle.sound_frames.specs.Looking.{Sees, IsSoundAhead, as_list, ending_damage, HasStepped, IsInside};

use crate::found::Found;
use crate::frame::{is_closed_gate, next_gate};
use crate::looking::{Ahead, look};
use crate::{Damage, Reason};
use commit_journal::{Tail, tail_behind};
use entry_history::HistoryCounter;
use marc_types::NoMemory;
use std::alloc::Global;

/// Why reading ends at a gate.
#[derive(Clone, Copy, Debug, PartialEq, Eq)]
pub(crate) enum Ending {
    /// It is closed, and no two sound frames stand behind it.
    Closed,
    /// It is open, and no whole frame stands behind it.
    NoFrame,
    /// It is open, and the payload of the frame behind it isn't valid.
    NotValid,
}

/// What a step comes to.
#[derive(Drop)]
pub(crate) enum Stepped {
    /// Reading ends at the gate.
    Ended(Ending),
    /// The gate was passed: the place of the next one, and what stands behind that.
    Passed(usize, Ahead),
}

/// A damage at a place.
fn damage_at(place: u64, reason: Reason) -> Option<Damage>
    ensures { as_list result ≡ record { place = place; reason = reason } ∷ [] }
{
    Some(Damage { place, reason })
}

/// The damage at the gate at which reading ends, of a log of so many bytes.
pub(crate) fn ending_damage(place: u64, why: Ending, bytes: u64) -> Option<Damage>
    ensures { as_list result ≡ ending_damage place why bytes }
{
    match why {
        Ending::Closed => match tail_behind(place, bytes) {
            Tail::Nothing => None,
            Tail::Torn => damage_at(place, Reason::Torn),
            Tail::More => damage_at(place, Reason::Lost),
        },
        Ending::NoFrame => damage_at(place, Reason::NoFrame),
        Ending::NotValid => damage_at(place, Reason::NotValid),
    }
}

/// The damage of a gate that is passed.
fn closed_damage(is_closed: bool, place: u64) -> Option<Damage>
    ensures { as_list result ≡ closed_damage is_closed place }
{
    if is_closed {
        return damage_at(place, Reason::ClosedGate);
    }
    None
}

/// Why reading ends at a gate behind which nothing sound stands.
fn ending_of(is_closed: bool, otherwise: Ending) -> Ending
    ensures { result ≡ (if is_closed then Ending.Closed else otherwise) }
{
    if is_closed { Ending::Closed } else { otherwise }
}

/// Whether a gate in front of a sound frame may be passed, by what stands behind that frame.
fn may_pass(is_closed: bool, behind: &Ahead) -> bool
    ensures yes { result ≡ true → is_closed ≡ true → IsSoundAhead behind.now }
    ensures shut { result ≡ false → is_closed ≡ true }
    ensures none { result ≡ false → IsSoundAhead behind.now → ⊥ }
{
    !is_closed || behind.is_sound()
}

/// Passes the gate at a place of a log, of which another place is told, where it can be passed, and takes the frame behind it.
pub(crate) fn step(
    alloc: Global,
    log: &[u8],
    place: usize,
    told: u64,
    ahead: Ahead,
    counter: &mut HistoryCounter,
    found: &mut Found,
) -> Result<Stepped, NoMemory>
    requires within { place < length log.now }
    ensures stepped { IfOk result (λ stepped. Sees counter.old.version log.now place found.old.entries.items ahead counter.old.extent
        → HasStepped counter.old.version log.now place told found.old.entries.items found.old.damages.items
        found.new.entries.items found.new.damages.items counter.new.extent stepped) }
    ensures inside { IfOk result (IsInside log.now place) }
    ensures version { counter.new.version ≡ counter.old.version }
    ensures left { OnOk result ((bytes : ℕ) → HasLeft bytes found.old.entries.items found.old.left → HasLeft bytes found.new.entries.items found.new.left) }
{
    let is_closed = is_closed_gate(log, place);
    let items = match ahead {
        Ahead::Sound(items) => items,
        Ahead::NoFrame => return Ok(Stepped::Ended(ending_of(is_closed, Ending::NoFrame))),
        Ahead::NotValid => return Ok(Stepped::Ended(ending_of(is_closed, Ending::NotValid))),
    };
    // a sound one is whole
    let Some(next) = next_gate(log, place) else {
        return Ok(Stepped::Ended(Ending::NoFrame));
    };
    let behind = look(alloc, counter, log, next)?;
    let passes = may_pass(is_closed, &behind);
    if !passes {
        return Ok(Stepped::Ended(Ending::Closed));
    }
    found.take(alloc, items.as_slice())?;
    found.note(closed_damage(is_closed, told))?;
    Ok(Stepped::Passed(next, behind))
}
