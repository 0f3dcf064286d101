//! What is sound of a log.
ghost use Rattle.std.specs.Prelude.{◌≡◌, ◌≤◌, ◌<◌, ◌+◌, ◌↔◌, ℕ, List, [], length, true, Some, IsTrue, IfOk, OnOk};
ghost use Rattle.commit_journal.specs.declared.format.TheConstants.{BLANK_LENGTH, FIRST_GATE};
ghost use Rattle.entry_history.specs.Readers.{HasExtent};
ghost use Rattle.entry_record.specs.History.{IsWithin};
ghost use Rattle.journal_verification.specs.Coming.{Comes, HasReadCause};
ghost use Rattle.sound_frames.specs.Looking.{HasLeft, HasReadOn, IsWindowOf, ComesBehind};
ghost use Rattle.sound_frames.specs.Sound.{IsSoundOf};
ghost use Rattle.sound_frames.specs.declared.window.TheConstants.{TWO_FRAMES};

use crate::Damage;
use crate::found::Found;
use crate::looking::look;
use crate::stepping::{Ending, Stepped, ending_damage, step};
use crate::version::{
    blank_damage, has_closed_gate, header_damage, named_version, version_of, wrong_place,
};
use crate::window::{Place, READ_ON_TO, TWO_FRAMES, go_on};
use commit_journal::{BLANK_LENGTH, FIRST_GATE};
use entry_history::{EntryPayload, HistoryCounter};
use journal_verification::{Coming, ReadFault};
use marc_types::{Limits, NoMemory};
use outside::Source;
use std::alloc::Global;

/// What is sound of a log.
#[derive(Drop)]
pub struct SoundPart {
    /// Its entries.
    pub entries: Vec<EntryPayload>,
    /// Its damages, in their order.
    pub damages: Vec<Damage>,
    /// The gate at which reading ended.
    pub end: u64,
    /// Whether the entries are within the limits.
    pub fits: bool,
    /// How many bytes the log has.
    pub bytes: u64,
}

/// The gate at which reading ended, and why.
#[derive(Drop)]
struct End {
    place: u64,
    why: Ending,
}

/// Reads on from the first gate, and answers at which gate reading ended, and why. The window stands at the log's beginning.
fn read_on<S: Source>(
    alloc: Global,
    coming: &mut Coming<S>,
    more: bool,
    counter: &mut HistoryCounter,
    found: &mut Found,
) -> Result<End, ReadFault>
    requires first { coming.old.place ≡ 0 }
    requires long { BLANK_LENGTH < length coming.old.window.items }
    requires far { more ≡ true → FIRST_GATE + TWO_FRAMES ≤ length coming.old.window.items }
    requires none { HasExtent [] counter.old.extent }
    requires empty { found.old.entries.items ≡ [] }
    ensures read { IfOk result (λ end. (log : List ℕ) → IsWindowOf log 0 coming.old.window.items (S.left coming.old.source) more
        → HasReadOn counter.old.version log found.old.damages.items found.new.entries.items found.new.damages.items end.place end.why) }
    ensures comes { OnOk result ((log : List ℕ) → IsWindowOf log 0 coming.old.window.items (S.left coming.old.source) more
        → ComesBehind log coming.new.place coming.new.window.items (S.left coming.new.source)) }
    ensures left { OnOk result ((bytes : ℕ) → HasLeft bytes [] found.old.left → HasLeft bytes found.new.entries.items found.new.left) }
    ensures cause { HasReadCause (S.faults coming.old.source) (S.faults coming.new.source) result }
{
    let mut place = Place {
        at: FIRST_GATE as usize,
        more,
    };
    let first = coming.window();
    let mut ahead = look(alloc, counter, first, place.at)?;
    'gates: loop {
        let passed = coming.place();
        let told = passed + place.at as u64;
        let window = coming.window();
        match step(alloc, window, place.at, told, ahead, counter, found)? {
            Stepped::Ended(why) => return Ok(End { place: told, why }),
            Stepped::Passed(next, behind) => {
                place = go_on(
                    coming,
                    Place {
                        at: next,
                        more: place.more,
                    },
                )?;
                ahead = behind;
            }
        }
    }
}

/// What is sound of a log that isn't blank, of which the window has the beginning.
fn find_long<S: Source>(
    alloc: Global,
    limits: Limits,
    coming: &mut Coming<S>,
    more: bool,
) -> Result<SoundPart, ReadFault>
    requires first { coming.old.place ≡ 0 }
    requires long { BLANK_LENGTH < length coming.old.window.items }
    requires far { more ≡ true → FIRST_GATE + TWO_FRAMES ≤ length coming.old.window.items }
    ensures sound { IfOk result (λ s. (log : List ℕ) → IsWindowOf log 0 coming.old.window.items (S.left coming.old.source) more
        → IsSoundOf log (record { entries = s.entries.items; damages = s.damages.items; end = s.end })) }
    ensures bytes { IfOk result (λ s. (log : List ℕ) → IsWindowOf log 0 coming.old.window.items (S.left coming.old.source) more → s.bytes ≡ length log) }
    ensures fits { IfOk result (λ s. IsTrue s.fits ↔ IsWithin limits s.entries.items) }
    ensures cause { HasReadCause (S.faults coming.old.source) (S.faults coming.new.source) result }
{
    let window = coming.window();
    let version = version_of(alloc, window)?;
    let mut found = Found::new(alloc, limits);
    let is_named = named_version(window) == version;
    found.note(header_damage(wrong_place(window), is_named))?;
    let mut counter = HistoryCounter::new(version);
    let end = read_on(alloc, coming, more, &mut counter, &mut found)?;
    let bytes = coming.total()?;
    found.note(ending_damage(end.place, end.why, bytes))?;
    let fits = found.is_within(limits);
    Ok(SoundPart {
        entries: found.entries,
        damages: found.damages,
        end: end.place,
        fits,
        bytes,
    })
}

/// What is sound of a blank log, all of it.
#[tactic(auto, using(crate::proofs::Walks::sound_blank))]
fn find_blank(alloc: Global, limits: Limits, log: &[u8]) -> Result<SoundPart, NoMemory>
    requires { length log.now ≤ BLANK_LENGTH }
    ensures sound { IfOk result (λ s. IsSoundOf log.now (record { entries = s.entries.items; damages = s.damages.items; end = s.end })) }
    ensures bytes { IfOk result (λ s. s.bytes ≡ length log.now) }
    ensures fits { IfOk result (λ s. IsTrue s.fits ↔ IsWithin limits s.entries.items) }
{
    let mut found = Found::new(alloc, limits);
    found.note(blank_damage(wrong_place(log), has_closed_gate(log)))?;
    let fits = found.is_within(limits);
    Ok(SoundPart {
        entries: found.entries,
        damages: found.damages,
        end: FIRST_GATE,
        fits,
        bytes: log.len() as u64,
    })
}

/// What is sound of the log whose bytes come.
fn find_coming<S: Source>(
    alloc: Global,
    limits: Limits,
    coming: &mut Coming<S>,
) -> Result<SoundPart, ReadFault>
    requires { coming.old.place ≡ 0 }
    ensures sound { IfOk result (λ s. (log : List ℕ) → Comes coming.old.window.items (S.left coming.old.source) log
        → IsSoundOf log (record { entries = s.entries.items; damages = s.damages.items; end = s.end })) }
    ensures bytes { IfOk result (λ s. (log : List ℕ) → Comes coming.old.window.items (S.left coming.old.source) log → s.bytes ≡ length log) }
    ensures fits { IfOk result (λ s. IsTrue s.fits ↔ IsWithin limits s.entries.items) }
    ensures cause { HasReadCause (S.faults coming.old.source) (S.faults coming.new.source) result }
{
    let more = coming.fill(READ_ON_TO)?;
    let window = coming.window();
    if window.len() as u64 > BLANK_LENGTH {
        return find_long(alloc, limits, coming, more);
    }
    Ok(find_blank(alloc, limits, window)?)
}

/// What is sound of a log, which is read once as an input, and given back: the entries of its sound frames, its damages, and where reading
/// ended. Of its bytes no more than two frames of the largest payload are needed in memory, and no more than twice as many are.
pub fn find_sound<S: Source>(
    alloc: Global,
    limits: Limits,
    source: S,
) -> (Result<SoundPart, ReadFault>, S)
    ensures sound { IfOk result.0 (λ s. (log : List ℕ) → S.left source ≡ Some log
        → IsSoundOf log (record { entries = s.entries.items; damages = s.damages.items; end = s.end })) }
    ensures bytes { IfOk result.0 (λ s. (log : List ℕ) → S.left source ≡ Some log → s.bytes ≡ length log) }
    ensures fits { IfOk result.0 (λ s. IsTrue s.fits ↔ IsWithin limits s.entries.items) }
    ensures cause { HasReadCause (S.faults source) (S.faults result.1) result.0 }
{
    let mut coming = Coming::new(alloc, source);
    let sound = find_coming(alloc, limits, &mut coming);
    (sound, coming.close())
}
