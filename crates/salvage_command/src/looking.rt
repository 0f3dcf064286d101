//! What is found of a journal, before anything is opened to be written.
ghost use Rattle.std.specs.Prelude.{◌≡◌, ◌≢◌, ◌-◌, ◌+◌, ◌↔◌, ℕ, List, [], true, None, string_bytes, IsTrue, IsSomeAnd, IfSome, IfNone, IfOk, IfErr, IsErrOf};
ghost use Rattle.outside.specs.Fault.{Rose};
ghost use Rattle.outside.specs.Room.{SameBut};
ghost use Rattle.marc_types.specs.declared.entry.Limits.{Limits as AnyLimits};
ghost use Rattle.entry_record.specs.History.{IsWithin};
ghost use Rattle.console_lines.specs.declared.fault.Fault.TheVariants.{Device, Input, Memory, Usage};
ghost use Rattle.sound_frames.specs.Sound.{IsNothing};
ghost use Rattle.salvage_command.specs.Finding.{IsReadOf, IsFoundSound, IsUnfound};

use crate::text::salvaged_text;
use console_lines::Fault;
use entry_history::EntryPayload;
use journal_verification::ReadFault;
use marc_types::Limits;
use outside::Room;
use sound_frames::{Damage, Reason, SoundPart, find_sound};
use std::alloc::Global;

/// What was found: the sound entries, and what is to be told.
#[derive(Drop)]
pub(crate) struct Findings {
    pub entries: Vec<EntryPayload>,
    pub text: String,
}

/// The place of the first damage, where nothing is sound.
#[tactic(auto, using(crate::proofs::Findings::some_entry, crate::proofs::Findings::no_damage, crate::proofs::Findings::only_torn, crate::proofs::Findings::nothing_there))]
fn nothing_at(entries: &[EntryPayload], damages: &[Damage]) -> Option<u64>
    ensures some { (end : ℕ) → IfSome result (IsNothing (record { entries = entries.now; damages = damages.now; end = end })) }
    ensures none { (end place : ℕ) → IfNone result (IsNothing (record { entries = entries.now; damages = damages.now; end = end }) place → ⊥) }
{
    if !entries.is_empty() {
        return None;
    }
    if damages.is_empty() {
        return None;
    }
    let first = damages[0];
    if first.reason == Reason::Torn {
        return None;
    }
    Some(first.place)
}

/// What is sound of the file of that name, which is read as an input and closed again.
fn sound_of<R: Room>(
    alloc: Global,
    limits: Limits,
    room: &mut R,
    name: &str,
) -> Result<SoundPart, Fault>
    requires { (R.seen room.old).open_as name.now ≡ None }
    ensures stays { SameBut (R.seen room.old) (R.seen room.new) [] }
    ensures sound { IfOk result (λ s. (R.seen room.old).tells ≡ true → IsSomeAnd ((R.seen room.old).file name.now)
        (λ log. IsReadOf log s.entries.items s.damages.items s.end s.bytes)) }
    ensures fits { IfOk result (λ s. IsTrue s.fits ↔ IsWithin limits s.entries.items) }
    ensures only { IfErr result (λ fault. fault ≢ Input → fault ≡ Memory) }
    ensures input { IsErrOf result Input → Rose ((R.seen room.old).in_faults name.now) ((R.seen room.new).in_faults name.now) }
{
    let Ok(source) = room.open_in(name) else {
        return Err(Fault::Input);
    };
    let (sound, source) = find_sound(alloc, limits, source);
    room.close_in(name, source);
    match sound {
        Ok(sound) => Ok(sound),
        Err(ReadFault::InputFault) => Err(Fault::Input),
        Err(ReadFault::NoMemory) => Err(Fault::Memory),
    }
}

/// How many of so many bytes stand behind a place.
fn count_behind(bytes: u64, end: u64) -> u64
    ensures { result ≡ bytes - (end + 1) }
{
    bytes.saturating_sub(end).saturating_sub(1)
}

/// What is sound of a journal, where something is, within the limits; and what is to be told of it.
fn look_over(alloc: Global, sound: SoundPart) -> Result<Findings, Fault>
    ensures found { IfOk result (λ found. (limits : AnyLimits) (log : List ℕ) → IsReadOf log sound.entries.items sound.damages.items sound.end sound.bytes
        → (IsTrue sound.fits ↔ IsWithin limits sound.entries.items) → IsFoundSound limits log found.entries.items (string_bytes found.text)) }
    ensures within { IfOk result (λ found. (limits : AnyLimits) → (IsTrue sound.fits ↔ IsWithin limits sound.entries.items) → IsWithin limits found.entries.items) }
    ensures unfound { IfErr result (λ fault. (limits : AnyLimits) (log : List ℕ) → IsReadOf log sound.entries.items sound.damages.items sound.end sound.bytes
        → (IsTrue sound.fits ↔ IsWithin limits sound.entries.items) → IsUnfound limits log fault) }
    ensures no_usage { IfErr result (λ fault. fault ≢ Usage) }
    ensures no_device { IfErr result (λ fault. fault ≢ Device) }
    ensures no_input { IfErr result (λ fault. fault ≢ Input) }
{
    let entries = sound.entries;
    let damages = sound.damages;
    if let Some(place) = nothing_at(entries.as_slice(), damages.as_slice()) {
        return Err(Fault::NotAJournal(place));
    }
    if !sound.fits {
        return Err(Fault::Full);
    }
    let left = count_behind(sound.bytes, sound.end);
    let count = entries.len() as u64;
    let Ok(text) = salvaged_text(alloc, count, damages.as_slice(), left, sound.end) else {
        return Err(Fault::Memory);
    };
    Ok(Findings { entries, text })
}

/// What is sound of the file of that name, where something is, within the limits; and what is to be told of it. The file is read once, as an
/// input, and closed again.
pub(crate) fn findings_of<R: Room>(
    alloc: Global,
    limits: Limits,
    room: &mut R,
    name: &str,
) -> Result<Findings, Fault>
    requires { (R.seen room.old).open_as name.now ≡ None }
    ensures stays { SameBut (R.seen room.old) (R.seen room.new) [] }
    ensures found { IfOk result (λ found. (R.seen room.old).tells ≡ true → IsSomeAnd ((R.seen room.old).file name.now)
        (λ log. IsFoundSound limits log found.entries.items (string_bytes found.text))) }
    ensures within { IfOk result (λ found. IsWithin limits found.entries.items) }
    ensures unfound { IfErr result (λ fault. fault ≢ Input → fault ≢ Memory → (R.seen room.old).tells ≡ true → IsSomeAnd ((R.seen room.old).file name.now)
        (λ log. IsUnfound limits log fault)) }
    ensures no_usage { IfErr result (λ fault. fault ≢ Usage) }
    ensures no_device { IfErr result (λ fault. fault ≢ Device) }
    ensures input { IsErrOf result Input → Rose ((R.seen room.old).in_faults name.now) ((R.seen room.new).in_faults name.now) }
{
    match sound_of(alloc, limits, room, name) {
        Ok(sound) => look_over(alloc, sound),
        Err(fault) => Err(fault),
    }
}
