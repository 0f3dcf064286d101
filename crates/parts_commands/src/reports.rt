//! Reports of parts, read one after the other, and what they come to.
ghost use Rattle.std.specs.Prelude.{◌≡◌, ◌+◌, ◌*◌, ℕ, List, [], true, Some, IfOk, IfErr, OnOk, IsErrOf, IsTrue, ◌↔◌};
ghost use Rattle.outside.specs.Fault.{Rose};
ghost use Rattle.outside.specs.Room.{SameBut};
ghost use Rattle.parts_commands.specs.Reading.{AreUpTo, IsAdded, IsFaultOfReading, IsRead, StopsAmong, StopsAt, StopsSumming, greatest, numbers_of};
ghost use Rattle.parts_commands.specs.Reports.{AreJoined, AreSummed, IsBeyond, IsNotBeyond, IsNotShared, IsShared};

use crate::line::{last_line, totals_line};
use crate::numbers::totals_in;
use crate::sums::{Sums, add_part, sums_of};
use catalogue_parts::Totals;
use console_lines::Fault;
use marc_types::{NoMemory, Text};
use memory_files::{ReadFault, read_file};
use outside::Room;
use std::alloc::Global;

/// Why parts can't be joined.
#[derive(Clone, Copy, Debug)]
pub(crate) enum Stopped<'a> {
    /// A fault, which is to be told.
    Fault(Fault),
    /// They differ, at that byte of the file of that name.
    Differ { place: u64, name: &'a str },
}

/// What a file's last line tells, where it is a report, and where that line begins.
#[derive(Clone, Copy, Debug)]
struct Found {
    totals: Option<Totals>,
    place: u64,
}

fn found_in(alloc: Global, bytes: &[u8]) -> Result<Found, NoMemory>
    ensures { IfOk result (λ found. IsRead bytes.now found.totals found.place) }
{
    let place = last_line(bytes);
    let line = &bytes[place..];
    let totals = totals_in(line);
    let told = totals_line(alloc, &sums_of(&totals))?;
    let is_report = told.as_slice() == line;
    Ok(Found {
        totals: if is_report { Some(totals) } else { None },
        place: place as u64,
    })
}

/// Reads the last line of the file of that name.
fn read_report<R: Room>(alloc: Global, room: &mut R, name: &str) -> Result<Found, Fault>
    requires { (R.seen room.old).open_as name.now ≡ None }
    ensures stays { SameBut (R.seen room.old) (R.seen room.new) [] }
    ensures read { IfOk result (λ found. (R.seen room.old).tells ≡ true →
        (bytes : List ℕ) × ((R.seen room.old).file name.now ≡ Some bytes) × IsRead bytes found.totals found.place) }
    ensures kind { IfErr result IsFaultOfReading }
    ensures cause { IsErrOf result Fault.Input → Rose ((R.seen room.old).in_faults name.now) ((R.seen room.new).in_faults name.now) }
{
    let bytes = match read_file(alloc, room, name) {
        Ok(bytes) => bytes,
        Err(ReadFault::InputFault) => return Err(Fault::Input),
        Err(ReadFault::NoMemory) => return Err(Fault::Memory),
    };
    match found_in(alloc, bytes.as_slice()) {
        Ok(found) => Ok(found),
        Err(NoMemory) => Err(Fault::Memory),
    }
}

/// Reads the report of a catalogue that has authorities alone.
fn read_shared<'a, R: Room>(
    alloc: Global,
    room: &mut R,
    name: &'a str,
) -> Result<Totals, Stopped<'a>>
    requires { (R.seen room.old).open_as name.now ≡ None }
    ensures stays { SameBut (R.seen room.old) (R.seen room.new) [] }
    ensures shared { IfOk result (λ shared. (R.seen room.old).tells ≡ true → IsShared (R.seen room.old).file name.now shared) }
    ensures stopped { IfErr result (StopsAt (R.seen room.old) (R.seen room.new) name.now (IsNotShared (R.seen room.old).file name.now)) }
{
    match read_report(alloc, room, name) {
        Ok(found) => match found.totals {
            Some(shared) if shared.bibliographic == 0 => Ok(shared),
            _ => Err(Stopped::Differ {
                place: found.place,
                name,
            }),
        },
        Err(fault) => Err(Stopped::Fault(fault)),
    }
}

/// Whether a part has the authorities that all have, and counts what all count.
fn is_beyond(shared: &Totals, part: &Totals) -> bool
    ensures { IsTrue result ↔ IsBeyond shared.now part.now }
{
    part.authorities == shared.authorities
        && shared.bibliographic <= part.bibliographic
        && shared.linked <= part.linked
        && shared.ambiguous <= part.ambiguous
        && shared.unlinked <= part.unlinked
}

/// Adds what the report of a part counts beyond what stands in all of them.
fn add_report<'a, R: Room>(
    alloc: Global,
    room: &mut R,
    shared: &Totals,
    sums: &mut Sums,
    name: &'a str,
) -> Result<(), Stopped<'a>>
    requires free { (R.seen room.old).open_as name.now ≡ None }
    requires room { AreUpTo (greatest * greatest) (numbers_of sums.old) }
    ensures stays { SameBut (R.seen room.old) (R.seen room.new) [] }
    ensures adds { OnOk result ((R.seen room.old).tells ≡ true →
        IsAdded (R.seen room.old).file shared.now name.now (numbers_of sums.old) (numbers_of sums.new)) }
    ensures most { OnOk result ((most : ℕ) → AreUpTo most (numbers_of sums.old) → AreUpTo (most + greatest) (numbers_of sums.new)) }
    ensures stopped { IfErr result
        (StopsAt (R.seen room.old) (R.seen room.new) name.now (IsNotBeyond (R.seen room.old).file shared.now name.now)) }
{
    match read_report(alloc, room, name) {
        Ok(found) => match found.totals {
            Some(part) if is_beyond(shared, &part) => {
                add_part(sums, shared, &part);
                Ok(())
            }
            _ => Err(Stopped::Differ {
                place: found.place,
                name,
            }),
        },
        Err(fault) => Err(Stopped::Fault(fault)),
    }
}

/// Sums the reports of parts, one after the other.
fn sum_reports<'a, R: Room>(
    alloc: Global,
    room: &mut R,
    shared: &Totals,
    names: &'a [Text],
) -> Result<Sums, Stopped<'a>>
    requires free { (name : List ℕ) → (R.seen room.old).open_as name ≡ None }
    ensures stays { SameBut (R.seen room.old) (R.seen room.new) [] }
    ensures summed { IfOk result (λ sums. (R.seen room.old).tells ≡ true →
        AreSummed (R.seen room.old).file shared.now names.now (numbers_of sums)) }
    ensures stopped { IfErr result (StopsAmong (R.seen room.old) (R.seen room.new) shared.now names.now) }
{
    let mut sums = sums_of(shared);
    for name in names {
        add_report(alloc, room, shared, &mut sums, name.as_str())?;
    }
    Ok(sums)
}

/// The numbers of a whole, of which the first report is that of the authorities alone, and the others are those of the parts.
pub(crate) fn join_reports<'a, R: Room>(
    alloc: Global,
    room: &mut R,
    first: &'a str,
    names: &'a [Text],
) -> Result<Sums, Stopped<'a>>
    requires free { (name : List ℕ) → (R.seen room.old).open_as name ≡ None }
    ensures stays { SameBut (R.seen room.old) (R.seen room.new) [] }
    ensures joined { IfOk result (λ sums. (R.seen room.old).tells ≡ true →
        AreJoined (R.seen room.old).file first.now names.now (numbers_of sums)) }
    ensures stopped { IfErr result (StopsSumming (R.seen room.old) (R.seen room.new) first.now names.now) }
{
    let shared = read_shared(alloc, room, first)?;
    sum_reports(alloc, room, &shared, names)
}
