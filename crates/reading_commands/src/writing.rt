//! What is looked for in a journal's bytes, as a file.
ghost use Rattle.std.specs.Prelude.{◌≡◌, ◌≢◌, None, [], ◌∷◌, IfOk, IfErr};
ghost use Rattle.outside.specs.Room.{SameBut};
ghost use Rattle.archive_commands.specs.Reads.{due_view, due_of};
ghost use Rattle.command_words.specs.Asked.{range_asked};
ghost use Rattle.durable_catalogue.specs.declared.fault.OpenFault.TheVariants.{OldVersion};
ghost use Rattle.durable_catalogue.specs.Openings.{IsUnopened};
ghost use Rattle.heading_list.specs.Telling.{headings_due};
ghost use Rattle.archive_commands.specs.Telling.{matches_due};
ghost use Rattle.reading_commands.specs.Looking.{IsLooked, asked_due};

use crate::opening::matches_of;
use archive_commands::{Due, write_due, write_headings, write_table};
use command_words::{HeadingRange, Look};
use durable_catalogue::{OnClose, OpenFault};
use marc_types::Limits;
use outside::{Room, WriteFault};
use std::alloc::Global;
use unheld_journals::catalogue_of;

/// Writes what is due of the catalogue of a journal's bytes into the file `out`, or answers why they have none within the limits.
fn write_catalogue<R: Room>(
    alloc: Global,
    limits: Limits,
    room: &mut R,
    out: &str,
    bytes: Vec<u8>,
    due: Due<'_>,
) -> Result<Result<(), WriteFault>, OpenFault>
    requires { (R.seen room.old).open_as out.now ≡ None }
    ensures apart { SameBut (R.seen room.old) (R.seen room.new) (out.now ∷ []) }
    ensures closed { (R.seen room.new).open_as out.now ≡ None }
    ensures written { IfOk result (IsLooked limits bytes.items out.now (due_of (due_view due.entry)) (R.seen room.old) (R.seen room.new)) }
    ensures unbegun { IfErr result (λ _. SameBut (R.seen room.old) (R.seen room.new) []) }
    ensures unopened { IfErr result (IsUnopened limits bytes.items) }
    ensures current { IfErr result (λ fault. fault ≢ OldVersion) }
{
    let archive = catalogue_of(alloc, limits, bytes)?;
    let written = write_due(alloc, room, out, archive.core(), due);
    let _disk = archive.close(OnClose::Leak);
    Ok(written)
}

/// Writes which records of a journal's bytes share a number into the file `out`, or answers why they are no journal that is taken
/// within the limits.
fn write_matches<R: Room>(
    alloc: Global,
    limits: Limits,
    room: &mut R,
    out: &str,
    bytes: Vec<u8>,
) -> Result<Result<(), WriteFault>, OpenFault>
    requires { (R.seen room.old).open_as out.now ≡ None }
    ensures apart { SameBut (R.seen room.old) (R.seen room.new) (out.now ∷ []) }
    ensures closed { (R.seen room.new).open_as out.now ≡ None }
    ensures written { IfOk result (IsLooked limits bytes.items out.now matches_due (R.seen room.old) (R.seen room.new)) }
    ensures unbegun { IfErr result (λ _. SameBut (R.seen room.old) (R.seen room.new) []) }
    ensures unopened { IfErr result (IsUnopened limits bytes.items) }
    ensures current { IfErr result (λ fault. fault ≢ OldVersion) }
{
    let taken = matches_of(alloc, limits, bytes)?;
    Ok(write_table(alloc, room, out, &taken.table))
}

/// Writes the list of the headings of a journal's bytes into the file `out`, or answers why they are no journal that is taken
/// within the limits.
fn write_list<R: Room>(
    alloc: Global,
    limits: Limits,
    room: &mut R,
    out: &str,
    bytes: Vec<u8>,
    range: HeadingRange<'_>,
) -> Result<Result<(), WriteFault>, OpenFault>
    requires { (R.seen room.old).open_as out.now ≡ None }
    ensures apart { SameBut (R.seen room.old) (R.seen room.new) (out.now ∷ []) }
    ensures closed { (R.seen room.new).open_as out.now ≡ None }
    ensures written { IfOk result (IsLooked limits bytes.items out.now (headings_due (range_asked range.entry)) (R.seen room.old) (R.seen room.new)) }
    ensures unbegun { IfErr result (λ _. SameBut (R.seen room.old) (R.seen room.new) []) }
    ensures unopened { IfErr result (IsUnopened limits bytes.items) }
    ensures current { IfErr result (λ fault. fault ≢ OldVersion) }
{
    let archive = catalogue_of(alloc, limits, bytes)?;
    let written = write_headings(alloc, room, out, archive.core(), range);
    let _disk = archive.close(OnClose::Leak);
    Ok(written)
}

/// Writes what is looked for in a journal's bytes into the file `out`, or answers why they are no journal that is taken
/// within the limits.
pub fn write_look<R: Room>(
    alloc: Global,
    limits: Limits,
    room: &mut R,
    out: &str,
    bytes: Vec<u8>,
    look: Look<'_>,
) -> Result<Result<(), WriteFault>, OpenFault>
    requires { (R.seen room.old).open_as out.now ≡ None }
    ensures apart { SameBut (R.seen room.old) (R.seen room.new) (out.now ∷ []) }
    ensures closed { (R.seen room.new).open_as out.now ≡ None }

    // It is due of the history of these bytes, which is within the limits.
    ensures written { IfOk result (IsLooked limits bytes.items out.now (asked_due look.entry) (R.seen room.old) (R.seen room.new)) }

    // Bytes that aren't taken are so, and nothing is begun.
    ensures unbegun { IfErr result (λ _. SameBut (R.seen room.old) (R.seen room.new) []) }
    ensures unopened { IfErr result (IsUnopened limits bytes.items) }
    ensures current { IfErr result (λ fault. fault ≢ OldVersion) }
{
    match look {
        Look::Export(code) => write_catalogue(alloc, limits, room, out, bytes, Due::Export(code)),
        Look::Report => write_catalogue(alloc, limits, room, out, bytes, Due::Report),
        Look::Matches => write_matches(alloc, limits, room, out, bytes),
        Look::Headings(range) => write_list(alloc, limits, room, out, bytes, range),
    }
}
