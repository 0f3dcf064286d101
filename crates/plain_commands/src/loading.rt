ghost use Rattle.std.specs.Prelude.{◌≡◌, ◌<◌, ◌≤◌, false, None, IsTrue, IfOk, IfErr, []};
ghost use Rattle.std.specs.Option.{option_map};
ghost use Rattle.marc_types.specs.Limits.{most_entries};
ghost use Rattle.marc_types.specs.Valid.{is_code};
ghost use Rattle.outside.specs.Room.{SameBut};
ghost use Rattle.marc_stream.specs.Pieces.{items};
ghost use Rattle.file_entries.specs.Entries.{IsSameFile};
ghost use Rattle.plain_commands.specs.Loading.{HasInputCause, IsFaultOfLoading, IsLoadedIn, IsFullIn, LoadsItems, TakesNext, told_items};

use crate::loaded::Loaded;
use catalogue_core::CoreFault;
use catalogue_rules::Steps;
use console_lines::Fault;
use file_entries::{FileEntries, NextEntry};
use marc_types::{Limits, NoMemory, Text};
use outside::{Room, Source};
use std::alloc::Global;
use std::marker::Brand;
use std::sync::ledger::{Blank, Ledger};

/// The loader of the only file of a pass.
const LOADER: u32 = 0;

/// Takes the next item up, and answers whether there was one.
fn take_next<S: Source, L: Ledger>(
    alloc: Global,
    entries: &mut FileEntries<S>,
    loaded: &mut Loaded,
    steps: &mut Steps<L>,
) -> Result<bool, Fault>
    requires going { entries.old.over ≡ false }
    ensures same { IsSameFile entries.old entries.new }
    ensures faults { entries.old.stream.faults ≤ entries.new.stream.faults }
    ensures takes { TakesNext entries.old loaded.old result entries.new loaded.new }
{
    match entries.next(alloc) {
        NextEntry::Entry(item) => match loaded.commit(alloc, item, steps) {
            Ok(()) => Ok(true),
            Err(CoreFault::Full) => Err(Fault::Full),
            Err(CoreFault::NoMemory) => Err(Fault::Memory),
        },
        NextEntry::Refused(item) => match loaded.refuse(item) {
            Ok(()) => Ok(true),
            Err(NoMemory) => Err(Fault::Memory),
        },
        NextEntry::End => Ok(false),
        NextEntry::ReadFault => Err(Fault::Input),
        NextEntry::NoMemory => Err(Fault::Memory),
    }
}

fn load_entries<S: Source, L: Ledger>(
    alloc: Global,
    limits: Limits,
    entries: &mut FileEntries<S>,
    steps: &mut Steps<L>,
) -> Result<Loaded, Fault>
    requires few { limits.entries ≤ most_entries }
    requires going { entries.old.over ≡ false }
    requires loader { entries.old.loader ≡ 0 }
    ensures { LoadsItems limits entries.old.library (told_items entries.old.stream) entries.old.stream.faults entries.new.stream.faults result }
{
    let mut loaded = Loaded::new(alloc, limits);
    'items: while take_next(alloc, entries, &mut loaded, steps)? {}
    loaded.is_within_limits();
    Ok(loaded)
}

/// Loads a source whose steps nobody asks for.
fn load_counted<S: Source, L: Ledger>(
    alloc: Global,
    limits: Limits,
    source: S,
    library: Text,
    blank: Blank,
) -> (Result<Loaded, Fault>, S)
    requires few { limits.entries ≤ most_entries }
    requires library { IsTrue (is_code library) }
    requires name { blank.name ≡ L.name }
    requires parts { blank.parts ≡ L.parts }
    requires shared { 0 < blank.parts }
    ensures { LoadsItems limits library (option_map items (S.left source)) (S.faults source) (S.faults result.1) result.0 }
{
    let mut steps = Steps::<L>::new(blank);
    match FileEntries::new(alloc, source, library, LOADER) {
        Ok(mut entries) => {
            let loaded = load_entries(alloc, limits, &mut entries, &mut steps);
            (loaded, entries.finish())
        }
        Err((source, NoMemory)) => (Err(Fault::Memory), source),
    }
}

/// Loads a source into an empty catalogue with these limits, and gives it back.
pub fn load_source<S: Source>(
    alloc: Global,
    limits: Limits,
    source: S,
    library: Text,
) -> (Result<Loaded, Fault>, S)
    requires few { limits.entries ≤ most_entries }
    requires library { IsTrue (is_code library) }
    ensures { LoadsItems limits library (option_map items (S.left source)) (S.faults source) (S.faults result.1) result.0 }
{
    load_counted::<S, Brand>(alloc, limits, source, library, Blank::new(1))
}

/// Loads the file of that name into an empty catalogue with these limits. It is closed again on every path.
pub fn load_file<R: Room>(
    alloc: Global,
    limits: Limits,
    room: &mut R,
    name: &str,
    library: Text,
) -> Result<Loaded, Fault>
    requires few { limits.entries ≤ most_entries }
    requires free { (R.seen room.old).open_as name.now ≡ None }
    requires library { IsTrue (is_code library) }
    ensures stays { SameBut (R.seen room.old) (R.seen room.new) [] }
    ensures loaded { IfOk result (IsLoadedIn limits (R.seen room.old) name.now library) }
    ensures full { IfErr result (IsFullIn limits (R.seen room.old) name.now library) }
    ensures cause { IfErr result (HasInputCause name.now (R.seen room.old) (R.seen room.new)) }
    ensures kind { IfErr result IsFaultOfLoading }
{
    let source = match room.open_in(name) {
        Ok(source) => source,
        Err(_) => return Err(Fault::Input),
    };
    let (loaded, source) = load_source(alloc, limits, source, library);
    room.close_in(name, source);
    loaded
}
