ghost use Rattle.std.specs.Prelude.{◌≡◌, ◌≢◌, ◌≤◌, None, IsTrue, IfOk, IfErr, []};
ghost use Rattle.marc_types.specs.Limits.{most_entries};
ghost use Rattle.marc_types.specs.Valid.{is_code};
ghost use Rattle.outside.specs.Room.{SameBut};
ghost use Rattle.marc_stream.specs.Pieces.{items};
ghost use Rattle.plain_commands.specs.Loading.{HasInputCause, IsFaultOfLoading, IsFullAt, IsFullIn};
ghost use Rattle.plain_commands.specs.Passing.{IsReady, IsReadyIn, IsReadyOf};

use crate::loaded::Loaded;
use crate::loading::{load_file, load_source};
use command_words::Library;
use console_lines::{Fault, results_text};
use marc_types::{Limits, NoMemory, TryCopy};
use outside::Room;
use outside_sure::SureSource;
use std::alloc::Global;

/// What a file comes to, before anything is written: the catalogue of its accepted entries with its refused items, and what
/// the console is told.
#[derive(Drop)]
pub struct Ready {
    pub loaded: Loaded,
    pub text: String,
}

fn ready_of(alloc: Global, library: &Library, loaded: Loaded) -> Result<Ready, NoMemory>
    ensures { IfOk result (IsReadyOf loaded library.now) }
{
    let text = results_text(
        alloc,
        library.file.as_str(),
        loaded.refused(),
        &loaded.totals(),
    )?;
    Ok(Ready { loaded, text })
}

/// Makes what is to be written and told of a file with these bytes, by a catalogue with these limits.
pub fn prepare_bytes(
    alloc: Global,
    limits: Limits,
    library: &Library,
    bytes: &[u8],
) -> Result<Ready, Fault>
    requires few { limits.entries ≤ most_entries }
    requires proper { IsTrue (is_code library.now.code) }
    ensures ready { IfOk result (IsReady limits library.now bytes.now) }
    ensures full { IfErr result (λ fault. fault ≡ Fault.Full → IsFullAt limits library.now.code (items bytes.now)) }
    ensures kind { IfErr result IsFaultOfLoading }
    ensures read { IfErr result (λ fault. fault ≢ Fault.Input) }
{
    let code = match library.code.copy(alloc) {
        Ok(code) => code,
        Err(NoMemory) => return Err(Fault::Memory),
    };
    let (loaded, _source) = load_source(alloc, limits, SureSource::new(bytes), code);
    let loaded = match loaded {
        Ok(loaded) => loaded,
        Err(fault) => return Err(fault),
    };
    match ready_of(alloc, library, loaded) {
        Ok(ready) => Ok(ready),
        Err(NoMemory) => Err(Fault::Memory),
    }
}

/// Reads a file whole, and makes what is to be written and told of it, by a catalogue with these limits.
pub fn prepare<R: Room>(
    alloc: Global,
    limits: Limits,
    room: &mut R,
    library: &Library,
) -> Result<Ready, Fault>
    requires few { limits.entries ≤ most_entries }
    requires free { (R.seen room.old).open_as library.now.file ≡ None }
    requires proper { IsTrue (is_code library.now.code) }
    ensures stays { SameBut (R.seen room.old) (R.seen room.new) [] }
    ensures ready { IfOk result (IsReadyIn limits (R.seen room.old) library.now) }
    ensures full { IfErr result (IsFullIn limits (R.seen room.old) library.now.file library.now.code) }
    ensures cause { IfErr result (HasInputCause library.now.file (R.seen room.old) (R.seen room.new)) }
    ensures kind { IfErr result IsFaultOfLoading }
{
    let code = match library.code.copy(alloc) {
        Ok(code) => code,
        Err(NoMemory) => return Err(Fault::Memory),
    };
    let loaded = match load_file(alloc, limits, room, library.file.as_str(), code) {
        Ok(loaded) => loaded,
        Err(fault) => return Err(fault),
    };
    match ready_of(alloc, library, loaded) {
        Ok(ready) => Ok(ready),
        Err(NoMemory) => Err(Fault::Memory),
    }
}
