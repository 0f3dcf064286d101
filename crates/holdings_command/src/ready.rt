//! A file of holdings, made ready to be written and told.
ghost use Rattle.std.specs.Prelude.{◌≡◌, None, IfOk, IfErr, []};
ghost use Rattle.outside.specs.Fault.{Rose};
ghost use Rattle.outside.specs.Room.{SameBut};
ghost use Rattle.catalogue_rules.specs.Settle.{state_of};
ghost use Rattle.holdings_command.specs.Shelving.{IsFaultOfShelving};
ghost use Rattle.holdings_command.specs.Ready.{IsReadyIn, IsReadyOf};

use crate::lines::holdings_text;
use crate::shelving::{Shelved, shelve_file};
use catalogue_core::Catalogue;
use command_words::Library;
use console_lines::Fault;
use holdings::HoldingShelf;
use holdings_export::count;
use marc_types::{NoMemory, TryCopy};
use outside::Room;
use std::alloc::Global;

/// What a file comes to, before anything is written: the shelf of its accepted holdings, what the console is told, and whether
/// something was refused.
#[derive(Drop)]
pub struct Ready {
    pub shelf: HoldingShelf,
    pub text: String,
    pub refused: bool,
}

fn ready_of(
    alloc: Global,
    library: &Library,
    core: &Catalogue,
    shelved: Shelved,
) -> Result<Ready, NoMemory>
    requires { core.now.staged ≡ [] }
    ensures { IfOk result (IsReadyOf shelved library.now (state_of core.now.history)) }
{
    let Shelved {
        shelf,
        accepted,
        refused,
    } = shelved;
    let counts = count(alloc, core, &shelf)?;
    let file = library.file.as_str();
    let text = holdings_text(alloc, file, accepted, refused.as_slice(), counts)?;
    let refused = !refused.is_empty();
    Ok(Ready {
        shelf,
        text,
        refused,
    })
}

/// Reads a file of holdings whole, and makes what is to be written and told of it over a catalogue.
pub fn prepare<R: Room>(
    alloc: Global,
    room: &mut R,
    library: &Library,
    core: &Catalogue,
) -> Result<Ready, Fault>
    requires free { (R.seen room.old).open_as library.now.file ≡ None }
    requires staged { core.now.staged ≡ [] }
    ensures stays { SameBut (R.seen room.old) (R.seen room.new) [] }
    ensures ready { IfOk result (IsReadyIn (R.seen room.old) library.now (state_of core.now.history)) }
    ensures cause { IfErr result (λ fault. fault ≡ Fault.Input →
        Rose ((R.seen room.old).in_faults library.now.file) ((R.seen room.new).in_faults library.now.file)) }
    ensures kind { IfErr result IsFaultOfShelving }
{
    let code = match library.code.copy(alloc) {
        Ok(code) => code,
        Err(NoMemory) => return Err(Fault::Memory),
    };
    let shelved = match shelve_file(alloc, room, library.file.as_str(), code) {
        Ok(shelved) => shelved,
        Err(fault) => return Err(fault),
    };
    match ready_of(alloc, library, core, shelved) {
        Ok(ready) => Ok(ready),
        Err(NoMemory) => Err(Fault::Memory),
    }
}
