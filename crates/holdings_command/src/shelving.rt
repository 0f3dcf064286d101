//! The accepted holdings of a file, on a shelf.
ghost use Rattle.std.specs.Prelude.{◌≡◌, ◌≤◌, ℕ, List, true, false, Some, None, IfOk, IfErr, []};
ghost use Rattle.outside.specs.Fault.{Rose};
ghost use Rattle.outside.specs.Room.{SameBut};
ghost use Rattle.marc_stream.specs.Pieces.{items};
ghost use Rattle.holdings_command.specs.Shelving.{IsFaultOfShelving, IsShelved, IsShelvedIn};

use console_lines::Fault;
use file_holdings::{FileHoldings, NextHolding, RefusedHolding};
use holdings::HoldingShelf;
use marc_types::{NoMemory, Text};
use outside::{Room, Source};
use std::alloc::Global;

/// What became of a file's items: the shelf of its accepted holdings, how many these were, and the refused items.
#[derive(Drop)]
pub struct Shelved {
    pub shelf: HoldingShelf,
    pub accepted: u64,
    pub refused: Vec<RefusedHolding>,
}

fn shelve_items<S: Source>(alloc: Global, items: &mut FileHoldings<S>) -> Result<Shelved, Fault>
    requires going { items.old.over ≡ false }
    requires first { items.old.stream.answered ≡ 0 }
    ensures shelved { IfOk result (λ shelved. items.old.stream.tells ≡ true →
        IsShelved items.old.library items.old.stream.coming shelved) }
    ensures faults { items.old.stream.faults ≤ items.new.stream.faults }
    ensures cause { IfErr result (λ fault. fault ≡ Fault.Input → Rose items.old.stream.faults items.new.stream.faults) }
    ensures kind { IfErr result IsFaultOfShelving }
{
    let mut shelf = HoldingShelf::new(alloc);
    let mut refused = Vec::new(alloc);
    let mut count = 0;
    'items: loop {
        match items.next(alloc) {
            NextHolding::Holding { ordinal, item } => match shelf.put(alloc, item) {
                Ok(()) => count = ordinal,
                Err(NoMemory) => return Err(Fault::Memory),
            },
            NextHolding::Refused(item) => match refused.push(item) {
                Ok(()) => count = item.ordinal,
                Err(_) => return Err(Fault::Memory),
            },
            NextHolding::End => {
                let accepted = count - refused.len() as u64;
                return Ok(Shelved {
                    shelf,
                    accepted,
                    refused,
                });
            }
            NextHolding::ReadFault => return Err(Fault::Input),
            NextHolding::NoMemory => return Err(Fault::Memory),
        }
    }
}

fn shelve_source<S: Source>(alloc: Global, source: S, library: Text) -> (Result<Shelved, Fault>, S)
    ensures shelved { IfOk result.0 (λ shelved. (bytes : List ℕ) → S.left source ≡ Some bytes → IsShelved library (items bytes) shelved) }
    ensures later { S.faults source ≤ S.faults result.1 }
    ensures cause { IfErr result.0 (λ fault. fault ≡ Fault.Input → Rose (S.faults source) (S.faults result.1)) }
    ensures kind { IfErr result.0 IsFaultOfShelving }
{
    match FileHoldings::new(alloc, source, library) {
        Ok(mut items) => {
            let shelved = shelve_items(alloc, &mut items);
            (shelved, items.finish())
        }
        Err((source, NoMemory)) => (Err(Fault::Memory), source),
    }
}

/// Puts the accepted holdings of the file of that name on a shelf. The file is closed again on every path.
pub fn shelve_file<R: Room>(
    alloc: Global,
    room: &mut R,
    name: &str,
    library: Text,
) -> Result<Shelved, Fault>
    requires { (R.seen room.old).open_as name.now ≡ None }
    ensures stays { SameBut (R.seen room.old) (R.seen room.new) [] }
    ensures shelved { IfOk result (IsShelvedIn (R.seen room.old) name.now library) }
    ensures cause { IfErr result (λ fault. fault ≡ Fault.Input →
        Rose ((R.seen room.old).in_faults name.now) ((R.seen room.new).in_faults name.now)) }
    ensures kind { IfErr result IsFaultOfShelving }
{
    let source = match room.open_in(name) {
        Ok(source) => source,
        Err(_) => return Err(Fault::Input),
    };
    let (shelved, source) = shelve_source(alloc, source, library);
    room.close_in(name, source);
    shelved
}
