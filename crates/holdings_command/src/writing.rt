//! The outputs: the records with their holdings, and the holdings that wait.
ghost use Rattle.std.specs.Prelude.{◌≡◌, ◌≢◌, ◌∷◌, [], None, OnOk, IfOk, IfErr};
ghost use Rattle.std.specs.Option.{option_copied};
ghost use Rattle.outside.specs.Room.{SameBut};
ghost use Rattle.holdings_command.specs.Writing.{out_due, WritesBoth, StopsAtOne};

use catalogue_core::Catalogue;
use console_lines::OutputsFault;
use holdings::{HoldingGroups, HoldingShelf};
use holdings_export::{Listing, WaitingHoldings, write_holdings};
use marc_types::{Key, NoMemory};
use output_files::{Document, is_kept, write_in_turn};
use outside::{Room, Sink, WriteFault};
use selection::Selection;
use std::alloc::Global;
use std::marker::Model;

/// The records of a catalogue with their holdings, as a document: all, or those under keys with a code. Contracts see its bytes.
#[derive(Drop)]
struct HeldRecords<'a> {
    rows: Listing<'a>,
    groups: HoldingGroups<'a>,
    code: Option<&'a str>,
}

impl<'a> Model for HeldRecords<'a> {
    ghost use Rattle.std.specs.Prelude.{List, ℕ};
    ghost use Rattle.std.specs.Option.{option_copied};
    ghost use Rattle.output_files.specs.Kept.{kept_keys};
    ghost use Rattle.holdings_export.specs.Output.{holdings_export};

    ghost Value = { List ℕ };

    ghost view = { λ d. holdings_export (kept_keys (option_copied d.code)) d.rows d.groups };
}

impl<'a> HeldRecords<'a> {
    /// All memory of their writing is taken here.
    fn of(
        alloc: Global,
        core: &'a Catalogue,
        shelf: &'a HoldingShelf,
        code: Option<&'a str>,
    ) -> Result<HeldRecords<'a>, NoMemory>
        requires { core.now.staged ≡ [] }
        ensures { IfOk result (λ records. records ≡ out_due (option_copied code.entry) core.now.history shelf.now) }
    {
        let rows = Listing::of(alloc, core)?;
        let groups = HoldingGroups::of(alloc, shelf)?;
        Ok(HeldRecords { rows, groups, code })
    }
}

impl<'a> Document for HeldRecords<'a> {
    ghost due = { λ records. records };

    fn write_to<K: Sink>(self, out: &mut K) -> Result<(), WriteFault> {
        let code = self.code;
        let kept = Selection::new(|key: &Key| is_kept(key, code));
        write_holdings(self.rows, &self.groups, &kept, out)?;
        Ok(())
    }
}

/// The holdings that wait for their record, as a document.
#[derive(Drop)]
struct Rest<'a> {
    waiting: WaitingHoldings<'a>,
}

impl<'a> Document for Rest<'a> {
    ghost due = { λ d. d.waiting };

    fn write_to<K: Sink>(self, out: &mut K) -> Result<(), WriteFault> {
        self.waiting.write(out)?;
        Ok(())
    }
}

/// Writes the records of a catalogue with their holdings into the file `out`, and then the holdings that wait for a record into the
/// file `rest`, whichever code is asked for. All memory is taken before either is begun.
#[tactic(auto, using(outside::proofs::Rooms::same_but_itself))]
pub fn write_both<R: Room>(
    alloc: Global,
    room: &mut R,
    out: &str,
    rest: &str,
    core: &Catalogue,
    shelf: &HoldingShelf,
    code: Option<&str>,
) -> Result<(), OutputsFault>
    requires free { (R.seen room.old).open_as out.now ≡ None }
    requires rest_free { (R.seen room.old).open_as rest.now ≡ None }
    requires differ { out.now ≢ rest.now }
    requires staged { core.now.staged ≡ [] }
    ensures apart { SameBut (R.seen room.old) (R.seen room.new) (out.now ∷ rest.now ∷ []) }
    ensures closed { (R.seen room.new).open_as out.now ≡ None }
    ensures rest_closed { (R.seen room.new).open_as rest.now ≡ None }
    ensures written { OnOk result
        (WritesBoth (R.seen room.old) (R.seen room.new) out.now rest.now (option_copied code.entry) core.now.history shelf.now) }
    ensures memory { IfErr result (λ why. why ≡ OutputsFault.NoMemory → SameBut (R.seen room.old) (R.seen room.new) []) }
    ensures stopped { IfErr result
        (StopsAtOne (R.seen room.old) (R.seen room.new) out.now rest.now (option_copied code.entry) core.now.history shelf.now) }
{
    let Ok(records) = HeldRecords::of(alloc, core, shelf, code) else {
        return Err(OutputsFault::NoMemory);
    };
    let Ok(waiting) = WaitingHoldings::of(alloc, core, shelf) else {
        return Err(OutputsFault::NoMemory);
    };
    match write_in_turn(room, out, records, rest, Rest { waiting }) {
        Ok(()) => Ok(()),
        Err(which) => Err(OutputsFault::Unwritten(which)),
    }
}
