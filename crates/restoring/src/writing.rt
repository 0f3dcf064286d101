//! A checkpoint of a catalogue's state that is appended to a log.
ghost use Rattle.std.specs.Prelude.{◌≡◌, ◌+◌, ◌<◌, ◌≤◌, [], ◌∷◌, length, All, true, false, IsErrOf, IfOk, OnOk};
ghost use Rattle.outside.specs.Fault.{HasWriteCause};
ghost use Rattle.catalogue_rules.specs.State.{rows_of};
ghost use Rattle.catalogue_rules.specs.Settle.{state_of};
ghost use Rattle.catalogue_rules.specs.Valid.{IsValid};
ghost use Rattle.numbered_store.specs.Kept.{kept_record};
ghost use Rattle.commit_journal.specs.Journal.{Continues, IsDurableLog};
ghost use Rattle.commit_journal.specs.declared.format.TheConstants.{LARGEST_PAYLOAD};
ghost use Rattle.checkpoint.specs.Format.{kept_bytes, part_bytes};
ghost use Rattle.checkpoint.specs.declared.part.Part.TheVariants.{Rows};
ghost use Rattle.restoring.specs.Drafts.{CanBeKept, EndsDraft, GainsRows, IsDraft, IsWritten, StaysDraft, of_class, rows_in_turn};
ghost use Rattle.restoring.specs.Writing.{AppendsPoint, LeavesLast, LeavesPoint};

use catalogue_core::{Catalogue, Engine};
use checkpoint::{append_row, begin_payload, begin_rows, end_payload};
use commit_journal::{Journal, LARGEST_PAYLOAD, Version};
use marc_types::{Class, Key, NoMemory};
use numbered_store::StoredRecord;
use outside::{Bytes, Disk, WriteFault};
use std::alloc::Global;
use std::mem;

/// A kept record, as it stands in a payload.
#[tactic(auto, using(crate::proofs::Drafting::made_short))]
fn written_row(
    alloc: Global,
    class: Class,
    key: &Key,
    kept: &StoredRecord,
) -> Result<Vec<u8>, NoMemory>
    requires { CanBeKept (key.now, kept_record kept.now) }
    ensures bytes { IfOk result (λ row. row.items ≡ kept_bytes class (key.now, kept_record kept.now)) }
    ensures short { IfOk result (λ row. length row.items ≤ 1474636) }
{
    kept.each_text_is_utf8();
    let mut row = Vec::new(alloc);
    append_row(alloc, &mut row, class, key, kept)?;
    Ok(row)
}

/// A checkpoint that is made in memory, and not ended yet: the payloads that are whole, and the one to which kept records are appended.
#[derive(Drop)]
struct Draft {
    whole: Vec<Bytes>,
    filling: Vec<u8>,
}

impl Draft {
    #[tactic(auto, using(crate::proofs::Drafting::begun))]
    fn begin(alloc: Global) -> Result<Draft, NoMemory>
        ensures { IfOk result (λ draft. IsDraft [] draft.whole.items draft.filling.items) }
    {
        let begun = Vec::from_slice(alloc, &begin_payload())?;
        let mut whole = Vec::new(alloc);
        whole.push(Bytes::from_vec(begun))?;
        Ok(Draft {
            whole,
            filling: begin_rows(alloc)?,
        })
    }

    /// Closes the payload of kept records, which has one.
    #[tactic(auto, using(crate::proofs::Drafting::closed))]
    fn close(&mut self, alloc: Global) -> Result<(), NoMemory>
        requires some { 1 < length self.old.filling.items }
        ensures same { OnOk result (StaysDraft self.old self.new) }
        ensures filling { OnOk result (self.new.filling.items ≡ part_bytes (Rows [])) }
    {
        let next = begin_rows(alloc)?;
        let closed = mem::replace(&mut self.filling, next);
        self.whole.push(Bytes::from_vec(closed))?;
        Ok(())
    }

    /// Closes the payload of kept records where one of so many bytes has no room in it.
    #[tactic(auto, using(crate::proofs::Drafting::none_filling))]
    fn make_room(&mut self, alloc: Global, len: usize) -> Result<(), NoMemory>
        requires short { len ≤ 1474636 }
        ensures same { OnOk result (StaysDraft self.old self.new) }
        ensures room { OnOk result (length self.new.filling.items + len ≤ LARGEST_PAYLOAD) }
    {
        if self.filling.len() > LARGEST_PAYLOAD - len {
            self.close(alloc)?;
        }
        Ok(())
    }

    /// Puts a kept record behind the others.
    #[tactic(auto, using(crate::proofs::Drafting::added))]
    fn add(
        &mut self,
        alloc: Global,
        class: Class,
        key: &Key,
        kept: &StoredRecord,
    ) -> Result<(), NoMemory>
        requires { CanBeKept (key.now, kept_record kept.now) }
        ensures { OnOk result (GainsRows ((class, (key.now, kept_record kept.now)) ∷ []) self.old self.new) }
    {
        // its texts are read as they are written
        kept.each_text_is_utf8();
        let row = written_row(alloc, class, key, kept)?;
        self.make_room(alloc, row.len())?;
        self.filling.extend_from_slice(row.as_slice())?;
        Ok(())
    }

    /// Closes the payload of kept records, if it has one.
    #[tactic(auto, using(crate::proofs::Drafting::none_filling))]
    fn close_last(&mut self, alloc: Global) -> Result<(), NoMemory>
        ensures same { OnOk result (StaysDraft self.old self.new) }
        ensures none { OnOk result (length self.new.filling.items ≤ 1) }
    {
        if self.filling.len() > 1 {
            self.close(alloc)?;
        }
        Ok(())
    }

    /// Ends the checkpoint behind so many entries.
    #[tactic(auto, using(crate::proofs::Drafting::ended))]
    fn end(self, alloc: Global, entries: u64, count: u64) -> Result<Vec<Bytes>, NoMemory>
        ensures { IfOk result (λ payloads. EndsDraft entries count self payloads.items) }
    {
        let mut draft = self;
        draft.close_last(alloc)?;
        let Draft {
            mut whole,
            filling: _,
        } = draft;
        whole.push(Bytes::from_vec(end_payload(alloc, entries, count)?))?;
        Ok(whole)
    }
}

/// Puts the kept records of a class behind the others, in key order.
#[tactic(auto, using(crate::proofs::Drafting::adding_begun, crate::proofs::Drafting::adding_done))]
fn add_class(
    alloc: Global,
    draft: &mut Draft,
    engine: &Engine,
    class: Class,
) -> Result<(), NoMemory>
    requires { All CanBeKept (rows_of class engine.now.state) }
    ensures { OnOk result (GainsRows (of_class class (rows_of class engine.now.state)) draft.old draft.new) }
{
    for (key, kept) in engine.rows(alloc, class)? {
        draft.add(alloc, class, key, kept)?;
    }
    Ok(())
}

/// The payloads of a checkpoint of a catalogue's state.
fn point_payloads(alloc: Global, core: &Catalogue) -> Result<Vec<Bytes>, NoMemory>
    requires { core.now.staged ≡ [] }
    ensures written { IfOk result (λ payloads.
        IsWritten (length core.now.history) (rows_in_turn (state_of core.now.history)) payloads.items) }
    ensures valid { OnOk result (IsValid (state_of core.now.history)) }
{
    core.each_was_admitted();
    let engine = core.engine();
    engine.stays_valid();
    let mut draft = Draft::begin(alloc)?;
    add_class(alloc, &mut draft, engine, Class::Authority)?;
    add_class(alloc, &mut draft, engine, Class::Bibliographic)?;
    let count = engine.count(Class::Authority) + engine.count(Class::Bibliographic);
    draft.end(alloc, core.history_len(), count)
}

/// Appends a checkpoint of a catalogue's state behind its history to a log of checkpoints, whole or not at all. It is made in memory first.
pub fn write_point<D: Disk>(
    alloc: Global,
    core: &Catalogue,
    point: &mut Journal<D>,
) -> Result<(), WriteFault>
    requires kept { core.now.staged ≡ [] }
    requires whole { point.old.broken ≡ false }
    requires newest { point.old.version ≡ Version.Two }

    // Each image at each moment of the call has the log's frames as they were, or with a whole checkpoint behind them; after Ok it has it.
    ensures crash { LeavesPoint core.now.history (D.seen point.old.disk) (D.seen point.new.disk) }
    ensures appended { OnOk result (AppendsPoint core.now.history (D.seen point.old.disk) (D.seen point.new.disk)) }
    ensures settled { OnOk result (IsDurableLog point.new.place 2 (D.seen point.new.disk)) }

    // So of a log of checkpoints each image has the last one that it had, or this one.
    ensures last { LeavesLast core.now.history (D.seen point.old.disk) (D.seen point.new.disk) }

    // Want of memory comes before the first byte is written, and changes nothing.
    ensures memory { IsErrOf result WriteFault.NoMemory → point.new ≡ point.old }
    ensures cause { HasWriteCause (D.seen point.old.disk).faults (D.seen point.new.disk).faults result }
    ensures whole { OnOk result (point.new.broken ≡ false) }
    ensures broken { IsErrOf result WriteFault.OutputFault → point.new.broken ≡ true }
    ensures version { point.new.version ≡ point.old.version }
    ensures continues { Continues (D.seen point.old.disk) (D.seen point.new.disk) }
{
    let Ok(payloads) = point_payloads(alloc, core) else {
        return Err(WriteFault::NoMemory);
    };
    match point.append_all(payloads.as_slice()) {
        Ok(()) => Ok(()),
        Err(_fault) => Err(WriteFault::OutputFault),
    }
}
