//! What is written of entries in the payload of a journal's frame.
ghost use Rattle.std.specs.Prelude.{◌≡◌, ◌≤◌, ◌++◌, length, drop, IfOk, OnOk, OnErr};
ghost use Rattle.std.specs.Int.{w32, w64, to_be_bytes};
ghost use Rattle.entry_history.specs.Format.{payload_head, entry_bytes, payload_of};

use crate::part::count_place;
use entry_record::Prepared;
use iso2709_record::encode_into;
use marc_types::NoMemory;
use std::alloc::Global;

/// How many bytes the run takes, which stands first.
const RUN_LEN: usize = 8;

/// What an entry has besides its written record: the ordinal, and the record's length.
const ENTRY_LEN: u64 = 12;

/// Appends what all entries of a payload share, and their number.
#[tactic(auto, unfolding(crate::specs::Format::payload_head))]
fn append_head(
    out: &mut Vec<u8>,
    run: u64,
    loader: u32,
    library: &[u8],
    count: u8,
) -> Result<(), NoMemory>
    requires { length library.now ≤ 16 }
    ensures { OnOk result (out.new.items ≡ out.old.items ++ payload_head run loader library.now count) }
{
    out.extend_from_slice(&run.to_be_bytes())?;
    out.extend_from_slice(&loader.to_be_bytes())?;
    out.push(library.len() as u8)?;
    out.extend_from_slice(library)?;
    out.push(count)?;
    Ok(())
}

/// Appends what stands before an entry's record: its ordinal, and the record's length. At want of memory nothing is appended.
#[tactic(auto, using(crate::proofs::Format::front_alone))]
fn append_numbers(out: &mut Vec<u8>, ordinal: u64, len: u32) -> Result<(), NoMemory>
    ensures ok { OnOk result (out.new.items ≡ (out.old.items ++ to_be_bytes w64 ordinal) ++ to_be_bytes w32 len) }
    ensures err { OnErr result (out.new.items ≡ out.old.items) }
{
    let before = out.len();
    out.extend_from_slice(&ordinal.to_be_bytes())?;
    let Ok(()) = out.extend_from_slice(&len.to_be_bytes()) else {
        out.truncate(before);
        return Err(NoMemory);
    };
    Ok(())
}

/// Appends an entry. At want of memory nothing is appended.
#[tactic(auto, unfolding(crate::specs::Format::entry_bytes), using(crate::proofs::Format::front_alone, entry_record::proofs::Admitted::same_fits))]
pub(crate) fn append_entry(
    alloc: Global,
    out: &mut Vec<u8>,
    item: &Prepared,
) -> Result<(), NoMemory>
    ensures ok { OnOk result (out.new.items ≡ out.old.items ++ entry_bytes item.now) }
    ensures err { OnErr result (out.new.items ≡ out.old.items) }
{
    let before = out.len();
    let entry = item.entry();
    let len = (item.size() - ENTRY_LEN) as u32;
    append_numbers(out, entry.ordinal, len)?;
    let Ok(()) = encode_into(alloc, &entry.rec, out) else {
        out.truncate(before);
        return Err(NoMemory);
    };
    Ok(())
}

/// An entry as it stands in a payload, in memory of exactly its length.
pub(crate) fn entry_part(alloc: Global, item: &Prepared) -> Result<Vec<u8>, NoMemory>
    ensures { IfOk result (λ part. part.items ≡ entry_bytes item.now) }
{
    let mut out = Vec::with_capacity(alloc, item.size() as usize)?;
    append_entry(alloc, &mut out, item)?;
    Ok(out)
}

/// The payload of one entry, in memory of exactly its length.
#[tactic(auto, unfolding(crate::specs::Format::payload_bytes))]
pub(crate) fn payload(alloc: Global, item: &Prepared) -> Result<Vec<u8>, NoMemory>
    ensures { IfOk result (λ payload. payload.items ≡ payload_of item.now) }
{
    let entry = item.entry();
    let len = count_place(item) + 1 + item.size() as usize;
    let mut out = Vec::with_capacity(alloc, len)?;
    append_head(
        &mut out,
        entry.run,
        entry.loader,
        entry.library.as_bytes(),
        1,
    )?;
    append_entry(alloc, &mut out, item)?;
    Ok(out)
}

fn write_front(payload: &mut [u8], run: u64)
    requires { 8 ≤ length payload.old }
    ensures { payload.new ≡ to_be_bytes w64 run ++ drop 8 payload.old }
{
    payload[..RUN_LEN].copy_from_slice(&run.to_be_bytes());
}

/// Writes a payload's run in the place of the one that stands there.
#[tactic(auto, using(crate::proofs::Runs::written_whole))]
pub(crate) fn write_run(payload: &mut Vec<u8>, run: u64)
    requires { 8 ≤ length payload.old.items }
    ensures { payload.new.items ≡ to_be_bytes w64 run ++ drop 8 payload.old.items }
{
    write_front(payload.as_mut_slice(), run);
}
