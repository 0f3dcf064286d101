ghost use Rattle.std.specs.Prelude.{◌≡◌, ◌++◌, IsTrue, Some, IfOk, OnOk, OnErr};
ghost use Rattle.iso2709_record.specs.Written.{field_bytes, record_bytes, record_length, fits};

use crate::fields::write_field;
use crate::output::encode_of_len;
use crate::size::encoded_len;
use marc_types::{Field, NoMemory, Record};
use outside::{Bytes, Failed, Sink};
use std::alloc::Global;
use std::mem;

/// A vector that is record_bytes to as a sink.
#[derive(Drop)]
struct Memory {
    bytes: Vec<u8>,
    faults: u64,
}

impl Sink for Memory {
    ghost written = { λ m. Some m.bytes.items };

    ghost faults = { λ m. m.faults };

    fn write_all(&mut self, piece: &[u8]) -> Result<(), Failed> {
        match self.bytes.extend_from_slice(piece) {
            Ok(()) => Ok(()),
            Err(_) => {
                self.faults = self.faults.saturating_add(1);
                Err(Failed)
            }
        }
    }
}

/// Appends a record to the bytes that are there.
pub fn encode_into(alloc: Global, rec: &Record, out: &mut Vec<u8>) -> Result<(), NoMemory>
    requires { IsTrue (fits rec.now.fields) }
    ensures ok { OnOk result (out.new.items ≡ out.old.items ++ record_bytes rec.now.leader rec.now.fields) }
    ensures err { OnErr result (out.new.items ≡ out.old.items) }
{
    let len = encoded_len(rec);
    out.reserve(len as usize)?;
    encode_onto(alloc, rec, len, out)
}

fn encode_onto(alloc: Global, rec: &Record, len: u64, out: &mut Vec<u8>) -> Result<(), NoMemory>
    requires len { len ≡ record_length rec.now.fields }
    requires room { IsTrue (fits rec.now.fields) }
    ensures ok { OnOk result (out.new.items ≡ out.old.items ++ record_bytes rec.now.leader rec.now.fields) }
    ensures err { OnErr result (out.new.items ≡ out.old.items) }
{
    let before = out.len();
    let mut memory = Memory {
        bytes: mem::replace(out, Vec::new(alloc)),
        faults: 0,
    };
    let done = encode_of_len(rec, len, &mut memory);
    *out = memory.bytes;
    match done {
        Ok(()) => Ok(()),
        Err(Failed) => {
            out.truncate(before);
            Err(NoMemory)
        }
    }
}

/// A record's bytes, in memory of exactly their number.
pub fn encode_vec(alloc: Global, rec: &Record) -> Result<Bytes, NoMemory>
    requires { IsTrue (fits rec.now.fields) }
    ensures { IfOk result (λ bytes. bytes ≡ record_bytes rec.now.leader rec.now.fields) }
{
    let len = encoded_len(rec);
    let mut bytes = Vec::with_capacity(alloc, len as usize)?;
    encode_onto(alloc, rec, len, &mut bytes)?;
    Ok(Bytes::from_vec(bytes))
}

/// Appends a field as a record's written form has it, with its terminator.
pub fn append_field(alloc: Global, field: &Field, out: &mut Vec<u8>) -> Result<(), NoMemory>
    ensures ok { OnOk result (out.new.items ≡ out.old.items ++ field_bytes field.now) }
    ensures err { OnErr result (out.new.items ≡ out.old.items) }
{
    let len = out.len();
    let mut memory = Memory {
        bytes: mem::replace(out, Vec::new(alloc)),
        faults: 0,
    };
    let done = write_field(field, &mut memory);
    *out = memory.bytes;
    match done {
        Ok(()) => Ok(()),
        Err(Failed) => {
            out.truncate(len);
            Err(NoMemory)
        }
    }
}
