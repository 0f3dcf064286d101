ghost use Rattle.std.specs.Prelude.{◌≡◌, ◌≤◌, is_some, IsTrue, OnOk, length};
ghost use Rattle.std.specs.Io.KnownBytes.{Appends};
ghost use Rattle.outside.specs.Fault.{HasCause};
ghost use Rattle.outside.specs.Sink.{WritesFront};
ghost use Rattle.marc_types.specs.Valid.{fields_size};
ghost use Rattle.iso2709_record.specs.Written.{directory_bytes, fits, leader_bytes, record_bytes, record_length};

use crate::blocks::{FIELD_TERMINATOR, RECORD_TERMINATOR, entry_block, leader_block};
use crate::fields::write_fields;
use crate::size::{base_len, encoded_len, field_len};
use marc_types::{Field, Record};
use outside::{Failed, Sink};

#[tactic(auto, using(crate::proofs::Lengths::record_bounds))]
fn write_leader<K: Sink>(rec: &Record, len: u64, out: &mut K) -> Result<(), Failed>
    requires { len ≡ record_length rec.now.fields }
    ensures bytes { OnOk result
        (Appends (K.written out.old) (K.written out.new) (leader_bytes rec.now.leader rec.now.fields)) }
    ensures front { WritesFront (K.written out.old) (K.written out.new)
        (leader_bytes rec.now.leader rec.now.fields) }
    ensures tells { is_some (K.written out.new) ≡ is_some (K.written out.old) }
    ensures cause { HasCause (K.faults out.old) (K.faults out.new) result }
{
    let base = base_len(rec.fields.as_slice());
    out.write_all(&leader_block(&rec.leader, len, base))
}

fn write_directory<K: Sink>(fields: &[Field], out: &mut K) -> Result<(), Failed>
    requires few { length fields.now ≤ 8331 }
    requires small { fields_size fields.now ≤ 1000000 }
    ensures bytes { OnOk result
        (Appends (K.written out.old) (K.written out.new) (directory_bytes 0 fields.now)) }
    ensures front { WritesFront (K.written out.old) (K.written out.new)
        (directory_bytes 0 fields.now) }
    ensures tells { is_some (K.written out.new) ≡ is_some (K.written out.old) }
    ensures cause { HasCause (K.faults out.old) (K.faults out.new) result }
{
    let mut start = 0;
    for field in fields {
        let len = field_len(field);
        out.write_all(&entry_block(field.tag(), len, start))?;
        start += len;
    }
    Ok(())
}

/// Writes a record, which has to fit. After `Failed` some front of its written form was written, maybe none or all.
pub fn encode<K: Sink>(rec: &Record, out: &mut K) -> Result<(), Failed>
    requires { IsTrue (fits rec.now.fields) }
    ensures bytes { OnOk result
        (Appends (K.written out.old) (K.written out.new) (record_bytes rec.now.leader rec.now.fields)) }
    ensures front { WritesFront (K.written out.old) (K.written out.new)
        (record_bytes rec.now.leader rec.now.fields) }
    ensures tells { is_some (K.written out.new) ≡ is_some (K.written out.old) }
    ensures cause { HasCause (K.faults out.old) (K.faults out.new) result }
{
    encode_of_len(rec, encoded_len(rec), out)
}

/// The same of a record whose length is known.
#[tactic(auto, using(crate::proofs::Lengths::record_bounds))]
pub(crate) fn encode_of_len<K: Sink>(rec: &Record, len: u64, out: &mut K) -> Result<(), Failed>
    requires len { len ≡ record_length rec.now.fields }
    requires room { IsTrue (fits rec.now.fields) }
    ensures bytes { OnOk result
        (Appends (K.written out.old) (K.written out.new) (record_bytes rec.now.leader rec.now.fields)) }
    ensures front { WritesFront (K.written out.old) (K.written out.new)
        (record_bytes rec.now.leader rec.now.fields) }
    ensures tells { is_some (K.written out.new) ≡ is_some (K.written out.old) }
    ensures cause { HasCause (K.faults out.old) (K.faults out.new) result }
{
    let fields = rec.fields.as_slice();
    write_leader(rec, len, out)?;
    write_directory(fields, out)?;
    out.write_all(&[FIELD_TERMINATOR])?;
    write_fields(fields, out)?;
    out.write_all(&[RECORD_TERMINATOR])
}
