ghost use Rattle.std.specs.Prelude.{◌≡◌, is_some, OnOk};
ghost use Rattle.std.specs.List.{flat_map};
ghost use Rattle.std.specs.Io.KnownBytes.{Appends};
ghost use Rattle.outside.specs.Fault.{HasCause};
ghost use Rattle.outside.specs.Sink.{WritesFront};
ghost use Rattle.iso2709_record.specs.Written.{subfield_bytes, field_data, field_bytes};

use crate::blocks::{DELIMITER, FIELD_TERMINATOR};
use marc_types::{Field, Subfield};
use outside::{Failed, Sink};

#[tactic(auto, using(outside::proofs::Fronts::appends_then), unfolding(crate::specs::Written::subfield_bytes))]
fn write_subfield<K: Sink>(subfield: &Subfield, out: &mut K) -> Result<(), Failed>
    ensures bytes { OnOk result
        (Appends (K.written out.old) (K.written out.new) (subfield_bytes subfield.now)) }
    ensures front { WritesFront (K.written out.old) (K.written out.new)
        (subfield_bytes subfield.now) }
    ensures tells { is_some (K.written out.new) ≡ is_some (K.written out.old) }
    ensures cause { HasCause (K.faults out.old) (K.faults out.new) result }
{
    out.write_all(&[DELIMITER, subfield.code])?;
    out.write_all(subfield.text.as_bytes())
}

fn write_subfields<K: Sink>(subfields: &[Subfield], out: &mut K) -> Result<(), Failed>
    ensures bytes { OnOk result
        (Appends (K.written out.old) (K.written out.new) (flat_map subfield_bytes subfields.now)) }
    ensures front { WritesFront (K.written out.old) (K.written out.new)
        (flat_map subfield_bytes subfields.now) }
    ensures tells { is_some (K.written out.new) ≡ is_some (K.written out.old) }
    ensures cause { HasCause (K.faults out.old) (K.faults out.new) result }
{
    for subfield in subfields {
        write_subfield(subfield, out)?;
    }
    Ok(())
}

fn write_field_data<K: Sink>(field: &Field, out: &mut K) -> Result<(), Failed>
    ensures bytes { OnOk result
        (Appends (K.written out.old) (K.written out.new) (field_data field.now)) }
    ensures front { WritesFront (K.written out.old) (K.written out.new) (field_data field.now) }
    ensures tells { is_some (K.written out.new) ≡ is_some (K.written out.old) }
    ensures cause { HasCause (K.faults out.old) (K.faults out.new) result }
{
    match field {
        Field::Control { text, .. } => out.write_all(text.as_bytes()),
        Field::Variable {
            ind1,
            ind2,
            subs,
            ..
        } => {
            out.write_all(&[*ind1, *ind2])?;
            write_subfields(subs.as_slice(), out)
        }
    }
}

#[tactic(auto, using(outside::proofs::Fronts::appends_then), unfolding(crate::specs::Written::field_bytes))]
pub(crate) fn write_field<K: Sink>(field: &Field, out: &mut K) -> Result<(), Failed>
    ensures bytes { OnOk result
        (Appends (K.written out.old) (K.written out.new) (field_bytes field.now)) }
    ensures front { WritesFront (K.written out.old) (K.written out.new) (field_bytes field.now) }
    ensures tells { is_some (K.written out.new) ≡ is_some (K.written out.old) }
    ensures cause { HasCause (K.faults out.old) (K.faults out.new) result }
{
    write_field_data(field, out)?;
    out.write_all(&[FIELD_TERMINATOR])
}

pub(crate) fn write_fields<K: Sink>(fields: &[Field], out: &mut K) -> Result<(), Failed>
    ensures bytes { OnOk result
        (Appends (K.written out.old) (K.written out.new) (flat_map field_bytes fields.now)) }
    ensures front { WritesFront (K.written out.old) (K.written out.new)
        (flat_map field_bytes fields.now) }
    ensures tells { is_some (K.written out.new) ≡ is_some (K.written out.old) }
    ensures cause { HasCause (K.faults out.old) (K.faults out.new) result }
{
    for field in fields {
        write_field(field, out)?;
    }
    Ok(())
}
