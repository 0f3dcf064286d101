//! The lines of a record's fields, each by what stands beside it.
ghost use Rattle.std.specs.Prelude.{◌≡◌, ℕ, ◌++◌, List, is_some, option_map, option_to_list, IfOk, OnOk};
ghost use Rattle.std.specs.Io.KnownBytes.{Appends};
ghost use Rattle.outside.specs.Fault.{HasCause, HasWriteCause};
ghost use Rattle.outside.specs.Sink.{WritesFront};
ghost use Rattle.marc_types.specs.declared.field.Tag.{Tag as AnyTag};
ghost use Rattle.marc_types.specs.Fields.{tag_of};
ghost use Rattle.marc_types.specs.declared.key.Class.{Class as AnyClass};
ghost use Rattle.marc_types.specs.declared.key.Key.{Key as AnyKey};
ghost use Rattle.catalogue_rules.specs.Store.{field_at};
ghost use Rattle.ambiguity_report.specs.Beside.{lines_beside, record_lines, tags_of};
ghost use Rattle.numbered_store.specs.Kept.{kept_record};

use marc_types::{Class, Key, NoMemory, Tag};
use numbered_store::StoredRecord;
use outside::{Failed, Sink, WriteFault};
use std::alloc::{AllocError, Global};

/// What stands beside a field of a record.
pub(crate) trait Beside {
    // The line of the field at that place, with that tag, of the record under that key; it may be none.
    ghost field_line: { AnyClass → AnyKey → ℕ → AnyTag → Self → List ℕ };

    /// Makes that line. The text is empty where there is none.
    fn make_line(
        &self,
        class: Class,
        key: &Key,
        place: usize,
        tag: &Tag,
        text: &mut Vec<u8>,
    ) -> Result<(), AllocError>
        ensures { OnOk result (text.new.items ≡ field_line class key.now place tag.now self.now) };
}

/// Writes a line. Where there is none, the sink isn't called.
#[tactic(auto, using(outside::proofs::Fronts::front_none))]
fn write_line<K: Sink>(line: &[u8], out: &mut K) -> Result<(), Failed>
    ensures bytes { OnOk result (Appends (K.written out.old) (K.written out.new) line.now) }
    ensures front { WritesFront (K.written out.old) (K.written out.new) line.now }
    ensures tells { is_some (K.written out.new) ≡ is_some (K.written out.old) }
    ensures cause { HasCause (K.faults out.old) (K.faults out.new) result }
{
    if line.is_empty() {
        return Ok(());
    }
    out.write_all(line)
}

// The lines of fields with these tags, up to the last that something stands beside.
#[tactic(auto, using(outside::proofs::Fronts::writing_begun, outside::proofs::Fronts::writing_stopped, outside::proofs::Fronts::writing_done))]
fn write_fields<K: Sink, B: Beside>(
    class: Class,
    key: &Key,
    tags: &[Tag],
    besides: &[B],
    text: &mut Vec<u8>,
    out: &mut K,
) -> Result<(), WriteFault>
    ensures bytes { OnOk result
        (Appends (K.written out.old) (K.written out.new) (lines_beside (B.field_line class key.now) 0 tags.now besides.now)) }
    ensures front { WritesFront (K.written out.old) (K.written out.new)
        (lines_beside (B.field_line class key.now) 0 tags.now besides.now) }
    ensures tells { is_some (K.written out.new) ≡ is_some (K.written out.old) }
    ensures cause { HasWriteCause (K.faults out.old) (K.faults out.new) result }
{
    for (place, tag) in tags.iter().enumerate() {
        let Some(beside) = besides.get(place) else {
            return Ok(());
        };
        beside.make_line(class, key, place, tag, text)?;
        write_line(text, out)?;
    }
    Ok(())
}

/// Writes the lines of a record's fields, up to the last that something stands beside.
#[tactic(auto, using(outside::proofs::Fronts::front_none))]
pub(crate) fn write_record<K: Sink, B: Beside>(
    alloc: Global,
    class: Class,
    key: &Key,
    kept: &StoredRecord,
    besides: &[B],
    text: &mut Vec<u8>,
    out: &mut K,
) -> Result<(), WriteFault>
    ensures bytes { OnOk result (Appends (K.written out.old) (K.written out.new)
        (record_lines (B.field_line class key.now) (kept_record kept.now) besides.now)) }
    ensures front { WritesFront (K.written out.old) (K.written out.new)
        (record_lines (B.field_line class key.now) (kept_record kept.now) besides.now) }
    ensures tells { is_some (K.written out.new) ≡ is_some (K.written out.old) }
    ensures cause { HasWriteCause (K.faults out.old) (K.faults out.new) result }
{
    let Ok(tags) = tags(alloc, kept) else {
        return Err(WriteFault::NoMemory);
    };
    write_fields(class, key, &tags, besides, text, out)
}

// The tags of a record's fields.
fn tags(alloc: Global, kept: &StoredRecord) -> Result<Vec<Tag>, NoMemory>
    ensures { IfOk result (λ tags. tags.items ≡ tags_of (kept_record kept.now)) }
{
    let places = kept.field_count();
    let mut tags = Vec::with_capacity(alloc, places as usize)?;
    for place in 0..places {
        push_tag(&mut tags, kept, place)?;
    }
    Ok(tags)
}

// The tag of the field at a place, if there is one.
#[tactic(auto, using(crate::proofs::Fields::pushed, crate::proofs::Fields::not_pushed))]
fn push_tag(tags: &mut Vec<Tag>, kept: &StoredRecord, place: u32) -> Result<(), NoMemory>
    ensures { OnOk result (tags.new.items ≡ tags.old.items ++ option_to_list (option_map (λ h. tag_of h.field) (field_at place (kept_record kept.now)))) }
{
    match kept.tag_at(place) {
        Some(tag) => {
            tags.push(tag)?;
            Ok(())
        }
        None => Ok(()),
    }
}
