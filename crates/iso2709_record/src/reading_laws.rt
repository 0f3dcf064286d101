ghost use Rattle.std.specs.Prelude.{◌≡◌, ℕ, ◌-◌, ◌≤◌, true, List, length, IsTrue};
ghost use Rattle.marc_types.specs.Valid.{is_tag};
ghost use Rattle.marc_types.specs.declared.field.Subfield.{Subfield};
ghost use Rattle.marc_types.specs.declared.field.Field.{Field};
ghost use Rattle.marc_types.specs.declared.refusal.Refusal.{Refusal};
ghost use Rattle.iso2709_record.specs.Written.{record_bytes, fits};
ghost use Rattle.iso2709_record.specs.Layout.{base_of, entry_count, lengths_of};
ghost use Rattle.iso2709_record.specs.Faults.{fits_tag, is_subfield_data, IsSound, IsFirstFault};
ghost use Rattle.iso2709_record.specs.Raw.{has_no_terminator, raw_record, raw_of_record};
ghost use Rattle.iso2709_record.specs.Spelling.{Spells, IsFieldOf};

use marc_types::{Record, Tag};

/// Bytes that are sound are refused for no reason, and others for one alone. This is a law for proofs; the call does
/// nothing.
#[tactic(auto, using(crate::proofs::Refusals::sound_or_refused, crate::proofs::Refusals::refused_once))]
pub fn one_answer(bytes: &[u8])
    ensures sound { (refusal : Refusal) → IsSound bytes.now → IsFirstFault bytes.now refusal → ⊥ }
    ensures once { (one other : Refusal) → IsFirstFault bytes.now one → IsFirstFault bytes.now other → one ≡ other }
{}

/// A sound record has room for its fields: a leader's five digits bound its bytes, and these its entries and their
/// lengths. This is a law for proofs; the call does nothing.
#[tactic(auto, using(crate::proofs::Sound::sound_sizes, crate::proofs::Sound::sound_lengths))]
pub fn sound_sizes(bytes: &[u8])
    requires { IsSound bytes.now }
    ensures size { length bytes.now ≤ 99999 }
    ensures entries { entry_count bytes.now ≤ 8331 }
    ensures lengths { (entries : ℕ) → entries ≤ entry_count bytes.now →
        lengths_of bytes.now entries ≤ length bytes.now - base_of bytes.now - 1 }
{}

/// The bytes of subfields spell some subfields, and no bytes spell two lists of them. This is a law for proofs; the call
/// does nothing.
#[tactic(auto, using(crate::proofs::Spellings::spelling_there, crate::proofs::Spellings::spelling_once))]
pub fn one_spelling(bytes: &[u8])
    ensures there { is_subfield_data bytes.now ≡ true → has_no_terminator bytes.now ≡ true →
        (subfields : List Subfield) × Spells subfields bytes.now }
    ensures once { (one other : List Subfield) → Spells one bytes.now → Spells other bytes.now → one ≡ other }
{}

/// What fits a tag and has no terminator are the data of some field, and no data are those of two fields with one tag.
/// This is a law for proofs; the call does nothing.
#[tactic(auto, using(crate::proofs::Spellings::field_there, crate::proofs::Spellings::field_once))]
pub fn one_field(tag: Tag, bytes: &[u8])
    ensures there { is_tag tag ≡ true → fits_tag tag bytes.now ≡ true → has_no_terminator bytes.now ≡ true →
        (field : Field) × IsFieldOf tag bytes.now field }
    ensures once { (one other : Field) → IsFieldOf tag bytes.now one → IsFieldOf tag bytes.now other → one ≡ other }
{}

/// A record's written form is sound, and the reading of it gives the record: its leader bytes, its text coded `a`, and of
/// each field the tag and the data. This is a law for proofs; the call does nothing.
#[tactic(auto, using(crate::proofs::ReadAgain::written_is_sound, crate::proofs::ReadAgain::written_holds))]
pub fn read_again(rec: &Record)
    requires { IsTrue (fits rec.now.fields) }
    ensures sound { IsSound (record_bytes rec.now.leader rec.now.fields) }
    ensures same { raw_record (record_bytes rec.now.leader rec.now.fields) ≡ raw_of_record rec.now.leader rec.now.fields }
{}
