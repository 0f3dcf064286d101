//! Laws of reading: each is the contract of a function that does nothing, or only looks at the texts of a record.
ghost use Rattle.std.specs.Prelude.{◌≡◌, ℕ, List, IsTrue};
ghost use Rattle.marc_types.specs.declared.field.Leader.{Leader};
ghost use Rattle.marc_types.specs.declared.field.Field.{Field};
ghost use Rattle.marc_types.specs.declared.entry.Entry.{Entry};
ghost use Rattle.marc_types.specs.declared.refusal.Refusal.{Refusal};
ghost use Rattle.iso2709_record.specs.Written.{record_bytes, fits};
ghost use Rattle.reading.specs.Reading.{IsReadAs, IsRefusedAs};
ghost use Rattle.reading.specs.Preparing.{MakesEntry, IsRefusedInFile};

use iso2709_record::each_text_is_utf8;
use marc_types::{Record, Text};

/// A piece is read as one record at most, or refused for one reason at most, and never both. This is a law for proofs; the
/// call does nothing.
#[tactic(auto, using(crate::proofs::OneReading::one_leader, crate::proofs::OneReading::one_fields, crate::proofs::OneReading::read_or_refused, crate::proofs::OneReading::refused_as_once))]
pub fn a_piece_is_one_record(bytes: &[u8])
    ensures leader { (one other : Leader) (fields others : List Field) →
        IsReadAs bytes.now one fields → IsReadAs bytes.now other others → one ≡ other }
    ensures fields { (one other : Leader) (fields others : List Field) →
        IsReadAs bytes.now one fields → IsReadAs bytes.now other others → fields ≡ others }
    ensures read { (leader : Leader) (fields : List Field) (refusal : Refusal) →
        IsReadAs bytes.now leader fields → IsRefusedAs bytes.now refusal → ⊥ }
    ensures once { (one other : Refusal) → IsRefusedAs bytes.now one → IsRefusedAs bytes.now other → one ≡ other }
{}

/// A piece of a file makes one entry at most, or is refused for one reason at most, and never both. This is a law for
/// proofs; the call does nothing.
pub fn a_piece_is_one_entry_or_one_refusal(bytes: &[u8], library: &Text)
    ensures entry { (loader ordinal : ℕ) (one other : Entry) →
        MakesEntry library.now bytes.now loader ordinal one → MakesEntry library.now bytes.now loader ordinal other → one ≡ other }
    ensures either { (loader ordinal : ℕ) (entry : Entry) (refusal : Refusal) →
        MakesEntry library.now bytes.now loader ordinal entry → IsRefusedInFile library.now bytes.now refusal → ⊥ }
    ensures once { (one other : Refusal) →
        IsRefusedInFile library.now bytes.now one → IsRefusedInFile library.now bytes.now other → one ≡ other }
{}

/// A record's written form is read as that record. This is a law for proofs; the call only looks at the record's texts.
pub fn a_written_record_reads_as_itself(rec: &Record)
    requires { IsTrue (fits rec.now.fields) }
    ensures { IsReadAs (record_bytes rec.now.leader rec.now.fields) rec.now.leader rec.now.fields }
{
    each_text_is_utf8(rec);
}
