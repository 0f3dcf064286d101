//! A kept record's fields, each with its tie: read, and one exchanged for another.
ghost use Rattle.std.specs.Prelude.{◌≡◌, ◌<◌, true, length, All, IfOk, IsTrue, MatchOption, Some, option_map, slice_get, slice_set, unwrap_or};
ghost use Rattle.std.specs.Option.{option_copied, option_map_or};
ghost use Rattle.marc_types.specs.Fields.{tag_of};
ghost use Rattle.marc_types.specs.Valid.{is_record};
ghost use Rattle.iso2709_record.specs.Written.{fits, record_bytes};
ghost use Rattle.iso2709_record.specs.Texts.{HasUtf8Texts};
ghost use Rattle.catalogue_rules.specs.State.{fields_of, kept_field, new_record, new_tie};
ghost use Rattle.catalogue_rules.specs.Store.{field_at, with_field};
ghost use Rattle.numbered_store.specs.Kept.{blanks, found_field, kept_record, tied_record, with_ties};
ghost use Rattle.numbered_store.specs.Lent.{HasNoTies, HasTies};

use crate::kept::{FoundField, StoredRecord};
use marc_types::{Field, Links, NoMemory, Sequence, Tag, Tie, TryCopy};
use std::alloc::Global;
use written_record::WrittenRecord;

/// The tie of a field that comes in: it isn't linked, nor whole, and awaits nothing.
pub const NEW_TIE: Tie = Tie {
    key: None,
    whole: false,
    awaits: None,
};

impl<'a> FoundField<'a> {
    /// The field, and its tie.
    pub fn parts(&self) -> (&Field, &Tie)
        ensures { kept_field result.0.now result.1.now ≡ found_field self.now }
    {
        match self.own {
            Some(tie) => (&self.field, tie),
            None => (&self.field, &self.blank),
        }
    }
}

impl StoredRecord {
    /// A record that comes in: all ties are blank. It takes no memory.
    #[tactic(auto, unfolding(crate::specs::Kept::kept_record))]
    pub fn new(written: WrittenRecord) -> StoredRecord
        ensures { kept_record result ≡ new_record written.leader written.fields }
    {
        written.fits();
        StoredRecord {
            written,
            ties: None,
        }
    }

    /// The written form of the record.
    #[tactic(auto, using(crate::proofs::Tied::kept_bytes))]
    pub fn as_bytes(&self) -> &[u8]
        ensures { result.now ≡ record_bytes (kept_record self.now).leader (fields_of (kept_record self.now)) }
    {
        self.written.as_bytes()
    }

    /// Each text is UTF-8. This is a law for proofs; the call does nothing.
    #[tactic(auto, using(crate::proofs::Tied::utf8_of_kept))]
    pub fn each_text_is_utf8(&self)
        ensures { All HasUtf8Texts (fields_of (kept_record self.now)) }
    {
        self.written.each_text_is_utf8();
    }

    /// How many fields there are: there is room for 8331.
    #[tactic(auto, using(crate::proofs::Tied::kept_long))]
    pub fn field_count(&self) -> u32
        ensures { result ≡ length (kept_record self.now).fields }
    {
        self.written.field_count()
    }

    /// The tag of the field at a place.
    #[tactic(auto, using(crate::proofs::Tied::tag_of_kept))]
    pub fn tag_at(&self, place: u32) -> Option<Tag>
        ensures { result ≡ option_map (λ h. tag_of h.field) (field_at place (kept_record self.now)) }
    {
        self.written.tag_at(place)
    }

    /// The field at a place, which is made from its bytes.
    #[tactic(auto, using(crate::proofs::Tied::field_of_kept))]
    pub fn field_at(&self, alloc: Global, place: u32) -> Result<Option<Field>, NoMemory>
        ensures { IfOk result (λ field. field ≡ option_map (λ h. h.field) (field_at place (kept_record self.now))) }
    {
        self.written.field_at(alloc, place)
    }

    /// The ties of all fields. Where none are kept, all are blank.
    #[tactic(auto, using(crate::proofs::Tied::own_ties, crate::proofs::Tied::no_ties))]
    pub fn ties(&self) -> Option<&[Tie]>
        ensures { MatchOption result (HasNoTies (kept_record self.now)) (λ ties. HasTies (kept_record self.now) ties.now) }
    {
        match &self.ties {
            Some(ties) => Some(ties.as_slice()),
            None => None,
        }
    }

    /// The tie at a place. Where none is kept, it is blank.
    pub fn tie_at(&self, place: u32) -> Option<&Tie>
        ensures { unwrap_or (option_copied result) new_tie ≡ option_map_or (λ h. h.tie) (field_at place (kept_record self.now)) new_tie }
    {
        match &self.ties {
            Some(ties) => at(ties.as_slice(), place),
            None => None,
        }
    }

    /// The field at a place, which is made from its bytes, with its tie.
    pub fn found_at(&self, alloc: Global, place: u32) -> Result<Option<FoundField<'_>>, NoMemory>
        ensures { IfOk result (λ found. option_map found_field found ≡ field_at place (kept_record self.now)) }
    {
        match self.field_at(alloc, place)? {
            Some(field) => Ok(Some(self.found(field, place))),
            None => Ok(None),
        }
    }

    // That field with its tie.
    fn found(&self, field: Field, place: u32) -> FoundField<'_>
        requires { Some field ≡ option_map (λ h. h.field) (field_at place (kept_record self.now)) }
        ensures { Some (found_field result) ≡ field_at place (kept_record self.now) }
    {
        FoundField {
            field,
            own: self.tie_at(place),
            blank: NEW_TIE,
        }
    }

    /// The record with another field and tie at a place, as one of its own.
    pub fn with_field(
        &self,
        alloc: Global,
        place: u32,
        field: &Field,
        tie: Tie,
    ) -> Result<StoredRecord, NoMemory>
        requires within { place < length (kept_record self.now).fields }
        requires valid { is_record (kept_record self.now).leader (slice_set (fields_of (kept_record self.now)) place field.now) ≡ true }
        requires fit { IsTrue (fits (slice_set (fields_of (kept_record self.now)) place field.now)) }
        ensures { IfOk result (λ made. kept_record made ≡ with_field place (kept_field field.now tie) (kept_record self.now)) }
    {
        let written = self.written.with_field(alloc, place, field)?;
        let ties = replaced(self.all_ties(alloc)?, place, tie);
        Ok(with_these(written, ties))
    }

    // The ties of all fields.
    fn all_ties(&self, alloc: Global) -> Result<Links, NoMemory>
        ensures long { IfOk result (λ ties. length ties ≡ length self.now.written.fields) }
        ensures same { IfOk result (λ ties. with_ties self.now.written.fields (Some ties) ≡ (kept_record self.now).fields) }
    {
        match &self.ties {
            Some(ties) => ties.copy(alloc),
            None => blank_ties(alloc, self.written.field_count()),
        }
    }
}

// A record with these ties.
#[tactic(auto, unfolding(crate::specs::Kept::kept_record))]
fn with_these(written: WrittenRecord, ties: Links) -> StoredRecord
    requires { length ties ≡ length written.fields }
    ensures { kept_record result ≡ tied_record written.leader written.fields ties }
{
    written.fits();
    StoredRecord {
        written,
        ties: Some(ties),
    }
}

// What stands at a place, if anything does.
fn at<T>(items: &[T], place: u32) -> Option<&T>
    ensures { option_copied result ≡ slice_get items.now place }
{
    items.get(place as usize)
}

// So many blank ties.
#[tactic(auto, using(crate::proofs::Tied::blanks_begun))]
fn blank_ties(alloc: Global, count: u32) -> Result<Links, NoMemory>
    ensures { IfOk result (λ ties. ties ≡ blanks count) }
{
    let mut ties = Vec::with_capacity(alloc, count as usize)?;
    for done in 0..count {
        let _blanks = done;
        ties.push(NEW_TIE)?;
    }
    Ok(Links::from_vec(ties))
}

// The list with another element at a place.
fn replaced<T: Drop>(list: Sequence<T>, at: u32, value: T) -> Sequence<T>
    requires { at < length list }
    ensures { result ≡ slice_set list at value }
{
    let mut items = list.into_vec();
    items[at as usize] = value;
    Sequence::from_vec(items)
}
