//! A record in its written form.
ghost use Rattle.std.specs.Prelude.{◌≡◌, ◌<◌, true, length, option_map, slice_get, slice_set, All, None, IfOk, IsTrue, MatchOption};
ghost use Rattle.std.specs.Option.{option_copied};
ghost use Rattle.marc_types.specs.Fields.{tag_of};
ghost use Rattle.marc_types.specs.Valid.{is_record};
ghost use Rattle.iso2709_record.specs.Written.{base_address, field_data, fits, record_bytes, record_length};
ghost use Rattle.iso2709_record.specs.Layout.{layout_of};
ghost use Rattle.iso2709_record.specs.Texts.{HasUtf8Texts};
ghost use Rattle.written_record.specs.Records.{IsOfRecord, IsOfRecord-prop, IsEntryOf, HoldsRecord};

use crate::directory::tag_in;
use iso2709_record::{
    Layout, each_text_is_utf8, encode_vec, field_from, field_of, layout_of, leader_of,
    texts_are_utf8,
};
use marc_types::{Field, Fields, Leader, NoMemory, Record, Tag, TryCopy};
use outside::Bytes;
use std::alloc::Global;
use std::marker::Model;

/// A record in its written form, in memory of exactly its length. Contracts see it as the record.
#[derive(Debug, Drop)]
pub struct WrittenRecord {
    bytes: Bytes,
    ghost whole: { IsOfRecord bytes } by { IsOfRecord-prop bytes },
}

impl Model for WrittenRecord {
    ghost use Rattle.std.specs.Prelude.{All};
    ghost use Rattle.marc_types.specs.declared.record.Record.{Record};
    ghost use Rattle.iso2709_record.specs.Texts.{HasUtf8Texts};

    ghost Value = { Record };

    ghost view = { λ w. w.whole.rec };

    ghost invariant = { λ w. All HasUtf8Texts w.whole.rec.fields };
}

/// A field's tag and its data.
#[derive(Clone, Copy)]
struct Entry<'a> {
    tag: Tag,
    area: &'a [u8],
}

impl WrittenRecord {
    /// That of a record.
    pub fn of(alloc: Global, rec: &Record) -> Result<WrittenRecord, NoMemory>
        requires { IsTrue (fits rec.now.fields) }
        ensures { IfOk result (λ made. made ≡ rec.now) }
    {
        each_text_is_utf8(rec);
        Ok(WrittenRecord {
            bytes: encode_vec(alloc, rec)?,
        })
    }

    /// The written form itself.
    pub fn as_bytes(&self) -> &[u8]
        ensures { result.now ≡ record_bytes self.now.leader self.now.fields }
    {
        self.bytes.as_slice()
    }

    /// The number of bytes.
    pub fn len(&self) -> usize
        ensures { result ≡ record_length self.now.fields }
    {
        self.bytes.len()
    }

    /// A written record fits. This is a law for proofs; the call does nothing.
    pub fn fits(&self)
        ensures { IsTrue (fits self.now.fields) }
    {
        let _bytes = &self.bytes;
    }

    /// The bytes, and where their parts stand.
    pub(crate) fn parts(&self) -> (&[u8], Layout)
        ensures bytes { result.0.now ≡ record_bytes self.now.leader self.now.fields }
        ensures size { length result.0.now ≡ record_length self.now.fields }
        ensures layout { result.1 ≡ layout_of result.0.now }
        ensures base { result.1.base ≡ base_address self.now.fields }
        ensures count { result.1.entries ≡ length self.now.fields }
        ensures holds { HoldsRecord result.0.now self.now }
    {
        let bytes = self.bytes.as_slice();
        let layout = layout_of(bytes);
        (bytes, layout)
    }

    /// The entry of the field at a place, counted from 0.
    fn entry(&self, field: u32) -> Option<Entry<'_>>
        ensures { MatchOption result
            (slice_get self.now.fields field ≡ None)
            (λ found. IsEntryOf self.now.fields field found.tag found.area.now) }
    {
        let (bytes, layout) = self.parts();
        if field < layout.entries {
            let (tag, area) = field_of(bytes, &layout, field);
            Some(Entry { tag, area })
        } else {
            None
        }
    }

    /// Each text is UTF-8. This is a law for proofs; the call does nothing.
    pub fn each_text_is_utf8(&self)
        ensures { All HasUtf8Texts self.now.fields }
    {
        let _bytes = &self.bytes;
    }

    /// The leader, read from the bytes.
    pub fn leader(&self) -> Leader
        ensures { result ≡ self.now.leader }
    {
        let (bytes, _) = self.parts();
        leader_of(bytes)
    }

    /// How many fields the record has.
    pub fn field_count(&self) -> u32
        ensures { result ≡ length self.now.fields }
    {
        let (_, layout) = self.parts();
        layout.entries
    }

    /// The tag of the field at a place, counted from 0.
    pub fn tag_at(&self, field: u32) -> Option<Tag>
        ensures { result ≡ option_map tag_of (slice_get self.now.fields field) }
    {
        let (bytes, layout) = self.parts();
        if field < layout.entries {
            Some(tag_in(bytes, field))
        } else {
            None
        }
    }

    /// The data of the field at a place, counted from 0.
    pub fn area_at(&self, field: u32) -> Option<&[u8]>
        ensures { option_copied result ≡ option_map field_data (slice_get self.now.fields field) }
    {
        match self.entry(field) {
            Some(entry) => Some(entry.area),
            None => None,
        }
    }

    /// The field at a place, counted from 0.
    pub fn field_at(&self, alloc: Global, field: u32) -> Result<Option<Field>, NoMemory>
        ensures { IfOk result (λ found. found ≡ slice_get self.now.fields field) }
    {
        match self.entry(field) {
            Some(entry) => Ok(Some(field_from(alloc, entry.tag, entry.area)?)),
            None => Ok(None),
        }
    }

    /// The record with another field in the place of one.
    pub fn with_field(
        &self,
        alloc: Global,
        index: u32,
        field: &Field,
    ) -> Result<WrittenRecord, NoMemory>
        requires within { index < length self.now.fields }
        requires valid { is_record self.now.leader (slice_set self.now.fields index field.now) ≡ true }
        requires room { IsTrue (fits (slice_set self.now.fields index field.now)) }
        ensures leader { IfOk result (λ made. made.leader ≡ self.now.leader) }
        ensures fields { IfOk result (λ made. made.fields ≡ slice_set self.now.fields index field.now) }
    {
        self.each_text_is_utf8();
        texts_are_utf8(field);
        let bytes = self.bytes_with(alloc, index, field)?;
        Ok(WrittenRecord {
            bytes: Bytes::from_vec(bytes),
        })
    }

    fn fields(&self, alloc: Global) -> Result<Fields, NoMemory>
        ensures { IfOk result (λ fields. fields ≡ self.now.fields) }
    {
        let (bytes, layout) = self.parts();
        let mut fields = Vec::with_capacity(alloc, layout.entries as usize)?;
        for field in 0..layout.entries {
            let (tag, area) = field_of(bytes, &layout, field);
            fields.push(field_from(alloc, tag, area)?)?;
        }
        Ok(Fields::from_vec(fields))
    }

    /// The record itself.
    pub fn to_record(&self, alloc: Global) -> Result<Record, NoMemory>
        ensures { IfOk result (λ rec. rec ≡ self.now) }
    {
        Ok(Record {
            leader: self.leader(),
            fields: self.fields(alloc)?,
        })
    }
}

impl TryCopy for WrittenRecord {
    fn copy(&self, alloc: Global) -> Result<Self, NoMemory> {
        let bytes = Vec::from_slice(alloc, self.bytes.as_slice())?;
        Ok(WrittenRecord {
            bytes: Bytes::from_vec(bytes),
        })
    }
}
