//! A record's written form with another field in the place of one: the other areas are copied as they stand.
ghost use Rattle.std.specs.Prelude.{◌≡◌, ◌+◌, ◌<◌, ◌≤◌, [], ◌∷◌, ◌++◌, true, length, take, drop, slice_get, slice_set, Some, IfOk, OnOk, IsTrue};
ghost use Rattle.std.specs.List.{flat_map};
ghost use Rattle.marc_types.specs.Valid.{field_size, is_record};
ghost use Rattle.marc_types.specs.declared.field.Field.{Field};
ghost use Rattle.iso2709_record.specs.Written.{base_address, directory_bytes, field_bytes, field_length, field_terminator, fields_length, fits, record_bytes, record_length, record_terminator};

use crate::directory::{DIRECTORY, ENTRY_LEN};
use crate::written::WrittenRecord;
use iso2709_record::{
    append_field, entry_block, field_len, field_of, leader_block, leader_of, start_of,
};
use marc_types::{Field, NoMemory};
use std::alloc::Global;

impl WrittenRecord {
    /// Where a field starts, behind the base address.
    fn start_at(&self, field: u32) -> u64
        requires { field < length self.now.fields }
        ensures value { result ≡ fields_length (take field self.now.fields) }
        ensures within { base_address self.now.fields + result ≤ record_length self.now.fields }
    {
        let (bytes, layout) = self.parts();
        start_of(bytes, &layout, field)
    }

    /// The length of a field, with its terminator.
    fn field_len_at(&self, field: u32) -> usize
        requires { field < length self.now.fields }
        ensures value { (f : Field) → slice_get self.now.fields field ≡ Some f → result ≡ field_length f }
        ensures within { base_address self.now.fields + fields_length (take field self.now.fields) + result
            ≤ record_length self.now.fields }
    {
        let (bytes, layout) = self.parts();
        let (_, area) = field_of(bytes, &layout, field);
        area.len() + 1
    }

    /// The directory's entries before a field's.
    fn entries_before(&self, field: u32) -> &[u8]
        requires { field < length self.now.fields }
        ensures { result.now ≡ directory_bytes 0 (take field self.now.fields) }
    {
        let (bytes, _) = self.parts();
        &bytes[DIRECTORY..DIRECTORY + ENTRY_LEN * field as usize]
    }

    /// The directory's terminator, and the fields before one.
    fn fields_before(&self, field: u32) -> &[u8]
        requires { field < length self.now.fields }
        ensures { result.now ≡ field_terminator ∷ flat_map field_bytes (take field self.now.fields) }
    {
        let start = self.start_at(field);
        let (bytes, layout) = self.parts();
        let base = layout.base as usize;
        &bytes[base - 1..base + start as usize]
    }

    /// The fields behind one, and the record's terminator.
    fn fields_behind(&self, field: u32) -> &[u8]
        requires { field < length self.now.fields }
        ensures { result.now ≡ flat_map field_bytes (drop (field + 1) self.now.fields) ++ record_terminator ∷ [] }
    {
        let start = self.start_at(field);
        let len = self.field_len_at(field);
        let (bytes, layout) = self.parts();
        &bytes[layout.base as usize + start as usize + len..]
    }

    /// Appends the entries of the fields from one on, the first of which starts there.
    fn append_entries(&self, from: u32, start: u64, out: &mut Vec<u8>) -> Result<(), NoMemory>
        requires within { from ≤ length self.now.fields }
        requires small { start + fields_length (drop from self.now.fields) ≤ 99999 }
        ensures { OnOk result (out.new.items ≡ out.old.items ++ directory_bytes start (drop from self.now.fields)) }
    {
        let (bytes, layout) = self.parts();
        let mut next = start;
        for entry in from..layout.entries {
            let (tag, area) = field_of(bytes, &layout, entry);
            let size = area.len() as u64 + 1;
            out.extend_from_slice(&entry_block(&tag, size, next))?;
            next += size;
        }
        Ok(())
    }

    /// Appends the directory of the record with a field of that length in the place of one.
    #[tactic(auto, using(iso2709_record::proofs::Lengths::record_bounds))]
    fn append_directory(
        &self,
        index: u32,
        field: &Field,
        size: u64,
        out: &mut Vec<u8>,
    ) -> Result<(), NoMemory>
        requires within { index < length self.now.fields }
        requires size { size ≡ field_length field.now }
        requires small { fields_length (slice_set self.now.fields index field.now) ≤ 99999 }
        ensures { OnOk result
            (out.new.items ≡ out.old.items ++ directory_bytes 0 (slice_set self.now.fields index field.now)) }
    {
        let start = self.start_at(index);
        out.extend_from_slice(self.entries_before(index))?;
        out.extend_from_slice(&entry_block(field.tag(), size, start))?;
        let next = start + size;
        self.append_entries(index + 1, next, out)?;
        Ok(())
    }

    /// The length of the record with a field of that length in the place of one.
    fn len_with(&self, index: u32, field: &Field, size: u64) -> u64
        requires within { index < length self.now.fields }
        requires size { size ≡ field_length field.now }
        requires small { record_length (slice_set self.now.fields index field.now) ≤ 99999 }
        ensures { result ≡ record_length (slice_set self.now.fields index field.now) }
    {
        let _field = field;
        let others = (self.len() - self.field_len_at(index)) as u64;
        others + size
    }

    /// The written form of the record with another field in the place of one.
    pub(crate) fn bytes_with(
        &self,
        alloc: Global,
        index: u32,
        field: &Field,
    ) -> Result<Vec<u8>, NoMemory>
        requires within { index < length self.now.fields }
        requires valid { is_record self.now.leader (slice_set self.now.fields index field.now) ≡ true }
        requires room { IsTrue (fits (slice_set self.now.fields index field.now)) }
        ensures { IfOk result (λ bytes.
            bytes.items ≡ record_bytes self.now.leader (slice_set self.now.fields index field.now)) }
    {
        let size = field_len(field);
        let len = self.len_with(index, field, size);
        let base = 25 + 12 * u64::from(self.field_count());
        let leader = self.leader();
        let mut bytes = Vec::with_capacity(alloc, len as usize)?;
        bytes.extend_from_slice(&leader_block(&leader, len, base))?;
        self.append_directory(index, field, size, &mut bytes)?;
        bytes.extend_from_slice(self.fields_before(index))?;
        append_field(alloc, field, &mut bytes)?;
        bytes.extend_from_slice(self.fields_behind(index))?;
        Ok(bytes)
    }
}
