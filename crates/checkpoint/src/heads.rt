//! The reading of what stands before a kept record's ties.
ghost use Rattle.std.specs.Prelude.{◌≡◌, ◌≢◌, ◌↔◌, IsTrue, IfSome, IfNone, IfOk, IfErr};
ghost use Rattle.marc_types.specs.declared.key.Class.{Class as AnyClass};
ghost use Rattle.iso2709_record.specs.Written.{record_bytes, fits};
ghost use Rattle.entry_record.specs.Identity.{control_number_of};
ghost use Rattle.checkpoint.specs.Format.{class_byte};
ghost use Rattle.reading.specs.Reading.{IsReadAs};
ghost use Rattle.checkpoint.specs.Parts.{IsProperKey};
ghost use Rattle.checkpoint.specs.Reading.{HaveHead, HaveNoHead, IsWrittenOf, IsOfNoRecord, IsNoKey};

use crate::PartFault;
use crate::keys::proper_key;
use crate::lengths::{coded, sized};
use entry_record::first_control;
use iso2709_record::fits;
use marc_types::{Class, Field, Key, NoMemory, Record, RecordFault, Text};
use reading::read_record;
use std::alloc::Global;
use written_record::WrittenRecord;

/// The bytes of the classes.
pub(crate) const AUTHORITY: u8 = b'A';

pub(crate) const BIBLIOGRAPHIC: u8 = b'B';

/// The last character of the tag of a control number, 001.
const NUMBER: u8 = b'1';

/// A kept record's class, the code of its key and its written record, and what stands behind them.
#[derive(Drop)]
pub(crate) struct Head<'a> {
    pub(crate) class: Class,
    pub(crate) code: &'a [u8],
    pub(crate) written: &'a [u8],
    pub(crate) rest: &'a [u8],
}

fn class_of(byte: u8) -> Option<Class>
    ensures class { IfSome result (λ class. class_byte class ≡ byte) }
    ensures none { IfNone result ((class : AnyClass) → class_byte class ≢ byte) }
{
    match byte {
        AUTHORITY => Some(Class::Authority),
        BIBLIOGRAPHIC => Some(Class::Bibliographic),
        _ => None,
    }
}

#[tactic(auto, unfolding(crate::specs::Format::head_bytes))]
pub(crate) fn read_head(bytes: &[u8]) -> Option<Head<'_>>
    ensures head { IfSome result (λ h. HaveHead bytes.now h.class h.code.now h.written.now h.rest.now) }
    ensures none { IfNone result (HaveNoHead bytes.now) }
{
    let (byte, behind) = bytes.split_first()?;
    let class = class_of(*byte)?;
    let (code, behind_code) = coded(behind)?;
    let (written, rest) = sized(behind_code)?;
    Some(Head {
        class,
        code,
        written,
        rest,
    })
}

/// Whether bytes are those of a written record.
fn is_same(made: &WrittenRecord, written: &[u8]) -> bool
    ensures { IsTrue result ↔ (record_bytes made.now.leader made.now.fields ≡ written.now) }
{
    made.as_bytes() == written
}

/// The record as which bytes are read.
fn read_sound(alloc: Global, written: &[u8]) -> Result<Record, PartFault>
    ensures read { IfOk result (λ rec. IsReadAs written.now rec.leader rec.fields) }
    ensures bad { IfErr result (IsOfNoRecord written.now) }
{
    match read_record(alloc, written) {
        Ok(rec) => Ok(rec),
        Err(RecordFault::Refused(_)) => Err(PartFault::BadPart),
        Err(RecordFault::NoMemory) => Err(PartFault::NoMemory),
    }
}

/// The record whose written form bytes are, and that form itself.
pub(crate) fn read_written(
    alloc: Global,
    written: &[u8],
) -> Result<(Record, WrittenRecord), PartFault>
    ensures read { IfOk result (λ r. IsWrittenOf written.now r.0) }
    ensures same { IfOk result (λ r. r.1 ≡ r.0) }
    ensures bad { IfErr result (IsOfNoRecord written.now) }
{
    let rec = read_sound(alloc, written)?;
    if !fits(&rec) {
        return Err(PartFault::BadPart);
    }
    let made = WrittenRecord::of(alloc, &rec)?;
    if !is_same(&made, written) {
        return Err(PartFault::BadPart);
    }
    Ok((rec, made))
}

/// The first 001 without its blanks; empty where there is none.
#[tactic(auto, unfolding(entry_record::specs::Identity::control_number_of))]
fn control_number(alloc: Global, fields: &[Field]) -> Result<Text, NoMemory>
    ensures { IfOk result (λ number. number ≡ control_number_of fields.now) }
{
    match first_control(fields, NUMBER) {
        Some(text) => text.without_blanks(alloc),
        None => Ok(Text::new()),
    }
}

/// The key of that code and of a record's own number.
pub(crate) fn own_key(alloc: Global, code: &[u8], rec: &Record) -> Result<Key, PartFault>
    ensures key { IfOk result (λ key. key ≡ record { code = code.now; number = control_number_of rec.now.fields }) }
    ensures proper { IfOk result IsProperKey }
    ensures bad { IfErr result (IsNoKey code.now (control_number_of rec.now.fields)) }
{
    let number = control_number(alloc, rec.fields.as_slice())?;
    proper_key(alloc, code, number.as_bytes())
}
