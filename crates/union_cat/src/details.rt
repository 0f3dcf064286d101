//! What is known of a refused piece beside its reason: the byte in question, the length that it claims, and its number.
use holdings::HoldingRefusal;
use marc_types::{Refusal, is_printable_byte};
use std::{fmt, str};

const LEADER: usize = 24;

/// How many bytes of a leader tell the record's length.
const LENGTH: usize = 5;

/// From which place to behind which the base address stands in a leader.
const BASE: (usize, usize) = (12, 17);

/// Where the record's type stands in a leader.
const TYPE: usize = 6;

/// Where the coding of the record's text stands in a leader.
const CODING: usize = 9;

/// How many bytes an entry of the directory has.
const ENTRY: usize = 12;

const FIELD_TERMINATOR: u8 = 0x1E;

const RECORD_TERMINATOR: u8 = 0x1D;

/// The most bytes of a number that are told.
const LONGEST_NUMBER: usize = 40;

/// A byte, as it is told: where it is a graphic character, as that, and in hexadecimal.
#[derive(Clone, Copy, Debug)]
struct Shown(u8);

impl fmt::Display for Shown {
    fn fmt<W: fmt::Write>(&self, f: &mut fmt::Formatter<W>) -> fmt::Result {
        let byte = self.0;
        if byte.is_ascii_graphic() {
            let sign = byte as char;
            write!(f, "'{sign}' ({byte:02x})")
        } else {
            write!(f, "{byte:02x}")
        }
    }
}

/// A piece of a file that was refused, or the front of it, and why it was.
#[derive(Clone, Copy, Debug)]
pub struct RefusedBytes<'a> {
    piece: &'a [u8],
    refusal: HoldingRefusal,
}

impl<'a> RefusedBytes<'a> {
    /// The piece with which these bytes begin.
    pub fn new(bytes: &'a [u8], refusal: HoldingRefusal) -> Self {
        let piece = match bytes.iter().position(|byte| *byte == RECORD_TERMINATOR) {
            Some(end) => bytes.get(..end.saturating_add(1)).unwrap_or(bytes),
            None => bytes,
        };
        RefusedBytes { piece, refusal }
    }

    // The directory's entry at a place, counted from 0.
    fn entry(&self, place: u32) -> Option<&'a [u8]> {
        let from = (place as usize).checked_mul(ENTRY)?.checked_add(LEADER)?;
        let entry = self.piece.get(from..from.checked_add(ENTRY)?)?;
        if entry.contains(&FIELD_TERMINATOR) {
            return None;
        }
        Some(entry)
    }

    // What stands behind the start of the field of an entry.
    fn field(&self, entry: &[u8]) -> Option<&'a [u8]> {
        let base = number(self.piece.get(BASE.0..BASE.1)?)?;
        let start = number(entry.get(7..ENTRY)?)?;
        self.piece.get(base.checked_add(start)?..)
    }

    // The number in the field 001, where the first entry of the directory is its.
    fn control_number(&self) -> Option<&'a str> {
        let entry = self.entry(0)?;
        if entry.get(..3)? != b"001".as_slice() {
            return None;
        }
        let field = self.field(entry)?;
        let end = field.iter().position(|byte| !is_printable_byte(*byte))?;
        if end == 0 || end > LONGEST_NUMBER {
            return None;
        }
        str::from_utf8(field.get(..end)?).ok()
    }

    // The first byte of a part that isn't as it should be, with its place.
    fn first_bad(&self, from: usize, until: usize, digits: bool) -> Option<(usize, Shown)> {
        for at in from..until {
            let byte = *self.piece.get(at)?;
            let is_good = if digits {
                byte.is_ascii_digit()
            } else {
                is_printable_byte(byte)
            };
            if !is_good {
                return Some((at, Shown(byte)));
            }
        }
        None
    }

    // The first byte of the leader that isn't as it should be.
    fn bad_leader_byte(&self) -> Option<(usize, Shown)> {
        let status = self.first_bad(LENGTH, 10, false);
        let forms = self.first_bad(BASE.1, 20, false);
        status.or(forms).or(self.first_bad(BASE.0, BASE.1, true))
    }
}

// The number of which these are the digits.
fn number(digits: &[u8]) -> Option<usize> {
    str::from_utf8(digits).ok()?.parse().ok()
}

// The words of a reason, as the console has them.
fn words(refusal: Refusal) -> &'static str {
    match refusal {
        Refusal::Overlong => "overlong",
        Refusal::Unfinished => "unfinished",
        Refusal::BadLength => "bad length",
        Refusal::BadLeader => "bad leader",
        Refusal::BadDirectory(_) => "bad directory",
        Refusal::BadField(_) => "bad field",
        Refusal::UnknownCoding => "unknown coding",
        Refusal::BadText(_, _) => "bad text",
        Refusal::OtherType => "other type",
        Refusal::NoNumber => "no number",
        Refusal::BadCode => "bad code",
        Refusal::NoHeading => "no heading",
        Refusal::HeadingTooLong => "heading too long",
        Refusal::NoRoom => "no room",
        Refusal::OtherSet(_, _, _) => "other set",
    }
}

impl RefusedBytes<'_> {
    // How long the piece says it is, and how long it is; nothing where its bytes weren't had.
    fn write_lengths<W: fmt::Write>(&self, f: &mut fmt::Formatter<W>) -> fmt::Result {
        let there = self.piece.len();
        if there == 0 {
            return Ok(());
        }
        if let Some((at, byte)) = self.first_bad(0, LENGTH, true) {
            return write!(f, ": byte {at} is {byte}, {there} bytes are there");
        }
        match self.piece.get(..LENGTH).and_then(number) {
            Some(claimed) => write!(f, ": {claimed} bytes are claimed, {there} are there"),
            None => write!(f, ": {there} bytes are there"),
        }
    }

    // The byte at a place of the leader.
    fn write_leader_byte<W: fmt::Write>(
        &self,
        f: &mut fmt::Formatter<W>,
        at: usize,
    ) -> fmt::Result {
        match self.piece.get(at) {
            Some(byte) => {
                let byte = Shown(*byte);
                write!(f, ": byte {at} is {byte}")
            }
            None => Ok(()),
        }
    }

    // Which byte of the leader isn't as it should be; where each is, the base address isn't.
    fn write_leader<W: fmt::Write>(&self, f: &mut fmt::Formatter<W>) -> fmt::Result {
        if let Some((at, byte)) = self.bad_leader_byte() {
            return write!(f, ": byte {at} is {byte}");
        }
        match self.piece.get(BASE.0..BASE.1).and_then(number) {
            Some(base) => write!(f, ": the base address is {base}"),
            None => Ok(()),
        }
    }

    // The directory's entry, with its tag where that can be read.
    fn write_entry<W: fmt::Write>(&self, f: &mut fmt::Formatter<W>, place: u32) -> fmt::Result {
        write!(f, ": entry {place}")?;
        let tag = self.entry(place).and_then(|entry| entry.get(..3));
        match tag.and_then(|tag| str::from_utf8(tag).ok()) {
            Some(tag) => write!(f, ", field {tag}"),
            None => Ok(()),
        }
    }

    // The byte at an offset of the field of an entry.
    fn write_byte<W: fmt::Write>(
        &self,
        f: &mut fmt::Formatter<W>,
        place: u32,
        offset: u32,
    ) -> fmt::Result {
        self.write_entry(f, place)?;
        write!(f, ", byte {offset}")?;
        let field = self.entry(place).and_then(|entry| self.field(entry));
        match field.and_then(|field| field.get(offset as usize)) {
            Some(byte) => {
                let byte = Shown(*byte);
                write!(f, " is {byte}")
            }
            None => Ok(()),
        }
    }
}

impl RefusedBytes<'_> {
    // The reason, with what is known of it.
    fn write_refusal<W: fmt::Write>(
        &self,
        f: &mut fmt::Formatter<W>,
        refusal: Refusal,
    ) -> fmt::Result {
        f.write_str(words(refusal))?;
        match refusal {
            Refusal::Unfinished | Refusal::BadLength => self.write_lengths(f),
            Refusal::BadLeader => self.write_leader(f),
            Refusal::UnknownCoding => self.write_leader_byte(f, CODING),
            Refusal::OtherType => self.write_leader_byte(f, TYPE),
            Refusal::BadDirectory(place) | Refusal::BadField(place) => self.write_entry(f, place),
            Refusal::BadText(place, offset) | Refusal::OtherSet(_, place, offset) => {
                self.write_byte(f, place, offset)
            }
            _ => Ok(()),
        }
    }
}

impl fmt::Display for RefusedBytes<'_> {
    fn fmt<W: fmt::Write>(&self, f: &mut fmt::Formatter<W>) -> fmt::Result {
        match self.refusal {
            HoldingRefusal::OfRecord(refusal) => self.write_refusal(f, refusal)?,
            HoldingRefusal::NoTarget => f.write_str("no target")?,
        }
        match self.control_number() {
            Some(number) => write!(f, ", 001 is {number}"),
            None => Ok(()),
        }
    }
}
