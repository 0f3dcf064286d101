//! What a catalogue takes as a record, in words of these tests' own, written from the pages of the format: for records of fewer than 5,000
//! bytes, so that no heading is too long and each has room to grow.

const FIELD_END: u8 = 0x1E;

const RECORD_END: u8 = 0x1D;

const SUBFIELD: u8 = 0x1F;

/// The letters of the types of records that are taken.
const TYPES: &[u8] = b"zacdefgijkmoprt";

/// What was read of a record up to some field.
#[derive(Clone, Copy)]
struct Seen<'a> {
    number: Option<&'a [u8]>,
    code: Option<&'a [u8]>,
    has_heading: bool,
}

/// The number that some digits write.
fn number_in(digits: &[u8]) -> Option<usize> {
    let mut number = 0usize;
    for digit in digits {
        if !digit.is_ascii_digit() {
            return None;
        }
        number = number
            .saturating_mul(10)
            .saturating_add(usize::from(digit.wrapping_sub(b'0')));
    }
    Some(number)
}

fn is_printable(byte: u8) -> bool {
    byte == b' ' || byte.is_ascii_graphic()
}

fn are_printable(bytes: &[u8]) -> bool {
    for byte in bytes {
        if !is_printable(*byte) {
            return false;
        }
    }
    true
}

fn are_letters_or_digits(bytes: &[u8]) -> bool {
    for byte in bytes {
        if !byte.is_ascii_alphanumeric() {
            return false;
        }
    }
    true
}

/// How many graphic bytes stand there beside blanks, where nothing else does.
fn graphic_count(bytes: &[u8]) -> Option<usize> {
    let mut count = 0usize;
    for byte in bytes {
        if !is_printable(*byte) {
            return None;
        }
        if *byte != b' ' {
            count = count.saturating_add(1);
        }
    }
    Some(count)
}

pub(super) fn has(bytes: &[u8], wanted: u8) -> bool {
    for byte in bytes {
        if *byte == wanted {
            return true;
        }
    }
    false
}

/// Whether a text without its blanks is a number of a record.
fn is_number(text: &[u8]) -> bool {
    matches!(graphic_count(text), Some(1..=64))
}

/// Whether a text without its blanks is the code of a library.
pub(super) fn is_code(text: &[u8]) -> bool {
    matches!(graphic_count(text), Some(1..=16)) && !has(text, b'(') && !has(text, b')')
}

/// Whether a text without its blanks is another.
fn is_without_blanks(text: &[u8], other: &[u8]) -> bool {
    let mut rest = other;
    for byte in text {
        if *byte != b' ' {
            let Some((first, behind)) = rest.split_first() else {
                return false;
            };
            if *first != *byte {
                return false;
            }
            rest = behind;
        }
    }
    rest.is_empty()
}

fn is_text(bytes: &[u8]) -> bool {
    std::str::from_utf8(bytes).is_ok() && !has(bytes, FIELD_END) && !has(bytes, RECORD_END)
}

/// Whether each delimiter has a graphic code behind it, and the first stands in front of all.
fn are_subfields(bytes: &[u8]) -> bool {
    let mut is_code_due = false;
    for byte in bytes {
        if is_code_due && !byte.is_ascii_graphic() {
            return false;
        }
        is_code_due = *byte == SUBFIELD;
    }
    !is_code_due && matches!(bytes.first().copied(), None | Some(SUBFIELD))
}

/// Whether a field may have that data.
fn is_field(tag: &[u8], data: &[u8]) -> bool {
    if tag.starts_with(b"00") {
        return is_text(data) && !has(data, SUBFIELD);
    }
    match data.split_at_checked(2) {
        Some((indicators, subfields)) => {
            are_printable(indicators) && is_text(subfields) && are_subfields(subfields)
        }
        None => false,
    }
}

/// What is read of a record behind one more field: its first 001 and 003 count.
fn with_field<'a>(seen: Seen<'a>, tag: &[u8], data: &'a [u8]) -> Seen<'a> {
    Seen {
        number: seen.number.or((tag == b"001".as_slice()).then_some(data)),
        code: seen.code.or((tag == b"003".as_slice()).then_some(data)),
        has_heading: seen.has_heading || tag.starts_with(b"1"),
    }
}

/// The tag and the data of the field of an entry of the directory, and the fields behind it.
fn cut_field<'a>(
    entry: &'a [u8],
    fields: &'a [u8],
    passed: usize,
) -> Option<(&'a [u8], &'a [u8], &'a [u8])> {
    let (tag, numbers) = entry.split_at_checked(3)?;
    let (size, start) = numbers.split_at_checked(4)?;
    if !are_letters_or_digits(tag) || number_in(start)? != passed {
        return None;
    }
    let (field, behind) = fields.split_at_checked(number_in(size)?)?;
    let (end, data) = field.split_last()?;
    (*end == FIELD_END && is_field(tag, data)).then_some((tag, data, behind))
}

/// What is read of all the fields of a directory, where they are all that stands behind it.
fn read_fields<'a>(directory: &'a [u8], fields: &'a [u8]) -> Option<Seen<'a>> {
    let mut seen = Seen {
        number: None,
        code: None,
        has_heading: false,
    };
    let mut entries = directory;
    let mut rest = fields;
    for _ in 0..directory.len() / 12 {
        let (entry, others) = entries.split_at_checked(12)?;
        let passed = fields.len().saturating_sub(rest.len());
        let (tag, data, behind) = cut_field(entry, rest, passed)?;
        seen = with_field(seen, tag, data);
        entries = others;
        rest = behind;
    }
    (entries == [FIELD_END].as_slice() && rest == [RECORD_END].as_slice()).then_some(seen)
}

/// Where the fields begin, of a leader that may stand in front of so many bytes in all.
fn base_in(leader: &[u8], len: usize) -> Option<usize> {
    let base = number_in(leader.get(12..17)?)?;
    let is_right = len < 5000
        && number_in(leader.get(..5)?)? == len
        && are_printable(leader.get(5..9)?)
        && leader.get(9..12)? == b"a22".as_slice()
        && are_printable(leader.get(17..20)?)
        && leader.get(20..24)? == b"4500".as_slice();
    is_right.then_some(base)
}

/// What is read of a record.
fn read_record<'a>(record: &'a [u8]) -> Option<Seen<'a>> {
    let base = base_in(record, record.len())?;
    read_fields(record.get(24..base)?, record.get(base..)?)
}

fn is_authority(record: &[u8]) -> bool {
    record.get(6).copied() == Some(b'z')
}

fn deletes(record: &[u8]) -> bool {
    match record.get(5).copied() {
        Some(b'd') => true,
        Some(b's' | b'x') => is_authority(record),
        _ => false,
    }
}

/// Whether a catalogue takes a record under a library's code. Where the code of its key has to be that one, as in version 1, it is.
pub(super) fn is_taken(record: &[u8], library: &[u8], own_code: bool) -> bool {
    let Some(seen) = read_record(record) else {
        return false;
    };
    let (Some(number), Some(kind)) = (seen.number, record.get(6).copied()) else {
        return false;
    };
    let code = match seen.code {
        Some(code) if graphic_count(code) != Some(0) => code,
        _ => library,
    };
    is_number(number)
        && is_code(code)
        && has(TYPES, kind)
        && (!own_code || is_without_blanks(code, library))
        && (seen.has_heading || !is_authority(record) || deletes(record))
}
