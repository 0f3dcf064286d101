//! What a slip of the hand looks like: the name of an output that is a journal, a library's word in the place of a file, and a file that is no
//! MARC.
const FIRST_VERSION: &[u8] = b"UNIONCAT JNL 01\n";

const SECOND_VERSION: &[u8] = b"UNIONCAT JNL 02\n";

/// The most bytes of a library's code.
const LONGEST_CODE: usize = 16;

/// Whether a file that begins so is a journal, or a point, of either version.
pub fn begins_a_journal(front: &[u8]) -> bool {
    front == FIRST_VERSION || front == SECOND_VERSION
}

/// Whether a name has the form `CODE=FILE`, with no folder in front of it.
pub fn is_library_word(name: &str) -> bool {
    match name.split_once('=') {
        Some((code, _)) => {
            !code.is_empty() && code.len() <= LONGEST_CODE && code.bytes().all(can_stand_in_code)
        }
        None => false,
    }
}

// A slash is no sign of a code here, so that `./A=b` is the way to such a name.
fn can_stand_in_code(byte: u8) -> bool {
    matches!(byte, b'!'..=b'~') && byte != b'(' && byte != b')' && byte != b'/'
}

/// What a file is that begins so and is no MARC file in ISO 2709, where that can be told.
pub fn sort_of(front: &[u8]) -> Option<&'static str> {
    match front {
        [0xEF, 0xBB, 0xBF, ..] => return Some("a byte order mark"),
        [0xFF, 0xFE, ..] | [0xFE, 0xFF, ..] => return Some("UTF-16"),
        [0xFF, 0xD8, 0xFF, ..] => return Some("JPEG"),
        _ => {}
    }
    match front.iter().find(|byte| !byte.is_ascii_whitespace()) {
        Some(b'<') => Some("MARCXML"),
        Some(b'{' | b'[') => Some("JSON"),
        _ => None,
    }
}
