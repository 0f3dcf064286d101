ghost use Rattle.std.specs.Prelude.{◌≡◌, length, Some, None, IfOk, IfErr, OnOk};
ghost use Rattle.commit_journal.specs.Log.{first_differing, version_of_header};
ghost use Rattle.commit_journal.specs.Versions.{number_of};

use crate::Version;

/// The header of a log of version 1.
pub const HEADER_1: [u8; 16] = *b"UNIONCAT JNL 01\n";

/// The header of a log of version 2.
pub const HEADER_2: [u8; 16] = *b"UNIONCAT JNL 02\n";

/// A log of no payload: the header and a closed gate.
pub const EMPTY_LOG: [u8; 17] = *b"UNIONCAT JNL 02\nC";

/// A log of at most so many bytes is blank, whatever they are.
pub const BLANK_LENGTH: u64 = 17;

/// Where the header says its version.
pub const VERSION_PLACE: usize = 14;

/// The version's digit in a header of version 1.
pub const DIGIT_1: u8 = b'1';

/// A gate is closed where it is this byte, else it is open.
pub const CLOSED_GATE: u8 = b'C';

/// What opens a gate.
pub const OPEN_GATE: u8 = b'O';

/// The place of the first gate.
pub const FIRST_GATE: u64 = 16;

/// How many bytes a header has.
pub const HEADER_BYTES: usize = 16;

/// The most bytes that a payload has.
pub const LARGEST_PAYLOAD: usize = 3_201_025;

/// How many bytes the length of a payload takes.
pub const LENGTH_BYTES: usize = 4;

/// How many bytes a gate and a payload's length take.
pub const HEAD_BYTES: usize = 5;

/// How many bytes the largest payload takes, with its length and the gate behind it.
pub const FRAME_ROOM: usize = 3_201_030;

/// The most bytes that one append to a journal writes behind the closed gate, which is what the largest payload takes: who appends several
/// payloads keeps them below it. One to a log of checkpoints may be longer.
pub const LARGEST_APPEND: usize = 3_201_030;

/// The place of the first byte of a header that is as in neither version.
#[tactic(auto, unfolding(crate::specs::Log::first_differing))]
fn wrong_place(header: &[u8; 16]) -> Option<usize>
    ensures { result ≡ first_differing 0 HEADER_1 HEADER_2 header.now }
{
    for (place, byte) in header.iter().enumerate() {
        if *byte != HEADER_1[place] && *byte != HEADER_2[place] {
            return Some(place);
        }
    }
    None
}

/// The version that a right header names.
#[tactic(auto, unfolding(crate::specs::Log::version_of_header))]
fn version_of(header: &[u8; 16]) -> Version
    ensures { number_of result ≡ version_of_header header.now }
{
    if header[VERSION_PLACE] == DIGIT_1 {
        Version::One
    } else {
        Version::Two
    }
}

/// The version that a header names, or the place of its first byte that is as in neither version.
pub fn header_version(header: &[u8; 16]) -> Result<Version, u64>
    ensures right { OnOk result (first_differing 0 HEADER_1 HEADER_2 header.now ≡ None) }
    ensures version { IfOk result (λ version. number_of version ≡ version_of_header header.now) }
    ensures wrong { IfErr result (λ place. first_differing 0 HEADER_1 HEADER_2 header.now ≡ Some place) }
{
    match wrong_place(header) {
        Some(place) => Err(place as u64),
        None => Ok(version_of(header)),
    }
}
