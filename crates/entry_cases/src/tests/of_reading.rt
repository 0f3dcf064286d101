use super::pieces::read;
use marc_types::{Field, Record, RecordFault, Refusal, Set};
use std::alloc::Global;
use std::test::Fail;

mod admission;
mod definitions;

/// The text of the only subfield of the second and last field.
fn second_text(rec: &Record) -> Option<&str> {
    match rec.fields.as_slice() {
        [_, Field::Variable { subs, .. }] => match subs.as_slice() {
            [sub] => Some(sub.text.as_str()),
            _ => None,
        },
        _ => None,
    }
}

const CAFE: &[u8] =
    b"00063nam  2200049 a 4500001000300000245001000003\x1em1\x1e00\x1faCaf\xe2e\x1e\x1d";

#[test]
fn a_record_in_marc8(rt: HostRuntime) -> Result<(), Fail> {
    let rec = read(rt.alloc(), CAFE)?;
    assert!(rt; second_text(&rec) == Some("Cafe\u{301}"));
    Ok(())
}

const REFUSED: [(&[u8], Refusal); 4] = [
    (
        b"00078nam  2200061 a 4500001000200000245000600002880000800008\x1ex\x1e00\x1faX\x1e00\x1fa\x1b(N\x1e\x1d",
        Refusal::OtherSet(Set::BasicCyrillic, 2, 4),
    ),
    (
        b"00063nam b2200049 a 4500001000300000245001000003\x1em1\x1e00\x1faCaf\xe2e\x1e\x1d",
        Refusal::UnknownCoding,
    ),
    (
        b"00063nam a2200049 a 4500001000300000245001000003\x1em1\x1e00\x1faCaf\xe2e\x1e\x1d",
        Refusal::BadText(1, 7),
    ),
    (
        b"00200nam  2200049 a 4500001000300000245001000003\x1em1\x1e00\x1faCaf\xe2e\x1e\x1d",
        Refusal::BadLength,
    ),
];

fn is_refused(alloc: Global, piece: &[u8], refusal: Refusal) -> bool {
    read(alloc, piece).err() == Some(RecordFault::Refused(refusal))
}

#[test]
fn refused(rt: HostRuntime) {
    for (piece, refusal) in &REFUSED {
        assert!(rt; is_refused(rt.alloc(), piece, *refusal));
    }
}
