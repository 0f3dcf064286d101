use marc_types::{Set, Text};
use marc8_latin::{Marc8Fault, one_reading, to_utf8};
use std::alloc::Global;
use std::process::Abort;
use std::test::Fail;

// Behind a function without a clause, since the clauses of `to_utf8` would be unfolded at each later goal.
fn converted(rt: &impl Abort, alloc: Global, bytes: &[u8]) -> Result<Text, Marc8Fault> {
    assert!(rt; bytes.len() <= 99_999);
    to_utf8(alloc, bytes)
}

const TEXTS: [(&[u8], &str); 12] = [
    (b"Ab", "Ab"),
    (b"\xe2e", "e\u{301}"),
    (b"\xe8\xe2u", "u\u{308}\u{301}"),
    (b"a\xe2", "a\u{301}"),
    (b"\xe2\x1fae", "\u{301}\u{1f}ae"),
    (b"\xa1", "\u{141}"),
    (b"\x1b(!Ebe", "\u{301}\u{304}"),
    (b"\x1b(!Eb\x1b(Be", "e\u{301}"),
    (b"\xe2\x1b(Be", "e\u{301}"),
    (b"\x1b(!E\x1fa!\x1bs!", "\u{1f}a\u{141}!"),
    (b"\x1b-B\xc1\x1b)!E\xc1", "A\u{2113}"),
    (b"\xe2\x88A\xe2 b", "\u{301}\u{98}A \u{301}b"),
];

#[test]
fn texts(rt: HostRuntime) -> Result<(), Fail> {
    one_reading();
    for (bytes, text) in &TEXTS {
        let converted = converted(&rt, rt.alloc(), bytes)?;
        assert_eq!(rt; converted.as_str(), *text);
    }
    Ok(())
}

const FAULTS: [(&[u8], Marc8Fault); 15] = [
    (b"a\xaf", Marc8Fault::BadByte(1)),
    (b"a\x1b(N", Marc8Fault::OtherSet(Set::BasicCyrillic, 1)),
    (b"\x1b(", Marc8Fault::BadByte(0)),
    (b"\x1b(!", Marc8Fault::BadByte(0)),
    (b"\x1b(\x1f", Marc8Fault::OtherSet(Set::Unknown, 0)),
    (b"\x1b,!F", Marc8Fault::OtherSet(Set::Unknown, 0)),
    (b"\x1b$", Marc8Fault::OtherSet(Set::Unknown, 0)),
    (b"\x1b$1", Marc8Fault::OtherSet(Set::Eacc, 0)),
    (b"\x1b$)1", Marc8Fault::OtherSet(Set::Eacc, 0)),
    (b"ab\x1bp2", Marc8Fault::OtherSet(Set::Superscripts, 2)),
    (b"\x1bx", Marc8Fault::BadByte(0)),
    (b"a\x1f", Marc8Fault::BadByte(1)),
    (b"a\x1f ", Marc8Fault::BadByte(2)),
    (b"\xa0", Marc8Fault::BadByte(0)),
    (b"\x1b)B\xff", Marc8Fault::BadByte(3)),
];

#[test]
fn faults(rt: HostRuntime) {
    for (bytes, fault) in &FAULTS {
        assert!(rt; converted(&rt, rt.alloc(), bytes).err() == Some(*fault));
    }
}
