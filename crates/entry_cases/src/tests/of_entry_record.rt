use entry_record::{class_of, is_deletion};
use marc_types::{Class, Leader};

fn leader(status: u8, rtype: u8) -> Leader {
    Leader {
        status,
        rtype,
        level: b' ',
        control: b' ',
        encoding: b' ',
        form: b' ',
        linked: b' ',
    }
}

/// Leader bytes 05 and 06, the class, and whether a record with them deletes.
const LEADERS: [(u8, u8, Class, bool); 6] = [
    (b'n', b'z', Class::Authority, false),
    (b'd', b'z', Class::Authority, true),
    (b's', b'z', Class::Authority, true),
    (b'n', b'a', Class::Bibliographic, false),
    (b'd', b'a', Class::Bibliographic, true),
    (b's', b'a', Class::Bibliographic, false),
];

fn is_of(leader: &Leader, class: Class, deletes: bool) -> bool {
    class_of(leader) == class && is_deletion(leader) == deletes
}

#[test]
fn classes_and_deletions(rt: HostRuntime) {
    for (status, rtype, class, deletes) in &LEADERS {
        assert!(rt; is_of(&leader(*status, *rtype), *class, *deletes));
    }
}
