use command_words::Topic;
use console_lines::End;
use outside_mem::MemSink;
use program_help::{help, version};
use std::alloc::Global;

const TOPICS: [(Topic, &str); 26] = [
    (Topic::All, "union_cat, a union catalogue"),
    (Topic::Pass, "union_cat pass OUT CODE=FILE\n"),
    (
        Topic::Run,
        "union_cat run JOURNAL OUT REPORT CODE=FILE ..\n",
    ),
    (Topic::Load, "union_cat load JOURNAL CODE=FILE ..\n"),
    (
        Topic::Browse,
        "union_cat browse JOURNAL OUT REPORT PAGES CODE=FILE ..\n",
    ),
    (Topic::Export, "union_cat export JOURNAL OUT\n"),
    (Topic::Report, "union_cat report JOURNAL OUT\n"),
    (Topic::Make, "union_cat make SEED COUNT OUT\n"),
    (Topic::Verify, "union_cat verify JOURNAL\n"),
    (Topic::Matches, "union_cat matches JOURNAL OUT\n"),
    (
        Topic::Holdings,
        "union_cat holdings JOURNAL OUT REST CODE=FILE\n",
    ),
    (
        Topic::Headings,
        "union_cat headings JOURNAL KIND FROM MOST OUT\n",
    ),
    (Topic::Worklist, "union_cat worklist JOURNAL LIST PAGE\n"),
    (Topic::Migrate, "union_cat migrate OLD NEW\n"),
    (Topic::Salvage, "union_cat salvage JOURNAL NEW\n"),
    (Topic::Checkpoint, "union_cat checkpoint JOURNAL POINT\n"),
    (Topic::Quick, "union_cat quick JOURNAL POINT OUT\n"),
    (Topic::Reading, "union_cat reading export JOURNAL OUT\n"),
    (Topic::Refused, "union_cat refused OUT CODE=FILE\n"),
    (
        Topic::Split,
        "union_cat split N PREFIX CODE=FILE ..\n",
    ),
    (Topic::Join, "union_cat join OUT EXPORT ..\n"),
    (Topic::Totals, "union_cat totals REPORT0 REPORT ..\n"),
    (Topic::Large, "union_cat large COMMAND ..\n"),
    (Topic::Help, "union_cat help\n"),
    (Topic::Version, "union_cat version\n"),
    (Topic::Statuses, "union_cat help statuses\n"),
];

fn helped(alloc: Global, topic: Topic) -> (End, Vec<u8>) {
    let mut page = MemSink::new(alloc, Vec::new(alloc));
    let end = help(&mut page, topic);
    (end, page.into_bytes())
}

#[test]
fn each_text_begins_with_its_words(rt: HostRuntime) {
    for (topic, words) in &TOPICS {
        let (end, bytes) = helped(rt.alloc(), *topic);
        assert!(rt; end == End::Done);
        assert!(rt; bytes.as_slice().starts_with(words.as_bytes()));
    }
}

fn versioned(alloc: Global) -> (End, Vec<u8>) {
    let mut page = MemSink::new(alloc, Vec::new(alloc));
    let end = version(&mut page);
    (end, page.into_bytes())
}

#[test]
fn the_version(rt: HostRuntime) {
    let (end, bytes) = versioned(rt.alloc());
    assert!(rt; end == End::Done);
    assert!(rt;
        bytes
            .as_slice()
            .starts_with(b"union_cat 1.0\nproved with rattle-kit-")
    );
}
