use console_lines::{
    End, Fault, Totals, made_line, refused_lines, results_text, tell, totals_line,
};
use file_entries::RefusedItem;
use marc_types::{NoMemory, Refusal, Set, Sums};
use outside_mem::MemSink;
use std::alloc::Global;
use std::test::Fail;

const SUMS: Sums = Sums {
    linked: 3,
    ambiguous: 0,
    unlinked: 12,
    changed: 7,
};

const TOTALS: Totals = Totals {
    accepted: 2,
    refused: 1,
    sums: SUMS,
};

const REFUSED: RefusedItem = RefusedItem {
    ordinal: 3,
    offset: 210,
    refusal: Refusal::OtherSet(Set::BasicHebrew, 4, 17),
};

#[test]
fn texts(rt: HostRuntime) -> Result<(), Fail> {
    let alloc = rt.alloc();
    assert!(rt; has_refused_text(alloc)?);
    assert!(rt; has_totals_text(alloc)?);
    assert!(rt; has_results_text(alloc)?);
    assert!(rt; has_made_text(alloc)?);
    Ok(())
}

// Each in a function without a clause, since the text of one is nothing to the next.
fn has_refused_text(alloc: Global) -> Result<bool, NoMemory> {
    let made = refused_lines(alloc, "f", &[REFUSED])?;
    Ok(made.as_str() == "f 3 210 15 other set Basic Hebrew in entry 4 at 17\n")
}

fn has_totals_text(alloc: Global) -> Result<bool, NoMemory> {
    let made = totals_line(alloc, "f", &TOTALS)?;
    Ok(made.as_str() == "f: accepted 2, refused 1, linked 3, ambiguous 0, unlinked 12, changed 7\n")
}

fn has_results_text(alloc: Global) -> Result<bool, NoMemory> {
    let made = results_text(alloc, "f", &[REFUSED], &TOTALS)?;
    Ok(
        made.as_str()
            == "f 3 210 15 other set Basic Hebrew in entry 4 at 17\nf: accepted 2, refused 1, linked 3, ambiguous 0, unlinked 12, changed 7\n",
    )
}

fn has_made_text(alloc: Global) -> Result<bool, NoMemory> {
    let made = made_line(alloc, 20, &SUMS)?;
    Ok(made.as_str() == "made 20, linked 3, ambiguous 0, unlinked 12, changed 7\n")
}

fn told(alloc: Global, fault: Fault) -> (End, Vec<u8>) {
    let mut page = MemSink::new(alloc, Vec::new(alloc));
    let end = tell(&mut page, fault);
    (end, page.into_bytes())
}

/// Whether a fault is told as the end, with this status and line.
fn is_told(alloc: Global, fault: Fault, status: u8, line: &[u8]) -> bool {
    let (end, told) = told(alloc, fault);
    end == End::Told(fault) && end.status() == status && told.as_slice() == line
}

#[test]
fn faults(rt: HostRuntime) {
    let alloc = rt.alloc();
    let place = Fault::NotAJournal(1_099_511_627_775);
    assert!(rt;
        is_told(
            alloc,
            place,
            6,
            b"union_cat: not a journal at 1099511627775\n"
        )
    );
    assert!(rt;
        is_told(
            alloc,
            Fault::OldVersion,
            9,
            b"union_cat: wrong journal version\n"
        )
    );
}
