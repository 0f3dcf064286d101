//! How a field stands in a catalogue over a log.
ghost use Rattle.std.specs.Prelude.{◌≡◌, ◌≤◌, [], All, length, vec_capacity};
ghost use Rattle.catalogue_lock.specs.Passes.{IsReady};

use catalogue_lock::{HistoryLock, Object, Pass, Passes};
use durable_catalogue::{Ask, Durable, OnClose, Seen, Told};
use marc_types::{Class, Key, Limits, Place, Text};
use outside_mem::MemDisk;
use std::alloc::Global;
use std::process::Abort;
use std::sync::Wait;
use std::test::Fail;

/// The entries stand in the order of the turns: a book, the authority, the other book, the deletion.
const LOG: &[u8] =
    b"UNIONCAT JNL 02\nO\0\0\0\xa4\0\0\0\0\0\0\0\x01\0\0\0\0\x04ULIB\x01\0\0\0\0\0\0\0\x01\0\0\0\x8600134nam a2200061 a 4500001000300000100005200003245001700055\x1eb1\x1e1 \x1faClemens, Samuel Langhorne,\x1fd1835-1910,\x1feauthor.\x1e10\x1faRoughing it.\x1e\x1dO\0\0\0\xbc\0\0\0\0\0\0\0\x01\0\0\0\x01\x04ULIB\x01\0\0\0\0\0\0\0\x01\0\0\0\x9e00158nz  a2200073n  4500001001000000003000400010100002800014400004200042\x1en79021164\x1eDLC\x1e1 \x1faTwain, Mark,\x1fd1835-1910\x1e1 \x1faClemens, Samuel Langhorne,\x1fd1835-1910\x1e\x1dO\0\0\0o\0\0\0\0\0\0\0\x01\0\0\0\0\x04ULIB\x01\0\0\0\0\0\0\0\x02\0\0\0Q00081nam a2200049 a 4500001000300000100002800003\x1eb2\x1e1 \x1faTwain, Mark,\x1fd1835-1910\x1e\x1dO\0\0\0^\0\0\0\0\0\0\0\x01\0\0\0\x01\x04ULIB\x01\0\0\0\0\0\0\0\x02\0\0\0@00064dz  a2200049n  4500001001000000003000400010\x1en79021164\x1eDLC\x1e\x1dC";

/// A catalogue over a log with these bytes.
fn opened(rt: &impl Abort, alloc: Global, bytes: &[u8]) -> Result<Durable<MemDisk>, Fail> {
    let log = Vec::from_slice(alloc, &bytes[..bytes.len().min(4096)])?;
    let limits = Limits {
        entries: 4,
        bytes: 4096,
    };
    let Ok(durable) = Durable::open(alloc, MemDisk::new(alloc, log, Vec::new(alloc)), limits) else {
        panic!(rt; "no journal")
    };
    Ok(durable)
}

/// What the one pass of a lock is answered, and the object again.
fn asked<R: Wait, O: Object>(
    rt: &R,
    lock: HistoryLock<O>,
    passes: Passes<O>,
    room: Vec<Pass<O>>,
    question: &O::Question,
) -> (O::Answer, O)
    requires one { (lock.callers ≡ 1) × (length passes ≡ 1) }
    requires ready { All (IsReady lock) passes }
    requires room { (room.items ≡ []) × (1 ≤ vec_capacity room) }
{
    let (mut dealt, mut all) = (passes.into_vec(), room);
    let Some(mut pass) = dealt.pop() else {
        unreachable!()
    };
    let answer = lock.look(rt, &mut pass, question);
    all.push_reserved(pass);
    (answer, lock.close(Passes::from_vec(all)))
}

/// How many entries are told from a place on; none where no news of it is kept.
fn told_since(durable: &Durable<MemDisk>, from: u64) -> Option<usize> {
    match durable.look(&Ask::Since { from, most: 256 }) {
        Ok(Told::Since(headings)) => Some(headings.len()),
        _ => None,
    }
}

/// How a heading field of the first book stands after the turns.
#[test]
fn a_field_is_unlinked_in_the_end(rt: HostRuntime) -> Result<(), Fail> {
    let alloc = rt.alloc();
    let place = Place {
        class: Class::Bibliographic,
        key: Key {
            code: Text::from_str(alloc, "ULIB")?,
            number: Text::from_str(alloc, "b1")?,
        },
        field: 1,
    };
    let room = Vec::with_capacity(alloc, 1)?;
    let durable = opened(&rt, alloc, LOG)?;
    match HistoryLock::new(alloc, durable, 1) {
        Ok((lock, passes)) => {
            let (told, durable) = asked(&rt, lock, passes, room, &Ask::Status(place));
            durable.close(OnClose::Free);
            assert!(rt; matches!(told, Ok(Told::Status(Seen::Unlinked))));
        }
        Err((durable, _)) => {
            durable.close(OnClose::Free);
            panic!(rt; "no memory")
        }
    }
    Ok(())
}

/// News is kept from the time on that it is asked for.
#[test]
fn entries_before_news_was_asked_for_are_not_told(rt: HostRuntime) -> Result<(), Fail> {
    let mut durable = opened(&rt, rt.alloc(), LOG)?;
    assert!(rt; told_since(&durable, 4).is_none());
    durable.keep_news();
    assert!(rt; told_since(&durable, 3).is_none() && told_since(&durable, 4) == Some(0));
    durable.close(OnClose::Free);
    Ok(())
}
