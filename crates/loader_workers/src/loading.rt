ghost use Rattle.std.specs.Prelude.{◌≡◌, ◌+◌, ◌^◌, false, IsTrue};
ghost use Rattle.marc_types.specs.Valid.{is_code};
ghost use Rattle.entry_history.specs.Commits.{Origin};
ghost use Rattle.loader_workers.specs.Turns.{CommitsAs, IsCatalogue, CanTurn, HasTurned};
ghost use Rattle.loader_workers.specs.Loading.{CountsFaults, LoadsOneFile, unread};
ghost use Rattle.loader_workers.specs.SideBySide.{CanLoad, LoadsTask};

use crate::counts::Counts;
use crate::gathering::gather;
use crate::input::InputFile;
use crate::result::{FileResult, unbegun};
use crate::task::{FileTask, Shared};
use crate::turning::commit;
use catalogue_lock::{Object, Pass};
use entry_history::{Batch, BatchReply, Event};
use file_entries::FileEntries;
use marc_types::{NoMemory, Text, TryCopy};
use outside::{Gate, Source};
use std::sync::Wait;

/// Loads the entries of a file: a turn for each batch of the gate's size, and a last one at the file's end, where any entry is held.
fn load_entries<
    O: Object<Item = Event, Call = Batch, Reply = BatchReply>,
    R: Wait,
    S: Source,
    G: Gate,
>(
    rt: &R,
    shared: &Shared<'_, O, G>,
    pass: &mut Pass<O>,
    entries: &mut FileEntries<S>,
    loader: u32,
) -> FileResult
    requires pass { CanTurn shared.now.lock.now pass.old (2 ^ 30) }
    requires catalogue { IsCatalogue O.takes (O.replies (O.origin shared.now.lock.now.opened)) }
    requires going { entries.old.over ≡ false }
    requires fresh { entries.old.stream.given ≡ 0 }
    ensures loads { (origin : Origin) → CommitsAs (O.replies (O.origin shared.now.lock.now.opened)) origin
        → LoadsOneFile origin entries.old entries.new.stream.left pass.old pass.new result }
    ensures pass { HasTurned pass.old pass.new (2 ^ 27 + 1) }
    ensures faults { CountsFaults entries.old.stream.faults entries.new.stream.faults result.end }
{
    let mut refused = Vec::new(shared.alloc);
    let mut counts = Counts::none();
    'turns: loop {
        let (batch, over) = gather(rt, shared, entries, &mut refused, loader, counts.accepted);
        if let Some(end) = commit(rt, shared.lock, pass, batch, &mut counts) {
            return counts.result(refused, end);
        }
        if let Some(end) = over {
            return counts.result(refused, end);
        }
    }
}

/// Loads what a source has left.
fn load_source<
    O: Object<Item = Event, Call = Batch, Reply = BatchReply>,
    R: Wait,
    S: Source,
    G: Gate,
>(
    rt: &R,
    shared: &Shared<'_, O, G>,
    pass: &mut Pass<O>,
    source: S,
    code: &Text,
    loader: u32,
) -> (S, FileResult)
    requires pass { CanTurn shared.now.lock.now pass.old (2 ^ 30) }
    requires code { IsTrue (is_code code.now) }
    requires catalogue { IsCatalogue O.takes (O.replies (O.origin shared.now.lock.now.opened)) }
    ensures loads { (origin : Origin) → CommitsAs (O.replies (O.origin shared.now.lock.now.opened)) origin
        → LoadsOneFile origin (unread (S.left source) (S.bound source) (S.faults source) code.now loader) (S.left result.0) pass.old pass.new result.1 }
    ensures pass { HasTurned pass.old pass.new (2 ^ 27 + 1) }
    ensures faults { CountsFaults (S.faults source) (S.faults result.0) result.1.end }
{
    let library = match code.copy(shared.alloc) {
        Ok(library) => library,
        Err(NoMemory) => return (source, unbegun(shared.alloc)),
    };
    match FileEntries::new(shared.alloc, source, library, loader) {
        Ok(mut entries) => {
            let result = load_entries(rt, shared, pass, &mut entries, loader);
            (entries.finish(), result)
        }
        Err((source, NoMemory)) => (source, unbegun(shared.alloc)),
    }
}

/// Loads one file: its entries are prepared outside the lock, and committed by turns of as many as the gate says, in their order.
/// At a fault of the source, and at want of memory, what was gathered is committed first; where that commit answers a fault, the
/// file ends by that.
///
/// The object is a catalogue over a journal: it commits as `CommitsAs` says, with some origin. `LoadsTask` says for its origin which
/// of the file's accepted entries are committed in the origin's run, that the counts are those of their receipts, and what each
/// end means. The task comes back with its pass, its file and a result.
pub fn load<O: Object<Item = Event, Call = Batch, Reply = BatchReply>, R: Wait, S: Source, G: Gate>(
    rt: &R,
    shared: &Shared<'_, O, G>,
    task: FileTask<O, S>,
) -> FileTask<O, S>
    requires can { CanLoad shared.now.lock.now task.pass task.file.code }
    requires catalogue { IsCatalogue O.takes (O.replies (O.origin shared.now.lock.now.opened)) }
    ensures { LoadsTask (O.replies (O.origin shared.now.lock.now.opened)) S.left S.bound S.faults task result }
{
    let FileTask {
        file: InputFile { source, code },
        mut pass,
        loader,
        result: _,
    } = task;
    let (source, result) = load_source(rt, shared, &mut pass, source, &code, loader);
    FileTask {
        file: InputFile { source, code },
        pass,
        loader,
        result: Some(result),
    }
}
