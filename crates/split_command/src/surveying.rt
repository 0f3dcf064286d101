//! The first reading of files: each item is judged and told, and keys are gathered. Nothing is written.
ghost use Rattle.std.specs.Prelude.{◌≡◌, ◌≤◌, ◌+◌, ◌<◌, ◌^◌, ℕ, List, false, true, [], None, IsTrue, IfOk, IfErr};
ghost use Rattle.marc_types.specs.Valid.{is_code};
ghost use Rattle.outside.specs.Room.{SameBut};
ghost use Rattle.file_entries.specs.Entries.{IsSameFile};
ghost use Rattle.split_command.specs.Groups.{IsFilesCause};
ghost use Rattle.split_command.specs.Splitting.{AreProper};
ghost use Rattle.split_command.specs.Surveying.{TakesNext, SurveysSource, AreSurveyed, SurveysEntries, SurveysFile};

use crate::fault::SplitFault;
use crate::survey::{Counts, Survey};
use command_words::Library;
use file_entries::{FileEntries, NextEntry};
use marc_types::{NoMemory, TryCopy};
use outside::{Room, Source};
use std::alloc::Global;

/// The loader of entries that nobody commits.
const LOADER: u32 = 0;

/// Takes the next item up, and answers whether there was one.
fn take_next<S: Source>(
    alloc: Global,
    entries: &mut FileEntries<S>,
    file: &str,
    survey: &mut Survey,
    counts: &mut Counts,
) -> Result<bool, SplitFault>
    requires going { entries.old.over ≡ false }
    requires few { counts.old.accepted + counts.old.refused + entries.old.stream.most < 2 ^ 64 }
    ensures same { IsSameFile entries.old entries.new }
    ensures faults { entries.old.stream.faults ≤ entries.new.stream.faults }
    ensures takes { TakesNext file.now entries.old entries.new survey.old survey.new counts.old counts.new result }
{
    match entries.next(alloc) {
        NextEntry::Entry(prepared) => {
            survey.accept(alloc, &prepared)?;
            counts.accepted += 1;
            Ok(true)
        }
        NextEntry::Refused(item) => {
            survey.refuse(alloc, file, &item)?;
            counts.refused += 1;
            Ok(true)
        }
        NextEntry::End => Ok(false),
        NextEntry::ReadFault => Err(SplitFault::Input),
        NextEntry::NoMemory => Err(SplitFault::Memory),
    }
}

/// Takes all items of a file up, of which no more than so many bytes will come.
#[tactic(auto, using(crate::proofs::Told::read_none, crate::proofs::Told::read_more, crate::proofs::Told::taken_falls, crate::proofs::Told::read_ended, crate::proofs::Told::read_in_part, crate::proofs::Told::read_untold))]
fn survey_entries<S: Source>(
    alloc: Global,
    entries: &mut FileEntries<S>,
    file: &str,
    survey: &mut Survey,
    most: u64,
) -> Result<(), SplitFault>
    requires going { entries.old.over ≡ false }
    requires loader { entries.old.loader ≡ 0 }
    requires most { entries.old.stream.most ≤ most }
    ensures { SurveysEntries file.now entries.old entries.new survey.old survey.new result }
{
    let _most = most;
    let mut counts = Counts {
        accepted: 0,
        refused: 0,
    };
    'items: while take_next(alloc, entries, file, survey, &mut counts)? {}
    survey.count(alloc, file, counts)?;
    Ok(())
}

/// Reads a source, which is a library's file, to its end, and gives it back.
#[tactic(auto, using(crate::proofs::Read::surveyed_source, crate::proofs::Read::surveyed_not))]
fn survey_source<S: Source>(
    alloc: Global,
    source: S,
    library: &Library,
    survey: &mut Survey,
) -> (Result<(), SplitFault>, S)
    requires { IsTrue (is_code library.now.code) }
    ensures { SurveysSource library.now.file library.now.code (S.left source) (S.faults source) (S.faults result.1) survey.old survey.new result.0 }
{
    let most = source.remaining();
    let code = match library.code.copy(alloc) {
        Ok(code) => code,
        Err(NoMemory) => return (Err(SplitFault::Memory), source),
    };
    match FileEntries::new(alloc, source, code, LOADER) {
        Ok(mut entries) => {
            let file = library.file.as_str();
            let read = survey_entries(alloc, &mut entries, file, survey, most);
            (read, entries.finish())
        }
        Err((source, NoMemory)) => (Err(SplitFault::Memory), source),
    }
}

/// Reads a library's file to its end. It is closed again on every path.
#[tactic(auto, using(crate::proofs::Read::surveyed_file, crate::proofs::Read::unopened))]
fn survey_file<R: Room>(
    alloc: Global,
    room: &mut R,
    library: &Library,
    survey: &mut Survey,
) -> Result<(), SplitFault>
    requires proper { IsTrue (is_code library.now.code) }
    requires free { (R.seen room.old).open_as library.now.file ≡ None }
    ensures stays { SameBut (R.seen room.old) (R.seen room.new) [] }
    ensures reads { SurveysFile (R.seen room.old) (R.seen room.new) library.now survey.old survey.new result }
{
    match room.open_in(library.file.as_str()) {
        Ok(source) => {
            let (read, source) = survey_source(alloc, source, library, survey);
            room.close_in(library.file.as_str(), source);
            read
        }
        Err(_) => Err(SplitFault::Input),
    }
}

/// Reads all files to their ends, one after the other.
#[tactic(auto, using(crate::proofs::Read::surveyed_none, crate::proofs::Read::surveyed_more, crate::proofs::Read::reading_cause))]
pub fn survey_files<R: Room>(
    alloc: Global,
    room: &mut R,
    libraries: &[Library],
) -> Result<Survey, SplitFault>
    requires proper { AreProper libraries.now }
    requires closed { (name : List ℕ) → (R.seen room.old).open_as name ≡ None }
    ensures stays { SameBut (R.seen room.old) (R.seen room.new) [] }
    ensures read { IfOk result (λ survey. (R.seen room.old).tells ≡ true → AreSurveyed (R.seen room.old) libraries.now survey) }
    ensures cause { IfErr result (IsFilesCause libraries.now [] (R.seen room.old) (R.seen room.new)) }
{
    let mut survey = Survey::new(alloc);
    for index in 0..libraries.len() {
        survey_file(alloc, room, &libraries[index], &mut survey)?;
    }
    Ok(survey)
}
