//! The words of commands that read the files of libraries.
ghost use Rattle.command_words.specs.Command.{as_pass, as_run, as_load, as_browse, as_refused};
ghost use Rattle.command_words.specs.Asked.{IsAskedBy};

use crate::asked::{AloneRequest, BrowseRequest, LoadRequest, Outputs, Request, Unasked};
use crate::names::{
    are_four_names, are_libraries, are_three_names, is_free, libraries_in, library_in,
};
use marc_types::Text;
use std::alloc::Global;

pub(crate) fn pass<'a>(alloc: Global, words: &'a [Text]) -> Result<Request<'a>, Unasked>
    ensures { IsAskedBy result words.now (as_pass words.now) }
{
    let [out, files @ ..] = words else {
        return Err(Unasked::Usage);
    };
    let [file] = files else {
        return Err(Unasked::Usage);
    };
    let out = out.as_str();
    if !are_libraries(files) || !is_free(out, files) {
        return Err(Unasked::Usage);
    }
    let library = library_in(alloc, file)?;
    Ok(Request::Alone(AloneRequest::Pass { library, out }))
}

pub(crate) fn run<'a>(alloc: Global, words: &'a [Text]) -> Result<Request<'a>, Unasked>
    ensures { IsAskedBy result words.now (as_run words.now) }
{
    let [journal, out, report, files @ ..] = words else {
        return Err(Unasked::Usage);
    };
    let (journal, out, report) = (journal.as_str(), out.as_str(), report.as_str());
    if !are_three_names(files, journal, out, report) {
        return Err(Unasked::Usage);
    }
    let libraries = libraries_in(alloc, files)?;
    Ok(Request::Load(LoadRequest {
        journal,
        libraries,
        outputs: Some(Outputs { out, report }),
    }))
}

pub(crate) fn load<'a>(alloc: Global, words: &'a [Text]) -> Result<Request<'a>, Unasked>
    ensures { IsAskedBy result words.now (as_load words.now) }
{
    let [journal, files @ ..] = words else {
        return Err(Unasked::Usage);
    };
    let journal = journal.as_str();
    if !are_libraries(files) || !is_free(journal, files) {
        return Err(Unasked::Usage);
    }
    let libraries = libraries_in(alloc, files)?;
    Ok(Request::Load(LoadRequest {
        journal,
        libraries,
        outputs: None,
    }))
}

pub(crate) fn browse<'a>(alloc: Global, words: &'a [Text]) -> Result<Request<'a>, Unasked>
    ensures { IsAskedBy result words.now (as_browse words.now) }
{
    let [journal, out, report, pages, files @ ..] = words else {
        return Err(Unasked::Usage);
    };
    let (journal, out, report) = (journal.as_str(), out.as_str(), report.as_str());
    let pages = pages.as_str();
    if !are_four_names(files, journal, out, report, pages) {
        return Err(Unasked::Usage);
    }
    let libraries = libraries_in(alloc, files)?;
    Ok(Request::Browse(BrowseRequest {
        journal,
        libraries,
        outputs: Outputs { out, report },
        pages,
    }))
}

pub(crate) fn refused<'a>(alloc: Global, words: &'a [Text]) -> Result<Request<'a>, Unasked>
    ensures { IsAskedBy result words.now (as_refused words.now) }
{
    let [out, files @ ..] = words else {
        return Err(Unasked::Usage);
    };
    let [file] = files else {
        return Err(Unasked::Usage);
    };
    let out = out.as_str();
    if !are_libraries(files) || !is_free(out, files) {
        return Err(Unasked::Usage);
    }
    let library = library_in(alloc, file)?;
    Ok(Request::Alone(AloneRequest::Refused { library, out }))
}
