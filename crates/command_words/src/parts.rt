//! The words of commands over the parts of a catalogue.
ghost use Rattle.std.specs.Prelude.{◌≡◌};
ghost use Rattle.std.specs.List.{list_all};
ghost use Rattle.command_words.specs.Command.{as_totals, as_join, as_split, is_export, is_name};
ghost use Rattle.command_words.specs.Asked.{AsksAlone, IsAskedBy};

use crate::asked::{AloneRequest, PartsRequest, Request, Unasked};
use crate::names::{are_libraries, libraries_in, number_upto};
use marc_types::Text;
use std::alloc::Global;

/// The most parts of a catalogue.
const MOST_PARTS: u64 = 1_024;

fn is_name(name: &Text) -> bool
    ensures { result ≡ is_name name.now }
{
    !name.as_str().is_empty()
}

fn are_names(names: &[Text]) -> bool
    ensures { result ≡ list_all is_name names.now }
{
    names.iter().all(is_name)
}

fn is_export(out: &str, export: &Text) -> bool
    ensures { result ≡ is_export out.now export.now }
{
    !export.as_str().is_empty() && export.as_str() != out
}

fn are_exports(out: &str, exports: &[Text]) -> bool
    ensures { result ≡ list_all (is_export out.now) exports.now }
{
    exports.iter().all(|export| is_export(out, export))
}

pub(crate) fn totals(words: &[Text]) -> Option<AloneRequest<'_>>
    ensures { AsksAlone result (as_totals words.now) }
{
    let [first, reports @ ..] = words else {
        return None;
    };
    let first = first.as_str();
    if first.is_empty() || reports.is_empty() || !are_names(reports) {
        return None;
    }
    Some(AloneRequest::Parts(PartsRequest::Totals { first, reports }))
}

pub(crate) fn join(words: &[Text]) -> Option<AloneRequest<'_>>
    ensures { AsksAlone result (as_join words.now) }
{
    let [out, exports @ ..] = words else {
        return None;
    };
    let out = out.as_str();
    if out.is_empty() || exports.is_empty() || !are_exports(out, exports) {
        return None;
    }
    Some(AloneRequest::Parts(PartsRequest::Join { out, exports }))
}

pub(crate) fn split<'a>(alloc: Global, words: &'a [Text]) -> Result<Request<'a>, Unasked>
    ensures { IsAskedBy result words.now (as_split words.now) }
{
    let [count, prefix, files @ ..] = words else {
        return Err(Unasked::Usage);
    };
    let Some(count) = number_upto(MOST_PARTS, count.as_str()) else {
        return Err(Unasked::Usage);
    };
    let prefix = prefix.as_str();
    if count < 2 || prefix.is_empty() || !are_libraries(files) {
        return Err(Unasked::Usage);
    }
    let libraries = libraries_in(alloc, files)?;
    Ok(Request::Alone(AloneRequest::Parts(PartsRequest::Split {
        count,
        prefix,
        libraries,
    })))
}
