//! Why open headings aren't linked.
ghost use Rattle.std.specs.Prelude.{◌≡◌, ◌++◌, IfOk, OnOk};
ghost use Rattle.catalogue_rules.specs.State.{linkable_authorities};
ghost use Rattle.heading_worklist.specs.Reasons.{all_kinds, awaits_absent, has_as, has_unfit, is_headed_so, is_headed_under, other_kind, other_kind_of, reason_by_form, reason_of, reason_stem, reason_words, shares_heading};

use crate::authorities::{AuthorityHeading, heading_under};
use crate::fields::OpenField;
use crate::identifying::{Naming, has_naming, is_absent};
use crate::texts::kind_word;
use catalogue_core::Engine;
use marc_types::{Form, Key, Kind, NoMemory, TryCopy};
use std::alloc::{AllocError, Global};

/// Why an open heading isn't linked, in the order in which it is asked. An authority of another kind has its kind.
#[derive(Clone, Copy, Debug, PartialEq, Eq)]
pub enum Reason {
    AwaitsAbsent,
    OtherIdentifier,
    NamesNobody,
    NamesUnfit,
    SharedHeading,
    SharedSeeFrom,
    OtherKind(Kind),
    NoAuthority,
}

fn awaits_absent(engine: &Engine, heading: &OpenField<'_>) -> bool
    ensures { result ≡ awaits_absent engine.now.state heading.now }
{
    match heading.awaits() {
        Some(key) => is_absent(engine, key),
        None => false,
    }
}

fn has_unfit(alloc: Global, engine: &Engine, heading: &OpenField<'_>) -> Result<bool, NoMemory>
    ensures { IfOk result (λ unfit. unfit ≡ has_unfit engine.now.state heading.now) }
{
    if has_naming(alloc, engine, Naming::Somebody, heading.field())? {
        return Ok(true);
    }
    match heading.awaits() {
        Some(key) => Ok(!is_absent(engine, key)),
        None => Ok(false),
    }
}

fn is_headed_so(
    alloc: Global,
    heading: &OpenField<'_>,
    authority: &AuthorityHeading,
) -> Result<bool, NoMemory>
    ensures { IfOk result (λ so. so ≡ is_headed_so heading.now authority.now) }
{
    let form = authority.form(alloc)?;
    Ok(heading.forms.full == form || heading.forms.base == form)
}

/// Whether the authority record under a key has such a heading.
fn is_headed_under(
    alloc: Global,
    engine: &Engine,
    heading: &OpenField<'_>,
    key: &Key,
) -> Result<bool, NoMemory>
    ensures { IfOk result (λ so. so ≡ is_headed_under engine.now.state heading.now key.now) }
{
    match heading_under(alloc, engine, key)? {
        Some(authority) => is_headed_so(alloc, heading, &authority),
        None => Ok(false),
    }
}

/// Whether its first two candidates have its heading.
fn shares_heading(alloc: Global, engine: &Engine, heading: &OpenField<'_>) -> Result<bool, NoMemory>
    ensures { IfOk result (λ shares. shares ≡ shares_heading engine.now.state heading.now.candidates heading.now) }
{
    let [key, other, ..] = heading.candidates.as_slice() else {
        return Ok(false);
    };
    if !is_headed_under(alloc, engine, heading, key)? {
        return Ok(false);
    }
    is_headed_under(alloc, engine, heading, other)
}

const ALL_KINDS: [Kind; 8] = [
    Kind::Personal,
    Kind::Corporate,
    Kind::Meeting,
    Kind::Title,
    Kind::Chronological,
    Kind::Topical,
    Kind::Geographic,
    Kind::Genre,
];

fn all_kinds() -> &'static [Kind]
    ensures { result.now ≡ all_kinds }
{
    &ALL_KINDS
}

/// Whether an authority of another kind has the form; `other` is a copy of the form, and gets that kind.
fn has_as(engine: &Engine, form: &Form, other: &mut Form, kind: Kind) -> bool
    requires { other.old.items ≡ form.now.items }
    ensures same { other.new.items ≡ form.now.items }
    ensures has { result ≡ has_as (linkable_authorities engine.now.state) form.now kind }
{
    other.kind = kind;
    kind != form.kind && engine.is_established(other)
}

/// The first kind of which an authority with the form as its heading is, beside the form's own.
fn other_kind(alloc: Global, engine: &Engine, form: &Form) -> Result<Option<Kind>, NoMemory>
    ensures { IfOk result (λ kind. kind ≡ other_kind (linkable_authorities engine.now.state) form.now) }
{
    let mut other = form.copy(alloc)?;
    for kind in all_kinds() {
        if has_as(engine, form, &mut other, *kind) {
            return Ok(Some(*kind));
        }
    }
    Ok(None)
}

fn other_kind_of(
    alloc: Global,
    engine: &Engine,
    heading: &OpenField<'_>,
) -> Result<Option<Kind>, NoMemory>
    ensures { IfOk result (λ kind. kind ≡ other_kind_of (linkable_authorities engine.now.state) heading.now) }
{
    if let Some(kind) = other_kind(alloc, engine, &heading.forms.full)? {
        return Ok(Some(kind));
    }
    if heading.asks_base() {
        other_kind(alloc, engine, &heading.forms.base)
    } else {
        Ok(None)
    }
}

/// Why it isn't linked, where no key tells it.
fn reason_by_form(
    alloc: Global,
    engine: &Engine,
    heading: &OpenField<'_>,
) -> Result<Reason, NoMemory>
    ensures { IfOk result (λ why. why ≡ reason_by_form engine.now.state heading.now) }
{
    if shares_heading(alloc, engine, heading)? {
        return Ok(Reason::SharedHeading);
    }
    if heading.is_ambiguous() {
        return Ok(Reason::SharedSeeFrom);
    }
    match other_kind_of(alloc, engine, heading)? {
        Some(kind) => Ok(Reason::OtherKind(kind)),
        None => Ok(Reason::NoAuthority),
    }
}

/// Why an open heading isn't linked.
pub(crate) fn reason_of(
    alloc: Global,
    engine: &Engine,
    heading: &OpenField<'_>,
) -> Result<Reason, NoMemory>
    ensures { IfOk result (λ why. why ≡ reason_of engine.now.state heading.now) }
{
    let field = heading.field();
    if awaits_absent(engine, heading) {
        return Ok(Reason::AwaitsAbsent);
    }
    if has_naming(alloc, engine, Naming::Otherwise, field)? {
        return Ok(Reason::OtherIdentifier);
    }
    if has_naming(alloc, engine, Naming::Nobody, field)? {
        return Ok(Reason::NamesNobody);
    }
    if has_unfit(alloc, engine, heading)? {
        return Ok(Reason::NamesUnfit);
    }
    reason_by_form(alloc, engine, heading)
}

fn reason_stem(reason: Reason) -> &'static [u8]
    ensures { result.now ≡ reason_stem reason }
{
    match reason {
        Reason::AwaitsAbsent => b"awaits an authority that isn't there",
        Reason::OtherIdentifier => b"an identifier is no authority's key",
        Reason::NamesNobody => b"an identifier names no authority",
        Reason::NamesUnfit => b"it names or awaits an authority that doesn't fit",
        Reason::SharedHeading => b"several authorities have this heading",
        Reason::SharedSeeFrom => b"several authorities are found under this heading",
        Reason::OtherKind(_) => b"only an authority of another kind has this heading: ",
        Reason::NoAuthority => b"no authority has this heading",
    }
}

/// A reason in words.
pub(crate) fn add_reason(cell: &mut Vec<u8>, reason: Reason) -> Result<(), AllocError>
    ensures { OnOk result (cell.new.items ≡ cell.old.items ++ reason_words reason) }
{
    cell.extend_from_slice(reason_stem(reason))?;
    match reason {
        Reason::OtherKind(kind) => cell.extend_from_slice(kind_word(kind).as_bytes()),
        _ => Ok(()),
    }
}
