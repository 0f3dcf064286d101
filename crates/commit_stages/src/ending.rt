//! What dropping makes of one field: its link ends, or what it awaits is handed on, and then it is given its choice.
ghost use Rattle.std.specs.Prelude.{◌≡◌, ◌+◌, ◌≤◌, ◌&&◌, IfOk, true, false};
ghost use Rattle.std.specs.Option.{option_map_or};
ghost use Rattle.marc_types.specs.Order.{same_key};
ghost use Rattle.catalogue_rules.specs.Settle.{is_linked_to};
ghost use Rattle.catalogue_rules.specs.State.{linkable_authorities};
ghost use Rattle.linking_laws.specs.Middle.{AreAuthoritiesInOrder};
ghost use Rattle.linking_laws.specs.Tables.{dropped_at};
ghost use Rattle.linking_laws.specs.Visits.{link_visit};
ghost use Rattle.commit_stages.specs.Settled.{IsChoiceSettled};
ghost use Rattle.field_settling.specs.Held.{held_as};
ghost use Rattle.commit_stages.specs.Fields.{field_as};
ghost use Rattle.commit_stages.specs.Dropping.{IsChangedTo, drop_ending, ending_visits, successor_to};

use crate::settling::settle_made;
use crate::visiting::FieldAt;
use catalogue_rules::Steps;
use field_settling::{Held, await_key, end_link};
use linked_store::LinkedStore;
use marc_types::{Class, Key, NoMemory, Tie, TiedKey};
use std::alloc::Global;
use std::sync::ledger::Ledger;

/// The links to an authority that its commit ends, and the key that what is linked to it or awaits it is handed on to.
#[derive(Clone, Copy, Debug)]
pub struct EndingLinks<'a> {
    pub key: &'a Key,
    /// Only the links by the base end.
    pub only_base: bool,
    pub successor: Option<&'a Key>,
}

fn is_key(key: &Key, other: &Option<TiedKey>) -> bool
    ensures { result ≡ option_map_or (same_key key.now) other.now false }
{
    match other {
        Some(other) => *key == *other.key(),
        None => false,
    }
}

// Whether a link to the key stays: only the links by the base end, and it is a whole one.
fn is_spared(links: EndingLinks<'_>, tie: &Tie) -> bool
    ensures { result ≡ (links.entry.only_base && tie.now.whole) }
{
    links.only_base && tie.whole
}

/// What dropping makes of a field that it looks at; none where that is the same. The field itself has been visited.
pub(crate) fn dropped_from<L: Ledger>(
    store: &LinkedStore,
    alloc: Global,
    class: Class,
    at: FieldAt<'_>,
    links: EndingLinks<'_>,
    steps: &mut Steps<L>,
) -> Result<Option<Held>, NoMemory>
    requires order { AreAuthoritiesInOrder store.now.state }
    requires to_do { dropped_at links.key.now (successor_to links) class (field_as at) ≡ true }
    ensures made { IfOk result (IsChangedTo (drop_ending links.entry (linkable_authorities store.now.state)) class (field_as at.entry)) }
    ensures visits { steps.new + 1 ≤ steps.old + ending_visits links.entry (linkable_authorities store.now.state) class (field_as at.entry) }
{
    if is_key(links.key, &at.tie.key) {
        return without_link(store, alloc, class, at, links, steps);
    }
    handed_on(store, alloc, class, at, links, steps)
}

// A field that is linked to the key, without its link.
fn without_link<L: Ledger>(
    store: &LinkedStore,
    alloc: Global,
    class: Class,
    at: FieldAt<'_>,
    links: EndingLinks<'_>,
    steps: &mut Steps<L>,
) -> Result<Option<Held>, NoMemory>
    requires order { AreAuthoritiesInOrder store.now.state }
    requires linked { is_linked_to links.key.now (field_as at) ≡ true }
    ensures made { IfOk result (IsChangedTo (drop_ending links.entry (linkable_authorities store.now.state)) class (field_as at.entry)) }
    ensures visits { steps.new + 1 ≤ steps.old + ending_visits links.entry (linkable_authorities store.now.state) class (field_as at.entry) }
{
    if is_spared(links, at.tie) {
        return Ok(None);
    }
    let ended = end_link(alloc, at.field, at.tie, links.key, links.successor)?;
    let chosen = with_choice(store, alloc, class, ended, steps)?;
    Ok(Some(chosen))
}

// A field that isn't linked to the key: where it awaits the key, it awaits the successor.
fn handed_on<L: Ledger>(
    store: &LinkedStore,
    alloc: Global,
    class: Class,
    at: FieldAt<'_>,
    links: EndingLinks<'_>,
    steps: &mut Steps<L>,
) -> Result<Option<Held>, NoMemory>
    requires order { AreAuthoritiesInOrder store.now.state }
    requires to_do { dropped_at links.key.now (successor_to links) class (field_as at) ≡ true }
    requires unlinked { is_linked_to links.key.now (field_as at) ≡ false }
    ensures made { IfOk result (IsChangedTo (drop_ending links.entry (linkable_authorities store.now.state)) class (field_as at.entry)) }
    ensures visits { steps.new + 1 ≤ steps.old + ending_visits links.entry (linkable_authorities store.now.state) class (field_as at.entry) }
{
    if !is_key(links.key, &at.tie.awaits) {
        return Ok(None);
    }
    match links.successor {
        Some(successor) => {
            let handed = await_key(alloc, at.field, at.tie, successor)?;
            let chosen = with_choice(store, alloc, class, handed, steps)?;
            Ok(Some(chosen))
        }
        None => Ok(None),
    }
}

// An unlinked field, which stands nowhere yet, with its choice.
fn with_choice<L: Ledger>(
    store: &LinkedStore,
    alloc: Global,
    class: Class,
    held: Held,
    steps: &mut Steps<L>,
) -> Result<Held, NoMemory>
    requires { AreAuthoritiesInOrder store.now.state }
    ensures settled { IfOk result (λ made. IsChoiceSettled (linkable_authorities store.now.state) class (held_as held) (held_as made)) }
    ensures visits { steps.new ≤ steps.old + link_visit (linkable_authorities store.now.state) class (held_as held) }
{
    let at = FieldAt {
        field: &held.field,
        tie: &held.tie,
    };
    match settle_made(store, alloc, class, at, steps)? {
        Some(chosen) => Ok(chosen),
        None => Ok(held),
    }
}
