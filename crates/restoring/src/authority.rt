//! The authority to which a field is linked, with its heading.
ghost use Rattle.std.specs.Prelude.{◌≡◌, find, is_some, IfOk};
ghost use Rattle.std.specs.Option.{option_map};
ghost use Rattle.marc_types.specs.declared.key.Class.TheVariants.{Authority as AnAuthority};
ghost use Rattle.catalogue_rules.specs.Choice.{has_key};
ghost use Rattle.catalogue_rules.specs.State.{linkable_authorities};
ghost use Rattle.commit_stages.specs.Choosing.{heading_under};
ghost use Rattle.commit_stages.specs.Headings.{own_heading};
ghost use Rattle.linking_laws.specs.Middle.{AreAuthoritiesInOrder};
ghost use Rattle.linked_store.specs.Linked.{IsNumber, key_of};
ghost use Rattle.restoring.specs.Resting.{heading_given};

use commit_stages::{OwnHeading, decoded_heading};
use linked_store::ReadableStore;
use marc_types::{Class, Key, NoMemory};
use std::alloc::Global;

/// The heading of the authority under a key, if fields can be linked to it.
pub(crate) fn linked_heading(
    store: &ReadableStore,
    alloc: Global,
    key: &Key,
) -> Result<Option<OwnHeading>, NoMemory>
    requires { AreAuthoritiesInOrder store.now.state }
    ensures { IfOk result (λ heading. option_map own_heading heading
        ≡ option_map heading_given (find (has_key key.now) (linkable_authorities store.now.state))) }
{
    let linked = store.as_linked();
    linked.each_authority_has_a_number();
    let Some(number) = linked.number_of(Class::Authority, key) else {
        return Ok(None);
    };
    if !is_linkable(store, alloc, number)? {
        return Ok(None);
    }
    own_heading_under(store, alloc, number)
}

// Whether fields can be linked to the authority under the key that has the number.
fn is_linkable(store: &ReadableStore, alloc: Global, number: u32) -> Result<bool, NoMemory>
    requires { IsNumber AnAuthority number store.now.keys }
    ensures { IfOk result (λ told. told
        ≡ is_some (find (has_key (key_of AnAuthority number store.now.keys)) (linkable_authorities store.now.state))) }
{
    let known = store.as_linked().known_authority(alloc, number)?;
    Ok(known.is_some())
}

// The heading of the record under the key that has the number.
fn own_heading_under(
    store: &ReadableStore,
    alloc: Global,
    number: u32,
) -> Result<Option<OwnHeading>, NoMemory>
    requires { IsNumber AnAuthority number store.now.keys }
    ensures { IfOk result (λ heading. option_map own_heading heading ≡ heading_under number store.now) }
{
    match store.look(Class::Authority, number) {
        Some(kept) => decoded_heading(alloc, kept),
        None => Ok(None),
    }
}
