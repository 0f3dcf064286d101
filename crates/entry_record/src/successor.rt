//! The key that a replaced authority hands its links on to.
ghost use Rattle.std.specs.Prelude.{◌≡◌, ◌==◌, ◌&&◌, not, [], ◌∷◌, ◌++◌, IfOk, OnOk, filter};
ghost use Rattle.entry_record.specs.Authority.{is_replacement, option_filter, replacement_numbers, replacement_key, successor_of};
ghost use Rattle.marc_types.specs.Order.{same_key};

use crate::key_text::key_of_text;
use marc_types::{Field, Key, Leader, NoMemory, Subfield, TryCopy};
use std::alloc::Global;

/// The code of the subfield that holds a record control number, `$0`.
const NUMBER: u8 = b'0';

/// A field on the deletion of an authority's heading.
fn is_replacement(field: &Field) -> bool
    ensures { result ≡ is_replacement field.now }
{
    let tag = field.tag();
    tag.a == b'6' && tag.b == b'8' && tag.c == b'2'
}

fn append_numbers(
    alloc: Global,
    out: &mut Vec<Subfield>,
    subfields: &[Subfield],
) -> Result<(), NoMemory>
    ensures { OnOk result (out.new.items ≡ out.old.items ++ filter (λ s. s.code == 48) subfields.now) }
{
    for subfield in subfields {
        if subfield.code == NUMBER {
            out.push(subfield.copy(alloc)?)?;
        }
    }
    Ok(())
}

#[tactic(auto, using(crate::proofs::Numbered::numbers_of_one, crate::proofs::Numbered::numbers_of_other))]
fn append_field_numbers(
    alloc: Global,
    out: &mut Vec<Subfield>,
    field: &Field,
) -> Result<(), NoMemory>
    ensures { OnOk result (out.new.items ≡ out.old.items ++ replacement_numbers (field.now ∷ [])) }
{
    if is_replacement(field) {
        append_numbers(alloc, out, field.subfields())?;
    }
    Ok(())
}

/// The record control numbers in the fields on the heading's deletion.
#[tactic(auto, using(crate::proofs::Numbered::numbers_more))]
fn replacement_numbers(alloc: Global, fields: &[Field]) -> Result<Vec<Subfield>, NoMemory>
    ensures { IfOk result (λ numbers. numbers.items ≡ replacement_numbers fields.now) }
{
    let mut numbers = Vec::new(alloc);
    for field in fields {
        append_field_numbers(alloc, &mut numbers, field)?;
    }
    Ok(numbers)
}

fn replacement_key(alloc: Global, fields: &[Field]) -> Result<Option<Key>, NoMemory>
    ensures { IfOk result (λ key. key ≡ replacement_key fields.now) }
{
    let numbers = replacement_numbers(alloc, fields)?;
    match numbers.as_slice() {
        [only] => key_of_text(alloc, &only.text),
        _ => Ok(None),
    }
}

/// Leader 06 `z` and 05 `x`: an authority that is replaced.
fn is_replaced(leader: &Leader) -> bool
    ensures { result ≡ ((leader.now.rtype == 122) && (leader.now.status == 120)) }
{
    leader.rtype == b'z' && leader.status == b'x'
}

fn other_key(key: Option<Key>, own: &Key) -> Option<Key>
    ensures { result ≡ option_filter (λ other. not (same_key own.now other)) key }
{
    match key {
        Some(key) if *own != key => Some(key),
        _ => None,
    }
}

/// The successor of an authority record with leader 05 `x`: the key that the only `$0` of its 682 fields names, unless
/// that is its own.
#[tactic(auto, unfolding(crate::specs::Authority::successor_of))]
pub(crate) fn successor(
    alloc: Global,
    leader: &Leader,
    own: &Key,
    fields: &[Field],
) -> Result<Option<Key>, NoMemory>
    ensures { IfOk result (λ key. key ≡ successor_of leader.now own.now fields.now) }
{
    if !is_replaced(leader) {
        return Ok(None);
    }
    let replacement = replacement_key(alloc, fields)?;
    Ok(other_key(replacement, own))
}
