//! The form of a part of a heading.
ghost use Rattle.std.specs.Prelude.{◌≡◌, [], ◌∷◌, ◌++◌, IfOk, OnOk};
ghost use Rattle.naco_form.specs.Form.{form_of, items_of};

use crate::text::comparison;
use marc_types::{Form, Item, Items, Kind, NoMemory, Subfield, Subfields};
use std::alloc::Global;

#[tactic(auto, unfolding(crate::specs::Form::form_of))]
/// The form of a heading's part: its kind, and the code and comparison text of each subfield whose comparison text isn't empty.
pub fn form(alloc: Global, kind: Kind, subs: &Subfields) -> Result<Form, NoMemory>
    ensures { IfOk result (λ made. made ≡ form_of kind subs.now) }
{
    Ok(Form {
        kind,
        items: items(alloc, subs)?,
    })
}

#[tactic(auto, unfolding(crate::specs::Form::items_of), using(crate::proofs::FormLemmas::items_more))]
fn items(alloc: Global, subs: &Subfields) -> Result<Items, NoMemory>
    ensures { IfOk result (λ made. made ≡ items_of subs.now) }
{
    let mut items = Vec::with_capacity(alloc, subs.len())?;
    for sub in subs.as_slice() {
        append_item(alloc, &mut items, sub)?;
    }
    Ok(Items::from_vec(items))
}

/// Appends the item of a subfield, unless its comparison text is empty.
#[tactic(auto, unfolding(crate::specs::Form::items_of))]
pub fn append_item(alloc: Global, items: &mut Vec<Item>, sub: &Subfield) -> Result<(), NoMemory>
    ensures { OnOk result (items.new.items ≡ items.old.items ++ items_of (sub.now ∷ [])) }
{
    let text = comparison(alloc, sub.code, &sub.text)?;
    if text.is_empty() {
        return Ok(());
    }
    items.push(Item {
        code: sub.code,
        text,
    })?;
    Ok(())
}
