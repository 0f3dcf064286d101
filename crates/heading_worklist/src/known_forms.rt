//! Forms of headings, each once.
ghost use Rattle.std.specs.Prelude.{◌≡◌, IfOk};

use crate::forms::HeadingForms;
use marc_types::{Form, NoMemory};
use std::alloc::Global;
use std::collections::HashSet;
use std::rc::Rc;

/// The forms of the headings that were found, so that headings of one form share it.
pub(crate) type KnownForms = HashSet<Rc<Form>>;

/// A form as it is known, or becomes so.
#[tactic(auto, using(crate::proofs::Sharing::same_form_value))]
fn shared(known: &mut KnownForms, alloc: Global, form: Form) -> Result<Rc<Form>, NoMemory>
    ensures { IfOk result (λ shared. shared.value ≡ form) }
{
    let form = Rc::new(alloc, form)?;
    if let Some(same) = known.get(&form) {
        return Ok(same.clone()?);
    }
    known.insert(form.clone()?)?;
    Ok(form)
}

/// A base form: the full form itself, where they are the same.
#[tactic(auto, using(crate::proofs::Sharing::same_form_value))]
fn shared_base(
    known: &mut KnownForms,
    alloc: Global,
    base: Form,
    full: &Rc<Form>,
) -> Result<Rc<Form>, NoMemory>
    ensures { IfOk result (λ shared. shared.value ≡ base) }
{
    if base == *full.as_ref() {
        return Ok(full.clone()?);
    }
    shared(known, alloc, base)
}

/// The full form and the base form of a heading.
pub(crate) fn shared_forms(
    known: &mut KnownForms,
    alloc: Global,
    forms: HeadingForms,
) -> Result<(Rc<Form>, Rc<Form>), NoMemory>
    ensures full { IfOk result (λ shared. shared.0.value ≡ forms.full) }
    ensures base { IfOk result (λ shared. shared.1.value ≡ forms.base) }
{
    let HeadingForms { full, base, .. } = forms;
    let full = shared(known, alloc, full)?;
    let base = shared_base(known, alloc, base, &full)?;
    Ok((full, base))
}
