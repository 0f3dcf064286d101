//! How a field stands, by the tables alone: no record is visited, and no list of authorities is scanned.
ghost use Rattle.std.specs.Prelude.{◌≡◌, ◌++◌, Bool, IfOk, OnOk, slice_get};
ghost use Rattle.std.specs.Option.{option_copied, option_to_list};
ghost use Rattle.entry_record.specs.Authority.{base_form};
ghost use Rattle.catalogue_rules.specs.State.{kept_field};
ghost use Rattle.catalogue_tables.specs.Choosing.{AnswersAs};
ghost use Rattle.catalogue_tables.specs.Lent.{AreGiven, keys_at, keys_of};
ghost use Rattle.catalogue_tables.specs.Meant.{numbers_in, standing_among};
ghost use Rattle.catalogue_tables.specs.Stands.{field_standing, stands_as};
ghost use Rattle.catalogue_tables.specs.Answers.{AreMeantByBase, AreMeantByForm, AreMeantByForms, AreMeantInFull, HoldsUnderAny, forms_standing, kind_standing};

use crate::choosing::{asks_base, divided_form, full_or_base, heading_form};
use crate::tables::CatalogueTables;
use form_index::{Among, Candidates};
use heading_fields::takes_subdivisions;
use marc_types::{Class, Field, Form, Key, Keys, NoMemory, Tie, TryCopy};
use numbering::Numbering;
use std::alloc::Global;

/// How a field stands: it is linked, it is ambiguous between the authorities with these keys (in key order), it is a heading
/// field that is neither, or it is no heading field.
#[derive(Debug, Drop)]
pub enum Standing {
    Linked,
    Ambiguous(Keys),
    Unlinked,
    NoHeading,
}

fn numbers_in(candidates: Candidates<'_>) -> &[u32]
    ensures { result.now ≡ numbers_in candidates.entry }
{
    match candidates {
        Candidates::Established(numbers) | Candidates::SeeFrom(numbers) => numbers,
        Candidates::Nobody => &[],
    }
}

fn copy_at(
    found: &mut Vec<Key>,
    alloc: Global,
    keys: &Numbering<Key>,
    number: u32,
) -> Result<(), NoMemory>
    ensures { OnOk result (found.new.items ≡ found.old.items ++ option_to_list (slice_get keys.now number)) }
{
    let Some(key) = keys.at(number) else {
        return Ok(());
    };
    found.push(key.copy(alloc)?)?;
    Ok(())
}

fn copied_keys(alloc: Global, keys: &Numbering<Key>, numbers: &[u32]) -> Result<Keys, NoMemory>
    ensures { IfOk result (λ found. found ≡ keys_at keys.now numbers.now) }
{
    let mut found = Vec::with_capacity(alloc, numbers.len())?;
    for number in numbers {
        copy_at(&mut found, alloc, keys, *number)?;
    }
    Ok(Keys::from_vec(found))
}

/// How a heading without a link stands that may mean these authorities: one alone would be its link.
#[tactic(auto, using(crate::proofs::Standings::few_among, crate::proofs::Standings::several_among))]
fn standing_among(
    alloc: Global,
    keys: &Numbering<Key>,
    numbers: &[u32],
) -> Result<Standing, NoMemory>
    ensures { IfOk result (λ standing. AreGiven keys.now numbers.now → standing ≡ stands_as (standing_among (keys_of keys.now numbers.now))) }
{
    if numbers.len() < 2 {
        return Ok(Standing::Unlinked);
    }
    let found = copied_keys(alloc, keys, numbers)?;
    Ok(Standing::Ambiguous(found))
}

impl CatalogueTables {
    /// How a field with its tie stands. It takes memory for keys and forms alone.
    pub fn standing(
        &self,
        alloc: Global,
        keys: &Numbering<Key>,
        class: Class,
        field: &Field,
        tie: &Tie,
    ) -> Result<Standing, NoMemory>
        ensures { IfOk result (AnswersAs self.now.forms keys.now self.now.index
            (λ all. field_standing all class (kept_field field.now tie.now))) }
    {
        if let Some(_key) = &tie.key {
            return Ok(Standing::Linked);
        }
        let Some(base) = heading_form(alloc, class, field)? else {
            return Ok(Standing::NoHeading);
        };
        self.unlinked_standing(alloc, keys, class, field, tie, &base)
    }

    /// How a heading without a link stands, whose base form is given.
    fn unlinked_standing(
        &self,
        alloc: Global,
        keys: &Numbering<Key>,
        class: Class,
        field: &Field,
        tie: &Tie,
        base: &Form,
    ) -> Result<Standing, NoMemory>
        requires { base.now ≡ base_form base.now.kind field.now }
        ensures { IfOk result (AnswersAs self.now.forms keys.now self.now.index
            (kind_standing class base.now.kind (kept_field field.now tie.now))) }
    {
        match self.taker_by_number(alloc, keys, class, base.kind, field, tie)? {
            // an authority that could take the field is no link yet
            Some(_taker) => Ok(Standing::Unlinked),
            None => self.standing_by_forms(alloc, keys, class, field, tie, base),
        }
    }

    fn standing_by_forms(
        &self,
        alloc: Global,
        keys: &Numbering<Key>,
        class: Class,
        field: &Field,
        tie: &Tie,
        base: &Form,
    ) -> Result<Standing, NoMemory>
        requires { base.now ≡ base_form base.now.kind field.now }
        ensures { IfOk result (AnswersAs self.now.forms keys.now self.now.index
            (forms_standing class base.now.kind (kept_field field.now tie.now))) }
    {
        let divided = divided_form(alloc, class, field, base.kind)?;
        let meant = self.meant(class, field, tie, base, divided.as_ref());
        standing_among(alloc, keys, meant)
    }

    /// The authorities that a heading may mean, by the numbers of their keys: by its full form among all, else by its base form
    /// among those with a bare heading.
    fn meant(
        &self,
        class: Class,
        field: &Field,
        tie: &Tie,
        base: &Form,
        divided: Option<&Form>,
    ) -> &[u32]
        ensures { HoldsUnderAny self.now.forms self.now.index
            (AreMeantByForms class (kept_field field.now tie.now) base.now (option_copied divided.entry) result.now) }
    {
        let full = self.meant_in_full(class, field, base, divided);
        if full.is_empty() {
            self.meant_by_base(class, field, tie, base)
        } else {
            full
        }
    }

    fn meant_in_full(
        &self,
        class: Class,
        field: &Field,
        base: &Form,
        divided: Option<&Form>,
    ) -> &[u32]
        ensures { HoldsUnderAny self.now.forms self.now.index
            (AreMeantInFull class field.now base.now (option_copied divided.entry) result.now) }
    {
        if takes_subdivisions(field.tag(), class) {
            self.meant_by(full_or_base(base, divided), Among::All)
        } else {
            &[]
        }
    }

    fn meant_by_base(&self, class: Class, field: &Field, tie: &Tie, base: &Form) -> &[u32]
        ensures { HoldsUnderAny self.now.forms self.now.index
            (AreMeantByBase class (kept_field field.now tie.now) base.now result.now) }
    {
        if asks_base(class, field, tie) {
            self.meant_by(base, Among::Bare)
        } else {
            &[]
        }
    }

    /// Those with the form as their heading, and where there is none those with it as a see-from heading.
    fn meant_by(&self, form: &Form, among: Among) -> &[u32]
        ensures { (whole : Bool) → HoldsUnderAny self.now.forms self.now.index (AreMeantByForm among whole form.now result.now) }
    {
        numbers_in(self.candidates(form, among))
    }
}
