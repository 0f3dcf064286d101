//! How fields and authorities stand to each other, for those who only read: `ReadableStore` hands it on.
ghost use Rattle.std.specs.Prelude.{◌≡◌, IfOk, IsSome, option_map};
ghost use Rattle.std.specs.List.{list_any};
ghost use Rattle.catalogue_rules.specs.Choice.{is_established};
ghost use Rattle.catalogue_rules.specs.State.{kept_field, linkable_authorities};
ghost use Rattle.catalogue_rules.specs.Store.{field_at};
ghost use Rattle.numbered_store.specs.Kept.{kept_record};
ghost use Rattle.catalogue_tables.specs.Sharing.{keys_crossing, keys_sharing, shown_keys};
ghost use Rattle.catalogue_tables.specs.Stands.{field_standing};
ghost use Rattle.linking_laws.specs.Middle.{AreAuthoritiesInOrder};

use crate::held::{RowHeld, row_held_in};
use crate::store::LinkedStore;
use catalogue_tables::Standing;
use marc_types::{Class, Field, Form, Key, NoMemory, Tie};
use numbered_store::StoredRecord;
use std::alloc::Global;

impl LinkedStore {
    /// How a field with its tie stands, by the tables alone. It visits no record.
    pub(crate) fn standing(
        &self,
        alloc: Global,
        class: Class,
        field: &Field,
        tie: &Tie,
    ) -> Result<Standing, NoMemory>
        requires { AreAuthoritiesInOrder self.now.state }
        ensures { IfOk result (λ standing.
            standing ≡ field_standing (linkable_authorities self.now.state) class (kept_field field.now tie.now)) }
    {
        let keys = self.transaction.store.keys(Class::Authority);
        self.transaction
            .tables
            .standing(alloc, keys, class, field, tie)
    }

    /// How the field at a place of a record stands, if there is one. It is decoded only where it isn't linked and can be a heading.
    #[tactic(auto, using(crate::proofs::Stood::tag_there, crate::proofs::Stood::no_tag_stands))]
    pub(crate) fn standing_at(
        &self,
        alloc: Global,
        class: Class,
        kept: &StoredRecord,
        place: u32,
    ) -> Result<Option<Standing>, NoMemory>
        requires { AreAuthoritiesInOrder self.now.state }
        ensures { IfOk result (λ standing.
            standing ≡ option_map (field_standing (linkable_authorities self.now.state) class) (field_at place (kept_record kept.now))) }
    {
        match kept.tag_at(place) {
            Some(_) => self.standing_held(alloc, class, kept, place),
            None => Ok(None),
        }
    }

    // The same where there is one.
    #[tactic(auto, using(crate::proofs::Stood::link_stands, crate::proofs::Stood::nothing_stands))]
    fn standing_held(
        &self,
        alloc: Global,
        class: Class,
        kept: &StoredRecord,
        place: u32,
    ) -> Result<Option<Standing>, NoMemory>
        requires ordered { AreAuthoritiesInOrder self.now.state }
        requires stands { IsSome (field_at place (kept_record kept.now)) }
        ensures { IfOk result (λ standing.
            standing ≡ option_map (field_standing (linkable_authorities self.now.state) class) (field_at place (kept_record kept.now))) }
    {
        match row_held_in(class, kept, place) {
            RowHeld::Link => Ok(Some(Standing::Linked)),
            RowHeld::Waiting => self.standing_found(alloc, class, kept, place),
            RowHeld::Nothing => Ok(Some(Standing::NoHeading)),
        }
    }

    // The same of a field that is decoded.
    #[tactic(auto, using(crate::proofs::Stood::found_stands, crate::proofs::Stood::none_found_stands))]
    fn standing_found(
        &self,
        alloc: Global,
        class: Class,
        kept: &StoredRecord,
        place: u32,
    ) -> Result<Option<Standing>, NoMemory>
        requires { AreAuthoritiesInOrder self.now.state }
        ensures { IfOk result (λ standing.
            standing ≡ option_map (field_standing (linkable_authorities self.now.state) class) (field_at place (kept_record kept.now))) }
    {
        match kept.found_at(alloc, place)? {
            Some(found) => {
                let (field, tie) = found.parts();
                let standing = self.standing(alloc, class, field, tie)?;
                Ok(Some(standing))
            }
            None => Ok(None),
        }
    }

    /// The keys of all authorities whose heading has the form of that of a key's authority, in key order; none where the key has no
    /// authority that fields can be linked to. It visits no record.
    pub(crate) fn sharing(&self, alloc: Global, key: &Key) -> Result<Vec<&Key>, NoMemory>
        requires { AreAuthoritiesInOrder self.now.state }
        ensures { IfOk result (λ found. shown_keys found.items ≡ keys_sharing key.now (linkable_authorities self.now.state)) }
    {
        let keys = self.transaction.store.keys(Class::Authority);
        self.transaction.tables.sharing(alloc, keys, key)
    }

    /// The keys of the other authorities under whose heading a key's authority is found, in key order; none where the key has no
    /// authority that fields can be linked to. It visits no record.
    pub(crate) fn crossing(&self, alloc: Global, key: &Key) -> Result<Vec<&Key>, NoMemory>
        requires { AreAuthoritiesInOrder self.now.state }
        ensures { IfOk result (λ found. shown_keys found.items ≡ keys_crossing key.now (linkable_authorities self.now.state)) }
    {
        let keys = self.transaction.store.keys(Class::Authority);
        self.transaction.tables.crossing(alloc, keys, key)
    }
    /// Whether an authority has the form as its heading. It visits no record.
    pub(crate) fn is_established(&self, form: &Form) -> bool
        requires { AreAuthoritiesInOrder self.now.state }
        ensures { result ≡ list_any (is_established form.now) (linkable_authorities self.now.state) }
    {
        self.transaction.tables.is_established(form)
    }
}
