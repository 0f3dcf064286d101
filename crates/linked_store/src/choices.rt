//! What a field is to be linked to, and what is known of an authority.
ghost use Rattle.std.specs.Prelude.{◌≡◌, find, IfOk, None, Some};
ghost use Rattle.std.specs.Option.{option_copied};
ghost use Rattle.marc_types.specs.declared.key.Class.TheVariants.{Authority as AnAuthority};
ghost use Rattle.entry_record.specs.Prepared.{heading_base_form};
ghost use Rattle.catalogue_rules.specs.Choice.{has_key};
ghost use Rattle.catalogue_rules.specs.State.{kept_field, linkable_authorities};
ghost use Rattle.catalogue_tables.specs.Known.{IsKnownAs};
ghost use Rattle.catalogue_tables.specs.Seam.{HasKey};
ghost use Rattle.linking_laws.specs.Middle.{AreAuthoritiesInOrder};
ghost use Rattle.linked_store.specs.Linked.{IsNumber, field_of, key_of};
ghost use Rattle.linked_store.specs.Finding.{answer_in};

use crate::store::LinkedStore;
use catalogue_tables::{Chosen, KnownAuthority};
use marc_types::{Class, Field, Form, NoMemory, Tie};
use numbering::Seat;
use std::alloc::Global;

impl LinkedStore {
    /// What an unlinked field is to be linked to, if it is a heading, by the tables alone: then its base form is given. It visits no
    /// record.
    pub fn choose(
        &self,
        alloc: Global,
        class: Class,
        field: &Field,
        tie: &Tie,
        base: Option<&Form>,
    ) -> Result<Option<Chosen>, NoMemory>
        requires ordered { AreAuthoritiesInOrder self.now.state }
        requires base { option_copied base ≡ heading_base_form class field.now }
        ensures { IfOk result (λ chosen. chosen ≡ answer_in self.now class (kept_field field.now tie.now)) }
    {
        let keys = self.transaction.store.keys(Class::Authority);
        self.transaction
            .tables
            .choose_field(alloc, keys, class, field, tie, base)
    }

    /// What the unlinked field that stands at a seat is to be linked to, if it is a heading: by the numbers of its row, so that none of
    /// its forms is made or looked up. It visits no record, and takes memory for the keys alone that the field names.
    pub fn choose_at(
        &self,
        alloc: Global,
        seat: Seat,
        field: &Field,
        tie: &Tie,
    ) -> Result<Option<Chosen>, NoMemory>
        requires ordered { AreAuthoritiesInOrder self.now.state }
        requires known { HasKey self.now.keys seat }
        requires stands { field_of seat self.now ≡ Some (kept_field field.now tie.now) }
        requires unlinked { tie.now.key ≡ None }
        ensures { IfOk result (λ chosen. chosen ≡ answer_in self.now seat.class (kept_field field.now tie.now)) }
    {
        self.transaction.tables.each_form_has_one_number();
        let keys = self.transaction.store.keys(Class::Authority);
        self.transaction
            .tables
            .choose_at(alloc, keys, seat, field, tie)
    }

    /// The kind and the forms of the authority under the key that has the number, if fields can be linked to it. It visits no record.
    pub fn known_authority(
        &self,
        alloc: Global,
        number: u32,
    ) -> Result<Option<KnownAuthority>, NoMemory>
        requires { IsNumber AnAuthority number self.now.keys }
        ensures { IfOk result (IsKnownAs (find (has_key (key_of AnAuthority number self.now.keys)) (linkable_authorities self.now.state))) }
    {
        self.transaction.tables.known_authority(alloc, number)
    }
}
