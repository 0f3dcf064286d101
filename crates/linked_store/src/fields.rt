//! One field exchanged, and its rows in the tables with it.
ghost use Rattle.std.specs.Prelude.{◌≡◌, IfOk, OnOk, OnErr};
ghost use Rattle.marc_types.specs.Order.{same_key};
ghost use Rattle.catalogue_rules.specs.State.{KeptField, kept_field};
ghost use Rattle.marc_types.specs.declared.key.Class.{Class as AnyClass};
ghost use Rattle.linking_laws.specs.Partway.{swapped};
ghost use Rattle.catalogue_tables.specs.Seam.{place_at};
ghost use Rattle.catalogue_tables.specs.Waiting.{AreNumbersOf};
ghost use Rattle.linked_store.specs.Fielding.{IsLinkNumber, IsRowFor};
ghost use Rattle.linked_store.specs.Linked.{IsAhead, IsUnchanged, SuitsSeat};
ghost use Rattle.linked_store.specs.Wanted.{IsWanted};

use crate::back::go_back;
use crate::store::LinkedStore;
use crate::turns::Row;
use crate::wanted::{Sought, Wanted, wants_of};
use marc_types::{Class, Field, Key, NoMemory, Sequence, Tie};
use numbering::Seat;
use std::alloc::Global;

impl LinkedStore {
    /// Puts a field and its tie at a seat. The keys that they name get numbers, also where memory ends.
    pub fn exchange_field(
        &mut self,
        alloc: Global,
        seat: Seat,
        field: Field,
        tie: Tie,
    ) -> Result<(), NoMemory>
        requires { SuitsSeat seat (kept_field field tie) self.old }
        ensures ok { OnOk result (self.new.state ≡ swapped (place_at self.old.keys seat) (kept_field field tie) self.old.state) }
        ensures err { OnErr result (self.new.state ≡ self.old.state) }
        ensures ahead { IsAhead self.old self.new }
    {
        if self.is_linked_alike(seat, &tie) {
            return self.exchange_alike(alloc, seat, field, tie);
        }
        let wanted = wants_of(alloc, seat.class, &field, &tie)?;
        let link = self.link_number(alloc, &tie)?;
        let row = self.numbered_row(alloc, wanted)?;
        self.relink_field(alloc, seat, field, tie, link, row)
    }

    // The number of the key to which the field is linked.
    fn link_number(&mut self, alloc: Global, tie: &Tie) -> Result<Option<u32>, NoMemory>
        ensures unchanged { IsUnchanged self.old self.new }
        ensures ok { IfOk result (IsLinkNumber self.new.keys.authorities tie.now.key) }
    {
        let Some(key) = &tie.key else {
            return Ok(None);
        };
        let number = self.number(alloc, Class::Authority, key.key())?;
        Ok(Some(number))
    }

    // What a field waits for, with its keys by their numbers.
    fn numbered_row(
        &mut self,
        alloc: Global,
        wanted: Option<Wanted>,
    ) -> Result<Option<Row>, NoMemory>
        ensures unchanged { IsUnchanged self.old self.new }
        ensures ok { IfOk result (λ row. (class : AnyClass) (h : KeptField) → IsWanted class h wanted → IsRowFor class h self.new.keys.authorities row) }
    {
        let Some(Wanted { sought, keys }) = wanted else {
            return Ok(None);
        };
        let keys = self.numbers(alloc, keys.as_slice())?;
        let Sought { form, other } = sought;
        Ok(Some(Row { form, other, keys }))
    }

    /// The numbers of keys.
    pub(crate) fn numbers(&mut self, alloc: Global, keys: &[Key]) -> Result<Sequence<u32>, NoMemory>
        ensures unchanged { IsUnchanged self.old self.new }
        ensures ok { IfOk result (AreNumbersOf same_key self.new.keys.authorities keys.now) }
    {
        let mut numbers = Vec::with_capacity(alloc, keys.len())?;
        for key in keys {
            let number = self.number(alloc, Class::Authority, key)?;
            numbers.push(number)?;
        }
        Ok(Sequence::from_vec(numbers))
    }

    // Exchanges the field with its rows, or leaves all as it was.
    fn relink_field(
        &mut self,
        alloc: Global,
        seat: Seat,
        field: Field,
        tie: Tie,
        link: Option<u32>,
        row: Option<Row>,
    ) -> Result<(), NoMemory>
        requires suits { SuitsSeat seat (kept_field field tie) self.old }
        requires link { IsLinkNumber self.old.keys.authorities tie.key link }
        requires row { IsRowFor seat.class (kept_field field tie) self.old.keys.authorities row }
        ensures ok { OnOk result (self.new.state ≡ swapped (place_at self.old.keys seat) (kept_field field tie) self.old.state) }
        ensures err { OnErr result (self.new.state ≡ self.old.state) }
        ensures ahead { IsAhead self.old self.new }
    {
        self.transaction.tables.each_form_has_one_number();
        let position = self.transaction.log.len();
        if let Err(error) = self
            .transaction
            .relink_field(alloc, seat, field, tie, link, row)
        {
            go_back(&mut self.transaction, position);
            return Err(error);
        }
        Ok(())
    }
}
