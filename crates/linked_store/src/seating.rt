//! A record put into its place with its row of the index and the rows of its seats.
ghost use Rattle.std.specs.Prelude.{◌≡◌, OnOk, []};
ghost use Rattle.std.specs.Option.{option_map};
ghost use Rattle.catalogue_rules.specs.Settle.{arrival_of};
ghost use Rattle.numbered_store.specs.Kept.{kept_record};
ghost use Rattle.form_index.specs.Index.{IsInOrder};
ghost use Rattle.numbered_store.specs.Numbered.{IsNumber};
ghost use Rattle.linked_store.specs.Transactions.{GoesOn, contents};
ghost use Rattle.linked_store.specs.Holding.{AreAsTold};
ghost use Rattle.linked_store.specs.Placing.{AreApart, AreFreeFrom, HaveRows, IndexFollows, IsPlaced, IsReseated, StaysInSeats, record_brought};

use crate::transaction::Transaction;
use crate::turns::LentRow;
use entry_record::Preparation;
use marc_types::{Class, NoMemory};
use numbered_store::StoredRecord;
use numbering::Seat;
use std::alloc::Global;

/// What the seat of a record's field is to wait for.
#[derive(Drop)]
pub(crate) struct FieldRow<'a> {
    pub(crate) field: u32,
    pub(crate) row: LentRow<'a>,
}

impl Transaction {
    /// Puts what an entry brings under a number, where so many fields stand, with these rows at its seats. Where memory ends, the
    /// log says how far it came.
    pub(crate) fn place(
        &mut self,
        alloc: Global,
        number: u32,
        fields: u32,
        kept: Option<StoredRecord>,
        rows: Vec<FieldRow<'_>>,
        item: &Preparation,
    ) -> Result<(), NoMemory>
        requires known { IsNumber item.now.class number self.old.store }
        requires kept { option_map kept_record kept ≡ record_brought (arrival_of item.now) }
        requires ordered { IsInOrder self.old.store.keys.authorities self.old.tables.index }
        requires free { AreFreeFrom self.old.tables.forms item.now.class number fields (contents self.old) }
        requires told { AreAsTold item.now.class number (contents self.old) }
        requires apart { AreApart rows.items }
        ensures now { OnOk result (IsPlaced number item.now rows.entry.items self.old self.new) }
        ensures goes { GoesOn self.old self.new }
    {
        let class = item.class();
        self.clear(class, number, fields)?;
        self.seat_rows(alloc, class, number, rows)?;
        self.exchange(class, number, kept)?;
        self.follow_entry(alloc, number, item)
    }

    // The index follows an authority's entry; a bibliographic one has no row there.
    fn follow_entry(
        &mut self,
        alloc: Global,
        number: u32,
        item: &Preparation,
    ) -> Result<(), NoMemory>
        requires known { IsNumber item.now.class number self.old.store }
        requires ordered { IsInOrder self.old.store.keys.authorities self.old.tables.index }
        ensures now { OnOk result (IndexFollows item.now.class number item.now self.old self.new) }
        ensures seats { OnOk result (StaysInSeats self.old self.new) }
        ensures goes { GoesOn self.old self.new }
        ensures store { self.new.store ≡ self.old.store }
    {
        match item.class() {
            Class::Authority => self.follow(alloc, number, item),
            Class::Bibliographic => Ok(()),
        }
    }

    // Takes out what the seats of a record have, where so many fields stand.
    fn clear(&mut self, class: Class, number: u32, fields: u32) -> Result<(), NoMemory>
        requires free { AreFreeFrom self.old.tables.forms class number fields (contents self.old) }
        requires told { AreAsTold class number (contents self.old) }
        ensures now { OnOk result (IsReseated class number [] self.old self.new) }
        ensures goes { GoesOn self.old self.new }
    {
        for field in 0..fields {
            let seat = Seat {
                class,
                number,
                field,
            };
            self.take_rows(seat)?;
        }
        Ok(())
    }

    // Lets the seats of a record, which have no rows, wait for what these rows say.
    fn seat_rows(
        &mut self,
        alloc: Global,
        class: Class,
        number: u32,
        mut rows: Vec<FieldRow<'_>>,
    ) -> Result<(), NoMemory>
        requires free { HaveRows self.old.tables.forms class number [] (contents self.old) }
        requires apart { AreApart rows.items }
        ensures now { OnOk result (IsReseated class number rows.entry.items self.old self.new) }
        ensures goes { GoesOn self.old self.new }
    {
        while let Some(one) = rows.pop() {
            let seat = Seat {
                class,
                number,
                field: one.field,
            };
            self.put_lent(alloc, seat, one.row)?;
        }
        Ok(())
    }
}
