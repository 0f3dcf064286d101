//! Seats that wait for a form or for a key.
ghost use Rattle.std.specs.Prelude.{◌≡◌, OnOk, OnErr, IfOk, IfSome, IfNone, None};
ghost use Rattle.std.specs.Option.{option_copied};
ghost use Rattle.marc_types.specs.Order.{same_form};
ghost use Rattle.numbering.specs.Numbers.{Keeps};
ghost use Rattle.wait_table.specs.Waits.{IsTaken, forms_of, less_taken, row_of};
ghost use Rattle.wait_table.specs.Table.{waits};
ghost use Rattle.catalogue_tables.specs.Waiting.{AddsWait, AreNumbersOf, PutsWaitBack, TakesWait, one_or_two};

use crate::tables::CatalogueTables;
use marc_types::{Form, NoMemory, Sequence};
use numbering::{Numbering, Seat};
use std::alloc::Global;
use wait_table::{Asked, KeyNumbers, WaitRow, Waiting};

#[tactic(auto, using(crate::proofs::Seams::keeps_then, crate::proofs::Waited::one_number, crate::proofs::Waited::two_numbers))]
// The numbers of one form or of two, which get them if they had none.
fn asked(
    forms: &mut Numbering<Form>,
    alloc: Global,
    form: &Form,
    other: Option<&Form>,
) -> Result<Asked, NoMemory>
    ensures keeps { Keeps same_form forms.old forms.new }
    ensures ok { IfOk result (λ asked. AreNumbersOf same_form forms.new (one_or_two form.now (option_copied other.entry)) (forms_of asked)) }
{
    let number = forms.add(alloc, form)?;
    let Some(other) = other else {
        return Ok(Asked::One(number));
    };
    let base = forms.add(alloc, other)?;
    Ok(Asked::Two(number, base))
}

impl CatalogueTables {
    ghost use Rattle.catalogue_tables.specs.Tables.{OnlyWaits, OnlyWaitsAndForms};

    #[tactic(auto, using(crate::proofs::Waited::adds))]
    /// Lets a seat wait for one form or two, and for the keys with these numbers. `NoMemory` leaves every row as it was.
    pub fn add_waiting(
        &mut self,
        alloc: Global,
        seat: Seat,
        form: &Form,
        other: Option<&Form>,
        keys: Sequence<u32>,
    ) -> Result<(), NoMemory>
        requires free { (waits self.old.waits).waiting seat ≡ None }
        ensures only { OnlyWaitsAndForms self.old self.new }
        ensures ok { OnOk result
            (AddsWait self.new.forms seat (one_or_two form.now (option_copied other.entry)) keys (waits self.old.waits) (waits self.new.waits)) }
        ensures err { OnErr result (waits self.new.waits ≡ waits self.old.waits) }
    {
        let forms = asked(&mut self.forms, alloc, form, other)?;
        let keys = KeyNumbers::new(alloc, keys)?;
        let waiting = Waiting { forms, keys };
        self.waits.add(alloc, WaitRow { seat, waiting })?;
        Ok(())
    }

    /// Takes all that a seat waits for out, if there is any. It may come back by `put_waiting_back`, or be let go.
    pub fn take_waiting(&mut self, seat: Seat) -> Option<WaitRow>
        ensures only { OnlyWaits self.old self.new }
        ensures row { result ≡ row_of seat ((waits self.old.waits).waiting seat) }
        ensures some { IfSome result (λ row. TakesWait row (waits self.old.waits) (waits self.new.waits)) }
        ensures none { IfNone result (waits self.new.waits ≡ waits self.old.waits) }
        ensures free { (waits self.new.waits).waiting seat ≡ None }
    {
        self.waits.take(seat)
    }

    #[tactic(auto, using(crate::proofs::Waited::puts_back))]
    /// Puts a row back that was taken. It takes no memory.
    pub fn put_waiting_back(&mut self, row: WaitRow)
        requires taken { IsTaken row (waits self.old.waits) }
        requires free { (waits self.old.waits).waiting row.seat ≡ None }
        ensures only { OnlyWaits self.old self.new }
        ensures back { PutsWaitBack row (waits self.old.waits) (waits self.new.waits) }
    {
        self.waits.put_back(row);
    }

    /// Lets a row go that was taken, and gives back its room.
    pub fn let_waiting_go(&mut self, row: WaitRow)
        requires { IsTaken row (waits self.old.waits) }
        ensures only { OnlyWaits self.old self.new }
        ensures gone { waits self.new.waits ≡ less_taken row (waits self.old.waits) }
    {
        self.waits.let_go(row);
    }
}
