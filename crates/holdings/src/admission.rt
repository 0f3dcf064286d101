//! Which records are holdings.
ghost use Rattle.std.specs.Prelude.{◌≡◌, None, IfOk, OnOk, IfErr};
ghost use Rattle.holdings.specs.Admission.{is_holdings_type, target_number_of, holding_refusal, IsHoldingOf};
ghost use Rattle.holdings.specs.Refusals.{IsRefusalOf};

use crate::holding::{Holding, HoldingContent};
use crate::refusal::{HoldingFault, HoldingRefusal};
use entry_record::{first_control, key_of};
use iso2709_record::fits;
use marc_types::{Field, Key, NoMemory, Record, Refusal, Text, TryCopy, can_be_number};
use std::alloc::Global;

/// The last character of the tag of the control number of the record that a holding belongs to, 004.
const TARGET: u8 = b'4';

/// Leader 06 of holdings: of an item of a form that isn't told, of one in parts, of one in a single part, and of a serial.
fn is_holdings_type(rtype: u8) -> bool
    ensures { result ≡ is_holdings_type rtype }
{
    matches!(rtype, b'u' | b'v' | b'x' | b'y')
}

/// The first 004 without its blanks; empty where there is none.
#[tactic(auto, unfolding(crate::specs::Admission::target_number_of))]
fn target_number(alloc: Global, fields: &[Field]) -> Result<Text, NoMemory>
    ensures { IfOk result (λ number. number ≡ target_number_of fields.now) }
{
    match first_control(fields, TARGET) {
        Some(text) => text.without_blanks(alloc),
        None => Ok(Text::new()),
    }
}

/// The holding of a record in a file of that library code. Its target has the holding's own code, and the number in its first
/// 004. A record is refused for the first reason that there is against it: another type than a holding's, no proper number,
/// no proper code, no proper target, or that it doesn't fit its written form.
#[tactic(auto, unfolding(crate::specs::Admission::holding_refusal, crate::specs::Admission::target_of, entry_record::specs::Identity::key_of))]
pub fn admit_holding(alloc: Global, rec: Record, code: &Text) -> Result<Holding, HoldingFault>
    ensures holding { IfOk result (IsHoldingOf code.now rec) }
    ensures taken { OnOk result (holding_refusal code.now rec.leader rec.fields ≡ None) }
    ensures refused { IfErr result (IsRefusalOf (holding_refusal code.now rec.leader rec.fields)) }
{
    if !is_holdings_type(rec.leader.rtype) {
        return Err(HoldingFault::of_record(Refusal::OtherType));
    }
    let key = key_of(alloc, &rec, code)?;
    let number = target_number(alloc, rec.fields.as_slice())?;
    if !can_be_number(number.as_bytes()) {
        return Err(HoldingFault::Refused(HoldingRefusal::NoTarget));
    }
    if !fits(&rec) {
        return Err(HoldingFault::of_record(Refusal::NoRoom));
    }
    let target = Key {
        code: key.code.copy(alloc)?,
        number,
    };
    Ok(Holding {
        key,
        content: HoldingContent { target, rec },
    })
}
