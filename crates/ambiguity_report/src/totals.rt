//! How many fields stand so, and the line of the totals.
ghost use Rattle.std.specs.Prelude.{◌≡◌, ◌++◌, is_some, OnOk};
ghost use Rattle.std.specs.List.{count_by};
ghost use Rattle.std.specs.Fmt.{decimal};
ghost use Rattle.std.specs.Io.KnownBytes.{Appends};
ghost use Rattle.outside.specs.Fault.{HasWriteCause};
ghost use Rattle.outside.specs.Sink.{WritesFront};
ghost use Rattle.catalogue_rules.specs.Output.{total_line};
ghost use Rattle.catalogue_core.specs.Standings.{is_linked_here, is_ambiguous_here, is_unlinked_here};
ghost use Rattle.ambiguity_report.specs.Totals.{AddsRecord, AreAllTotals, HaveRoom, no_totals, totals_text};

use crate::words::{LINE_FEED, add_number};
use catalogue_core::{Engine, Standing};
use marc_types::Class;
use outside::{Sink, WriteFault};
use std::alloc::AllocError;

/// How many fields are linked, ambiguous, and heading fields without a link. The sums over all records have room in 128 bits.
#[derive(Clone, Copy, Debug, PartialEq, Eq)]
pub(crate) struct Totals {
    pub(crate) linked: u128,
    pub(crate) ambiguous: u128,
    pub(crate) unlinked: u128,
}

impl Totals {
    pub(crate) fn none() -> Totals
        ensures { result ≡ no_totals }
    {
        Totals {
            linked: 0,
            ambiguous: 0,
            unlinked: 0,
        }
    }

    /// With the fields of one more record.
    pub(crate) fn with_record(self, standings: &[Standing]) -> Totals
        requires { HaveRoom self }
        ensures { AddsRecord standings.now self result }
    {
        // there is room for as many
        let _fields = standings.len();
        Totals {
            linked: self.linked + linked(standings) as u128,
            ambiguous: self.ambiguous + ambiguous(standings) as u128,
            unlinked: self.unlinked + unlinked(standings) as u128,
        }
    }
}

fn linked(standings: &[Standing]) -> usize
    ensures { result ≡ count_by is_linked_here standings.now }
{
    standings
        .iter()
        .filter(|standing| matches!(standing, Standing::Linked))
        .count()
}

fn ambiguous(standings: &[Standing]) -> usize
    ensures { result ≡ count_by is_ambiguous_here standings.now }
{
    standings
        .iter()
        .filter(|standing| matches!(standing, Standing::Ambiguous(_)))
        .count()
}

fn unlinked(standings: &[Standing]) -> usize
    ensures { result ≡ count_by is_unlinked_here standings.now }
{
    standings
        .iter()
        .filter(|standing| matches!(standing, Standing::Unlinked))
        .count()
}

fn add_count(text: &mut Vec<u8>, word: &str, count: u128) -> Result<(), AllocError>
    ensures { OnOk result (text.new.items ≡ text.old.items ++ word.now ++ decimal count) }
{
    text.extend_from_slice(word.as_bytes())?;
    add_number(text, count)
}

/// The line of so many records, of so many fields.
fn totals_line(
    text: &mut Vec<u8>,
    authorities: u64,
    bibliographic: u64,
    totals: Totals,
) -> Result<(), AllocError>
    ensures { OnOk result (text.new.items ≡ totals_text authorities bibliographic totals) }
{
    text.clear();
    add_count(text, "TOTAL authorities=", authorities as u128)?;
    add_count(text, " bibliographic=", bibliographic as u128)?;
    add_count(text, " linked=", totals.linked)?;
    add_count(text, " ambiguous=", totals.ambiguous)?;
    add_count(text, " unlinked=", totals.unlinked)?;
    text.push(LINE_FEED)?;
    Ok(())
}

fn make_line(text: &mut Vec<u8>, engine: &Engine, totals: Totals) -> Result<(), AllocError>
    requires { AreAllTotals engine.now.state totals }
    ensures { OnOk result (text.new.items ≡ total_line engine.now.state) }
{
    let authorities = engine.count(Class::Authority);
    let bibliographic = engine.count(Class::Bibliographic);
    totals_line(text, authorities, bibliographic, totals)
}

/// Writes the line of the totals.
#[tactic(auto, using(outside::proofs::Fronts::front_none))]
pub(crate) fn write_totals<K: Sink>(
    engine: &Engine,
    totals: Totals,
    text: &mut Vec<u8>,
    out: &mut K,
) -> Result<(), WriteFault>
    requires { AreAllTotals engine.now.state totals }
    ensures bytes { OnOk result (Appends (K.written out.old) (K.written out.new) (total_line engine.now.state)) }
    ensures front { WritesFront (K.written out.old) (K.written out.new) (total_line engine.now.state) }
    ensures tells { is_some (K.written out.new) ≡ is_some (K.written out.old) }
    ensures cause { HasWriteCause (K.faults out.old) (K.faults out.new) result }
{
    make_line(text, engine, totals)?;
    out.write_all(text)?;
    Ok(())
}
