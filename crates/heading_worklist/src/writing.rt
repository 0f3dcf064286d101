//! The lines of a worklist, written one by one.
ghost use Rattle.std.specs.Prelude.{◌≡◌, map, option_to_list, IfOk, OnOk};
ghost use Rattle.std.specs.List.{flat_map};
ghost use Rattle.std.specs.Option.{option_map};
ghost use Rattle.std.specs.Io.KnownBytes.{Appends};
ghost use Rattle.outside.specs.Fault.{HasWriteCause};
ghost use Rattle.outside.specs.Sink.{WritesFront};
ghost use Rattle.catalogue_tables.specs.Sharing.{shown_keys};
ghost use Rattle.numbered_store.specs.Kept.{shown_row};
ghost use Rattle.heading_worklist.specs.Csv.{line_bytes};
ghost use Rattle.heading_worklist.specs.Counting.{AreLinks};
ghost use Rattle.heading_worklist.specs.Lines.{authority_line, line_of_cells, member_line};
ghost use Rattle.heading_worklist.specs.Worklist.{kept_line};
ghost use Rattle.heading_worklist.specs.Written.{across_bytes, counted_bytes, crossing_bytes, crossings_bytes, group_bytes, kept_by, members_bytes, others_bytes, shared_bytes, worklist_bytes};

use crate::authorities::heading_under;
use crate::authority_lines::{any_kept, authority_cells, is_kept_among, other_keys};
use crate::cells::{Cells, column_names};
use crate::counted::Counted;
use crate::heading_lines::counted_cells;
use crate::links::{LinkCounts, links_of};
use crate::order::is_kept;
use crate::quoting::MARK;
use catalogue_core::{Engine, is_least_of};
use marc_types::{Class, Key, NoMemory};
use numbered_store::RowMap;
use outside::{Sink, WriteFault};
use std::alloc::Global;
use std::collections::BTreeSet;

/// The lines of a catalogue: how many fields are linked to each authority, and the code whose records are kept.
#[derive(Drop)]
pub(crate) struct Lister<'a> {
    alloc: Global,
    engine: &'a Engine,
    links: LinkCounts<'a>,
    code: Option<&'a str>,
    ghost linked: { AreLinks engine.now.state links },
}

/// Writes the line of cells that may be there.
#[tactic(auto, using(outside::proofs::Fronts::front_none))]
fn write_found<K: Sink>(
    found: Option<Cells>,
    text: &mut Vec<u8>,
    out: &mut K,
) -> Result<(), WriteFault>
    ensures bytes { OnOk result
        (Appends (K.written out.old) (K.written out.new) (flat_map line_bytes (option_to_list (option_map line_of_cells found)))) }
    ensures front { WritesFront (K.written out.old) (K.written out.new) (flat_map line_bytes (option_to_list (option_map line_of_cells found))) }
    ensures cause { HasWriteCause (K.faults out.old) (K.faults out.new) result }
{
    let Some(cells) = found else {
        return Ok(());
    };
    cells.make_line(text)?;
    out.write_all(text)?;
    Ok(())
}

impl<'a> Lister<'a> {
    fn new(alloc: Global, engine: &'a Engine, code: Option<&'a str>) -> Result<Lister<'a>, NoMemory>
        ensures engine { IfOk result (λ lister. lister.engine.now.state ≡ engine.now.state) }
        ensures code { IfOk result (λ lister. lister.code ≡ code.entry) }
    {
        let links = links_of(alloc, engine)?;
        Ok(Lister {
            alloc,
            engine,
            links,
            code,
        })
    }

    /// The cells of an open heading that was counted, where the key of its record is kept.
    fn kept(&self, counted: &Counted<'_>) -> Result<Option<Cells>, NoMemory>
        ensures { IfOk result (λ cells. option_map line_of_cells cells
            ≡ kept_line (kept_by self.now.code) self.now.engine.now.state counted.now) }
    {
        let heading = counted.heading;
        if is_kept(heading.key, self.code) {
            counted_cells(self.alloc, self.engine, counted)
        } else {
            Ok(None)
        }
    }

    /// Writes the lines of open headings that were counted, of those that are kept.
    #[tactic(auto, using(outside::proofs::Fronts::writing_begun, outside::proofs::Fronts::writing_stopped, outside::proofs::Fronts::writing_done))]
    fn write_counted<K: Sink>(
        &self,
        lines: &BTreeSet<Counted<'_>>,
        text: &mut Vec<u8>,
        out: &mut K,
    ) -> Result<(), WriteFault>
        ensures bytes { OnOk result (Appends (K.written out.old) (K.written out.new)
            (counted_bytes self.now.code self.now.engine.now.state lines.now.keys)) }
        ensures front { WritesFront (K.written out.old) (K.written out.new) (counted_bytes self.now.code self.now.engine.now.state lines.now.keys) }
        ensures cause { HasWriteCause (K.faults out.old) (K.faults out.new) result }
    {
        for counted in lines.iter() {
            let Ok(cells) = self.kept(counted) else {
                return Err(WriteFault::NoMemory);
            };
            write_found(cells, text, out)?;
        }
        Ok(())
    }

    /// The cells of the authority under a key, which stands so to others.
    fn authority(
        &self,
        state: &[u8],
        others: &[&Key],
        key: &'a Key,
    ) -> Result<Option<Cells>, NoMemory>
        ensures { IfOk result (λ cells. option_map line_of_cells cells
            ≡ authority_line self.now.engine.now.state state.now (shown_keys others.now) key.now) }
    {
        match heading_under(self.alloc, self.engine, key)? {
            Some(heading) => {
                let cells = authority_cells(
                    self.alloc,
                    self.engine,
                    &self.links,
                    state,
                    others,
                    key,
                    &heading,
                )?;
                Ok(Some(cells))
            }
            None => Ok(None),
        }
    }

    /// The cells of one of those that share a heading.
    fn member(&self, group: &[&'a Key], key: &'a Key) -> Result<Option<Cells>, NoMemory>
        ensures { IfOk result (λ cells. option_map line_of_cells cells
            ≡ member_line self.now.engine.now.state (shown_keys group.now) key.now) }
    {
        let others = other_keys(self.alloc, key, group)?;
        self.authority(b"shared", &others, key)
    }

    #[tactic(auto, using(outside::proofs::Fronts::writing_begun, outside::proofs::Fronts::writing_stopped, outside::proofs::Fronts::writing_done))]
    fn write_members<K: Sink>(
        &self,
        group: &[&'a Key],
        text: &mut Vec<u8>,
        out: &mut K,
    ) -> Result<(), WriteFault>
        ensures bytes { OnOk result (Appends (K.written out.old) (K.written out.new)
            (members_bytes self.now.engine.now.state (shown_keys group.now))) }
        ensures front { WritesFront (K.written out.old) (K.written out.new) (members_bytes self.now.engine.now.state (shown_keys group.now)) }
        ensures cause { HasWriteCause (K.faults out.old) (K.faults out.new) result }
    {
        for key in group {
            let Ok(cells) = self.member(group, *key) else {
                return Err(WriteFault::NoMemory);
            };
            write_found(cells, text, out)?;
        }
        Ok(())
    }

    /// Writes the lines of a group of two or more, where this is its least key and one of them is kept.
    #[tactic(auto, using(outside::proofs::Fronts::front_none))]
    fn write_group<K: Sink>(
        &self,
        own: &Key,
        group: &[&'a Key],
        text: &mut Vec<u8>,
        out: &mut K,
    ) -> Result<(), WriteFault>
        ensures bytes { OnOk result (Appends (K.written out.old) (K.written out.new)
            (group_bytes self.now.code self.now.engine.now.state own.now (shown_keys group.now))) }
        ensures front { WritesFront (K.written out.old) (K.written out.new)
            (group_bytes self.now.code self.now.engine.now.state own.now (shown_keys group.now)) }
        ensures cause { HasWriteCause (K.faults out.old) (K.faults out.new) result }
    {
        if is_least_of(own, group) && any_kept(group, self.code) {
            self.write_members(group, text, out)?;
        }
        Ok(())
    }

    /// Writes a line for each of the authorities under whose heading one is found.
    #[tactic(auto, using(outside::proofs::Fronts::writing_begun, outside::proofs::Fronts::writing_stopped, outside::proofs::Fronts::writing_done))]
    fn write_others<K: Sink>(
        &self,
        own: &[&Key],
        others: &[&'a Key],
        text: &mut Vec<u8>,
        out: &mut K,
    ) -> Result<(), WriteFault>
        ensures bytes { OnOk result (Appends (K.written out.old) (K.written out.new)
            (others_bytes self.now.engine.now.state (shown_keys own.now) (shown_keys others.now))) }
        ensures front { WritesFront (K.written out.old) (K.written out.new)
            (others_bytes self.now.engine.now.state (shown_keys own.now) (shown_keys others.now)) }
        ensures cause { HasWriteCause (K.faults out.old) (K.faults out.new) result }
    {
        for key in others {
            let Ok(cells) = self.authority(b"crossing", own, *key) else {
                return Err(WriteFault::NoMemory);
            };
            write_found(cells, text, out)?;
        }
        Ok(())
    }

    /// Writes the line of an authority that is found under the headings of others, and behind it those of the others.
    #[tactic(auto, using(outside::proofs::Fronts::front_none))]
    fn write_across<K: Sink>(
        &self,
        own: &'a Key,
        others: &[&'a Key],
        text: &mut Vec<u8>,
        out: &mut K,
    ) -> Result<(), WriteFault>
        ensures bytes { OnOk result (Appends (K.written out.old) (K.written out.new)
            (across_bytes self.now.engine.now.state own.now (shown_keys others.now))) }
        ensures front { WritesFront (K.written out.old) (K.written out.new) (across_bytes self.now.engine.now.state own.now (shown_keys others.now)) }
        ensures cause { HasWriteCause (K.faults out.old) (K.faults out.new) result }
    {
        let Ok(cells) = self.authority(b"crossing", others, own) else {
            return Err(WriteFault::NoMemory);
        };
        write_found(cells, text, out)?;
        self.write_others(&[own], others, text, out)
    }

    /// Writes these lines where the one or one of the others is kept.
    #[tactic(auto, using(outside::proofs::Fronts::front_none))]
    fn write_crossing<K: Sink>(
        &self,
        own: &'a Key,
        others: &[&'a Key],
        text: &mut Vec<u8>,
        out: &mut K,
    ) -> Result<(), WriteFault>
        ensures bytes { OnOk result (Appends (K.written out.old) (K.written out.new)
            (crossing_bytes self.now.code self.now.engine.now.state own.now (shown_keys others.now))) }
        ensures front { WritesFront (K.written out.old) (K.written out.new)
            (crossing_bytes self.now.code self.now.engine.now.state own.now (shown_keys others.now)) }
        ensures cause { HasWriteCause (K.faults out.old) (K.faults out.new) result }
    {
        let [_first, ..] = others else {
            return Ok(());
        };
        if !is_kept_among(own, others, self.code) {
            return Ok(());
        }
        self.write_across(own, others, text, out)
    }

    /// Writes the lines of authorities that share a heading.
    #[tactic(auto, using(outside::proofs::Fronts::writing_begun, outside::proofs::Fronts::writing_stopped, outside::proofs::Fronts::writing_done))]
    fn write_shared_lines<K: Sink>(
        &self,
        authorities: &RowMap<'a>,
        text: &mut Vec<u8>,
        out: &mut K,
    ) -> Result<(), WriteFault>
        requires { map shown_row authorities.now.entries ≡ self.now.engine.now.state.authorities }
        ensures bytes { OnOk result (Appends (K.written out.old) (K.written out.new) (shared_bytes self.now.code self.now.engine.now.state)) }
        ensures front { WritesFront (K.written out.old) (K.written out.new) (shared_bytes self.now.code self.now.engine.now.state) }
        ensures cause { HasWriteCause (K.faults out.old) (K.faults out.new) result }
    {
        for (key, _kept) in authorities {
            let Ok(group) = self.engine.sharing(self.alloc, key) else {
                return Err(WriteFault::NoMemory);
            };
            self.write_group(*key, &group, text, out)?;
        }
        Ok(())
    }

    /// Writes the lines of authorities that are found under another's heading, and of those others.
    #[tactic(auto, using(outside::proofs::Fronts::writing_begun, outside::proofs::Fronts::writing_stopped, outside::proofs::Fronts::writing_done))]
    fn write_crossing_lines<K: Sink>(
        &self,
        authorities: &RowMap<'a>,
        text: &mut Vec<u8>,
        out: &mut K,
    ) -> Result<(), WriteFault>
        requires { map shown_row authorities.now.entries ≡ self.now.engine.now.state.authorities }
        ensures bytes { OnOk result (Appends (K.written out.old) (K.written out.new) (crossings_bytes self.now.code self.now.engine.now.state)) }
        ensures front { WritesFront (K.written out.old) (K.written out.new) (crossings_bytes self.now.code self.now.engine.now.state) }
        ensures cause { HasWriteCause (K.faults out.old) (K.faults out.new) result }
    {
        for (key, _kept) in authorities {
            let Ok(others) = self.engine.crossing(self.alloc, key) else {
                return Err(WriteFault::NoMemory);
            };
            self.write_crossing(*key, &others, text, out)?;
        }
        Ok(())
    }

    /// Writes the mark, the columns' names and the lines of open headings that were counted, and then those of authorities.
    fn write_lines<K: Sink>(
        &self,
        lines: &BTreeSet<Counted<'_>>,
        authorities: &RowMap<'a>,
        out: &mut K,
    ) -> Result<(), WriteFault>
        requires { map shown_row authorities.now.entries ≡ self.now.engine.now.state.authorities }
        ensures bytes { OnOk result (Appends (K.written out.old) (K.written out.new)
            (worklist_bytes self.now.code self.now.engine.now.state lines.now.keys)) }
        ensures front { WritesFront (K.written out.old) (K.written out.new) (worklist_bytes self.now.code self.now.engine.now.state lines.now.keys) }
        ensures cause { HasWriteCause (K.faults out.old) (K.faults out.new) result }
    {
        let mut text = Vec::new(self.alloc);
        out.write_all(&MARK)?;
        out.write_all(column_names())?;
        self.write_counted(lines, &mut text, out)?;
        self.write_shared_lines(authorities, &mut text, out)?;
        self.write_crossing_lines(authorities, &mut text, out)
    }
}

/// Writes the worklist of a catalogue whose open headings were counted, as `counted_in_order` gives them: all lines, or those of the records
/// with a code. After a fault some front of it was written, maybe none or all; `OutputFault` is the sink's.
#[tactic(auto, using(outside::proofs::Fronts::front_none))]
pub fn write_worklist<'a, K: Sink>(
    alloc: Global,
    engine: &'a Engine,
    lines: &BTreeSet<Counted<'_>>,
    code: Option<&'a str>,
    out: &mut K,
) -> Result<(), WriteFault>
    ensures bytes { OnOk result (Appends (K.written out.old) (K.written out.new) (worklist_bytes code.entry engine.now.state lines.now.keys)) }
    ensures front { WritesFront (K.written out.old) (K.written out.new) (worklist_bytes code.entry engine.now.state lines.now.keys) }
    ensures cause { HasWriteCause (K.faults out.old) (K.faults out.new) result }
{
    let Ok(lister) = Lister::new(alloc, engine, code) else {
        return Err(WriteFault::NoMemory);
    };
    let Ok(authorities) = engine.rows(alloc, Class::Authority) else {
        return Err(WriteFault::NoMemory);
    };
    lister.write_lines(lines, &authorities, out)
}
