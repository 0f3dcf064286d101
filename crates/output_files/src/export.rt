//! The export of a state, as a document.
ghost use Rattle.std.specs.Prelude.{◌≡◌, [], IfOk};
ghost use Rattle.std.specs.Option.{option_copied};
ghost use Rattle.catalogue_rules.specs.Settle.{state_of};
ghost use Rattle.catalogue_rules.specs.Output.{export_of};
ghost use Rattle.output_files.specs.Kept.{kept_keys};

use crate::document::Document;
use crate::kept::is_kept;
use catalogue_core::{Catalogue, Engine};
use iso_export::{ExportRows, rows_in_order, write_rows};
use marc_types::{Key, NoMemory};
use outside::{Sink, WriteFault};
use selection::Selection;
use std::alloc::Global;
use std::marker::Model;

/// The records of a state in their order: all, or those under keys with a code. Contracts see their bytes.
#[derive(Drop)]
pub struct Export<'a> {
    engine: &'a Engine,
    rows: ExportRows<'a>,
    code: Option<&'a str>,
}

impl<'a> Model for Export<'a> {
    ghost use Rattle.std.specs.Prelude.{List, ℕ};
    ghost use Rattle.std.specs.Option.{option_copied};
    ghost use Rattle.catalogue_rules.specs.Output.{export_of};
    ghost use Rattle.iso_export.specs.Rows.{AreRowsOf};
    ghost use Rattle.output_files.specs.Kept.{kept_keys};

    ghost Value = { List ℕ };

    ghost view = { λ e. export_of (kept_keys (option_copied e.code)) e.engine.now.state };

    ghost invariant = { λ e. AreRowsOf e.engine.now.state e.rows };
}

impl<'a> Export<'a> {
    /// The export of a state. All its memory is taken here.
    pub fn of_state(
        alloc: Global,
        engine: &'a Engine,
        code: Option<&'a str>,
    ) -> Result<Export<'a>, NoMemory>
        ensures { IfOk result (λ export. export ≡ export_of (kept_keys (option_copied code.entry)) engine.now.state) }
    {
        let rows = rows_in_order(alloc, engine)?;
        Ok(Export { engine, rows, code })
    }

    /// The export of the state behind a catalogue's history, of which nothing is staged. All its memory is taken here.
    pub fn of(
        alloc: Global,
        core: &'a Catalogue,
        code: Option<&'a str>,
    ) -> Result<Export<'a>, NoMemory>
        requires { core.now.staged ≡ [] }
        ensures { IfOk result (λ export. export ≡ export_of (kept_keys (option_copied code.entry)) (state_of core.now.history)) }
    {
        Export::of_state(alloc, core.engine(), code)
    }
}

impl<'a> Document for Export<'a> {
    ghost due = { λ export. export };

    fn write_to<K: Sink>(self, out: &mut K) -> Result<(), WriteFault> {
        let code = self.code;
        let kept = Selection::new(|key: &Key| is_kept(key, code));
        write_rows(self.engine, self.rows, &kept, out)?;
        Ok(())
    }
}
