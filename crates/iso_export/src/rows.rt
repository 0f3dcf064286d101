//! The rows of an export, put in order before its first byte.
ghost use Rattle.std.specs.Prelude.{IfOk};
ghost use Rattle.iso_export.specs.Rows.{AreRowsOf};

use catalogue_core::Engine;
use marc_types::{Class, NoMemory};
use numbered_store::RowMap;
use std::alloc::Global;

/// The records of both classes, each class in key order.
#[derive(Drop)]
pub struct ExportRows<'a> {
    pub(crate) authorities: RowMap<'a>,
    pub(crate) bibliographic: RowMap<'a>,
}

/// Puts the rows of a state in order. All memory of an export is taken here.
pub fn rows_in_order(alloc: Global, engine: &Engine) -> Result<ExportRows<'_>, NoMemory>
    ensures { IfOk result (AreRowsOf engine.now.state) }
{
    let authorities = engine.rows(alloc, Class::Authority)?;
    let bibliographic = engine.rows(alloc, Class::Bibliographic)?;
    Ok(ExportRows {
        authorities,
        bibliographic,
    })
}
