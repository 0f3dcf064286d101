//! The rows of a report, put in order once.
ghost use Rattle.std.specs.Prelude.{IfOk};
ghost use Rattle.ambiguity_report.specs.Rows.{AreRows};

use catalogue_core::Engine;
use marc_types::{Class, NoMemory};
use numbered_store::RowMap;
use std::alloc::Global;

/// The records of both classes, each class in key order.
#[derive(Drop)]
pub(crate) struct ReportRows<'a> {
    pub(crate) authorities: RowMap<'a>,
    pub(crate) bibliographic: RowMap<'a>,
}

pub(crate) fn rows_in_order(alloc: Global, engine: &Engine) -> Result<ReportRows<'_>, NoMemory>
    ensures { IfOk result (AreRows engine.now.state) }
{
    let authorities = engine.rows(alloc, Class::Authority)?;
    let bibliographic = engine.rows(alloc, Class::Bibliographic)?;
    Ok(ReportRows {
        authorities,
        bibliographic,
    })
}
