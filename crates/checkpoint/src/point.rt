//! The last whole checkpoint of payloads that are read in turn.
ghost use Rattle.std.specs.Prelude.{◌≡◌, ◌++◌, IfOk};
ghost use Rattle.std.specs.Option.{option_map};
ghost use Rattle.checkpoint.specs.Points.{whole_point, nothing_yet, read_on};

use crate::Part;
use kept_rows::{KeptRows, are_in_order};
use marc_types::NoMemory;
use std::alloc::Global;

/// A checkpoint: the number of entries that the history had, and the records that were kept then.
#[derive(Debug, Drop)]
pub struct Point {
    pub entries: u64,
    pub rows: KeptRows,
}

/// What is known of a log of checkpoints so far: the records since a beginning that has no end yet, and the last whole checkpoint.
#[derive(Debug, Drop)]
pub struct SoFar {
    pub begun: Option<KeptRows>,
    pub last: Option<Point>,
}

/// Rows with others behind them, where there are any.
fn with_more(begun: Option<KeptRows>, more: KeptRows) -> Result<Option<KeptRows>, NoMemory>
    ensures { IfOk result (λ made. made ≡ option_map (λ rows. rows ++ more) begun) }
{
    let Some(rows) = begun else {
        return Ok(None);
    };
    let mut all = rows.into_vec();
    let mut more = more.into_vec();
    all.append(&mut more)?;
    Ok(Some(KeptRows::from_vec(all)))
}

/// The checkpoint that an end makes of the records since its beginning, where these are so many and in order.
fn whole_point(entries: u64, count: u64, begun: Option<KeptRows>) -> Option<Point>
    ensures { result ≡ whole_point entries count begun }
{
    let rows = begun?;
    if rows.len() as u64 == count && are_in_order(rows.as_slice()) {
        Some(Point { entries, rows })
    } else {
        None
    }
}

impl SoFar {
    /// Nothing is read yet.
    pub fn new() -> SoFar
        ensures { result ≡ nothing_yet }
    {
        SoFar {
            begun: None,
            last: None,
        }
    }

    /// What one more payload makes of it. Of all checkpoints the records of two at most are kept: the last whole one, and one that is
    /// begun.
    #[tactic(auto, unfolding(crate::specs::Points::read_on))]
    pub fn read_on(self, alloc: Global, part: Part) -> Result<SoFar, NoMemory>
        ensures { IfOk result (λ made. made ≡ read_on self part) }
    {
        let SoFar { begun, last } = self;
        match part {
            Part::Begin => Ok(SoFar {
                begun: Some(KeptRows::from_vec(Vec::new(alloc))),
                last,
            }),
            Part::Rows(rows) => Ok(SoFar {
                begun: with_more(begun, rows)?,
                last,
            }),
            Part::End { entries, count } => Ok(SoFar {
                begun: None,
                last: whole_point(entries, count, begun).or(last),
            }),
        }
    }
}
