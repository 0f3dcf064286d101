//! Open headings in the order of a worklist.
ghost use Rattle.std.specs.Prelude.{◌≡◌, [], fold, map, IfOk};
ghost use Rattle.std.specs.BTreeSet.{insert_key};
ghost use Rattle.std.specs.Option.{option_copied};
ghost use Rattle.heading_worklist.specs.Counting.{counted_by, kept_in};
ghost use Rattle.heading_worklist.specs.Counts.{counted_cmp, counted_in_order};

use crate::compared::Compared;
use crate::counted::Counted;
use crate::counts::{Counts, counted, stated, stated_times};
use marc_types::{Key, NoMemory};
use std::alloc::Global;
use std::collections::BTreeSet;

pub(crate) fn is_kept(key: &Key, code: Option<&str>) -> bool
    ensures { result ≡ kept_in (option_copied code.entry) key.now }
{
    match code {
        None => true,
        Some(code) => key.code.as_str() == code,
    }
}

fn counted_by<'f>(heading: &'f Compared<'f>, full: &Counts<'f>, base: &Counts<'f>) -> Counted<'f>
    ensures { result ≡ counted_by full.now base.now heading.now }
{
    Counted {
        heading,
        count: stated_times(full, &stated(heading, true)),
        base_count: stated_times(base, &stated(heading, false)),
    }
}

/// Puts the headings in their order, as the maps count them.
fn ordered_by<'f>(
    alloc: Global,
    all: &'f [Compared<'f>],
    full: &Counts<'f>,
    base: &Counts<'f>,
) -> Result<BTreeSet<Counted<'f>>, NoMemory>
    ensures { IfOk result (λ lines. lines.keys ≡ fold (insert_key counted_cmp) [] (map (counted_by full.now base.now) all.now)) }
{
    let mut lines = BTreeSet::new(alloc);
    for heading in all {
        lines.insert(counted_by(heading, full, base))?;
    }
    Ok(lines)
}

/// All headings, each counted, in their order.
#[tactic(auto, using(crate::proofs::Counting::counted_alike), unfolding(crate::specs::Counts::in_order))]
pub fn counted_in_order<'f>(
    alloc: Global,
    all: &'f [Compared<'f>],
) -> Result<BTreeSet<Counted<'f>>, NoMemory>
    ensures { IfOk result (λ lines. lines.keys ≡ counted_in_order all.now) }
{
    let full = counted(alloc, all, true)?;
    let base = counted(alloc, all, false)?;
    ordered_by(alloc, all, &full, &base)
}
