//! How often the open headings of a catalogue stand.
ghost use Rattle.std.specs.Prelude.{◌≡◌, ◌+◌, IfOk, OnOk, if◌then◌else◌};
ghost use Rattle.heading_worklist.specs.Counts.{StatedForm as AnyStatedForm, stated, same_stated};
ghost use Rattle.heading_worklist.specs.Counting.{AreTimes, stated_times};

use crate::compared::Compared;
use crate::stated::StatedForm;
use marc_types::NoMemory;
use std::alloc::Global;
use std::collections::HashMap;

/// How often each state and form stands.
pub(crate) type Counts<'f> = HashMap<StatedForm<'f>, u32>;

/// A heading by its full form or its base form.
pub(crate) fn stated<'f>(heading: &'f Compared<'_>, whole: bool) -> StatedForm<'f>
    ensures { result ≡ stated whole heading.now }
{
    StatedForm {
        ambiguous: heading.ambiguous,
        form: if whole {
            heading.full.as_ref()
        } else {
            heading.base.as_ref()
        },
    }
}

/// How often a state and form are counted.
pub(crate) fn stated_times<'f>(counts: &Counts<'f>, stated: &StatedForm<'f>) -> u32
    ensures { result ≡ stated_times counts.now stated.now }
{
    counts.get(stated).copied().unwrap_or(0)
}

#[tactic(auto, using(crate::proofs::Counting::one_more))]
fn count_in<'f>(counts: &mut Counts<'f>, thing: StatedForm<'f>) -> Result<(), NoMemory>
    ensures { OnOk result ((a : AnyStatedForm) → stated_times counts.new a ≡ stated_times counts.old a + (if same_stated thing.entry a then 1 else 0)) }
{
    let so_far = stated_times(counts, &thing);
    if so_far == u32::MAX {
        return Err(NoMemory);
    }
    counts.insert(thing, so_far + 1)?;
    Ok(())
}

/// How often each state and form stands among the headings, by their full forms or their base forms.
pub(crate) fn counted<'f>(
    alloc: Global,
    all: &'f [Compared<'_>],
    whole: bool,
) -> Result<Counts<'f>, NoMemory>
    ensures { IfOk result (AreTimes whole all.now) }
{
    let mut counts = HashMap::new(alloc);
    for heading in all {
        count_in(&mut counts, stated(heading, whole))?;
    }
    Ok(counts)
}
