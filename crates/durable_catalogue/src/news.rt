//! The entries of a history since news was asked for, each as a heading.
ghost use Rattle.std.specs.Prelude.{◌≡◌, ◌++◌, [], List, Option, length, take, drop, IfOk, OnOk, OnErr};
ghost use Rattle.std.specs.Option.{option_map};
ghost use mathlib.Core.List.{IsPrefix};
ghost use Rattle.marc_types.specs.declared.entry.Entry.{Entry as AnyEntry};
ghost use Rattle.durable_catalogue.specs.News.{and_entries, CutsNews};

use entry_record::Prepared;
use heading_rows::{Heading, Headings};
use marc_types::NoMemory;
use std::alloc::Global;
use std::marker::Model;

/// The entries from a place of a history on, each as a heading. Contracts see the place and the entries.
#[derive(Drop)]
pub struct News {
    start: u64,
    headings: Vec<Heading>,
}

impl Model for News {
    ghost use Rattle.durable_catalogue.specs.News.{KeptNews};

    ghost Value = { KeptNews };

    ghost view = { λ n. record { start = n.start; entries = n.headings.items } };
}

/// Puts the headings of entries behind others, up to the first for which there is no memory.
fn append_each(
    alloc: Global,
    headings: &mut Vec<Heading>,
    items: &[Prepared],
) -> Result<(), NoMemory>
    ensures added { OnOk result (headings.new.items ≡ headings.old.items ++ items.now) }
    ensures begins { IsPrefix headings.old.items headings.new.items }
{
    for item in items {
        headings.push(Heading::of_prepared(alloc, item)?)?;
    }
    Ok(())
}

/// The same headings, for one more owner each.
fn again_each(alloc: Global, headings: &[Heading]) -> Result<Headings, NoMemory>
    ensures { IfOk result (λ twins. twins ≡ headings.now) }
{
    let mut twins = Vec::with_capacity(alloc, headings.len())?;
    for heading in headings {
        twins.push(heading.again()?)?;
    }
    Ok(Headings::from_vec(twins))
}

impl News {
    /// Of no entry yet; so many stand before the first.
    pub fn new(alloc: Global, start: u64) -> News
        ensures { result ≡ record { start = start; entries = [] } }
    {
        News {
            start,
            headings: Vec::new(alloc),
        }
    }

    /// The place of the first entry.
    pub fn start(&self) -> u64
        ensures { result ≡ self.now.start }
    {
        self.start
    }

    /// The first `most` entries behind the first `passed`.
    pub fn part(&self, alloc: Global, passed: u64, most: u32) -> Result<Headings, NoMemory>
        ensures { IfOk result (λ part. part ≡ take most (drop passed self.now.entries)) }
    {
        let all = self.headings.as_slice();
        let from = all.len().min(passed as usize);
        let rest = &all[from..];
        let count = rest.len().min(most as usize);
        again_each(alloc, &rest[..count])
    }

    /// Puts entries behind. Want of memory changes nothing.
    #[tactic(auto, using(crate::proofs::KeptNews::cut_back))]
    fn add(&mut self, alloc: Global, items: &[Prepared]) -> Result<(), NoMemory>
        ensures ok { OnOk result (self.new ≡ and_entries items.now self.old) }
        ensures err { OnErr result (self.new ≡ self.old) }
    {
        let before = self.headings.len();
        let added = append_each(alloc, &mut self.headings, items);
        if added.is_err() {
            self.headings.truncate(before);
        }
        added
    }
}

/// Puts entries behind, where news is kept. Want of memory changes nothing.
pub fn add_news(alloc: Global, news: &mut Option<News>, items: &[Prepared]) -> Result<(), NoMemory>
    ensures ok { OnOk result (news.new ≡ option_map (and_entries items.now) news.old) }
    ensures err { OnErr result (news.new ≡ news.old) }
{
    match news {
        Some(news) => news.add(alloc, items),
        None => Ok(()),
    }
}

/// Takes the last so many entries away again, where news is kept.
pub fn cut_news(news: &mut Option<News>, count: u32)
    ensures { CutsNews news.old count news.new }
{
    if let Some(news) = news {
        let kept = news.headings.len().saturating_sub(count as usize);
        news.headings.truncate(kept);
    }
}
