//! A catalogue over a journal.
ghost use Rattle.std.specs.Prelude.{◌≡◌, ◌≢◌, ℕ, ◌++◌, List, [], true, false, Some, is_some, length, All, IfOk, IfErr, IfSome, OnOk, OnErr, None, ◌≤◌};
ghost use Rattle.std.proofs.Props.{props};
ghost use Rattle.marc_types.specs.declared.entry.Entry.{Entry};
ghost use Rattle.marc_types.specs.declared.entry.CommitFault.TheVariants.{DeviceFault};
ghost use Rattle.outside.specs.Fault.{Rose};
ghost use Rattle.commit_journal.specs.Journal.{IsDurableLog};
ghost use Rattle.commit_journal.specs.Log.{version_of};
ghost use Rattle.commit_journal.specs.declared.version.Version.TheVariants.{Two};
ghost use Rattle.entry_record.specs.History.{next_run, IsWithin};
ghost use Rattle.catalogue_rules.specs.Receipts.{receipts_behind};
ghost use Rattle.entry_history.specs.Payloads.{CanFollow};
ghost use Rattle.durable_catalogue.specs.Logs.{HasHistory};
ghost use Rattle.durable_catalogue.specs.declared.fault.OpenFault.{OpenFault};
ghost use Rattle.durable_catalogue.specs.Opened.{IsOpenedDisk, IsRefusedDisk};
ghost use Rattle.durable_catalogue.specs.Lasting.{GoesOn};
ghost use Rattle.durable_catalogue.specs.News.{IsNewsOf, kept_or_begun, start_of};
ghost use Rattle.durable_catalogue.specs.Durables.{mark_of, marked, is_taken, TookNothing, IsKept, IsLeft, IsLostBy, IsSameOpening};

use crate::effects::{Effects, LoaderEffects};
use crate::fitting::fitting_part;
use crate::loading::{Loaded, load, run_behind};
use crate::news::{News, add_news, cut_news};
use crate::opening::{begin_log, take_log};
use crate::question::{Ask, Told, tell_since, tell_status};
use crate::staging::stage_all;
use crate::{OnClose, OpenFault};
use catalogue_core::Catalogue;
use catalogue_lock::Object;
use commit_journal::Journal;
use entry_history::laws::each_can_stand_in_a_payload;
use entry_history::{Batch, BatchReply, Event, Receipts};
use marc_types::{CommitFault, Limits, NoMemory};
use outside::Disk;
use std::alloc::Global;
use std::marker::Brand;
use std::snapshot::Snapshot;
use std::sync::ledger::Blank;

/// A catalogue whose entries outlast a crash: each commit is in the journal before it is acknowledged.
#[derive(Drop)]
pub struct Durable<D: Disk> {
    alloc: Global,
    core: Catalogue,
    journal: Journal<D>,
    // The run of all that is committed.
    run: u64,
    // How many entries there were at the opening.
    opened: u64,
    // The frame that a device failed to take.
    mark: Option<Snapshot<Batch>>,
    // The entries that were committed since news was asked for.
    news: Option<News>,
    // What the entries of each loader did that were committed since the opening.
    effects: LoaderEffects,
    // The disk as it was handed over, and as the journal's opening left it.
    before: Snapshot<D>,
    first: Snapshot<Journal<D>>,
    ghost unstaged: { core.staged ≡ [] },
    ghost newest: { journal.version ≡ Two },
    ghost broken: { journal.broken ≡ is_some mark },
    ghost follows: { CanFollow core.history run },
    ghost is_news: { IfSome news (IsNewsOf core.history) } by { Prim.hlevel props },
    ghost kept: { IsKept opened core.history (marked (mark_of mark)) (D.seen before.value) (D.seen first.value.disk) (D.seen journal.disk) },
    ghost rose: { is_some mark ≡ true → Rose (D.seen before.value).faults (D.seen journal.disk).faults },
    ghost few: { length (marked (mark_of mark)) ≤ 32 },
    ghost within: { IsWithin core.limits (core.history ++ marked (mark_of mark)) },
}

/// A commit that added nothing.
fn nothing(alloc: Global, end: CommitFault) -> BatchReply
    ensures receipts { result.receipts ≡ [] }
    ensures end { result.end ≡ Some end }
{
    BatchReply {
        receipts: Receipts::from_vec(Vec::new(alloc)),
        end: Some(end),
    }
}

impl<D: Disk> Durable<D> {
    ghost use Rattle.durable_catalogue.specs.Calls.{has_told};
    ghost use Rattle.durable_catalogue.specs.Views.{durable_view, frame_for, IsAnsweredBatch, LeavesFrameOrNot, LeavesBatchOrNot, HoldsCommitted, HasCommitted};

    /// Opens a log that a crash may have left: its history is the catalogue's. A fault hands the disk back. A crash during an
    /// opening that has synced leaves the same history.
    pub fn open(alloc: Global, disk: D, limits: Limits) -> Result<Self, (D, OpenFault)>
        // The catalogue has the log's history, within the limits, with no mark and nothing staged.
        ensures history { IfOk result (λ d. (log : List ℕ) → (D.seen disk).content ≡ Some log → HasHistory d.core.history log) }
        ensures version { IfOk result (λ d. (log : List ℕ) → (D.seen disk).content ≡ Some log → version_of log ≡ 2) }
        ensures within { IfOk result (λ d. IsWithin limits d.core.history) }
        ensures unmarked { IfOk result (λ d. mark_of d.mark ≡ None) }
        ensures unasked { IfOk result (λ d. d.news ≡ None) }

        // What the origin has: the limits, the run that comes next, the number of entries, and the disk as it was.
        ensures limits { IfOk result (λ d. d.core.limits ≡ limits) }
        ensures run { IfOk result (λ d. d.run ≡ next_run d.core.history) }
        ensures opened { IfOk result (λ d. d.opened ≡ length d.core.history) }
        ensures before { IfOk result (λ d. d.before.value ≡ disk) }
        ensures first { IfOk result (λ d. d.first.value ≡ d.journal) }

        // The log is in order, and what was read of it is durable; or it was refused, and is left alone: Full only where it is of version 2.
        ensures disk { IfOk result (λ d. IsOpenedDisk (D.seen disk) (D.seen d.journal.disk)) }
        ensures refused { IfErr result (λ e. IsRefusedDisk limits (D.seen disk) (D.seen e.0) e.1) }
        ensures old_first { IfErr result (λ e. e.1 ≡ OpenFault.Full → (log : List ℕ) → (D.seen disk).content ≡ Some log → version_of log ≡ 2) }
    {
        let before = Snapshot::of(&disk);
        let begun = begin_log(alloc, disk)?;
        let (found, loaded) = load(alloc, begun, limits)?;
        let journal = take_log(found)?;
        let first = Snapshot::of(&journal);
        let Loaded { core, last_run } = loaded;
        let run = run_behind(&core, last_run);
        let opened = core.history_len();
        Ok(Durable {
            alloc,
            core,
            journal,
            run,
            opened,
            mark: None,
            news: None,
            effects: LoaderEffects::none(),
            before,
            first,
        })
    }

    /// From now on the headings of all entries that are committed are kept, so that these can be asked for, if they weren't already.
    pub fn keep_news(&mut self)
        ensures news { self.new.news ≡ Some (kept_or_begun self.old.news (length self.old.core.history)) }

        // Nothing else changes.
        ensures core { self.new.core ≡ self.old.core }
        ensures mark { self.new.mark ≡ self.old.mark }
        ensures journal { self.new.journal ≡ self.old.journal }
        ensures stays { IsSameOpening self.old.core.limits self.old.run self.old.opened self.new.core.limits self.new.run self.new.opened }
        ensures before { self.new.before ≡ self.old.before }
        ensures first { self.new.first ≡ self.old.first }
    {
        if self.news.is_none() {
            self.news = Some(News::new(self.alloc, self.core.history_len()));
        }
    }

    /// The catalogue, with nothing staged.
    pub fn core(&self) -> &Catalogue
        ensures value { result.now ≡ self.now.core }
        ensures unstaged { result.now.staged ≡ [] }
    {
        &self.core
    }

    /// What the entries of a loader did to the records under their keys that were committed since the opening; nothing of a loader with a
    /// greater number than 63.
    pub fn effects(&self, loader: u32) -> Effects {
        self.effects.of(loader)
    }

    /// The history is within the limits. This is a law for proofs; the call only looks at the catalogue.
    pub fn is_within_limits(&self)
        ensures { IsWithin self.now.core.limits self.now.core.history }
    {
        self.core().is_within_limits();
    }

    /// What a crash may leave of the log, whenever this is asked: each image has all that was committed, and each since the opening's first
    /// sync has all that was there at the opening. This is a law for proofs; the call does nothing.
    #[tactic(auto, using(crate::proofs::Keeping::left_of))]
    pub fn is_kept(&self)
        ensures { IsLeft (durable_view self.now).opened self.now.core.history (marked (mark_of self.now.mark)) (D.seen self.now.journal.disk) }
    {}

    /// Gives the disk back, with all that was committed.
    #[tactic(auto, using(crate::proofs::Keeping::left_of))]
    pub fn close(self, memory: OnClose) -> D
        ensures disk { result ≡ self.journal.disk }
        ensures left { IsLeft (durable_view self).opened self.core.history (marked (mark_of self.mark)) (D.seen result) }
        ensures few { length (marked (mark_of self.mark)) ≤ 32 }

        // Without a mark the log ends with its closed gate, and is all that a crash may leave; it has exactly the history.
        ensures settled { self.mark ≡ None → IsDurableLog self.journal.place 2 (D.seen result) }
        ensures whole { self.mark ≡ None → (log c : List ℕ) → (D.seen result).content ≡ Some log → (D.seen result).image c → HasHistory self.core.history c }
        ensures cause { is_some self.mark ≡ true → Rose (D.seen self.before.value).faults (D.seen result).faults }
    {
        let Durable {
            journal,
            core,
            news,
            ..
        } = self;
        memory.end(core);
        memory.end(news);
        journal.close()
    }

    /// Commits all entries of a frame, or none: they are staged, then in the journal, and then history.
    fn commit_frame(&mut self, alloc: Global, frame: Batch) -> Result<Receipts, CommitFault>
        requires whole { is_some self.old.mark ≡ false }
        requires some { frame ≢ [] }
        requires run { All (λ e. e.run ≡ self.old.run) frame }
        requires within { IsWithin self.old.core.limits (self.old.core.history ++ frame) }
        ensures receipts { IfOk result (λ r. r ≡ receipts_behind self.old.core.history frame) }
        ensures added { OnOk result (self.new.core.history ≡ self.old.core.history ++ frame) }
        ensures unmarked { OnOk result (self.new.mark ≡ self.old.mark) }
        ensures nothing { OnErr result (self.new.core.history ≡ self.old.core.history) }
        ensures fault { IfErr result (λ fault. IsLostBy fault (mark_of self.new.mark) frame) }
        ensures crash { (log : List ℕ) → (D.seen self.old.journal.disk).content ≡ Some log → LeavesFrameOrNot self.old self.new frame log }
        ensures quiet { IfErr result (λ fault. fault ≢ DeviceFault → self.new.journal ≡ self.old.journal) }
        ensures later { (D.seen self.old.journal.disk).moment ≤ (D.seen self.new.journal.disk).moment }
        ensures cause { IfErr result (λ fault. fault ≡ DeviceFault → Rose (D.seen self.old.journal.disk).faults (D.seen self.new.journal.disk).faults) }
        ensures stays { IsSameOpening self.old.core.limits self.old.run self.old.opened self.new.core.limits self.new.run self.new.opened }
        ensures news { start_of self.new.news ≡ start_of self.old.news }
        ensures before { self.new.before ≡ self.old.before }
        ensures first { self.new.first ≡ self.old.first }
    {
        let mark = Snapshot::of(&frame);
        let count = frame.len();
        let prepared = frame.items();
        each_can_stand_in_a_payload(prepared);
        // before anything is written, so that want of memory changes nothing
        let Ok(()) = add_news(alloc, &mut self.news, prepared) else {
            return Err(CommitFault::NoMemory);
        };
        let (items, payload) = frame.into_parts();
        let effects = &mut self.effects;
        let Ok(receipts) = stage_all::<Brand>(&mut self.core, alloc, items, effects, Blank::new(1))
        else {
            cut_news(&mut self.news, count);
            return Err(CommitFault::NoMemory);
        };
        let appended = self.journal.append(payload.as_slice());
        match appended {
            Ok(()) => {
                self.core.keep();
                self.effects.end_frame();
                Ok(receipts)
            }
            Err(_) => {
                self.core.undo();
                cut_news(&mut self.news, count);
                self.mark = Some(mark);
                Err(CommitFault::DeviceFault)
            }
        }
    }

    /// Commits a batch that isn't empty, in a frame of its own: all entries, or those before the first that would pass a limit.
    /// A crash leaves the history before, or that and all of the frame; after an end that is none or Full it leaves that and
    /// the frame. After DeviceFault nobody knows which until the next opening, and each further commit is Broken. Want of
    /// memory changes nothing.
    pub fn commit(&mut self, alloc: Global, batch: Batch) -> BatchReply
        requires { batch ≢ [] }

        // The reply, and what it adds to the history.
        ensures reply { IsAnsweredBatch self.old self.new batch result }

        // Each image at each moment of the call, and the images at its end where the frame is committed.
        ensures crash { LeavesBatchOrNot self.old self.new batch }
        ensures all { HasCommitted self.new result.end }

        // Each image at the end of the call has all that was committed by then, whatever this call and those before it answered.
        ensures held { HoldsCommitted self.new }

        // What was committed before stays at each moment of the call, whatever it answers; an end that is none or Full says that the
        // frame is committed too, and behind a device fault at most 32 entries are in doubt.
        ensures goes_on { GoesOn (has_told self.old) self.old.core.history self.new.core.history (D.seen self.old.journal.disk) (D.seen self.new.journal.disk) }
        ensures taken { is_taken result.end ≡ true → self.new.core.history ≡ self.old.core.history ++ frame_for self.old batch }
        ensures few { length (marked (mark_of self.new.mark)) ≤ 32 }

        // A commit that took nothing made no call on the disk, unless a device failed in it.
        ensures quiet { TookNothing result → self.new.journal ≡ self.old.journal }

        // A device fault comes only where the count of faults rose; what the opening left stays.
        ensures cause { result.end ≡ Some DeviceFault → Rose (D.seen self.old.journal.disk).faults (D.seen self.new.journal.disk).faults }
        ensures stays { IsSameOpening self.old.core.limits self.old.run self.old.opened self.new.core.limits self.new.run self.new.opened }
        ensures news { start_of self.new.news ≡ start_of self.old.news }
        ensures before { self.new.before ≡ self.old.before }
        ensures first { self.new.first ≡ self.old.first }
    {
        if self.journal.is_broken() {
            return nothing(alloc, CommitFault::Broken);
        }
        let mut batch = batch;
        batch.set_run(self.run);
        let len = batch.len();
        let Some(frame) = fitting_part(&self.core, batch) else {
            return nothing(alloc, CommitFault::Full);
        };
        let end = if frame.len() < len {
            Some(CommitFault::Full)
        } else {
            None
        };
        match self.commit_frame(alloc, frame) {
            Ok(receipts) => BatchReply { receipts, end },
            Err(fault) => nothing(alloc, fault),
        }
    }
}

/// Its items are the committed entries, and the mark where a device failed; a call is a batch that isn't empty; a question
/// is how a field stands, or which entries there are from a place on.
impl<D: Disk> Object for Durable<D> {
    ghost use Rattle.std.specs.Prelude.{◌≢◌, []};
    ghost use Rattle.entry_history.specs.Commits.{IsCommit};
    ghost use Rattle.durable_catalogue.specs.Durables.{mark_of, events, opening};
    ghost use Rattle.durable_catalogue.specs.News.{start_of};
    ghost use Rattle.durable_catalogue.specs.Asked.{Beginning, IsAnswered};

    type Item = Event;

    type Call = Batch;

    type Reply = BatchReply;

    type Question = Ask;

    type Answer = Result<Told, NoMemory>;

    ghost Origin = { Beginning };

    ghost history = { λ d. events d.core.history (mark_of d.mark) };

    ghost origin = { λ d. record {
      opening = opening d.core.limits d.run d.opened (D.seen d.before.value) (D.seen d.first.value.disk);
      news = start_of d.news;
    } };

    ghost takes = { λ batch. batch ≢ [] };

    ghost replies = { λ o before batch reply added. IsCommit o.opening.origin before batch reply added };

    ghost answers = { λ o history question answer. IsAnswered o.news history question answer };

    fn apply(&mut self, batch: Batch) -> BatchReply {
        let alloc = self.alloc;
        self.commit(alloc, batch)
    }

    fn look(&self, question: &Ask) -> Result<Told, NoMemory> {
        match question {
            Ask::Status(place) => tell_status(self.alloc, &self.core, place),
            Ask::Since { from, most } => tell_since(self.alloc, &self.news, *from, *most),
        }
    }

    fn count(&self) -> u64 {
        let entries = self.core.history_len();
        if self.journal.is_broken() {
            entries + 1
        } else {
            entries
        }
    }
}
