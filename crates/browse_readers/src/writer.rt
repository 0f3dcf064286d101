//! The one writer of the two copies, and its readers.
ghost use Rattle.std.specs.Prelude.{◌≡◌, ◌<◌, ◌++◌, ◌∷◌, [], List, true, false, fold, length, All, IfOk, OnOk, OnErr};
ghost use Rattle.marc_types.specs.declared.entry.Entry.{Entry};
ghost use Rattle.left_right.specs.Handles.{published, pending};
ghost use Rattle.heading_rows.specs.Listing.{table_of};
ghost use Rattle.browse_readers.specs.Browsing.{page_after};

use crate::board::{Addition, Board};
use crate::book::{Book, Front, Naming, Opened};
use crate::reader::BrowseReader;
use crate::shared::Shared;
use heading_rows::{BrowsePage, Heading, Headings, Table};
use left_right::{Absorb, WriteHandle};
use marc_types::{Entry, Form, NoMemory, Sequence};
use std::alloc::Global;
use std::marker::Model;
use std::sync::Wait;

/// The readers that were opened with a writer.
pub type Readers<J> = Sequence<BrowseReader<Shared<J>>>;

/// Takes entries, and publishes them to its readers at once. Contracts see the list that it has taken, and whether it is spent.
#[derive(Drop)]
pub struct BrowseWriter<J: Naming, R: Wait + Drop>
where
    Board<J>: Absorb<Addition<J>, State = [Entry; 0]>,
{
    handle: WriteHandle<Board<J>, Addition<J>, R>,
    book: Book<J>,
    taken: Front<J>,
    spent: bool,
}

impl<J: Naming, R: Wait + Drop> Model for BrowseWriter<J, R>
where
    Board<J>: Absorb<Addition<J>, State = [Entry; 0]>,
{
    ghost use Rattle.std.specs.Prelude.{◌≡◌, [], false};
    ghost use Rattle.left_right.specs.Handles.{published, pending};
    ghost use Rattle.browse_readers.specs.Browsing.{Writing};

    ghost Value = { Writing };

    ghost view = { λ w. record { taken = w.taken; spent = w.spent } };

    ghost invariant = { λ w. (published w.handle ≡ w.taken) × (w.spent ≡ false → pending w.handle ≡ []) };
}

#[tactic(auto, using(crate::proofs::Taken::fold_last))]
/// Adds an entry to the front, and keeps the change for the copies.
fn append_one<J: Naming, R: Wait + Drop>(
    handle: &mut WriteHandle<Board<J>, Addition<J>, R>,
    book: &Book<J>,
    front: &mut Front<J>,
    heading: Heading,
) -> Result<(), NoMemory>
    ensures published { published handle.new ≡ published handle.old }
    ensures front { OnOk result (front.new ≡ front.old ++ heading ∷ []) }
    ensures pending { OnOk result ((entries : List Entry) → fold (λ list addition. addition) entries (pending handle.new) ≡ front.new) }
{
    let before = front.again();
    if !front.add(book, &heading) {
        return Err(NoMemory);
    }
    let addition = Addition {
        heading,
        before,
        after: front.again(),
    };
    handle.append(addition).map_err(|_| NoMemory)
}

/// Adds entries to the front one by one.
fn append_all<J: Naming, R: Wait + Drop>(
    handle: &mut WriteHandle<Board<J>, Addition<J>, R>,
    book: &Book<J>,
    front: &mut Front<J>,
    headings: Headings,
) -> Result<(), NoMemory>
    requires { fold (λ list addition. addition) (published handle.old) (pending handle.old) ≡ front.old }
    ensures published { published handle.new ≡ published handle.old }
    ensures front { OnOk result (front.new ≡ front.old ++ headings) }
    ensures pending { OnOk result (fold (λ list addition. addition) (published handle.new) (pending handle.new) ≡ front.new) }
{
    for heading in headings.into_vec() {
        append_one(handle, book, front, heading)?;
    }
    Ok(())
}

impl<J: Naming, R: Wait + Drop> BrowseWriter<J, R> {
    /// Takes entries behind those that it took, and publishes them at once; it may wait for readers. Want of memory leaves the list
    /// that it took, and what readers are shown, as they were, and spends the writer, since what was refused stays pending.
    pub fn take(&mut self, headings: Headings) -> Result<(), NoMemory>
        requires { self.old.spent ≡ false }
        ensures ok { OnOk result (self.new ≡ record { taken = self.old.taken ++ headings; spent = false }) }
        ensures err { OnErr result (self.new ≡ record { taken = self.old.taken; spent = true }) }
    {
        self.spent = true;
        let mut front = self.taken.again();
        append_all(&mut self.handle, &self.book, &mut front, headings)?;
        self.handle.publish()?;
        self.taken = front;
        self.spent = false;
        Ok(())
    }

    /// Whether memory failed it. It then takes no more.
    pub fn is_spent(&self) -> bool
        ensures { result ≡ self.now.spent }
    {
        self.spent
    }

    /// How many entries the list has that it took.
    #[tactic(auto, using(heading_rows::proofs::Tables::upto_is_length))]
    pub fn taken(&self) -> u64
        ensures { result ≡ length self.now.taken }
    {
        self.handle.published().table().upto()
    }

    /// The list that it took, as a mark.
    pub fn tell(&mut self) -> Front<J>
        ensures told { result ≡ self.old.taken }
        ensures same { self.new ≡ self.old }
    {
        self.taken.again()
    }

    /// A page of the list that it took, without a reader.
    #[tactic(auto, using(crate::proofs::Taken::page_is))]
    pub fn page(&self, alloc: Global, from: &Form, most: u32) -> Result<BrowsePage, NoMemory>
        ensures { IfOk result (λ page. page ≡ page_after self.now.taken from.now most) }
    {
        self.handle.published().table().page(alloc, from, most)
    }

    fn reader(&self) -> BrowseReader<Shared<J>>
        ensures { result.known ≡ self.now.taken }
    {
        BrowseReader::new(Shared::new(self.handle.handle().ok(), self.taken.again()))
    }
}

/// So many readers, of which each has seen what the writer took.
fn make_readers<J: Naming, R: Wait + Drop>(
    alloc: Global,
    writer: &BrowseWriter<J, R>,
    count: u32,
) -> Result<Readers<J>, NoMemory>
    ensures count { IfOk result (λ readers. length readers ≡ count) }
    ensures begins { IfOk result (λ readers. All (λ reader. reader.known ≡ writer.now.taken) readers) }
{
    let mut readers = Vec::with_capacity(alloc, count as usize)?;
    'places: while readers.len() < count as usize {
        readers.push(writer.reader())?;
    }
    Ok(Readers::from_vec(readers))
}

/// A writer that has taken a list, and its readers. The two tables are that list's.
pub fn open_browse<J: Naming, R: Wait + Drop>(
    alloc: Global,
    rt: R,
    opened: Opened,
    tables: (Table, Table),
    count: u32,
) -> Result<(BrowseWriter<J, R>, Readers<J>), NoMemory>
    requires readers { 0 < count }
    requires book { opened.seen.book ≡ J.book }
    requires tables { (tables.0 ≡ table_of J.base) × (tables.1 ≡ table_of J.base) }
    ensures writer { IfOk result (λ made. made.0 ≡ record { taken = J.base; spent = false }) }
    ensures count { IfOk result (λ made. length made.1 ≡ count) }
    ensures begins { IfOk result (λ made. All (λ reader. reader.known ≡ J.base) made.1) }
{
    let (book, front) = opened.named::<J>();
    let (one, other) = tables;
    let first = Board::new(alloc, one, front.again());
    let second = Board::new(alloc, other, front.again());
    let handle = WriteHandle::new(alloc, rt, first, second, count as usize)?;
    let writer = BrowseWriter {
        handle,
        book,
        taken: front,
        spent: false,
    };
    let readers = make_readers(alloc, &writer, count)?;
    Ok((writer, readers))
}
