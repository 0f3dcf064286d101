ghost use Rattle.std.specs.Prelude.{◌≡◌, ◌≤◌, false, IsTrue, IfOk, IfErr};
ghost use Rattle.marc_types.specs.Valid.{is_code};
ghost use Rattle.marc_stream.specs.Stream.{opened};
ghost use Rattle.file_entries.specs.Entries.{view_of, IsSameFile, EntryGives};

use crate::refused::RefusedItem;
use entry_record::Prepared;
use marc_stream::{Next, Pieces};
use marc_types::{NoMemory, RecordFault, Text};
use outside::Source;
use reading::prepare;
use std::alloc::Global;
use std::marker::Model;

/// What becomes of the next item of a file.
#[derive(Debug, Drop)]
pub enum NextEntry {
    /// The item is the piece of this entry, which a catalogue takes.
    Entry(Prepared),
    Refused(RefusedItem),
    /// No item is left.
    End,
    /// The source failed before the next item was known.
    ReadFault,
    /// There was no memory for the item's entry, and the item may be lost.
    NoMemory,
}

/// The entries of a source's bytes, which are a file of one library, as one loader brings them.
#[derive(Drop)]
pub struct FileEntries<S: Source> {
    pieces: Pieces<S>,
    library: Text,
    loader: u32,
    over: bool,
}

impl<S: Source> Model for FileEntries<S> {
    ghost use Rattle.file_entries.specs.Entries.{FileView, view_of, IsFile};

    ghost Value = { FileView };

    ghost view = { λ f. view_of f.pieces f.library f.loader f.over };

    ghost invariant = { λ f. IsFile f.pieces f.library f.over };
}

impl<S: Source> FileEntries<S> {
    /// The entries of the source's bytes from its next byte on. The buffer is taken here; where there is no memory for it,
    /// the source comes back.
    pub fn new(
        alloc: Global,
        source: S,
        library: Text,
        loader: u32,
    ) -> Result<FileEntries<S>, (S, NoMemory)>
        requires library { IsTrue (is_code library) }
        ensures opened { IfOk result (λ file. file ≡ view_of (opened (S.left source) (S.bound source) (S.faults source)) library loader false) }
        ensures back { IfErr result (λ refused. refused.0 ≡ source) }
    {
        Ok(FileEntries {
            pieces: Pieces::new(alloc, source)?,
            library,
            loader,
            over: false,
        })
    }

    /// Answers what becomes of the next item. After `End`, `ReadFault` and `NoMemory` there is no next call.
    pub fn next(&mut self, alloc: Global) -> NextEntry
        requires { self.old.over ≡ false }
        ensures same { IsSameFile self.old self.new }
        ensures gives { EntryGives self.old result self.new }
    {
        match self.pieces.next() {
            Next::Piece {
                ordinal,
                offset,
                bytes,
            } => match prepare(alloc, bytes, &self.library, self.loader, ordinal) {
                Ok(prepared) => NextEntry::Entry(prepared),
                Err(RecordFault::Refused(refusal)) => NextEntry::Refused(RefusedItem {
                    ordinal,
                    offset,
                    refusal,
                }),
                Err(RecordFault::NoMemory) => {
                    self.over = true;
                    NextEntry::NoMemory
                }
            },
            Next::Refused {
                ordinal,
                offset,
                refusal,
            } => NextEntry::Refused(RefusedItem {
                ordinal,
                offset,
                refusal,
            }),
            Next::End => {
                self.over = true;
                NextEntry::End
            }
            Next::ReadFault => {
                self.over = true;
                NextEntry::ReadFault
            }
        }
    }

    /// Whether `End`, `ReadFault` or `NoMemory` was answered.
    pub fn is_over(&self) -> bool
        ensures { result ≡ self.now.over }
    {
        self.over
    }

    /// Gives the source back.
    pub fn finish(self) -> S
        ensures left { S.left result ≡ self.stream.left }
        ensures faults { S.faults result ≡ self.stream.faults }
        ensures bound { S.bound result ≤ self.stream.most }
    {
        let FileEntries { pieces, .. } = self;
        pieces.finish()
    }
}
