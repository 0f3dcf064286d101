ghost use Rattle.std.specs.Prelude.{◌≡◌, ◌≤◌, false, IfOk, IfErr};
ghost use Rattle.marc_stream.specs.Stream.{opened};
ghost use Rattle.file_holdings.specs.Items.{file_of, HoldingGives};

use crate::piece::prepare_holding;
use crate::refused::RefusedHolding;
use holdings::{Holding, HoldingFault, HoldingRefusal};
use marc_stream::{Next, Pieces};
use marc_types::{NoMemory, Text};
use outside::Source;
use std::alloc::Global;
use std::marker::Model;

/// What becomes of the next item of a file. Ordinals count items from 1.
#[derive(Debug, Drop)]
pub enum NextHolding {
    /// The item is the piece of this holding.
    Holding { ordinal: u64, item: Holding },
    Refused(RefusedHolding),
    /// No item is left.
    End,
    /// The source failed before the next item was known.
    ReadFault,
    /// There was no memory for the item's holding, and the item may be lost.
    NoMemory,
}

/// The holdings of a source's bytes, which are a file of one library.
#[derive(Drop)]
pub struct FileHoldings<S: Source> {
    pieces: Pieces<S>,
    library: Text,
    over: bool,
}

impl<S: Source> Model for FileHoldings<S> {
    ghost use Rattle.file_holdings.specs.Items.{HoldingFile, file_of, IsGoing};

    ghost Value = { HoldingFile };

    ghost view = { λ f. file_of f.pieces f.library f.over };

    ghost invariant = { λ f. IsGoing f.pieces f.over };
}

impl<S: Source> FileHoldings<S> {
    /// The holdings of the source's bytes from its next byte on. The buffer is taken here; where there is no memory for it,
    /// the source comes back.
    pub fn new(alloc: Global, source: S, library: Text) -> Result<FileHoldings<S>, (S, NoMemory)>
        ensures opened { IfOk result (λ file. file ≡ file_of (opened (S.left source) (S.bound source) (S.faults source)) library false) }
        ensures back { IfErr result (λ refused. refused.0 ≡ source) }
    {
        Ok(FileHoldings {
            pieces: Pieces::new(alloc, source)?,
            library,
            over: false,
        })
    }

    /// Answers what becomes of the next item. After `End`, `ReadFault` and `NoMemory` there is no next call.
    pub fn next(&mut self, alloc: Global) -> NextHolding
        requires { self.old.over ≡ false }
        ensures same { self.new.library ≡ self.old.library }
        ensures gives { HoldingGives self.old result self.new }
    {
        match self.pieces.next() {
            Next::Piece {
                ordinal,
                offset,
                bytes,
            } => match prepare_holding(alloc, bytes, &self.library) {
                Ok(item) => NextHolding::Holding { ordinal, item },
                Err(HoldingFault::Refused(refusal)) => NextHolding::Refused(RefusedHolding {
                    ordinal,
                    offset,
                    refusal,
                }),
                Err(HoldingFault::NoMemory) => {
                    self.over = true;
                    NextHolding::NoMemory
                }
            },
            Next::Refused {
                ordinal,
                offset,
                refusal,
            } => NextHolding::Refused(RefusedHolding {
                ordinal,
                offset,
                refusal: HoldingRefusal::OfRecord(refusal),
            }),
            Next::End => {
                self.over = true;
                NextHolding::End
            }
            Next::ReadFault => {
                self.over = true;
                NextHolding::ReadFault
            }
        }
    }

    /// Whether `End`, `ReadFault` or `NoMemory` was answered.
    pub fn is_over(&self) -> bool
        ensures { result ≡ self.now.over }
    {
        self.over
    }

    /// Gives the source back.
    pub fn finish(self) -> S
        ensures left { S.left result ≡ self.stream.left }
        ensures faults { S.faults result ≡ self.stream.faults }
        ensures bound { S.bound result ≤ self.stream.most }
    {
        let FileHoldings { pieces, .. } = self;
        pieces.finish()
    }
}
