ghost use Rattle.std.specs.Prelude.{◌≡◌, ◌≤◌, false, IfOk, IfErr};
ghost use Rattle.std.specs.Borrow.{sem};
ghost use Rattle.std.specs.Io.BufRead.{Rests};
ghost use Rattle.marc_stream.specs.Stream.{opened};
ghost use Rattle.marc_stream.specs.Next.{NextGives};
ghost use Rattle.marc_stream.specs.contracts.pieces.Pieces.{the_row};

use crate::scan::Cut;
use crate::window::Window;
use marc_types::{NoMemory, Refusal};
use outside::{Failed, Source};
use std::alloc::Global;
use std::marker::Model;

/// What stands next in a file. Ordinals count items from 1, offsets count bytes of the file from 0.
#[derive(Clone, Copy, Debug)]
pub enum Next<'a> {
    /// A piece: all its bytes, its terminator the last of them.
    Piece {
        ordinal: u64,
        offset: u64,
        bytes: &'a [u8],
    },
    /// What stands in a piece's place: `Overlong`, or `Unfinished` at the end of the file.
    Refused {
        ordinal: u64,
        offset: u64,
        refusal: Refusal,
    },
    /// No item is left.
    End,
    /// The source failed before the next item was known.
    ReadFault,
}

/// The items of a source's bytes, one after another.
#[derive(Drop)]
pub struct Pieces<S: Source> {
    window: Window<S>,
    answered: u64,
    over: bool,
}

impl<S: Source> Model for Pieces<S> {
    ghost use Rattle.marc_stream.specs.Stream.{Stream, stream_of, IsCounted};

    ghost Value = { Stream };

    ghost view = { λ p. stream_of p.answered p.over p.window };

    ghost invariant = { λ p. IsCounted p.answered p.window };
}

impl<S: Source> Pieces<S> {
    /// The items of the source's bytes from its next byte on. The buffer is taken here; where there is no memory for it,
    /// the source comes back.
    pub fn new(alloc: Global, source: S) -> Result<Pieces<S>, (S, NoMemory)>
        ensures opened { IfOk result (λ pieces. pieces ≡ opened (S.left source) (S.bound source) (S.faults source)) }
        ensures back { IfErr result (λ refused. refused.0 ≡ source) }
    {
        Ok(Pieces {
            window: Window::new(alloc, source)?,
            answered: 0,
            over: false,
        })
    }

    /// Answers the next item. After `End` and `ReadFault` there is no next call.
    pub fn next(&mut self) -> Next<'_>
        requires { self.old.over ≡ false }
        ensures* gives { sem 𝓛 (Rests (the_row S.row S.Source) self.entry (λ new. NextGives self.old result new)) }
    {
        match self.window.cut() {
            Ok(Some(Cut::Piece { offset, len })) => {
                self.answered += 1;
                Next::Piece {
                    ordinal: self.answered,
                    offset,
                    bytes: self.window.last(len),
                }
            }
            Ok(Some(Cut::Refused { offset, refusal })) => {
                self.answered += 1;
                Next::Refused {
                    ordinal: self.answered,
                    offset,
                    refusal,
                }
            }
            Ok(None) => {
                self.over = true;
                Next::End
            }
            Err(Failed) => {
                self.over = true;
                Next::ReadFault
            }
        }
    }

    /// Whether `End` or `ReadFault` was answered.
    pub fn is_over(&self) -> bool
        ensures { result ≡ self.now.over }
    {
        self.over
    }

    /// Gives the source back.
    pub fn finish(self) -> S
        ensures left { S.left result ≡ self.left }
        ensures faults { S.faults result ≡ self.faults }
        ensures bound { S.bound result ≤ self.most }
    {
        let Pieces {
            window,
            answered: _,
            over: _,
        } = self;
        window.into_source()
    }
}
