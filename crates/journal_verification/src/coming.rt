//! The bytes of an input as they come, with as many as are looked at together in memory.
ghost use Rattle.std.specs.Prelude.{◌≡◌, ℕ, ◌+◌, ◌<◌, ◌≤◌, ◌^◌, List, [], ◌++◌, take, drop, length, true, false, IfOk, OnOk};
ghost use Rattle.sha2.specs.Hashers.{Holds256};
ghost use Rattle.sha2.specs.Sha256.{sha256};
ghost use Rattle.journal_verification.specs.Coming.{Comes, HasMore, HasNoMore, HasReadCause};

use crate::fault::ReadFault;
use marc_types::NoMemory;
use outside::Source;
use sha2::{Digest, Sha256};
use std::alloc::Global;

/// The most bytes that one read asks for.
const MOST_AT_ONCE: usize = 8192;

/// The bytes of an input that are still to come.
#[derive(Drop)]
pub struct Coming<S: Source> {
    source: S,
    // Those that were read and not passed.
    window: Vec<u8>,
    // How many were passed or skipped.
    place: u64,
    // It has taken those that were passed.
    hasher: Sha256,
    ghost room: { place + length window.items + S.bound source < 2 ^ 64 },
}

impl<S: Source> Coming<S> {
    /// The bytes of a journal, of which none is read yet.
    pub fn new(alloc: Global, source: S) -> Coming<S>
        ensures source { result.source ≡ source }
        ensures window { result.window.items ≡ [] }
        ensures place { result.place ≡ 0 }
        ensures hashed { Holds256 result.hasher [] }
    {
        let _most = source.remaining();
        Coming {
            source,
            window: Vec::new(alloc),
            place: 0,
            hasher: Sha256::new(),
        }
    }

    /// The bytes that were read and not passed.
    pub fn window(&self) -> &[u8]
        ensures { result.now ≡ self.now.window.items }
    {
        self.window.as_slice()
    }

    /// How many bytes were passed or skipped.
    pub fn place(&self) -> u64
        ensures value { result ≡ self.now.place }
        ensures room { result + length self.now.window.items < 2 ^ 64 }
    {
        self.place
    }

    /// The SHA-256 of the bytes that were passed.
    pub fn digest(&self) -> Result<[u8; 32], NoMemory>
        ensures { IfOk result (λ digest. (passed : List ℕ) → Holds256 self.now.hasher passed → digest ≡ sha256 passed) }
    {
        let hasher = self.hasher.clone()?;
        Ok(hasher.finalize())
    }

    /// Gives the input back.
    pub fn close(self) -> S
        ensures { result ≡ self.source }
    {
        let coming = self;
        coming.source
    }

    /// Reads some more bytes, at most so many; `Ok(false)` at the end.
    fn read_more(&mut self, most: usize) -> Result<bool, ReadFault>
        requires { 0 < most }
        ensures more { IfOk result (λ some. some ≡ true →
            HasMore self.old.window.items self.new.window.items (S.bound self.old.source) (S.bound self.new.source)) }
        ensures end { IfOk result (λ some. some ≡ false → HasNoMore self.old.window.items self.new.window.items (S.left self.old.source)) }
        ensures comes { OnOk result ((b : List ℕ) → Comes self.old.window.items (S.left self.old.source) b →
            Comes self.new.window.items (S.left self.new.source) b) }
        ensures place { self.new.place ≡ self.old.place }
        ensures hasher { self.new.hasher ≡ self.old.hasher }
        ensures cause { HasReadCause (S.faults self.old.source) (S.faults self.new.source) result }
    {
        let mut chunk = [0; MOST_AT_ONCE];
        let asked = most.min(MOST_AT_ONCE);
        let count = self.source.read(&mut chunk[..asked])?;
        if count == 0 {
            return Ok(false);
        }
        self.window.extend_from_slice(&chunk[..count])?;
        Ok(true)
    }

    /// Reads until there are so many bytes in the window, and answers whether as many came.
    pub fn fill(&mut self, count: usize) -> Result<bool, ReadFault>
        ensures filled { IfOk result (λ all. all ≡ true → count ≤ length self.new.window.items) }
        ensures end { IfOk result (λ all. all ≡ false → (b : List ℕ) → Comes self.old.window.items (S.left self.old.source) b →
            (b ≡ self.new.window.items) × (length b < count)) }
        ensures grows { OnOk result (length self.old.window.items ≤ length self.new.window.items) }
        ensures comes { OnOk result ((b : List ℕ) → Comes self.old.window.items (S.left self.old.source) b →
            Comes self.new.window.items (S.left self.new.source) b) }
        ensures place { self.new.place ≡ self.old.place }
        ensures hasher { self.new.hasher ≡ self.old.hasher }
        ensures cause { HasReadCause (S.faults self.old.source) (S.faults self.new.source) result }
    {
        while self.window.len() < count {
            let missing = count - self.window.len();
            if !self.read_more(missing)? {
                return Ok(false);
            }
        }
        Ok(true)
    }

    /// Goes on behind so many bytes of the window, which are in no digest.
    #[tactic(auto, using(crate::proofs::Comings::comes_behind))]
    pub fn skip(&mut self, count: usize)
        requires { count ≤ length self.old.window.items }
        ensures window { self.new.window.items ≡ drop count self.old.window.items }
        ensures place { self.new.place ≡ self.old.place + count }
        ensures source { self.new.source ≡ self.old.source }
        ensures hasher { self.new.hasher ≡ self.old.hasher }
        ensures comes { (b : List ℕ) → Comes self.old.window.items (S.left self.old.source) b →
            Comes self.new.window.items (S.left self.new.source) (drop count b) }
    {
        let kept = self.window.len() - count;
        self.window.rotate_left(count);
        self.window.truncate(kept);
        self.place += count as u64;
    }

    /// Passes so many bytes of the window.
    pub fn pass(&mut self, count: usize)
        requires { count ≤ length self.old.window.items }
        ensures window { self.new.window.items ≡ drop count self.old.window.items }
        ensures place { self.new.place ≡ self.old.place + count }
        ensures source { self.new.source ≡ self.old.source }
        ensures hashed { (passed : List ℕ) → Holds256 self.old.hasher passed →
            Holds256 self.new.hasher (passed ++ take count self.old.window.items) }
        ensures comes { (b : List ℕ) → Comes self.old.window.items (S.left self.old.source) b →
            Comes self.new.window.items (S.left self.new.source) (drop count b) }
    {
        self.hasher.update(&self.window[..count]);
        self.skip(count);
    }

    /// Reads all bytes, and answers how many the input had, those that were passed or skipped included.
    pub fn total(&mut self) -> Result<u64, ReadFault>
        ensures total { IfOk result (λ total. (b : List ℕ) → Comes self.old.window.items (S.left self.old.source) b →
            total ≡ self.old.place + length b) }
        ensures cause { HasReadCause (S.faults self.old.source) (S.faults self.new.source) result }
    {
        while self.fill(MOST_AT_ONCE)? {
            self.skip(MOST_AT_ONCE);
        }
        Ok(self.place + self.window.len() as u64)
    }
}
