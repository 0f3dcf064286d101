ghost use Rattle.std.specs.Prelude.{◌≡◌};
ghost use Rattle.marc_types.specs.Limits.{limits_of};

use crate::copying::{NoMemory, TryCopy};
use crate::key::{Class, Key};
use crate::record::Record;
use crate::sequence::Sequence;
use crate::text::Text;
use crate::tied_key::TiedKey;
use std::alloc::Global;

/// What the catalogue keeps beside a field: the key of the authority that governs it, whether that authority governs the
/// heading with its subdivisions, and the key of an authority that is awaited in the place of a former one.
#[derive(Debug, Drop, PartialEq, Eq)]
pub struct Tie {
    pub key: Option<TiedKey>,
    pub whole: bool,
    pub awaits: Option<TiedKey>,
}

/// The ties of a record's fields, one each.
pub type Links = Sequence<Tie>;

/// A committed record: which loader brought it as which piece of its file (from 1), its class and key, in which run, and
/// the library code of its file.
#[derive(Debug, Drop)]
pub struct Entry {
    pub loader: u32,
    pub ordinal: u64,
    pub rec: Record,
    pub class: Class,
    pub key: Key,
    pub run: u64,
    pub library: Text,
}

/// Entries in the order of their commits.
pub type Entries = Sequence<Entry>;

/// What one commit did: the number of entries before it; of the committed record's heading fields, how many are linked,
/// ambiguous and unlinked; and how many other records it changed.
#[derive(Clone, Copy, Debug, PartialEq, Eq)]
pub struct Receipt {
    pub at: u64,
    pub linked: u32,
    pub ambiguous: u32,
    pub unlinked: u32,
    pub changed_records: u64,
}

/// The most that a catalogue takes: entries, and bytes of all entries. The numbers are this project's own.
#[derive(Clone, Copy, Debug, PartialEq, Eq)]
pub struct Limits {
    pub entries: u64,
    pub bytes: u64,
}

impl Limits {
    /// What a catalogue takes by itself: 1,048,576 entries, of 536,870,912 bytes in all.
    pub const PLAIN: Limits = Limits {
        entries: 1_048_576,
        bytes: 536_870_912,
    };

    /// What a large catalogue takes, the most of any: 134,217,728 entries, of 137,438,953,472 bytes in all.
    pub const LARGE: Limits = Limits {
        entries: 134_217_728,
        bytes: 137_438_953_472,
    };

    /// The limits of a catalogue, large or not.
    pub fn of(large: bool) -> Limits
        ensures { result ≡ limits_of large }
    {
        if large { Limits::LARGE } else { Limits::PLAIN }
    }
}

/// Why a durable commit answers no receipt.
#[derive(Clone, Copy, Debug, PartialEq, Eq)]
pub enum CommitFault {
    Full,
    NoMemory,
    DeviceFault,
    Broken,
}

impl TryCopy for Tie {
    fn copy(&self, alloc: Global) -> Result<Self, NoMemory> {
        Ok(Tie {
            key: self.key.copy(alloc)?,
            whole: self.whole,
            awaits: self.awaits.copy(alloc)?,
        })
    }
}

impl TryCopy for Entry {
    fn copy(&self, alloc: Global) -> Result<Self, NoMemory> {
        Ok(Entry {
            loader: self.loader,
            ordinal: self.ordinal,
            rec: self.rec.copy(alloc)?,
            class: self.class,
            key: self.key.copy(alloc)?,
            run: self.run,
            library: self.library.copy(alloc)?,
        })
    }
}
