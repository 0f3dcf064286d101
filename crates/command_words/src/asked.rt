use crate::library::{Libraries, Library};
use crate::topic::Topic;
use marc_types::{Kind, NoMemory, Text};

/// What the words of a command ask for. Names of files are those of the words.
#[derive(Drop)]
pub enum Request<'a> {
    /// A command that starts no threads.
    Alone(AloneRequest<'a>),
    /// One that loads files side by side.
    Load(LoadRequest<'a>),
    /// One that does so while a reader pages through the headings.
    Browse(BrowseRequest<'a>),
}

/// What a command asks for that starts no threads.
#[derive(Drop)]
pub enum AloneRequest<'a> {
    /// Pass the records of a library's file through an empty catalogue, into the file `out`.
    Pass {
        library: Library,
        out: &'a str,
    },
    /// Look into a journal that is held, and write what is found.
    Held(HeldLook<'a>),
    /// Write the workload of that seed into the file `out`; it has at most 1,048,576 records.
    Make {
        seed: u64,
        count: u64,
        out: &'a str,
    },
    /// Tell what the journal has, and write nothing.
    Verify {
        journal: &'a str,
    },
    /// Tell whether the bytes of the journal's first entries, so many, have this SHA-256, which is 64 hexadecimal digits, and write nothing.
    VerifyDigest {
        journal: &'a str,
        count: u64,
        digest: &'a str,
    },
    /// Bring the history of the journal `old` into the journal `new`.
    Migrate {
        old: &'a str,
        new: &'a str,
    },
    /// Bring what is sound of the bytes of the damaged journal `journal` into the journal `new`; `journal` is an input.
    Salvage {
        journal: &'a str,
        new: &'a str,
    },
    /// Take a journal and a log of its checkpoints.
    Point(PointRequest<'a>),
    /// Look into a journal that is an input, and isn't held, and write what is found.
    Unheld(UnheldLook<'a>),
    /// Write the pieces of a library's file that a pass refuses, as they stand, into the file `out`.
    Refused {
        library: Library,
        out: &'a str,
    },
    /// Take the parts of a catalogue.
    Parts(PartsRequest<'a>),
    /// Tell how the commands are used, or one of them.
    Help {
        topic: Topic,
    },
    /// Tell which version of the program this is.
    Version,
}

/// What is looked for in a journal that is held.
#[derive(Drop)]
pub enum HeldLook<'a> {
    /// Write the journal's records into the file `out`: those under keys with that code, or all.
    Export {
        journal: &'a str,
        out: &'a str,
        code: Option<&'a str>,
    },
    /// Write the report on the journal's records into the file `out`.
    Report {
        journal: &'a str,
        out: &'a str,
    },
    /// Write which of the journal's records share a number into the file `out`.
    Matches {
        journal: &'a str,
        out: &'a str,
    },
    /// Write the journal's records with the holdings of a file behind them.
    Holdings(HoldingsRequest<'a>),
    /// Write the journal's headings of a range into the file `out`.
    Headings {
        journal: &'a str,
        range: HeadingRange<'a>,
        out: &'a str,
    },
    /// Write the journal's headings that aren't linked into the file `list`, of all records or of those under keys with that code, and
    /// what is to be seen of the catalogue into the file `page`.
    Worklist {
        journal: &'a str,
        list: &'a str,
        page: &'a str,
        code: Option<&'a str>,
    },
}

/// What is done with a journal and a log of its checkpoints.
#[derive(Clone, Copy, Debug, PartialEq, Eq)]
pub enum PointRequest<'a> {
    /// Tell whether the last checkpoint of the log `point` is one of the journal, and write nothing.
    Verify {
        journal: &'a str,
        point: &'a str,
    },
    /// Put a checkpoint of the journal's catalogue behind the log `point`.
    Checkpoint {
        journal: &'a str,
        point: &'a str,
    },
    /// Write the journal's records into the file `out`, from the last checkpoint of the log `point` and the entries behind it.
    Quick {
        journal: &'a str,
        point: &'a str,
        out: &'a str,
    },
    /// The same, and the report on the journal's records into the file `report`.
    QuickReport {
        journal: &'a str,
        point: &'a str,
        out: &'a str,
        report: &'a str,
    },
}

/// What is done with the parts of a catalogue.
#[derive(Drop)]
pub enum PartsRequest<'a> {
    /// Tell the last line of the whole's report, from the report `first` of its authorities alone and those of its parts, at least one.
    Totals {
        first: &'a str,
        reports: &'a [Text],
    },
    /// Write the exports of the parts of a catalogue, at least one, into the file `out`, the authorities once.
    Join {
        out: &'a str,
        exports: &'a [Text],
    },
    /// Write the pieces of the files of 1 to 64 libraries into the files of so many parts, 2 to 1,024, whose names begin with `prefix`.
    Split {
        count: u64,
        prefix: &'a str,
        libraries: Libraries,
    },
}

/// What is looked for in a journal that is an input, and isn't held.
#[derive(Drop)]
pub enum UnheldLook<'a> {
    /// Write what is looked for into the file `out`.
    Read {
        look: Look<'a>,
        journal: &'a str,
        out: &'a str,
    },
    /// Write the journal's records with the holdings of a file behind them.
    Holdings(HoldingsRequest<'a>),
    /// Write the journal's worklist.
    Worklist {
        journal: &'a str,
        list: &'a str,
        page: &'a str,
        code: Option<&'a str>,
    },
}

/// What is looked for in a journal that isn't held.
#[derive(Clone, Copy, Debug, PartialEq, Eq)]
pub enum Look<'a> {
    /// Its records: of all keys, or of those with that code.
    Export(Option<&'a str>),
    /// The report on its records.
    Report,
    /// Which of its records share a number.
    Matches,
    /// Its headings of a range.
    Headings(HeadingRange<'a>),
}

/// Which headings are listed: those of a kind, from the place of a heading on that is typed as text, 1 to 100,000 at most.
#[derive(Clone, Copy, Debug, PartialEq, Eq)]
pub struct HeadingRange<'a> {
    pub kind: Kind,
    pub from: &'a str,
    pub most: u64,
}

/// Write the journal's records with the holdings of a library's file behind them into the file `out`, those under keys with that code or
/// all, and the holdings whose record it doesn't have into the file `rest`.
#[derive(Drop)]
pub struct HoldingsRequest<'a> {
    pub journal: &'a str,
    pub out: &'a str,
    pub rest: &'a str,
    pub library: Library,
    pub code: Option<&'a str>,
}

/// Load the files of 1 to 64 libraries into the journal; and then, where there are outputs, write them.
#[derive(Drop)]
pub struct LoadRequest<'a> {
    pub journal: &'a str,
    pub libraries: Libraries,
    pub outputs: Option<Outputs<'a>>,
}

/// Load the files of 1 to 64 libraries into the journal, while a reader pages through its headings; then write the outputs, and the
/// pages into the file `pages`.
#[derive(Drop)]
pub struct BrowseRequest<'a> {
    pub journal: &'a str,
    pub libraries: Libraries,
    pub outputs: Outputs<'a>,
    pub pages: &'a str,
}

/// The files into which the export and the report of the journal are written.
#[derive(Clone, Copy, Debug, PartialEq, Eq)]
pub struct Outputs<'a> {
    pub out: &'a str,
    pub report: &'a str,
}

/// Why words ask for nothing that can be done.
#[derive(Clone, Copy, Debug, PartialEq, Eq)]
pub enum Unasked {
    /// They are no command.
    Usage,
    /// There is no memory for the libraries of their files.
    NoMemory,
}

impl From<NoMemory> for Unasked {
    ghost use Rattle.std.specs.Prelude.{◌≡◌};
    ghost use Rattle.command_words.specs.declared.asked.Unasked.{Unasked};

    ghost from_gives = { λ _ why. why ≡ Unasked.NoMemory };

    fn from(_error: NoMemory) -> Unasked {
        Unasked::NoMemory
    }
}
