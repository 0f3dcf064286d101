ghost use Rattle.std.specs.Prelude.{◌≡◌, OnOk};
ghost use Rattle.std.specs.Io.KnownBytes.{Appends};
ghost use Rattle.outside.specs.Fault.{HasCause};
ghost use Rattle.outside.specs.Sink.{WritesFront};
ghost use Rattle.console_lines.specs.Faults.{fault_status, fault_line, TellsFault};

use crate::end::End;
use crate::numbered::write_numbered;
use outside::{Failed, Sink};

/// Why a command ends before its end, where the console tells it.
#[derive(Clone, Copy, Debug, PartialEq, Eq)]
pub enum Fault {
    /// The words are no command.
    Usage,
    /// An input failed.
    Input,
    /// A log failed.
    Device,
    /// The log is no journal: the first fault is at that byte.
    NotAJournal(u64),
    /// The catalogue takes no more.
    Full,
    /// Memory ran out.
    Memory,
    /// The journal has an older version.
    OldVersion,
    /// The new journal holds another history than the old one.
    OtherHistory,
}

impl Fault {
    /// The exit status.
    pub fn status(self) -> u8
        ensures { result ≡ fault_status self }
    {
        match self {
            Fault::Usage => 2,
            Fault::Input => 3,
            Fault::Device => 5,
            Fault::NotAJournal(_) => 6,
            Fault::Full => 7,
            Fault::Memory => 8,
            Fault::OldVersion => 9,
            Fault::OtherHistory => 10,
        }
    }
}

fn write_fault<K: Sink>(console: &mut K, fault: Fault) -> Result<(), Failed>
    ensures line { OnOk result (Appends (K.written console.old) (K.written console.new) (fault_line fault)) }
    ensures front { WritesFront (K.written console.old) (K.written console.new) (fault_line fault) }
    ensures cause { HasCause (K.faults console.old) (K.faults console.new) result }
{
    match fault {
        Fault::Usage => console.write_all(b"union_cat: usage\n"),
        Fault::Input => console.write_all(b"union_cat: input fault\n"),
        Fault::Device => console.write_all(b"union_cat: device fault\n"),
        Fault::NotAJournal(place) => write_numbered(
            console,
            b"union_cat: not a journal at ",
            place,
        ),
        Fault::Full => console.write_all(b"union_cat: full\n"),
        Fault::Memory => console.write_all(b"union_cat: out of memory\n"),
        Fault::OldVersion => console.write_all(b"union_cat: wrong journal version\n"),
        Fault::OtherHistory => console.write_all(b"union_cat: other history\n"),
    }
}

/// Tells a fault on the console, as far as that can be written, and ends with it. It takes no memory.
pub fn tell<K: Sink>(console: &mut K, fault: Fault) -> End
    ensures end { result ≡ End.Told fault }
    ensures told { TellsFault K.written K.faults console.old console.new fault }
{
    // A failure to write the line changes nothing.
    let _ = write_fault(console, fault);
    End::Told(fault)
}
