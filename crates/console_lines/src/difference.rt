//! The line of parts of a catalogue that differ.
ghost use Rattle.std.specs.Prelude.{◌≡◌, OnOk};
ghost use Rattle.std.specs.Io.KnownBytes.{Appends};
ghost use Rattle.outside.specs.Fault.{HasCause};
ghost use Rattle.outside.specs.Sink.{WritesFront};
ghost use Rattle.console_lines.specs.Faults.{IsFaultTold};
ghost use Rattle.console_lines.specs.Lines.{differ_front, differ_line};

use crate::end::End;
use itoa::Buffer;
use outside::{Failed, Sink};

/// Writes the line up to the name of the file.
fn write_place<K: Sink>(console: &mut K, place: u64) -> Result<(), Failed>
    ensures line { OnOk result (Appends (K.written console.old) (K.written console.new) (differ_front place)) }
    ensures front { WritesFront (K.written console.old) (K.written console.new) (differ_front place) }
    ensures cause { HasCause (K.faults console.old) (K.faults console.new) result }
{
    console.write_all(b"union_cat: parts differ at ")?;
    console.write_all(Buffer::new().format(place).as_bytes())?;
    console.write_all(b" of ")
}

fn write_difference<K: Sink>(console: &mut K, place: u64, name: &str) -> Result<(), Failed>
    ensures line { OnOk result (Appends (K.written console.old) (K.written console.new) (differ_line place name.now)) }
    ensures front { WritesFront (K.written console.old) (K.written console.new) (differ_line place name.now) }
    ensures cause { HasCause (K.faults console.old) (K.faults console.new) result }
{
    write_place(console, place)?;
    console.write_all(name.as_bytes())?;
    console.write_all(b"\n")
}

/// Tells on the console that parts of a catalogue differ, at that byte of the file of that name, as far as it can be written, and ends so.
/// It takes no memory.
pub fn tell_difference<K: Sink>(console: &mut K, place: u64, name: &str) -> End
    ensures end { result ≡ End.Differ }
    ensures told { IsFaultTold (K.written console.old) (K.written console.new) (K.faults console.old) (K.faults console.new)
        (differ_line place name.now) }
{
    // A failure to write the line changes nothing.
    let _ = write_difference(console, place, name);
    End::Differ
}
