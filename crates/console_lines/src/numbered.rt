//! Lines of words and numbers.
ghost use Rattle.std.specs.Prelude.{◌++◌, ◌∷◌, [], OnOk};
ghost use Rattle.std.specs.Fmt.{decimal};
ghost use Rattle.std.specs.Io.KnownBytes.{Appends};
ghost use Rattle.outside.specs.Fault.{HasCause};
ghost use Rattle.outside.specs.Sink.{WritesFront};
ghost use Rattle.console_lines.specs.Lines.{checkpoint_line, resumed_line};

use itoa::Buffer;
use outside::{Failed, Sink};

/// Writes a line of words and a number behind them, in three pieces, so that it takes no memory.
pub fn write_numbered<K: Sink>(console: &mut K, words: &[u8], number: u64) -> Result<(), Failed>
    ensures line { OnOk result (Appends (K.written console.old) (K.written console.new) (words.now ++ decimal number ++ 10 ∷ [])) }
    ensures front { WritesFront (K.written console.old) (K.written console.new) (words.now ++ decimal number ++ 10 ∷ []) }
    ensures cause { HasCause (K.faults console.old) (K.faults console.new) result }
{
    console.write_all(words)?;
    console.write_all(Buffer::new().format(number).as_bytes())?;
    console.write_all(b"\n")
}

/// Writes the line of a checkpoint. It takes no memory.
pub fn write_checkpoint<K: Sink>(console: &mut K, count: u64) -> Result<(), Failed>
    ensures line { OnOk result (Appends (K.written console.old) (K.written console.new) (checkpoint_line count)) }
    ensures front { WritesFront (K.written console.old) (K.written console.new) (checkpoint_line count) }
    ensures cause { HasCause (K.faults console.old) (K.faults console.new) result }
{
    write_numbered(console, b"checkpoint ", count)
}

/// Writes the line of an export that a checkpoint spared so many entries. It takes no memory.
pub fn write_resumed<K: Sink>(console: &mut K, taken: u64, count: u64) -> Result<(), Failed>
    ensures line { OnOk result (Appends (K.written console.old) (K.written console.new) (resumed_line taken count)) }
    ensures front { WritesFront (K.written console.old) (K.written console.new) (resumed_line taken count) }
    ensures cause { HasCause (K.faults console.old) (K.faults console.new) result }
{
    console.write_all(b"resumed ")?;
    console.write_all(Buffer::new().format(taken).as_bytes())?;
    write_numbered(console, b" of ", count)
}
