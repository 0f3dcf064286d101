//! How a command ends that wrote its output, or tells its results.
ghost use Rattle.std.specs.Prelude.{◌≡◌, OnOk, IsErrOf};
ghost use Rattle.console_lines.specs.Ends.{TellsResult, TellsNothing, out_unwritten};
ghost use Rattle.console_lines.specs.Faults.{TellsFault};
ghost use Rattle.console_lines.specs.declared.end.Unwritten.{Unwritten};

use crate::end::{End, OutputsFault, Unwritten};
use crate::fault::{Fault, tell};
use outside::{Sink, WriteFault};

/// Tells the console the text of what was done, and ends by whether something was refused.
pub fn tell_result<K: Sink>(console: &mut K, text: &str, refused: bool) -> End
    ensures { TellsResult K.written K.faults console.old console.new text.now refused result }
{
    match console.write_all(text.as_bytes()) {
        Ok(()) => End::of(refused),
        Err(_) => End::Unwritten(Unwritten::Console),
    }
}

/// The end of a command whose output was written so. Only want of memory is told.
pub fn end_of_output<K: Sink>(console: &mut K, written: Result<(), WriteFault>) -> End
    ensures done { OnOk written (result ≡ End.Done) }
    ensures failed { IsErrOf written WriteFault.OutputFault → result ≡ out_unwritten }
    ensures memory { IsErrOf written WriteFault.NoMemory → result ≡ End.Told Fault.Memory }
    ensures told { IsErrOf written WriteFault.NoMemory → TellsFault K.written K.faults console.old console.new Fault.Memory }
    ensures silent { (IsErrOf written WriteFault.NoMemory → ⊥) → TellsNothing K.written K.faults console.old console.new }
{
    match written {
        Ok(()) => End::Done,
        Err(WriteFault::OutputFault) => End::Unwritten(Unwritten::Out),
        Err(WriteFault::NoMemory) => tell(console, Fault::Memory),
    }
}

/// The end of a command whose outputs were written so: the console is told the text, or want of memory; nothing where an output could
/// not be written.
pub fn end_of_outputs<K: Sink>(
    console: &mut K,
    written: Result<(), OutputsFault>,
    text: &str,
    refused: bool,
) -> End
    ensures whole { OnOk written (TellsResult K.written K.faults console.old console.new text.now refused result) }
    ensures unwritten { (which : Unwritten) → IsErrOf written (OutputsFault.Unwritten which) → result ≡ End.Unwritten which }
    ensures silent { (which : Unwritten) → IsErrOf written (OutputsFault.Unwritten which) →
        TellsNothing K.written K.faults console.old console.new }
    ensures memory { IsErrOf written OutputsFault.NoMemory → result ≡ End.Told Fault.Memory }
    ensures told { IsErrOf written OutputsFault.NoMemory → TellsFault K.written K.faults console.old console.new Fault.Memory }
{
    match written {
        Ok(()) => tell_result(console, text, refused),
        Err(OutputsFault::Unwritten(which)) => End::Unwritten(which),
        Err(OutputsFault::NoMemory) => tell(console, Fault::Memory),
    }
}
