//! How the command ends whose outputs were written so.
ghost use Rattle.std.specs.Prelude.{◌≡◌, OnOk, IsErrOf};
ghost use Rattle.console_lines.specs.Faults.{IsFaultTold, fault_line};
ghost use Rattle.console_lines.specs.declared.end.Unwritten.{Unwritten};

use console_lines::{End, Fault, OutputsFault, tell};
use outside::Sink;

/// The end of a command whose outputs were written so. Only want of memory is told.
pub(crate) fn end_of_both<K: Sink>(console: &mut K, written: Result<(), OutputsFault>) -> End
    ensures done { OnOk written (result ≡ End.Done) }
    ensures failed { (which : Unwritten) → IsErrOf written (OutputsFault.Unwritten which) → result ≡ End.Unwritten which }
    ensures memory { IsErrOf written OutputsFault.NoMemory → result ≡ End.Told Fault.Memory }
    ensures told { IsErrOf written OutputsFault.NoMemory →
        IsFaultTold (K.written console.old) (K.written console.new) (K.faults console.old) (K.faults console.new) (fault_line Fault.Memory) }
    ensures silent { (IsErrOf written OutputsFault.NoMemory → ⊥) →
        (K.written console.new ≡ K.written console.old) × (K.faults console.new ≡ K.faults console.old) }
{
    match written {
        Ok(()) => End::Done,
        Err(OutputsFault::Unwritten(which)) => End::Unwritten(which),
        Err(OutputsFault::NoMemory) => tell(console, Fault::Memory),
    }
}
