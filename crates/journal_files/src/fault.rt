ghost use Rattle.std.specs.Prelude.{◌≡◌};
ghost use Rattle.journal_files.specs.Faults.{fault_of_opening};

use console_lines::Fault;
use durable_catalogue::OpenFault;

/// An opening's fault, as the console tells it.
pub fn fault_of_opening(fault: OpenFault) -> Fault
    ensures { result ≡ fault_of_opening fault }
{
    match fault {
        OpenFault::DeviceFault => Fault::Device,
        OpenFault::NotAJournal(place) => Fault::NotAJournal(place),
        OpenFault::OldVersion => Fault::OldVersion,
        OpenFault::Full => Fault::Full,
        OpenFault::NoMemory => Fault::Memory,
    }
}
