ghost use Rattle.std.specs.Prelude.{◌≡◌};
ghost use Rattle.unheld_journals.specs.Untaken.{fault_of_look, fault_of_reading};

use console_lines::Fault;
use durable_catalogue::OpenFault;
use memory_files::ReadFault;

/// Why a journal's bytes aren't had, as the console tells it.
pub fn fault_of_reading(fault: ReadFault) -> Fault
    ensures { result ≡ fault_of_reading fault }
{
    match fault {
        ReadFault::InputFault => Fault::Input,
        ReadFault::NoMemory => Fault::Memory,
    }
}

/// Why a journal's bytes aren't taken, as the console tells it. They are in memory, so that no device but memory fails them.
pub fn fault_of_look(fault: OpenFault) -> Fault
    ensures { result ≡ fault_of_look fault }
{
    match fault {
        OpenFault::NotAJournal(place) => Fault::NotAJournal(place),
        OpenFault::OldVersion => Fault::OldVersion,
        OpenFault::Full => Fault::Full,
        OpenFault::DeviceFault | OpenFault::NoMemory => Fault::Memory,
    }
}
