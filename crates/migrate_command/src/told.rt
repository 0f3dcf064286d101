ghost use Rattle.std.specs.Prelude.{◌≡◌};
ghost use Rattle.migrate_command.specs.Told.{fault_of_migrating};

use crate::MigrateFault;
use console_lines::Fault;

/// A migration's fault, as the console tells it.
pub fn fault_of_migrating(fault: MigrateFault) -> Fault
    ensures { result ≡ fault_of_migrating fault }
{
    match fault {
        MigrateFault::DeviceFault => Fault::Device,
        MigrateFault::NotAJournal(place) => Fault::NotAJournal(place),
        MigrateFault::OldVersion => Fault::OldVersion,
        MigrateFault::Full => Fault::Full,
        MigrateFault::NotPrefix => Fault::OtherHistory,
        MigrateFault::NoMemory => Fault::Memory,
    }
}
