//! The report of a state, as a document.
ghost use Rattle.std.specs.Prelude.{◌≡◌, [], IfOk};
ghost use Rattle.catalogue_rules.specs.Settle.{state_of};
ghost use Rattle.catalogue_rules.specs.Output.{report_of};

use ambiguity_report::write_state_report;
use catalogue_core::{Catalogue, Engine};
use marc_types::NoMemory;
use outside::ByteSink;
use std::alloc::Global;

/// The report of a state, made in memory.
pub fn state_report_bytes(alloc: Global, engine: &Engine) -> Result<Vec<u8>, NoMemory>
    ensures { IfOk result (λ bytes. bytes.items ≡ report_of engine.now.state) }
{
    let mut made = ByteSink::new(alloc);
    match write_state_report(alloc, engine, &mut made) {
        Ok(()) => Ok(made.into_bytes()),
        // A call on this sink that fails finds no memory.
        Err(_) => Err(NoMemory),
    }
}

/// The report of the state behind a catalogue's history, of which nothing is staged, made in memory.
pub fn report_bytes(alloc: Global, core: &Catalogue) -> Result<Vec<u8>, NoMemory>
    requires { core.now.staged ≡ [] }
    ensures { IfOk result (λ bytes. bytes.items ≡ report_of (state_of core.now.history)) }
{
    state_report_bytes(alloc, core.engine())
}
