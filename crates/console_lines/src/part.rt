//! The line of a new journal that got a part of what was to be brought.
ghost use Rattle.std.specs.Prelude.{◌≡◌};
ghost use Rattle.console_lines.specs.Faults.{IsFaultTold};
ghost use Rattle.console_lines.specs.Lines.{part_line};

use crate::end::End;
use outside::Sink;

/// Tells on the console that the new journal got a part of what was to be brought, as far as it can be written, and ends so. It takes no
/// memory.
pub fn tell_part<K: Sink>(console: &mut K) -> End
    ensures end { result ≡ End.BroughtInPart }
    ensures told { IsFaultTold (K.written console.old) (K.written console.new) (K.faults console.old) (K.faults console.new) part_line }
{
    // A failure to write the line changes nothing.
    let _ = console.write_all(b"union_cat: brought in part\n");
    End::BroughtInPart
}
