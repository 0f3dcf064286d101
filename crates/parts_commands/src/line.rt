//! The line that tells numbers, and the last line of a report.
ghost use Rattle.std.specs.Prelude.{◌≡◌, ◌++◌, ◌≤◌, length, IfOk, OnOk};
ghost use Rattle.std.specs.Fmt.{decimal};
ghost use Rattle.catalogue_parts.specs.Joined.{line_of_totals};
ghost use Rattle.parts_commands.specs.Reports.{IsLastLine};
ghost use Rattle.parts_commands.specs.Reading.{numbers_of};

use crate::sums::Sums;
use itoa::Buffer;
use marc_types::NoMemory;
use memchr::memrchr;
use std::alloc::Global;

const LINE_FEED: u8 = 0x0A;

/// Where the last line begins.
#[tactic(auto, using(crate::proofs::LastLines::found_last, crate::proofs::LastLines::found_none))]
pub(crate) fn last_line(bytes: &[u8]) -> usize
    ensures last { IsLastLine bytes.now result }
    ensures within { result ≤ length bytes.now }
{
    let end = bytes.len().saturating_sub(1);
    match memrchr(LINE_FEED, &bytes[..end]) {
        Some(at) => at + 1,
        None => 0,
    }
}

fn add_number(line: &mut Vec<u8>, word: &str, number: u128) -> Result<(), NoMemory>
    ensures { OnOk result (line.new.items ≡ line.old.items ++ word.now ++ decimal number) }
{
    line.extend_from_slice(word.as_bytes())?;
    line.extend_from_slice(Buffer::new().format(number).as_bytes())?;
    Ok(())
}

/// The line that tells these numbers.
pub(crate) fn totals_line(alloc: Global, sums: &Sums) -> Result<Vec<u8>, NoMemory>
    ensures { IfOk result (λ line. line.items ≡ line_of_totals (numbers_of sums.now)) }
{
    let mut line = Vec::new(alloc);
    add_number(&mut line, "TOTAL authorities=", sums.authorities)?;
    add_number(&mut line, " bibliographic=", sums.bibliographic)?;
    add_number(&mut line, " linked=", sums.linked)?;
    add_number(&mut line, " ambiguous=", sums.ambiguous)?;
    add_number(&mut line, " unlinked=", sums.unlinked)?;
    line.push(LINE_FEED)?;
    Ok(line)
}
