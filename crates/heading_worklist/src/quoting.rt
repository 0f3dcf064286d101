//! The cells of a line, one behind the other.
ghost use Rattle.std.specs.Prelude.{◌≡◌, ◌++◌, OnOk};
ghost use Rattle.heading_worklist.specs.Csv.{cell_bytes, is_risky, line_end, quoted, shown, then_cell};

use std::alloc::AllocError;

/// The mark at the front of a list, by which spreadsheets know UTF-8.
pub const MARK: [u8; 3] = [0xEF, 0xBB, 0xBF];

const QUOTE: u8 = b'"';

const APOSTROPHE: u8 = b'\'';

fn is_risky(byte: u8) -> bool
    ensures { result ≡ is_risky byte }
{
    matches!(
        byte,
        b'=' | b'+' | b'-' | b'@' | b'\t' | b'\n' | b'\r' | APOSTROPHE
    )
}

/// Bytes between quotes: each quote is doubled.
fn add_quoted(line: &mut Vec<u8>, text: &[u8]) -> Result<(), AllocError>
    ensures { OnOk result (line.new.items ≡ line.old.items ++ quoted text.now) }
{
    for byte in text {
        if *byte == QUOTE {
            line.push(QUOTE)?;
        }
        line.push(*byte)?;
    }
    Ok(())
}

/// A text as its cell shows it.
#[tactic(auto, unfolding(crate::specs::Csv::shown))]
fn add_shown(line: &mut Vec<u8>, text: &[u8]) -> Result<(), AllocError>
    ensures { OnOk result (line.new.items ≡ line.old.items ++ quoted (shown text.now)) }
{
    if let [first, ..] = text {
        if is_risky(*first) {
            line.push(APOSTROPHE)?;
        }
    }
    add_quoted(line, text)
}

fn add_first(line: &mut Vec<u8>, text: &[u8]) -> Result<(), AllocError>
    ensures { OnOk result (line.new.items ≡ line.old.items ++ cell_bytes text.now) }
{
    line.push(QUOTE)?;
    add_shown(line, text)?;
    line.push(QUOTE)?;
    Ok(())
}

/// Begins a line with the cell of a text. What stood in `line` goes.
pub fn begin_line(line: &mut Vec<u8>, text: &[u8]) -> Result<(), AllocError>
    ensures { OnOk result (line.new.items ≡ cell_bytes text.now) }
{
    line.clear();
    add_first(line, text)
}

/// The cell of a text, behind another.
pub fn add_cell(line: &mut Vec<u8>, text: &[u8]) -> Result<(), AllocError>
    ensures { OnOk result (line.new.items ≡ line.old.items ++ then_cell text.now) }
{
    line.push(b',')?;
    add_first(line, text)
}

/// Ends a line.
pub fn end_line(line: &mut Vec<u8>) -> Result<(), AllocError>
    ensures { OnOk result (line.new.items ≡ line.old.items ++ line_end) }
{
    line.extend_from_slice(b"\r\n")
}
