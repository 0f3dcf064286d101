//! What is printed, without a format, since the prover takes some twenty seconds for one.
use std::alloc::{AllocError, Global};
use std::io;

const DIGITS: &[u8; 16] = b"0123456789abcdef";

/// The last digit of a number to the base 16.
fn digit(number: u8) -> char {
    char::from(DIGITS[usize::from(number % 16)])
}

/// The bytes as text: graphic ASCII characters and blanks stand for themselves, a line's end for itself, and any other byte is
/// written as `\` and two digits to the base 16.
pub fn shown(alloc: Global, bytes: &[u8]) -> Result<String, AllocError> {
    let mut text = String::new(alloc);
    for byte in bytes {
        if byte.is_ascii_graphic() || *byte == b' ' || *byte == b'\n' {
            text.push(char::from(*byte))?;
        } else {
            text.push('\\')?;
            text.push(digit(*byte / 16))?;
            text.push(digit(*byte))?;
        }
    }
    Ok(text)
}

/// The last of the pages in a text, each of which begins with a line of its number.
pub fn last_page(alloc: Global, pages: &str) -> Result<String, AllocError> {
    let mut page = String::new(alloc);
    for line in pages.lines() {
        if line.starts_with("AT ") {
            page = String::new(alloc);
        }
        page.push_str(line)?;
        page.push('\n')?;
    }
    Ok(page)
}

/// Prints texts one after another.
pub fn print_all(rt: &impl Print, texts: &[&str]) -> io::Result<()> {
    for text in texts {
        rt.write_all(text.as_bytes())?;
    }
    Ok(())
}

/// Prints a number between two texts.
pub fn print_number(rt: &impl Print, before: &str, number: u64, after: &str) -> io::Result<()> {
    rt.write_all(before.as_bytes())?;
    rt.print(number)?;
    rt.write_all(after.as_bytes())
}
