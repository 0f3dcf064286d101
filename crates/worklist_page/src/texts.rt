//! Texts, as a page has them.
ghost use Rattle.std.specs.Prelude.{◌≡◌, ◌++◌, OnOk};
ghost use Rattle.worklist_page.specs.Texts.{html_byte, html_text, is_control};

use std::alloc::AllocError;

const REPLACEMENT: [u8; 3] = [0xEF, 0xBF, 0xBD];

fn is_control(byte: u8) -> bool
    ensures { result ≡ is_control byte }
{
    byte <= 0x1F || byte == 0x7F
}

fn add_plain(page: &mut Vec<u8>, byte: u8) -> Result<(), AllocError>
    requires { (byte ≡ 0x26 → ⊥) × (byte ≡ 0x3C → ⊥) × (byte ≡ 0x3E → ⊥) × (byte ≡ 0x22 → ⊥) × (byte ≡ 0x27 → ⊥) }
    ensures { OnOk result (page.new.items ≡ page.old.items ++ html_byte byte) }
{
    if is_control(byte) {
        page.extend_from_slice(&REPLACEMENT)
    } else {
        page.push(byte)?;
        Ok(())
    }
}

fn add_byte(page: &mut Vec<u8>, byte: u8) -> Result<(), AllocError>
    ensures { OnOk result (page.new.items ≡ page.old.items ++ html_byte byte) }
{
    match byte {
        b'&' => page.extend_from_slice(b"&amp;"),
        b'<' => page.extend_from_slice(b"&lt;"),
        b'>' => page.extend_from_slice(b"&gt;"),
        b'"' => page.extend_from_slice(b"&quot;"),
        b'\'' => page.extend_from_slice(b"&#39;"),
        _ => add_plain(page, byte),
    }
}

/// A text, as a page has it.
pub(crate) fn add_text(page: &mut Vec<u8>, text: &[u8]) -> Result<(), AllocError>
    ensures { OnOk result (page.new.items ≡ page.old.items ++ html_text text.now) }
{
    for byte in text {
        add_byte(page, *byte)?;
    }
    Ok(())
}
