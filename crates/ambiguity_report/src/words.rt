//! Words that are put behind the bytes of a line.
ghost use Rattle.std.specs.Prelude.{◌≡◌, ◌++◌, ◌∷◌, [], map, codes, OnOk};
ghost use Rattle.std.specs.Fmt.{decimal};
ghost use Rattle.heading_fields.specs.Numbers.{key_text};
ghost use Rattle.catalogue_rules.specs.Lines.{then_word, then_words};
ghost use Rattle.catalogue_rules.specs.Output.{class_letter, tag_text};
ghost use Rattle.ambiguity_report.specs.Beside.{place_text};

use heading_fields::add_key;
use itoa::Buffer;
use marc_types::{Class, Key, Tag};
use std::alloc::AllocError;

const BLANK: u8 = b' ';

pub(crate) const LINE_FEED: u8 = b'\n';

/// A key behind a blank.
pub(crate) fn add_key_word(text: &mut Vec<u8>, key: &Key) -> Result<(), AllocError>
    ensures { OnOk result (text.new.items ≡ text.old.items ++ then_word (key_text key.now)) }
{
    text.push(BLANK)?;
    add_key(text, key)
}

/// Each key behind a blank.
pub(crate) fn add_key_words(text: &mut Vec<u8>, keys: &[Key]) -> Result<(), AllocError>
    ensures { OnOk result (text.new.items ≡ text.old.items ++ then_words (map key_text keys.now)) }
{
    for key in keys {
        add_key_word(text, key)?;
    }
    Ok(())
}

fn letter(class: Class) -> u8
    ensures { result ∷ [] ≡ class_letter class }
{
    match class {
        Class::Authority => b'A',
        Class::Bibliographic => b'B',
    }
}

/// A tag behind a blank.
fn add_tag_word(text: &mut Vec<u8>, tag: &Tag) -> Result<(), AllocError>
    ensures { OnOk result (text.new.items ≡ text.old.items ++ then_word (tag_text tag.now)) }
{
    text.extend_from_slice(&[BLANK, tag.a, tag.b, tag.c])?;
    Ok(())
}

/// A number, in decimal.
pub(crate) fn add_number(text: &mut Vec<u8>, number: u128) -> Result<(), AllocError>
    ensures { OnOk result (text.new.items ≡ text.old.items ++ decimal number) }
{
    text.extend_from_slice(Buffer::new().format(number).as_bytes())
}

/// Begins a line with a word and a field as lines name it: its record's class and key, its tag, and its place in the record.
pub(crate) fn begin_with_place(
    text: &mut Vec<u8>,
    word: &str,
    class: Class,
    key: &Key,
    place: usize,
    tag: &Tag,
) -> Result<(), AllocError>
    ensures { OnOk result (text.new.items ≡ word.now ++ place_text class key.now place tag.now) }
{
    text.clear();
    text.extend_from_slice(word.as_bytes())?;
    text.extend_from_slice(&[BLANK, letter(class)])?;
    add_key_word(text, key)?;
    add_tag_word(text, tag)?;
    text.push(BLANK)?;
    add_number(text, place as u128)
}
