//! What a record is, and which key it stands under.
ghost use Rattle.std.specs.Prelude.{◌≡◌, [], None, IfOk, OnOk, IfErr, IsTrue, unwrap_or};
ghost use Rattle.std.specs.Option.{option_copied};
ghost use Rattle.std.specs.List.{list_all};
ghost use Rattle.marc_types.specs.Valid.{is_graphic};
ghost use Rattle.heading_fields.specs.Numbers.{without_blanks};
ghost use Rattle.entry_record.specs.Identity.{class_of, is_known_type, is_deletion, has_tag, first_control, code_of, key_of};
ghost use Rattle.entry_record.specs.Identifying.{key_refusal};
ghost use Rattle.entry_record.specs.Answers.{IsRefusalOf};

use marc_types::{
    Class, Field, Key, Leader, NoMemory, Record, RecordFault, Refusal, Tag, Text, TryCopy,
    can_be_code, can_be_number,
};
use std::alloc::Global;

/// The last character of the tag of a control number, 001.
const NUMBER: u8 = b'1';

/// The last character of the tag of a control number's code, 003.
const CODE: u8 = b'3';

/// The class of a record with that leader: leader 06 `z` is authority data.
pub fn class_of(leader: &Leader) -> Class
    ensures { result ≡ class_of leader.now }
{
    if leader.rtype == b'z' {
        Class::Authority
    } else {
        Class::Bibliographic
    }
}

/// Whether a record with that leader deletes: leader 05 is `d`, or for authority data also `s` or `x`.
pub fn is_deletion(leader: &Leader) -> bool
    ensures { result ≡ is_deletion leader.now }
{
    match leader.status {
        b'd' => true,
        b's' | b'x' => leader.rtype == b'z',
        _ => false,
    }
}

/// Leader 06 of authority data and of the bibliographic types that a catalogue takes.
pub(crate) fn is_known_type(rtype: u8) -> bool
    ensures { result ≡ is_known_type rtype }
{
    matches!(
        rtype,
        b'a' | b'c'..=b'g' | b'i'..=b'k' | b'm' | b'o' | b'p' | b'r' | b't' | b'z'
    )
}

fn is_control_tag(tag: &Tag, last: u8) -> bool
    ensures { result ≡ has_tag 48 48 last tag.now }
{
    tag.a == b'0' && tag.b == b'0' && tag.c == last
}

/// The text of the first control field whose tag is `00` and that character.
pub fn first_control(fields: &[Field], last: u8) -> Option<&Text>
    ensures { option_copied result ≡ first_control last fields.now }
{
    for field in fields {
        if let Field::Control { tag, text } = field
            && is_control_tag(tag, last)
        {
            return Some(text);
        }
    }
    None
}

/// The text of that control field without its blanks; empty where there is none.
fn filled_control(alloc: Global, fields: &[Field], last: u8) -> Result<Text, NoMemory>
    ensures { IfOk result (λ filled. filled ≡ without_blanks (unwrap_or (first_control last fields.now) [])) }
{
    match first_control(fields, last) {
        Some(text) => text.without_blanks(alloc),
        None => Ok(Text::new()),
    }
}

/// The record's own code, or where it has none the library code of the file.
#[tactic(auto, unfolding(crate::specs::Identity::code_of))]
fn code_text(alloc: Global, library: &Text, fields: &[Field]) -> Result<Text, NoMemory>
    ensures { IfOk result (λ code. code ≡ code_of library.now fields.now) }
{
    let own = filled_control(alloc, fields, CODE)?;
    if own.is_empty() {
        library.copy(alloc)
    } else {
        Ok(own)
    }
}

/// Graphic ASCII characters as a text.
#[tactic(auto, using(crate::proofs::Graphic::graphic_is_ascii))]
pub fn graphic_text(alloc: Global, bytes: &[u8]) -> Result<Text, NoMemory>
    requires { IsTrue (list_all is_graphic bytes.now) }
    ensures { IfOk result (λ made. made ≡ bytes.now) }
{
    Text::from_ascii(alloc, bytes)
}

/// The key of a record in a file of that library: the number of its first 001 under the code of its first 003, or where
/// that is left blank under the library's code. Refused are a record without a proper number, and then one without a
/// proper code.
#[tactic(auto, unfolding(crate::specs::Identity::key_of, crate::specs::Identity::control_number_of))]
pub fn key_of(alloc: Global, rec: &Record, library: &Text) -> Result<Key, RecordFault>
    ensures key { IfOk result (λ key. key ≡ key_of library.now rec.now.fields) }
    ensures taken { OnOk result (key_refusal library.now rec.now.fields ≡ None) }
    ensures refused { IfErr result (IsRefusalOf (key_refusal library.now rec.now.fields)) }
{
    let fields = rec.fields.as_slice();
    let number = filled_control(alloc, fields, NUMBER)?;
    if !can_be_number(number.as_bytes()) {
        return Err(RecordFault::Refused(Refusal::NoNumber));
    }
    let code = code_text(alloc, library, fields)?;
    if !can_be_code(code.as_bytes()) {
        return Err(RecordFault::Refused(Refusal::BadCode));
    }
    Ok(Key { code, number })
}
