ghost use Rattle.std.specs.Prelude.{◌≡◌, ◌≤◌, ◌+◌, ◌↔◌, IsTrue, IsSome, IfSome};
ghost use Rattle.std.specs.List.{list_all};
ghost use Rattle.marc_types.specs.Valid.{is_printable, is_graphic, is_digit, is_alphanumeric, is_data, is_tag, is_control_tag, is_leader, is_text, is_subfield, is_field, subfields_size, field_size, fields_size, is_record, is_code_byte, is_code, is_number};

use crate::field::{Field, Leader, Subfield, Tag};

/// A blank or a graphic ASCII character, as leader bytes and indicators are.
pub fn is_printable_byte(byte: u8) -> bool
    ensures { result ≡ is_printable byte }
{
    (0x20..=0x7e).contains(&byte)
}

/// No record terminator, field terminator or subfield delimiter.
pub fn is_data_byte(byte: u8) -> bool
    ensures { result ≡ is_data byte }
{
    !(0x1d..=0x1f).contains(&byte)
}

impl Tag {
    /// Whether its characters are those of MARC 21.
    pub fn is_valid(self) -> bool
        ensures { result ≡ is_tag self }
    {
        self.a.is_ascii_alphanumeric()
            && self.b.is_ascii_alphanumeric()
            && self.c.is_ascii_alphanumeric()
    }

    /// Whether the tag begins with `00`.
    pub fn is_control(self) -> bool
        ensures { result ≡ is_control_tag self }
    {
        self.a == b'0' && self.b == b'0'
    }
}

impl Leader {
    /// Whether its characters are those of MARC 21.
    #[tactic(auto, unfolding(crate::specs::Valid::is_leader))]
    pub fn is_valid(&self) -> bool
        ensures { result ≡ is_leader self.now }
    {
        let bytes = [
            self.status,
            self.rtype,
            self.level,
            self.control,
            self.encoding,
            self.form,
            self.linked,
        ];
        bytes.iter().all(|byte| is_printable_byte(*byte))
    }
}

#[tactic(auto, unfolding(crate::specs::Valid::is_text))]
fn text_is_valid(text: &[u8]) -> bool
    ensures { result ≡ is_text text.now }
{
    text.iter().all(|byte| is_data_byte(*byte))
}

#[tactic(auto, unfolding(crate::specs::Valid::is_subfield))]
fn subfield_is_valid(subfield: &Subfield) -> bool
    ensures { result ≡ is_subfield subfield.now }
{
    subfield.code.is_ascii_graphic() && text_is_valid(subfield.text.as_bytes())
}

fn subfields_are_valid(subfields: &[Subfield]) -> bool
    ensures { result ≡ list_all is_subfield subfields.now }
{
    subfields.iter().all(subfield_is_valid)
}

#[tactic(auto, unfolding(crate::specs::Valid::is_field))]
fn field_is_valid(field: &Field) -> bool
    ensures { result ≡ is_field field.now }
{
    match field {
        Field::Control { tag, text } => {
            tag.is_valid() && tag.is_control() && text_is_valid(text.as_bytes())
        }
        Field::Variable {
            tag,
            ind1,
            ind2,
            subs,
        } => {
            tag.is_valid()
                && !tag.is_control()
                && is_printable_byte(*ind1)
                && is_printable_byte(*ind2)
                && subfields_are_valid(subs.as_slice())
        }
    }
}

fn fields_are_valid(fields: &[Field]) -> bool
    ensures { result ≡ list_all is_field fields.now }
{
    fields.iter().all(field_is_valid)
}

/// The most that all texts of a record, with two bytes per subfield, may come to.
const MOST_BYTES: u64 = 1_000_000;

/// The most fields that a directory has room for.
const MOST_FIELDS: usize = 8_331;

fn subfields_within(subfields: &[Subfield], budget: u64) -> Option<u64>
    requires { budget ≤ 1000000 }
    ensures fits { IsSome result ↔ (subfields_size subfields.now ≤ budget) }
    ensures rest { IfSome result (λ rest. rest + subfields_size subfields.now ≡ budget) }
{
    let mut rest = budget;
    for subfield in subfields {
        rest = rest
            .checked_sub(2)?
            .checked_sub(subfield.text.len() as u64)?;
    }
    Some(rest)
}

#[tactic(auto, unfolding(crate::specs::Valid::field_size))]
fn field_within(field: &Field, budget: u64) -> Option<u64>
    requires { budget ≤ 1000000 }
    ensures fits { IsSome result ↔ (field_size field.now ≤ budget) }
    ensures rest { IfSome result (λ rest. rest + field_size field.now ≡ budget) }
{
    match field {
        Field::Control { text, .. } => budget.checked_sub(text.len() as u64),
        Field::Variable { subs, .. } => subfields_within(subs.as_slice(), budget),
    }
}

fn fields_within(fields: &[Field]) -> bool
    ensures { IsTrue result ↔ (fields_size fields.now ≤ 1000000) }
{
    let mut rest = MOST_BYTES;
    for field in fields {
        match field_within(field, rest) {
            None => return false,
            Some(left) => rest = left,
        }
    }
    true
}

/// Whether a leader and fields make a record.
#[tactic(auto, unfolding(crate::specs::Valid::is_record))]
pub fn makes_record(leader: &Leader, fields: &[Field]) -> bool
    ensures { result ≡ is_record leader.now fields.now }
{
    leader.is_valid()
        && fields_are_valid(fields)
        && fields.len() <= MOST_FIELDS
        && fields_within(fields)
}

fn is_code_byte_of(byte: u8) -> bool
    ensures { result ≡ is_code_byte byte }
{
    byte.is_ascii_graphic() && byte != b'(' && byte != b')'
}

fn all_code_bytes(text: &[u8]) -> bool
    ensures { result ≡ list_all is_code_byte text.now }
{
    text.iter().all(|byte| is_code_byte_of(*byte))
}

/// Whether a text can be the code of a key: 1 to 16 graphic ASCII characters without parentheses.
#[tactic(auto, unfolding(crate::specs::Valid::is_code))]
pub fn can_be_code(text: &[u8]) -> bool
    ensures { result ≡ is_code text.now }
{
    !text.is_empty() && text.len() <= 16 && all_code_bytes(text)
}

fn all_graphic(text: &[u8]) -> bool
    ensures { result ≡ list_all is_graphic text.now }
{
    text.iter().all(|byte| byte.is_ascii_graphic())
}

/// Whether a text can be the number of a key: 1 to 64 graphic ASCII characters.
#[tactic(auto, unfolding(crate::specs::Valid::is_number))]
pub fn can_be_number(text: &[u8]) -> bool
    ensures { result ≡ is_number text.now }
{
    !text.is_empty() && text.len() <= 64 && all_graphic(text)
}
