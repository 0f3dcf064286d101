ghost use Rattle.std.specs.Prelude.{◌≡◌, IfOk, string_bytes};
ghost use Rattle.workload.specs.Records.{number_field, organisation_field, name_field, alias_text, name_text, author_field, title_field, authority_fields, linked_authority_fields, deletion_fields, bibliographic_fields, subfield};

use marc_types::{Field, NoMemory, Sequence, Subfield, Tag, Text};
use std::alloc::Global;

const CONTROL_NUMBER: Tag = Tag {
    a: b'0',
    b: b'0',
    c: b'1',
};

const ORGANISATION: Tag = Tag {
    a: b'0',
    b: b'0',
    c: b'3',
};

const NAME: Tag = Tag {
    a: b'1',
    b: b'0',
    c: b'0',
};

const TITLE: Tag = Tag {
    a: b'2',
    b: b'4',
    c: b'5',
};

const SEE_FROM: Tag = Tag {
    a: b'4',
    b: b'0',
    c: b'0',
};

const SEE_ALSO: Tag = Tag {
    a: b'5',
    b: b'0',
    c: b'0',
};

fn number_field(alloc: Global, letter: &str, number: u64) -> Result<Field, NoMemory>
    ensures { IfOk result (λ field. field ≡ number_field letter.now number) }
{
    let text = format!(in alloc; "{letter}{number}")?;
    Ok(Field::Control {
        tag: CONTROL_NUMBER,
        text: Text::from_string(text),
    })
}

fn organisation_field(alloc: Global) -> Result<Field, NoMemory>
    ensures { IfOk result (λ field. field ≡ organisation_field) }
{
    Ok(Field::Control {
        tag: ORGANISATION,
        text: Text::from_str(alloc, "UCAT")?,
    })
}

fn subfield(code: u8, text: String) -> Subfield
    ensures { result ≡ subfield code (string_bytes text) }
{
    Subfield {
        code,
        text: Text::from_string(text),
    }
}

fn name_text(alloc: Global, name: u64, variant: u64) -> Result<String, NoMemory>
    ensures { IfOk result (λ text. string_bytes text ≡ name_text name variant) }
{
    Ok(format!(in alloc; "Name{name}, V{variant}")?)
}

fn alias_text(alloc: Global, alias: u64) -> Result<String, NoMemory>
    ensures { IfOk result (λ text. string_bytes text ≡ alias_text alias) }
{
    Ok(format!(in alloc; "Alias{alias}, X")?)
}

/// A personal name in `$a`.
fn name_field(alloc: Global, tag: Tag, text: String) -> Result<Field, NoMemory>
    ensures { IfOk result (λ field. field ≡ name_field tag (string_bytes text)) }
{
    let subs = vec![in alloc; subfield(b'a', text)]?;
    Ok(Field::Variable {
        tag,
        ind1: b'1',
        ind2: b' ',
        subs: Sequence::from_vec(subs),
    })
}

fn author_field(alloc: Global, author: u64) -> Result<Field, NoMemory>
    ensures { IfOk result (λ field. field ≡ author_field author) }
{
    let name = alias_text(alloc, author)?;
    let relator = String::from_str(alloc, "author")?;
    let subs = vec![in alloc; subfield(b'a', name), subfield(b'e', relator)]?;
    Ok(Field::Variable {
        tag: NAME,
        ind1: b'1',
        ind2: b' ',
        subs: Sequence::from_vec(subs),
    })
}

fn title_field(alloc: Global, number: u64) -> Result<Field, NoMemory>
    ensures { IfOk result (λ field. field ≡ title_field number) }
{
    let title = format!(in alloc; "Title {number}")?;
    let subs = vec![in alloc; subfield(b'a', title)]?;
    Ok(Field::Variable {
        tag: TITLE,
        ind1: b'0',
        ind2: b'0',
        subs: Sequence::from_vec(subs),
    })
}

/// The fields of an authority. A name and its neighbour have one alias.
#[tactic(auto, unfolding(crate::specs::Records::authority_fields))]
pub fn authority_fields(alloc: Global, name: u64, variant: u64) -> Result<Vec<Field>, NoMemory>
    ensures { IfOk result (λ fields. fields.items ≡ authority_fields name variant) }
{
    let number = number_field(alloc, "a", name)?;
    let organisation = organisation_field(alloc)?;
    let heading = name_field(alloc, NAME, name_text(alloc, name, variant)?)?;
    let tracing = name_field(alloc, SEE_FROM, alias_text(alloc, name / 2)?)?;
    Ok(vec![in alloc; number, organisation, heading, tracing]?)
}

/// The fields of an authority that is linked to another name.
#[tactic(auto, unfolding(crate::specs::Records::linked_authority_fields))]
pub fn linked_authority_fields(
    alloc: Global,
    name: u64,
    variant: u64,
    other: u64,
) -> Result<Vec<Field>, NoMemory>
    ensures { IfOk result (λ fields. fields.items ≡ linked_authority_fields name variant other) }
{
    let mut fields = authority_fields(alloc, name, variant)?;
    fields.push(name_field(alloc, SEE_ALSO, alias_text(alloc, other)?)?)?;
    Ok(fields)
}

/// The fields of a deletion.
#[tactic(auto, unfolding(crate::specs::Records::deletion_fields))]
pub fn deletion_fields(alloc: Global, name: u64) -> Result<Vec<Field>, NoMemory>
    ensures { IfOk result (λ fields. fields.items ≡ deletion_fields name) }
{
    let number = number_field(alloc, "a", name)?;
    let organisation = organisation_field(alloc)?;
    Ok(vec![in alloc; number, organisation]?)
}

/// The fields of a bibliographic record.
#[tactic(auto, unfolding(crate::specs::Records::bibliographic_fields))]
pub fn bibliographic_fields(alloc: Global, number: u64, author: u64) -> Result<Vec<Field>, NoMemory>
    ensures { IfOk result (λ fields. fields.items ≡ bibliographic_fields number author) }
{
    let control_number = number_field(alloc, "b", number)?;
    let organisation = organisation_field(alloc)?;
    let author = author_field(alloc, author)?;
    let title = title_field(alloc, number)?;
    Ok(vec![in alloc; control_number, organisation, author, title]?)
}
