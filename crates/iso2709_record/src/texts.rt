ghost use Rattle.std.specs.Prelude.{◌≡◌, All, IsUtf8};
ghost use Rattle.iso2709_record.specs.Texts.{HasUtf8Text, HasUtf8Texts};

use marc_types::{Field, Record, Subfields, Text};

/// Each text of a record is UTF-8: to look at it as a `&str` shows it. This is a law for proofs.
pub fn each_text_is_utf8(rec: &Record)
    ensures { All HasUtf8Texts rec.now.fields }
{
    for field in rec.fields.as_slice() {
        texts_are_utf8(field);
    }
}

/// Each text of a field is UTF-8. This is a law for proofs.
pub fn texts_are_utf8(field: &Field)
    ensures { HasUtf8Texts field.now }
{
    match field {
        Field::Control { text, .. } => text_is_utf8(text),
        Field::Variable { subs, .. } => subfields_are_utf8(subs),
    }
}

fn subfields_are_utf8(subs: &Subfields)
    ensures { All HasUtf8Text subs.now }
{
    for subfield in subs.as_slice() {
        text_is_utf8(&subfield.text);
    }
}

fn text_is_utf8(text: &Text)
    ensures { IsUtf8 text.now }
{
    let _text = text.as_str();
}
