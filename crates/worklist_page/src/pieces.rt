//! The pieces of a page, one behind the other.
ghost use Rattle.std.specs.Prelude.{◌≡◌, ◌++◌, ◌∷◌, [], OnOk};
ghost use Rattle.std.specs.Fmt.{decimal};
ghost use Rattle.worklist_page.specs.Names.{element_name};
ghost use Rattle.worklist_page.specs.Pieces.{Adds, Doctype, Start, End, attribute_bytes, element, element_with, words};

use crate::names::{Attribute, Element, attribute_name, element_name};
use crate::texts::add_text;
use itoa::Buffer;
use std::alloc::AllocError;

/// The document's type.
#[tactic(auto, unfolding(crate::specs::Pieces::Adds))]
pub fn add_doctype(page: &mut Vec<u8>) -> Result<(), AllocError>
    ensures { OnOk result (Adds page.old.items page.new.items (Doctype ∷ [])) }
{
    page.extend_from_slice(b"<!DOCTYPE html>")
}

/// Begins a start tag.
pub fn begin_tag(page: &mut Vec<u8>, element: Element) -> Result<(), AllocError>
    ensures { OnOk result (page.new.items ≡ page.old.items ++ 0x3C ∷ element_name element) }
{
    page.push(b'<')?;
    page.extend_from_slice(element_name(element))
}

/// An attribute, in a start tag.
pub fn add_attribute(
    page: &mut Vec<u8>,
    attribute: Attribute,
    value: &[u8],
) -> Result<(), AllocError>
    ensures { OnOk result (page.new.items ≡ page.old.items ++ attribute_bytes (attribute, value.now)) }
{
    page.push(b' ')?;
    page.extend_from_slice(attribute_name(attribute))?;
    page.extend_from_slice(b"=\"")?;
    add_text(page, value)?;
    page.push(b'"')?;
    Ok(())
}

/// Ends a start tag.
pub fn end_tag(page: &mut Vec<u8>) -> Result<(), AllocError>
    ensures { OnOk result (page.new.items ≡ page.old.items ++ 0x3E ∷ []) }
{
    page.push(b'>')?;
    Ok(())
}

/// The start of an element.
#[tactic(auto, unfolding(crate::specs::Pieces::Adds))]
pub fn start(page: &mut Vec<u8>, element: Element) -> Result<(), AllocError>
    ensures { OnOk result (Adds page.old.items page.new.items (Start element [] ∷ [])) }
{
    begin_tag(page, element)?;
    end_tag(page)
}

/// The start of an element with an attribute.
#[tactic(auto, unfolding(crate::specs::Pieces::Adds))]
pub fn start_with(
    page: &mut Vec<u8>,
    element: Element,
    attribute: Attribute,
    value: &[u8],
) -> Result<(), AllocError>
    ensures { OnOk result (Adds page.old.items page.new.items (Start element ((attribute, value.now) ∷ []) ∷ [])) }
{
    begin_tag(page, element)?;
    add_attribute(page, attribute, value)?;
    end_tag(page)
}

/// The end of an element.
#[tactic(auto, unfolding(crate::specs::Pieces::Adds))]
pub fn end(page: &mut Vec<u8>, element: Element) -> Result<(), AllocError>
    ensures { OnOk result (Adds page.old.items page.new.items (End element ∷ [])) }
{
    page.extend_from_slice(b"</")?;
    page.extend_from_slice(element_name(element))?;
    page.push(b'>')?;
    Ok(())
}

/// A text.
#[tactic(auto, unfolding(crate::specs::Pieces::Adds))]
pub fn add_words(page: &mut Vec<u8>, text: &[u8]) -> Result<(), AllocError>
    ensures { OnOk result (Adds page.old.items page.new.items (words text.now)) }
{
    add_text(page, text)
}

/// A number, in decimal.
#[tactic(auto, unfolding(crate::specs::Pieces::Adds))]
pub fn add_number(page: &mut Vec<u8>, number: u128) -> Result<(), AllocError>
    ensures { OnOk result (Adds page.old.items page.new.items (words (decimal number))) }
{
    add_text(page, Buffer::new().format(number).as_bytes())
}

/// An element round a text.
pub fn add_element(page: &mut Vec<u8>, name: Element, text: &[u8]) -> Result<(), AllocError>
    ensures { OnOk result (Adds page.old.items page.new.items (element name (words text.now))) }
{
    start(page, name)?;
    add_words(page, text)?;
    end(page, name)?;
    Ok(())
}

/// An element with an attribute, round a text.
pub fn add_element_with(
    page: &mut Vec<u8>,
    name: Element,
    attribute: Attribute,
    value: &[u8],
    text: &[u8],
) -> Result<(), AllocError>
    ensures { OnOk result (Adds page.old.items page.new.items (element_with name ((attribute, value.now) ∷ []) (words text.now))) }
{
    start_with(page, name, attribute, value)?;
    add_words(page, text)?;
    end(page, name)?;
    Ok(())
}
