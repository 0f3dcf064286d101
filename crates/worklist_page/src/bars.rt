//! Bars of three parts.
ghost use Rattle.std.specs.Prelude.{◌≡◌, ◌++◌, ◌∷◌, [], IfOk, OnOk};
ghost use Rattle.std.specs.Fmt.{decimal};
ghost use Rattle.worklist_page.specs.declared.names.Element.TheVariants.{Svg};
ghost use Rattle.worklist_page.specs.declared.names.Attribute.TheVariants as attribute;
ghost use Rattle.worklist_page.specs.Bars.{bar, bar_words, part, parts, picture, view_of};
ghost use Rattle.worklist_page.specs.Pieces.{Adds, Start, attribute_bytes};

use crate::names::{Attribute, Element};
use crate::pieces::{add_attribute, begin_tag, end, end_tag};
use itoa::Buffer;
use std::alloc::{AllocError, Global};

/// What a bar shows: so many linked, ambiguous and unlinked headings.
#[derive(Clone, Copy, Debug, PartialEq, Eq)]
pub struct Bar {
    pub linked: u64,
    pub ambiguous: u64,
    pub unlinked: u64,
}

/// An attribute whose value is a number.
fn add_numbered(page: &mut Vec<u8>, attribute: Attribute, number: u128) -> Result<(), AllocError>
    ensures { OnOk result (page.new.items ≡ page.old.items ++ attribute_bytes (attribute, decimal number)) }
{
    add_attribute(page, attribute, Buffer::new().format(number).as_bytes())
}

/// A part of a bar.
#[tactic(auto, unfolding(crate::specs::Pieces::Adds))]
fn add_part(page: &mut Vec<u8>, class: &[u8], before: u128, width: u128) -> Result<(), AllocError>
    ensures { OnOk result (Adds page.old.items page.new.items (part class.now before width)) }
{
    begin_tag(page, Element::Rect)?;
    add_attribute(page, Attribute::Class, class)?;
    add_numbered(page, Attribute::X, before)?;
    add_numbered(page, Attribute::Width, width)?;
    add_attribute(page, Attribute::Height, b"1")?;
    end_tag(page)?;
    end(page, Element::Rect)
}

fn add_count(text: &mut Vec<u8>, word: &[u8], count: u128) -> Result<(), AllocError>
    ensures { OnOk result (text.new.items ≡ text.old.items ++ word.now ++ decimal count) }
{
    text.extend_from_slice(word)?;
    text.extend_from_slice(Buffer::new().format(count).as_bytes())
}

impl Bar {
    fn words(&self, alloc: Global) -> Result<Vec<u8>, AllocError>
        ensures { IfOk result (λ text. text.items ≡ bar_words self.now) }
    {
        let mut text = Vec::new(alloc);
        add_count(&mut text, b"linked ", self.linked as u128)?;
        add_count(&mut text, b", ambiguous ", self.ambiguous as u128)?;
        add_count(&mut text, b", unlinked ", self.unlinked as u128)?;
        Ok(text)
    }

    fn view(&self, alloc: Global) -> Result<Vec<u8>, AllocError>
        ensures { IfOk result (λ text. text.items ≡ view_of self.now) }
    {
        let mut text = Vec::new(alloc);
        let width = self.linked as u128 + self.ambiguous as u128 + self.unlinked as u128;
        add_count(&mut text, b"0 0 ", width)?;
        text.extend_from_slice(b" 1")?;
        Ok(text)
    }

    fn add_parts(&self, page: &mut Vec<u8>) -> Result<(), AllocError>
        ensures { OnOk result (Adds page.old.items page.new.items (parts self.now)) }
    {
        let linked = self.linked as u128;
        let ambiguous = self.ambiguous as u128;
        add_part(page, b"linked", 0, linked)?;
        add_part(page, b"ambiguous", linked, ambiguous)?;
        add_part(page, b"unlinked", linked + ambiguous, self.unlinked as u128)?;
        Ok(())
    }
}

/// What a reader who can't see the bar is told.
fn add_label(page: &mut Vec<u8>, alloc: Global, shown: &Bar) -> Result<(), AllocError>
    ensures { OnOk result (page.new.items ≡ page.old.items ++ attribute_bytes (attribute.Label, bar_words shown.now)) }
{
    let label = shown.words(alloc)?;
    add_attribute(page, Attribute::Label, &label)
}

/// The picture's size.
fn add_view(page: &mut Vec<u8>, alloc: Global, shown: &Bar) -> Result<(), AllocError>
    ensures { OnOk result (page.new.items ≡ page.old.items ++ attribute_bytes (attribute.ViewBox, view_of shown.now)) }
{
    let view = shown.view(alloc)?;
    add_attribute(page, Attribute::ViewBox, &view)
}

/// The start of the picture.
fn start_picture(page: &mut Vec<u8>, alloc: Global, shown: &Bar) -> Result<(), AllocError>
    ensures { OnOk result (Adds page.old.items page.new.items (Start Svg (picture shown.now) ∷ [])) }
{
    begin_tag(page, Element::Svg)?;
    add_attribute(page, Attribute::Role, b"img")?;
    add_label(page, alloc, shown)?;
    add_view(page, alloc, shown)?;
    add_attribute(page, Attribute::Stretch, b"none")?;
    end_tag(page)?;
    Ok(())
}

/// A bar.
pub fn add_bar(page: &mut Vec<u8>, alloc: Global, shown: &Bar) -> Result<(), AllocError>
    ensures { OnOk result (Adds page.old.items page.new.items (bar shown.now)) }
{
    start_picture(page, alloc, shown)?;
    shown.add_parts(page)?;
    end(page, Element::Svg)?;
    Ok(())
}
