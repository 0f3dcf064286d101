//! Elements and attributes, by name.
ghost use Rattle.std.specs.Prelude.{◌≡◌};
ghost use Rattle.worklist_page.specs.Names.{attribute_name, element_name};

/// The elements that pages are made of.
#[derive(Clone, Copy, Debug, PartialEq, Eq)]
pub enum Element {
    Html,
    Head,
    Meta,
    Title,
    Style,
    Body,
    H1,
    Table,
    Caption,
    Thead,
    Tbody,
    Tr,
    Th,
    Td,
    Svg,
    Rect,
}

/// Their attributes.
#[derive(Clone, Copy, Debug, PartialEq, Eq)]
pub enum Attribute {
    Lang,
    Charset,
    Scope,
    Class,
    Role,
    Label,
    ViewBox,
    Stretch,
    X,
    Width,
    Height,
}

pub(crate) fn element_name(element: Element) -> &'static [u8]
    ensures { result.now ≡ element_name element }
{
    match element {
        Element::Html => b"html",
        Element::Head => b"head",
        Element::Meta => b"meta",
        Element::Title => b"title",
        Element::Style => b"style",
        Element::Body => b"body",
        Element::H1 => b"h1",
        Element::Table => b"table",
        Element::Caption => b"caption",
        Element::Thead => b"thead",
        Element::Tbody => b"tbody",
        Element::Tr => b"tr",
        Element::Th => b"th",
        Element::Td => b"td",
        Element::Svg => b"svg",
        Element::Rect => b"rect",
    }
}

pub(crate) fn attribute_name(attribute: Attribute) -> &'static [u8]
    ensures { result.now ≡ attribute_name attribute }
{
    match attribute {
        Attribute::Lang => b"lang",
        Attribute::Charset => b"charset",
        Attribute::Scope => b"scope",
        Attribute::Class => b"class",
        Attribute::Role => b"role",
        Attribute::Label => b"aria-label",
        Attribute::ViewBox => b"viewBox",
        Attribute::Stretch => b"preserveAspectRatio",
        Attribute::X => b"x",
        Attribute::Width => b"width",
        Attribute::Height => b"height",
    }
}
