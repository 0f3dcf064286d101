ghost use Rattle.std.specs.Prelude.{◌≡◌};
ghost use Rattle.marc_types.specs.Fields.{tag_of, subfields_of};

use crate::copying::{NoMemory, TryCopy};
use crate::sequence::Sequence;
use crate::text::Text;
use std::alloc::Global;

/// A tag of three characters, as `245`.
#[derive(Clone, Copy, Debug, PartialEq, Eq, PartialOrd, Ord, Hash)]
pub struct Tag {
    pub a: u8,
    pub b: u8,
    pub c: u8,
}

/// The leader's bytes that belong to the record itself: positions 05 to 08 and 17 to 19.
#[derive(Clone, Copy, Debug, PartialEq, Eq, Hash)]
pub struct Leader {
    pub status: u8,
    pub rtype: u8,
    pub level: u8,
    pub control: u8,
    pub encoding: u8,
    pub form: u8,
    pub linked: u8,
}

/// A code and a text.
#[derive(Debug, Drop, PartialEq, Eq, Hash)]
pub struct Subfield {
    pub code: u8,
    pub text: Text,
}

/// The subfields of a field, in their order.
pub type Subfields = Sequence<Subfield>;

/// A control field has a tag that begins with `00` and a text; any other field two indicators and subfields.
#[derive(Debug, Drop, PartialEq, Eq, Hash)]
pub enum Field {
    Control {
        tag: Tag,
        text: Text,
    },
    Variable {
        tag: Tag,
        ind1: u8,
        ind2: u8,
        subs: Subfields,
    },
}

/// The fields of a record, in their order.
pub type Fields = Sequence<Field>;

impl Field {
    /// The tag of the field.
    pub fn tag(&self) -> &Tag
        ensures { result.now ≡ tag_of self.now }
    {
        match self {
            Field::Control { tag, .. } | Field::Variable { tag, .. } => tag,
        }
    }

    /// The subfields; a control field has none.
    pub fn subfields(&self) -> &[Subfield]
        ensures { result.now ≡ subfields_of self.now }
    {
        match self {
            Field::Control { .. } => &[],
            Field::Variable { subs, .. } => subs.as_slice(),
        }
    }
}

impl TryCopy for Subfield {
    fn copy(&self, alloc: Global) -> Result<Self, NoMemory> {
        Ok(Subfield {
            code: self.code,
            text: self.text.copy(alloc)?,
        })
    }
}

impl TryCopy for Field {
    fn copy(&self, alloc: Global) -> Result<Self, NoMemory> {
        Ok(match self {
            Field::Control { tag, text } => Field::Control {
                tag: *tag,
                text: text.copy(alloc)?,
            },
            Field::Variable {
                tag,
                ind1,
                ind2,
                subs,
            } => Field::Variable {
                tag: *tag,
                ind1: *ind1,
                ind2: *ind2,
                subs: subs.copy(alloc)?,
            },
        })
    }
}
