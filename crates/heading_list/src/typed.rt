//! Headings as a user types them.
ghost use Rattle.std.specs.Prelude.{◌≡◌, ℕ, List, [], ◌∷◌, true, false, chars, IfNone, IfOk, IfSome, OnOk};
ghost use Rattle.heading_list.specs.Typed.{is_typed_code, typed_form, typed_subfields};
ghost use Rattle.heading_list.specs.Typing.{typed_with};

use entry_record::full_form;
use marc_types::{Class, Field, Form, Kind, NoMemory, Subfield, Subfields, Tag, Text};
use std::alloc::Global;
use std::mem;

/// Subfields that are being typed: those that are done, the code and the text of the last one, and whether a `$` behind that text is
/// held back, since a code may follow it.
#[derive(Drop)]
pub(crate) struct Typing {
    pub(crate) done: Vec<Subfield>,
    pub(crate) code: u8,
    pub(crate) text: Text,
    pub(crate) held: bool,
}

/// The code of what stands before the first code.
const FIRST_CODE: u8 = b'a';

const HEADING_TAG: Tag = Tag {
    a: b'1',
    b: b'0',
    c: b'0',
};

const BLANK: u8 = b' ';

/// A small letter or a digit, as codes are typed.
fn code_of(c: char) -> Option<u8>
    ensures some { IfSome result (λ code. (code ≡ c) × (is_typed_code c ≡ true)) }
    ensures none { IfNone result (is_typed_code c ≡ false) }
{
    match c {
        'a'..='z' | '0'..='9' => Some(c as u8),
        _ => None,
    }
}

impl Typing {
    /// Nothing is typed yet.
    #[tactic(auto, unfolding(crate::specs::Typing::typed_with))]
    fn new(alloc: Global) -> Typing
        ensures { (cs : List ℕ) → typed_with result cs ≡ typed_subfields cs }
    {
        Typing {
            done: Vec::new(alloc),
            code: FIRST_CODE,
            text: Text::new(),
            held: false,
        }
    }

    /// The subfield so far is done, and one of that code begins.
    fn begin(&mut self, code: u8) -> Result<(), NoMemory>
        requires held { self.old.held ≡ true }
        requires code { is_typed_code code ≡ true }
        ensures { OnOk result ((cs : List ℕ) → typed_with self.new cs ≡ typed_with self.old (code ∷ cs)) }
    {
        let text = mem::replace(&mut self.text, Text::new());
        self.done.push(Subfield {
            code: self.code,
            text,
        })?;
        self.code = code;
        self.held = false;
        Ok(())
    }

    /// A character of the text, unless it is a `$` that may have a code behind it.
    fn add(&mut self, alloc: Global, c: char) -> Result<(), NoMemory>
        requires { self.old.held ≡ false }
        ensures { OnOk result ((cs : List ℕ) → typed_with self.new cs ≡ typed_with self.old (c ∷ cs)) }
    {
        if c == '$' {
            self.held = true;
            return Ok(());
        }
        self.text.push(alloc, c)
    }

    /// A `$` that is held back is one of the text, since no code is behind it.
    fn let_go(&mut self, alloc: Global) -> Result<(), NoMemory>
        ensures let_go { OnOk result (self.new.held ≡ false) }
        ensures text { OnOk result ((c : ℕ) (cs : List ℕ) → is_typed_code c ≡ false → typed_with self.new (c ∷ cs) ≡ typed_with self.old (c ∷ cs)) }
        ensures end { OnOk result (typed_with self.new [] ≡ typed_with self.old []) }
    {
        if self.held {
            self.text.push(alloc, '$')?;
            self.held = false;
        }
        Ok(())
    }

    /// Takes the next character.
    fn put(&mut self, alloc: Global, c: char) -> Result<(), NoMemory>
        ensures { OnOk result ((cs : List ℕ) → typed_with self.new cs ≡ typed_with self.old (c ∷ cs)) }
    {
        if self.held {
            if let Some(code) = code_of(c) {
                return self.begin(code);
            }
            self.let_go(alloc)?;
        }
        self.add(alloc, c)
    }

    /// The subfields, when all is typed.
    fn finish(mut self, alloc: Global) -> Result<Subfields, NoMemory>
        ensures { IfOk result (λ subs. subs ≡ typed_with self []) }
    {
        self.let_go(alloc)?;
        let Typing {
            mut done,
            code,
            text,
            ..
        } = self;
        done.push(Subfield { code, text })?;
        Ok(Subfields::from_vec(done))
    }
}

/// The subfields of a typed heading.
fn typed_subfields(alloc: Global, text: &str) -> Result<Subfields, NoMemory>
    ensures { IfOk result (λ subs. subs ≡ typed_subfields (chars text.now)) }
{
    let mut typing = Typing::new(alloc);
    for c in text.chars() {
        typing.put(alloc, c)?;
    }
    typing.finish(alloc)
}

/// The form of a typed heading of a kind, as that of the heading of an authority record with these subfields.
#[tactic(auto, unfolding(crate::specs::Typed::typed_form, heading_fields::specs::Tables::is_subdividable))]
pub(crate) fn typed_form(alloc: Global, kind: Kind, text: &str) -> Result<Form, NoMemory>
    ensures { IfOk result (λ form. form ≡ typed_form kind text.now) }
{
    let heading = Field::Variable {
        tag: HEADING_TAG,
        ind1: BLANK,
        ind2: BLANK,
        subs: typed_subfields(alloc, text)?,
    };
    full_form(alloc, &heading, kind, Class::Authority)
}
