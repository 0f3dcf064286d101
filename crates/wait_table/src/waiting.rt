ghost use Rattle.std.specs.Prelude.{◌≡◌};
ghost use Rattle.wait_table.specs.Waits.{forms_of, has};

use crate::KeyNumbers;
use numbering::Seat;

/// The numbers of the forms that a field asks for: of its form, and where it has subdivisions of its base form too.
#[derive(Clone, Copy, Debug)]
pub enum Asked {
    One(u32),
    Two(u32, u32),
}

/// What a seat waits for: the forms that it asks for, and the numbers of the keys that it names.
#[derive(Debug, Drop)]
pub struct Waiting {
    pub forms: Asked,
    pub keys: KeyNumbers,
}

/// A row of the table.
#[derive(Debug, Drop)]
pub struct WaitRow {
    pub seat: Seat,
    pub waiting: Waiting,
}

impl Waiting {
    /// Whether the form is asked for.
    pub fn asks(&self, form: u32) -> bool
        ensures { result ≡ has (forms_of self.now.forms) form }
    {
        match self.forms {
            Asked::One(own) => own == form,
            Asked::Two(own, base) => own == form || base == form,
        }
    }

    /// Whether the key is named.
    pub fn names(&self, key: u32) -> bool
        ensures { result ≡ has self.now.keys key }
    {
        self.keys.as_slice().contains(&key)
    }
}
