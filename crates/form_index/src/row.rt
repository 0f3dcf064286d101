ghost use Rattle.std.specs.Prelude.{◌≡◌, ℕ, true};
ghost use Rattle.form_index.specs.Order.{has};
ghost use Rattle.form_index.specs.Listed.{is_once};

use std::marker::Model;

/// The forms of one authority, by their numbers, and whether its heading is bare, that is, has no subdivision.
#[derive(Drop)]
pub struct RowForms {
    established: u32,
    see_from: Vec<u32>,
    bare: bool,
}

impl Model for RowForms {
    ghost use Rattle.std.specs.Prelude.{◌≡◌, true};
    ghost use Rattle.form_index.specs.Forms.{Forms};
    ghost use Rattle.form_index.specs.Listed.{is_once};

    ghost Value = { Forms };

    ghost view = { λ row. record { established = row.established; see_from = row.see_from.items; bare = row.bare } };

    ghost invariant = { λ row. is_once row.see_from.items ≡ true };
}

impl RowForms {
    /// A row with these forms. A see-from form that comes twice counts once.
    pub fn new(established: u32, see_from: Vec<u32>, bare: bool) -> RowForms
        ensures established { result.established ≡ established }
        ensures see_from { (form : ℕ) → has form result.see_from ≡ has form see_from.items }
        ensures bare { result.bare ≡ bare }
    {
        RowForms {
            established,
            see_from: each_once(see_from),
            bare,
        }
    }

    /// The number of the established form.
    pub fn established(&self) -> u32
        ensures { result ≡ self.now.established }
    {
        self.established
    }

    /// The numbers of the see-from forms, each once.
    pub fn see_from(&self) -> &[u32]
        ensures numbers { result.now ≡ self.now.see_from }
        ensures once { is_once result.now ≡ true }
    {
        &self.see_from
    }

    /// Whether the row's heading has no subdivision.
    pub fn is_bare(&self) -> bool
        ensures { result ≡ self.now.bare }
    {
        self.bare
    }
}

// The numbers, each once.
fn each_once(mut numbers: Vec<u32>) -> Vec<u32>
    ensures once { is_once result.items ≡ true }
    ensures same { (n : ℕ) → has n result.items ≡ has n numbers.items }
{
    numbers.sort_unstable();
    numbers.dedup();
    numbers
}

/// A row that was taken out of an index, which holds its places until it is put back or let go.
#[derive(Drop)]
pub struct FormRow {
    pub(crate) number: u32,
    pub(crate) forms: RowForms,
}

impl Model for FormRow {
    ghost use Rattle.form_index.specs.Index.{Taken};

    ghost Value = { Taken };

    ghost view = { λ row. record { number = row.number; forms = row.forms } };
}

impl FormRow {
    /// The number of the row's key.
    pub fn number(&self) -> u32
        ensures { result ≡ self.now.number }
    {
        self.number
    }

    /// The forms of the row.
    pub fn forms(&self) -> &RowForms
        ensures { result.now ≡ self.now.forms }
    {
        &self.forms
    }
}
