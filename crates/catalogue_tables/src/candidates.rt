//! Authorities that a form may mean.
ghost use Rattle.std.specs.Prelude.{◌≡◌, true};
ghost use Rattle.std.specs.List.{list_any};
ghost use Rattle.marc_types.specs.Order.{same_form};
ghost use Rattle.numbering.specs.Numbers.{is_known, number_of};
ghost use Rattle.form_index.specs.Candidates.{IsAnswer};
ghost use Rattle.catalogue_rules.specs.Choice.{is_established};
ghost use Rattle.catalogue_tables.specs.Choosing.{AnswersUnderAny};
ghost use Rattle.catalogue_tables.specs.Answers.{TellsCandidates};

use crate::tables::CatalogueTables;
use form_index::{Among, Candidates};
use marc_types::Form;

impl CatalogueTables {
    /// The authorities that the form may mean, by the numbers of their keys, in key order. A form without a number means nobody.
    pub fn candidates(&self, form: &Form, among: Among) -> Candidates<'_>
        ensures numbers { is_known same_form self.now.forms form.now ≡ true
            → IsAnswer among (number_of same_form self.now.forms form.now) self.now.index result }
        ensures told { TellsCandidates among self.now.forms self.now.index form.now result }
    {
        match self.forms.number_of(form) {
            Some(number) => self.index.candidates(number, among),
            None => Candidates::Nobody,
        }
    }
    /// Whether an authority has the form as its heading.
    pub fn is_established(&self, form: &Form) -> bool
        ensures { AnswersUnderAny self.now.forms self.now.index (λ keys all. list_any (is_established form.now) all) result }
    {
        match self.candidates(form, Among::All) {
            Candidates::Established(_numbers) => true,
            Candidates::SeeFrom(_numbers) => false,
            Candidates::Nobody => false,
        }
    }
}
