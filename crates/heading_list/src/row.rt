//! Rows of a list of headings.
ghost use Rattle.std.specs.Prelude.{◌≡◌, ◌++◌, IfOk, OnOk};
ghost use Rattle.std.specs.List.{flat_map};
ghost use Rattle.heading_list.specs.Rows.{coded_text, list_row, role_rank, subfield_text};

use marc_types::{Field, Form, Key, NoMemory, Sequence, Subfield, TryCopy};
use std::alloc::Global;
use std::cmp::Ordering;

/// Whether a row is of an authority's heading, or of a see from tracing under which it is found.
#[derive(Clone, Copy, Debug, PartialEq, Eq)]
pub(crate) enum Role {
    Established,
    SeeFrom,
}

impl Role {
    /// The place of the role in the order of rows.
    fn rank(self) -> u8
        ensures { result ≡ role_rank self }
    {
        match self {
            Role::Established => 0,
            Role::SeeFrom => 1,
        }
    }
}

/// A heading as headings are compared, what it is to the authority of a key, and the subfields of its field as they stand there.
#[derive(Debug, Drop)]
pub(crate) struct ListRow {
    pub(crate) form: Form,
    pub(crate) role: Role,
    pub(crate) key: Key,
    pub(crate) text: Sequence<u8>,
}

const DOLLAR: u8 = b'$';

/// Each subfield as it stands, with its code.
fn add_subfields(text: &mut Vec<u8>, subfields: &[Subfield]) -> Result<(), NoMemory>
    ensures { OnOk result (text.new.items ≡ text.old.items ++ flat_map subfield_text subfields.now) }
{
    for subfield in subfields {
        text.push(DOLLAR)?;
        text.push(subfield.code)?;
        text.extend_from_slice(subfield.text.as_bytes())?;
    }
    Ok(())
}

/// The subfields of a field as they stand in it, each with its code.
fn coded_text(alloc: Global, field: &Field) -> Result<Sequence<u8>, NoMemory>
    ensures { IfOk result (λ text. text ≡ coded_text field.now) }
{
    let mut text = Vec::new(alloc);
    add_subfields(&mut text, field.subfields())?;
    Ok(Sequence::from_vec(text))
}

impl ListRow {
    /// The row of a field of the authority of a key.
    pub(crate) fn of(
        alloc: Global,
        form: Form,
        role: Role,
        key: &Key,
        field: &Field,
    ) -> Result<ListRow, NoMemory>
        ensures { IfOk result (λ row. row ≡ list_row form role key.now (coded_text field.now)) }
    {
        Ok(ListRow {
            form,
            role,
            key: key.copy(alloc)?,
            text: coded_text(alloc, field)?,
        })
    }
}

impl PartialEq for ListRow {
    ghost use Rattle.heading_list.specs.Rows.{row_cmp, row_cmp_total};
    ghost use Rattle.std.specs.Ordering.{eq_by_cmp};
    ghost use Rattle.std.specs.Cmp.{eq_by_cmp_equiv, partial_equiv_from_equiv};

    ghost eq = { eq_by_cmp row_cmp };

    ghost laws = { partial_equiv_from_equiv (eq_by_cmp_equiv row_cmp_total) };

    fn eq(&self, other: &Self) -> bool {
        self.cmp(other).is_eq()
    }
}

impl Eq for ListRow {
    ghost use Rattle.heading_list.specs.Rows.{row_cmp_total};
    ghost use Rattle.std.specs.Cmp.{eq_by_cmp_equiv};

    ghost laws = { eq_by_cmp_equiv row_cmp_total };
}

impl PartialOrd for ListRow {
    ghost use Rattle.heading_list.specs.Rows.{row_cmp, row_cmp_total};
    ghost use Rattle.std.specs.Ordering.{as_partial_cmp};
    ghost use Rattle.std.specs.Cmp.{partial_order_from_total};

    ghost partial_cmp = { as_partial_cmp row_cmp };

    ghost laws = { partial_order_from_total row_cmp_total };

    fn partial_cmp(&self, other: &Self) -> Option<Ordering> {
        Some(self.cmp(other))
    }
}

impl Ord for ListRow {
    ghost use Rattle.heading_list.specs.Rows.{row_cmp, row_cmp_total};
    ghost use Rattle.std.proofs.Common.{refl};

    ghost cmp = { row_cmp };

    ghost total = { row_cmp_total };

    ghost matches_partial_cmp = { λ x y. refl };

    ghost matches_eq = { λ x y. refl };

    #[tactic(auto, unfolding(crate::specs::Rows::row_cmp))]
    fn cmp(&self, other: &Self) -> Ordering {
        self.form
            .cmp(&other.form)
            .then_with(|| self.role.rank().cmp(&other.role.rank()))
            .then_with(|| self.key.cmp(&other.key))
            .then_with(|| self.text.as_slice().cmp(other.text.as_slice()))
    }
}
