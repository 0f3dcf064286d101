//! Tables of the page.
ghost use Rattle.std.specs.Prelude.{◌++◌, ◌∷◌, [], OnOk};
ghost use Rattle.worklist_page.specs.declared.names.Element.TheVariants as tag;
ghost use Rattle.worklist_page.specs.Pieces.{Adds, End, Start, element};
ghost use Rattle.worklist_page.specs.Bars.{bar};
ghost use Rattle.worklist_page.specs.Tables.{bar_of, cell, column, count_row, number, number_cell, row_name, shares_columns, shares_numbers, shares_row, table_start};

use crate::bars::{Bar, add_bar};
use crate::names::{Attribute, Element};
use crate::pieces::{add_element, add_element_with, add_number, end, start, start_with};
use crate::shares::Shares;
use std::alloc::{AllocError, Global};

/// The head of a column.
pub(crate) fn add_column(page: &mut Vec<u8>, name: &[u8]) -> Result<(), AllocError>
    ensures { OnOk result (Adds page.old.items page.new.items (column name.now)) }
{
    add_element_with(page, Element::Th, Attribute::Scope, b"col", name)
}

/// The head of a row.
pub(crate) fn add_row_name(page: &mut Vec<u8>, name: &[u8]) -> Result<(), AllocError>
    ensures { OnOk result (Adds page.old.items page.new.items (row_name name.now)) }
{
    add_element_with(page, Element::Th, Attribute::Scope, b"row", name)
}

/// A cell with a text.
pub(crate) fn add_cell(page: &mut Vec<u8>, text: &[u8]) -> Result<(), AllocError>
    ensures { OnOk result (Adds page.old.items page.new.items (cell text.now)) }
{
    add_element(page, Element::Td, text)
}

/// A cell with the text of a number.
pub(crate) fn add_number_cell(page: &mut Vec<u8>, text: &[u8]) -> Result<(), AllocError>
    ensures { OnOk result (Adds page.old.items page.new.items (number_cell text.now)) }
{
    add_element_with(page, Element::Td, Attribute::Class, b"n", text)
}

/// A cell with a number.
pub(crate) fn add_count(page: &mut Vec<u8>, count: u128) -> Result<(), AllocError>
    ensures { OnOk result (Adds page.old.items page.new.items (number count)) }
{
    start_with(page, Element::Td, Attribute::Class, b"n")?;
    add_number(page, count)?;
    end(page, Element::Td)?;
    Ok(())
}

fn add_numbers(page: &mut Vec<u8>, shares: Shares) -> Result<(), AllocError>
    ensures { OnOk result (Adds page.old.items page.new.items (shares_numbers shares)) }
{
    add_count(page, shares.linked as u128)?;
    add_count(page, shares.ambiguous as u128)?;
    add_count(page, shares.unlinked as u128)?;
    Ok(())
}

fn add_shares_bar(page: &mut Vec<u8>, alloc: Global, shares: Shares) -> Result<(), AllocError>
    ensures { OnOk result (Adds page.old.items page.new.items (bar (bar_of shares))) }
{
    let shown = Bar {
        linked: shares.linked,
        ambiguous: shares.ambiguous,
        unlinked: shares.unlinked,
    };
    add_bar(page, alloc, &shown)
}

fn add_bar_cell(page: &mut Vec<u8>, alloc: Global, shares: Shares) -> Result<(), AllocError>
    ensures { OnOk result (Adds page.old.items page.new.items (element tag.Td (bar (bar_of shares)))) }
{
    start(page, Element::Td)?;
    add_shares_bar(page, alloc, shares)?;
    end(page, Element::Td)?;
    Ok(())
}

fn add_shares_cells(
    page: &mut Vec<u8>,
    alloc: Global,
    name: &[u8],
    shares: Shares,
) -> Result<(), AllocError>
    ensures { OnOk result (Adds page.old.items page.new.items (row_name name.now ++ shares_numbers shares ++ element tag.Td (bar (bar_of shares)))) }
{
    add_row_name(page, name)?;
    add_numbers(page, shares)?;
    add_bar_cell(page, alloc, shares)?;
    Ok(())
}

/// The row of shares under a name.
pub(crate) fn add_shares(
    page: &mut Vec<u8>,
    alloc: Global,
    name: &[u8],
    shares: Shares,
) -> Result<(), AllocError>
    ensures { OnOk result (Adds page.old.items page.new.items (shares_row name.now shares)) }
{
    start(page, Element::Tr)?;
    add_shares_cells(page, alloc, name, shares)?;
    end(page, Element::Tr)?;
    Ok(())
}

fn add_count_cells(page: &mut Vec<u8>, name: &[u8], count: u128) -> Result<(), AllocError>
    ensures { OnOk result (Adds page.old.items page.new.items (row_name name.now ++ number count)) }
{
    add_row_name(page, name)?;
    add_count(page, count)?;
    Ok(())
}

/// The row of a count under a name.
pub(crate) fn add_count_row(page: &mut Vec<u8>, name: &[u8], count: u128) -> Result<(), AllocError>
    ensures { OnOk result (Adds page.old.items page.new.items (count_row name.now count)) }
{
    start(page, Element::Tr)?;
    add_count_cells(page, name, count)?;
    end(page, Element::Tr)?;
    Ok(())
}

/// The heads of columns of shares.
pub(crate) fn add_shares_columns(page: &mut Vec<u8>, first: &[u8]) -> Result<(), AllocError>
    ensures { OnOk result (Adds page.old.items page.new.items (shares_columns first.now)) }
{
    add_column(page, first)?;
    add_column(page, b"Linked")?;
    add_column(page, b"Ambiguous")?;
    add_column(page, b"Unlinked")?;
    add_column(
        page,
        b"Shares of the row, from the left: linked (dark), ambiguous (brown), unlinked (light)",
    )?;
    Ok(())
}

/// The start of a table, up to the heads of its columns.
pub(crate) fn start_table(page: &mut Vec<u8>, caption: &[u8]) -> Result<(), AllocError>
    ensures { OnOk result (Adds page.old.items page.new.items (table_start caption.now)) }
{
    start(page, Element::Table)?;
    add_element(page, Element::Caption, caption)?;
    start(page, Element::Thead)?;
    start(page, Element::Tr)?;
    Ok(())
}

/// From the heads of columns to the rows.
pub(crate) fn start_rows(page: &mut Vec<u8>) -> Result<(), AllocError>
    ensures { OnOk result (Adds page.old.items page.new.items (End tag.Tr ∷ End tag.Thead ∷ Start tag.Tbody [] ∷ [])) }
{
    end(page, Element::Tr)?;
    end(page, Element::Thead)?;
    start(page, Element::Tbody)?;
    Ok(())
}

/// The end of a table, behind its rows.
pub(crate) fn end_table(page: &mut Vec<u8>) -> Result<(), AllocError>
    ensures { OnOk result (Adds page.old.items page.new.items (End tag.Tbody ∷ End tag.Table ∷ [])) }
{
    end(page, Element::Tbody)?;
    end(page, Element::Table)?;
    Ok(())
}
