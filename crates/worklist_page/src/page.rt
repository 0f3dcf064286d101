//! The page as a whole.
ghost use Rattle.std.specs.Prelude.{◌≡◌, IfOk, OnOk};
ghost use Rattle.worklist_page.specs.declared.names.Element.TheVariants as tag;
ghost use Rattle.worklist_page.specs.Pieces.{Adds, element, words};
ghost use Rattle.worklist_page.specs.Figures.{figures_of};
ghost use Rattle.worklist_page.specs.Headings.{all_open_headings};
ghost use Rattle.worklist_page.specs.Page.{content, halves, head, head_parts, html, page_name, page_pieces, state_page, state_totals};
ghost use Rattle.worklist_page.specs.declared.style.TheConstants.{STYLE as the_style};

use crate::brought::Brought;
use crate::figures::{Figures, figures_of};
use crate::headings::add_headings_table;
use crate::libraries::add_libraries_table;
use crate::names::{Attribute, Element};
use crate::pieces::{add_doctype, add_element, end, start, start_with};
use crate::sections::{add_brought_table, add_kinds_table, add_totals_table};
use crate::style::STYLE;
use catalogue_core::Engine;
use heading_worklist::Counted;
use marc_types::{Class, NoMemory};
use std::alloc::{AllocError, Global};
use std::collections::BTreeSet;

fn add_named(page: &mut Vec<u8>, name: Element) -> Result<(), AllocError>
    ensures { OnOk result (Adds page.old.items page.new.items (element name (words page_name))) }
{
    add_element(page, name, b"Union catalogue: how its headings are linked")
}

fn add_style(page: &mut Vec<u8>) -> Result<(), AllocError>
    ensures { OnOk result (Adds page.old.items page.new.items (element tag.Style (words the_style.now))) }
{
    add_element(page, Element::Style, STYLE.as_bytes())
}

fn add_head_parts(page: &mut Vec<u8>) -> Result<(), AllocError>
    ensures { OnOk result (Adds page.old.items page.new.items head_parts) }
{
    start_with(page, Element::Meta, Attribute::Charset, b"utf-8")?;
    add_named(page, Element::Title)?;
    add_style(page)?;
    Ok(())
}

fn add_head(page: &mut Vec<u8>) -> Result<(), AllocError>
    ensures { OnOk result (Adds page.old.items page.new.items head) }
{
    start(page, Element::Head)?;
    add_head_parts(page)?;
    end(page, Element::Head)?;
    Ok(())
}

/// What the page shows: a catalogue, its open headings in their order, its figures, and who brought entries.
#[derive(Drop)]
struct Shown<'a, 'h> {
    engine: &'a Engine,
    headings: &'a BTreeSet<Counted<'h>>,
    figures: &'a Figures,
    brought: &'a Brought,
    ghost ordered: { headings.now.keys ≡ all_open_headings engine.now.state },
}

#[tactic(auto, using(crate::proofs::Rows::shown_totals))]
fn add_totals(page: &mut Vec<u8>, engine: &Engine, figures: &Figures) -> Result<(), AllocError>
    ensures { OnOk result (Adds page.old.items page.new.items (state_totals engine.now.state figures.now.totals)) }
{
    let authorities = engine.count(Class::Authority);
    let bibliographic = engine.count(Class::Bibliographic);
    let totals = figures.totals();
    add_totals_table(page, authorities, bibliographic, totals)
}

fn add_content(page: &mut Vec<u8>, alloc: Global, shown: &Shown<'_, '_>) -> Result<(), NoMemory>
    ensures { OnOk result (Adds page.old.items page.new.items
        (content shown.now.engine.now.state shown.now.figures.now shown.now.brought.now)) }
{
    add_named(page, Element::H1)?;
    add_totals(page, shown.engine, shown.figures)?;
    add_libraries_table(page, alloc, shown.figures)?;
    add_kinds_table(page, alloc, shown.figures)?;
    add_headings_table(page, alloc, shown.engine, shown.headings)?;
    add_brought_table(page, shown.brought)?;
    Ok(())
}

fn add_body(page: &mut Vec<u8>, alloc: Global, shown: &Shown<'_, '_>) -> Result<(), NoMemory>
    ensures { OnOk result (Adds page.old.items page.new.items
        (element tag.Body (content shown.now.engine.now.state shown.now.figures.now shown.now.brought.now))) }
{
    start(page, Element::Body)?;
    add_content(page, alloc, shown)?;
    end(page, Element::Body)?;
    Ok(())
}

fn add_halves(page: &mut Vec<u8>, alloc: Global, shown: &Shown<'_, '_>) -> Result<(), NoMemory>
    ensures { OnOk result (Adds page.old.items page.new.items (halves shown.now.engine.now.state shown.now.figures.now shown.now.brought.now)) }
{
    add_head(page)?;
    add_body(page, alloc, shown)?;
    Ok(())
}

fn add_html(page: &mut Vec<u8>, alloc: Global, shown: &Shown<'_, '_>) -> Result<(), NoMemory>
    ensures { OnOk result (Adds page.old.items page.new.items (html shown.now.engine.now.state shown.now.figures.now shown.now.brought.now)) }
{
    start_with(page, Element::Html, Attribute::Lang, b"en")?;
    add_halves(page, alloc, shown)?;
    end(page, Element::Html)?;
    Ok(())
}

fn add_page(page: &mut Vec<u8>, alloc: Global, shown: &Shown<'_, '_>) -> Result<(), NoMemory>
    ensures { OnOk result (Adds page.old.items page.new.items
        (page_pieces shown.now.engine.now.state shown.now.figures.now shown.now.brought.now)) }
{
    add_doctype(page)?;
    add_html(page, alloc, shown)?;
    Ok(())
}

/// The page of a state, of which all open headings are given in their order, and of who brought entries, made in memory.
pub fn page_bytes(
    alloc: Global,
    engine: &Engine,
    headings: &BTreeSet<Counted<'_>>,
    brought: &Brought,
) -> Result<Vec<u8>, NoMemory>
    requires { headings.now.keys ≡ all_open_headings engine.now.state }
    ensures { IfOk result (λ page. page.items ≡ state_page engine.now.state brought.now) }
{
    let figures = figures_of(alloc, engine)?;
    let shown = Shown {
        engine,
        headings,
        figures: &figures,
        brought,
    };
    let mut page = Vec::new(alloc);
    add_page(&mut page, alloc, &shown)?;
    Ok(page)
}
