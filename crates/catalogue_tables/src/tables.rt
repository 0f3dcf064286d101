ghost use Rattle.std.specs.Prelude.{◌≡◌, List, OnOk, OnErr, IfOk, IfSome, IfNone, None};
ghost use Rattle.link_table.specs.Links.{IsTaken, is_linked, row_of};
ghost use Rattle.link_table.specs.Table.{links};
ghost use Rattle.numbering.specs.Seats.{same_seat};
ghost use Rattle.postings.specs.Listed.{ListsEach};
ghost use Rattle.catalogue_tables.specs.Told.{AddsLink, TakesLink, PutsLinkBack};

use form_index::FormIndex;
use link_table::{Link, LinkTable};
use marc_types::{Form, NoMemory};
use numbering::{Numbering, Seat, Seats};
use std::alloc::Global;
use wait_table::WaitTable;

/// The tables by which a commit finds the places that it touches, all in numbers: of keys, which the store gives, and of forms.
#[derive(Drop)]
pub struct CatalogueTables {
    pub(crate) forms: Numbering<Form>,
    pub(crate) index: FormIndex,
    pub(crate) waits: WaitTable,
    pub(crate) links: LinkTable,
}

impl CatalogueTables {
    ghost use Rattle.std.specs.Prelude.{[]};
    ghost use Rattle.std.specs.List.{IsDistinct};
    ghost use Rattle.marc_types.specs.Order.{same_form};
    ghost use Rattle.marc_types.specs.declared.key.Key.{Key};
    ghost use Rattle.form_index.specs.Index.{IsInOrder, no_index};
    ghost use Rattle.link_table.specs.Links.{less_taken, no_links};
    ghost use Rattle.wait_table.specs.Waits.{no_waits};
    ghost use Rattle.wait_table.specs.Table.{waits};
    ghost use Rattle.catalogue_tables.specs.Tables.{OnlyLinks};

    /// No forms and no rows.
    pub fn new(alloc: Global) -> CatalogueTables
        ensures forms { result.forms ≡ [] }
        ensures index { result.index ≡ no_index }
        ensures ordered { (keys : List Key) → IsInOrder keys result.index }
        ensures waits { waits result.waits ≡ no_waits }
        ensures links { links result.links ≡ no_links }
    {
        CatalogueTables {
            forms: Numbering::new(alloc),
            index: FormIndex::new(alloc),
            waits: WaitTable::new(alloc),
            links: LinkTable::new(alloc),
        }
    }

    /// No form has two numbers.
    pub fn each_form_has_one_number(&self)
        ensures { IsDistinct same_form self.now.forms }
    {
        self.forms.len();
    }

    #[tactic(auto, using(crate::proofs::Linked::adds))]
    /// Links a seat to an authority. `NoMemory` leaves everything as it was.
    pub fn add_link(&mut self, alloc: Global, link: Link) -> Result<(), NoMemory>
        requires free { (links self.old.links).key_of link.seat ≡ None }
        ensures only { OnlyLinks self.old self.new }
        ensures ok { OnOk result (AddsLink link (links self.old.links) (links self.new.links)) }
        ensures err { OnErr result (links self.new.links ≡ links self.old.links) }
    {
        self.links.add(alloc, link)?;
        Ok(())
    }

    /// Takes the link of a seat out, if there is one. It may come back by `put_link_back`, or be let go.
    pub fn take_link(&mut self, seat: Seat) -> Option<Link>
        ensures only { OnlyLinks self.old self.new }
        ensures row { result ≡ row_of seat ((links self.old.links).key_of seat) }
        ensures some { IfSome result (λ link. TakesLink link (links self.old.links) (links self.new.links)) }
        ensures none { IfNone result (links self.new.links ≡ links self.old.links) }
        ensures free { (links self.new.links).key_of seat ≡ None }
    {
        self.links.take(seat)
    }

    #[tactic(auto, using(crate::proofs::Linked::puts_back))]
    /// Puts a link back that was taken. It takes no memory.
    pub fn put_link_back(&mut self, link: Link)
        requires taken { IsTaken link (links self.old.links) }
        requires free { (links self.old.links).key_of link.seat ≡ None }
        ensures only { OnlyLinks self.old self.new }
        ensures back { PutsLinkBack link (links self.old.links) (links self.new.links) }
    {
        self.links.put_back(link);
    }

    /// Lets a link go that was taken, and gives back its room.
    pub fn let_link_go(&mut self, link: Link)
        requires { IsTaken link (links self.old.links) }
        ensures only { OnlyLinks self.old self.new }
        ensures gone { links self.new.links ≡ less_taken link (links self.old.links) }
    {
        self.links.let_go(link);
    }

    /// All seats that are linked to the authority, each once, in any order.
    pub fn linked(&self, alloc: Global, number: u32) -> Result<Seats, NoMemory>
        ensures { IfOk result (λ seats. ListsEach same_seat (is_linked number (links self.now.links)) seats.items) }
    {
        self.links.of(alloc, number)
    }
}
