ghost use Rattle.std.specs.Prelude.{◌≡◌, ◌<◌};
ghost use Rattle.workload.specs.Drafts.{draft_of, state_behind};

use crate::draws::Draws;

/// What becomes a record.
#[derive(Clone, Copy, Debug)]
pub enum Draft {
    /// An authority of a name and a variant of it.
    Authority { name: u64, variant: u64 },
    /// An authority that also names another one, by an alias.
    LinkedAuthority { name: u64, variant: u64, other: u64 },
    /// The deletion of a name's authority.
    Deletion { name: u64 },
    /// A bibliographic record with that number, whose author goes by a name's alias.
    Bibliographic { number: u64, author: u64 },
}

/// The draft of the record with that number, where so many names are there.
#[tactic(auto, unfolding(crate::specs::Drafts::draft_of))]
pub fn draw_draft(draws: &mut Draws, names: u64, number: u64) -> Draft
    requires { 0 < names }
    ensures value { result ≡ draft_of names number draws.old.state }
    ensures state { draws.new.state ≡ state_behind names number draws.old.state }
{
    match draws.draw_below(8) {
        0 => Draft::Authority {
            name: draws.draw_below(names),
            variant: draws.draw_below(4),
        },
        1 => Draft::LinkedAuthority {
            name: draws.draw_below(names),
            variant: draws.draw_below(4),
            other: draws.draw_below(names),
        },
        2 => Draft::Deletion {
            name: draws.draw_below(names),
        },
        _ => Draft::Bibliographic {
            number,
            author: draws.draw_below(names),
        },
    }
}
