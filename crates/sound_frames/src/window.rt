//! A window of a log, which goes on with the gates.
ghost use Rattle.std.specs.Prelude.{◌≡◌, ◌≤◌, ◌<◌, ◌+◌, List, ℕ, length, true, IfOk};
ghost use Rattle.journal_verification.specs.Coming.{HasReadCause};
ghost use Rattle.sound_frames.specs.Looking.{IsWindowOf};
ghost use Rattle.sound_frames.specs.declared.window.TheConstants.{TWO_FRAMES};

use journal_verification::{Coming, ReadFault};
use outside::Source;

/// How many bytes two frames of the largest payload take, and the gate behind them.
pub(crate) const TWO_FRAMES: usize = 6_402_061;

/// How many bytes are read on to, where fewer stand in the window than two frames may take: twice as many, so that each is moved once.
pub(crate) const READ_ON_TO: usize = 12_804_122;

/// A place in a window, and whether more may come behind that.
#[derive(Clone, Copy, Debug, PartialEq, Eq)]
pub(crate) struct Place {
    pub at: usize,
    pub more: bool,
}

/// Goes on to a place of the window, and reads on where two frames may not stand behind it; answers where that place is then.
pub(crate) fn go_on<S: Source>(coming: &mut Coming<S>, place: Place) -> Result<Place, ReadFault>
    requires { place.at < length coming.old.window.items }
    ensures within { IfOk result (λ now. now.at < length coming.new.window.items) }
    ensures place { IfOk result (λ now. coming.new.place + now.at ≡ coming.old.place + place.at) }
    ensures window { IfOk result (λ now. (log : List ℕ) → IsWindowOf log coming.old.place coming.old.window.items (S.left coming.old.source) place.more
        → IsWindowOf log coming.new.place coming.new.window.items (S.left coming.new.source) now.more) }
    ensures far { IfOk result (λ now. now.more ≡ true → now.at + TWO_FRAMES ≤ length coming.new.window.items) }
    ensures cause { HasReadCause (S.faults coming.old.source) (S.faults coming.new.source) result }
{
    if !place.more || coming.window().len() - place.at >= TWO_FRAMES {
        return Ok(place);
    }
    coming.skip(place.at);
    let more = coming.fill(READ_ON_TO)?;
    Ok(Place { at: 0, more })
}
