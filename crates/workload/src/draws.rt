ghost use Rattle.std.specs.Prelude.{◌≡◌, ◌<◌};
ghost use Rattle.workload.specs.Draws.{next_state, drawn_below};

const MULTIPLIER: u64 = 6_364_136_223_846_793_005;

const INCREMENT: u64 = 1_442_695_040_888_963_407;

/// A generator of numbers, which its state determines.
#[derive(Clone, Copy, Debug)]
pub struct Draws {
    pub state: u64,
}

impl Draws {
    /// A number below the bound.
    #[tactic(auto, using(crate::proofs::States::added_behind), unfolding(crate::specs::Draws::next_state, crate::specs::Draws::drawn_below))]
    pub fn draw_below(&mut self, bound: u64) -> u64
        requires { 0 < bound }
        ensures value { result ≡ drawn_below bound self.new.state }
        ensures below { result < bound }
        ensures state { self.new.state ≡ next_state self.old.state }
    {
        self.state = self.state.wrapping_mul(MULTIPLIER).wrapping_add(INCREMENT);
        (self.state >> 33) % bound
    }
}
