//! Pseudorandom numbers by a linear congruential generator, so that a drill is the same wherever it is made.
ghost use Rattle.std.specs.Prelude.{◌≡◌, ◌<◌};
ghost use Rattle.tile_drill.specs.Made.{next_x, drawn};

/// A multiplier and an increment that give a sequence of period 2^64 (Knuth, The Art of Computer Programming, 3.3.4).
const MULTIPLIER: u64 = 6_364_136_223_846_793_005;

const INCREMENT: u64 = 1_442_695_040_888_963_407;

/// Numbers that look random, and are the same for the same start.
#[derive(Clone, Copy, PartialEq, Eq)]
pub struct Draws {
    pub x: u64,
}

impl Draws {
    /// A number below `bound`.
    #[tactic(auto, unfolding(crate::specs::Made::next_x, crate::specs::Made::drawn))]
    pub fn draw(&mut self, bound: u32) -> u32
        requires { 0 < bound }
        ensures value { result ≡ drawn bound self.old.x }
        ensures below { result < bound }
        ensures next { self.new.x ≡ next_x self.old.x }
    {
        self.x = self.x.wrapping_mul(MULTIPLIER).wrapping_add(INCREMENT);
        ((self.x >> 33) % u64::from(bound)) as u32
    }
}
