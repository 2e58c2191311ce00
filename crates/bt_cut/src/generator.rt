// The generator of numbers.
ghost use Rattle.std.specs.Prelude.{◌≡◌};
ghost use Rattle.bt_cut.specs.Generator.{drawn, next};

/// The multiplier of the congruence, Knuth's for MMIX.
const MULTIPLIER: u64 = 6_364_136_223_846_793_005;

/// Its increment.
const INCREMENT: u64 = 1_442_695_040_888_963_407;

/// The lower bits that a draw does not give.
const LOWER_BITS: u32 = 33;

/// A generator of numbers that gives the same ones whenever it begins with the same.
#[derive(Drop)]
pub(crate) struct Generator {
    pub(crate) state: u64,
}

impl Generator {
    /// Draws a number of 31 bits.
    pub(crate) fn draw(&mut self) -> u32
        ensures state { self.new.state ≡ next self.old.state }
        ensures number { result ≡ drawn self.new.state }
    {
        self.state = self.state.wrapping_mul(MULTIPLIER).wrapping_add(INCREMENT);
        (self.state >> LOWER_BITS) as u32
    }
}
