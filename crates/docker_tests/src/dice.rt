//! Pseudo-random numbers, which are the same each time the tests run.
ghost use Rattle.std.specs.Prelude.{◌<◌};

/// A linear congruential generator. It returns the upper bits of its numbers.
#[derive(Drop)]
pub(crate) struct Dice {
    number: u64,
}

impl Dice {
    /// Returns a generator that starts from this number.
    pub(crate) fn new(number: u64) -> Dice {
        Dice { number }
    }

    /// Returns the next number below `sides`.
    pub(crate) fn roll(&mut self, sides: usize) -> usize
        requires { 0 < sides }
        ensures { result < sides }
    {
        self.number = self
            .number
            .wrapping_mul(6_364_136_223_846_793_005)
            .wrapping_add(1_442_695_040_888_963_407);
        (self.number >> 33) as usize % sides
    }
}
