//! The numbers that a seed gives.
ghost use Rattle.std.specs.Prelude.{◌<◌};

/// A shift register. The same seed gives the same numbers.
#[derive(Drop)]
pub(crate) struct Random {
    state: u64,
}

impl Random {
    pub(crate) fn new(seed: u64) -> Random {
        Random { state: seed | 1 }
    }

    /// The next number, below this one.
    pub(crate) fn below(&mut self, most: u32) -> u32
        requires { 0 < most }
        ensures { result < most }
    {
        self.state ^= self.state << 13;
        self.state ^= self.state >> 7;
        self.state ^= self.state << 17;
        (self.state % u64::from(most)) as u32
    }
}
