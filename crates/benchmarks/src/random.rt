//! Numbers that look random and are the same in each run.
ghost use Rattle.std.specs.Prelude.{◌<◌};

use std::alloc::AllocError;

/// A generator of numbers, started at a fixed seed.
#[derive(Drop)]
pub struct Random {
    state: u64,
}

impl Random {
    /// The generator at its seed. It has no contract: any numbers would do, and those of the plain
    /// program are compared by the sums.
    pub fn new() -> Random {
        Random {
            state: 0x9e37_79b9_7f4a_7c15,
        }
    }

    /// The next byte; it has no contract, as `new`.
    pub fn byte(&mut self) -> u8 {
        self.state = self
            .state
            .wrapping_mul(6_364_136_223_846_793_005)
            .wrapping_add(1_442_695_040_888_963_407);
        (self.state >> 56) as u8
    }

    /// The next number below a bound.
    pub fn below(&mut self, bound: u8) -> u8
        requires { 0 < bound }
        ensures { result < bound }
    {
        self.byte() % bound
    }

    /// Appends the next bytes; it has no contract, as `new`.
    pub fn append(&mut self, count: usize, bytes: &mut Vec<u8>) -> Result<(), AllocError> {
        for _ in 0..count {
            bytes.push(self.byte())?;
        }
        Ok(())
    }
}
