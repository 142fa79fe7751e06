//! A sink for which bytes are only counted.
ghost use Rattle.std.specs.Prelude.{None};

use crate::sinks::Sink;

/// A sink that takes all bytes, keeps none and never fails.
#[derive(Drop)]
pub struct Discarding;

impl Sink for Discarding {
    ghost stream = { λ _. record { taken = None; failures = 0 } };

    fn take(&mut self, bytes: &[u8]) -> Option<usize> {
        Some(bytes.len())
    }

    fn failures(&self) -> u64 {
        0
    }
}
