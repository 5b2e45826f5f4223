//! A sink that never fails.

ghost use Rattle.std.specs.Prelude.{◌≡◌, ◌+◌, ◌-◌, ◌^◌, None, IfOk, IsOk, min, length};

use crate::faults::Failed;
use crate::sinks::Sink;
use std::marker::Model;

/// A sink that takes every byte and keeps their number alone. No call fails.
#[derive(Drop)]
pub struct CountSink {
    count: u64,
}

impl Model for CountSink {
    ghost use Rattle.std.specs.Prelude.{ℕ};

    ghost Value = { ℕ };

    ghost view = { λ sink. sink.count };
}

impl CountSink {
    /// A sink that has taken nothing.
    pub fn new() -> CountSink
        ensures { result ≡ 0 }
    {
        CountSink { count: 0 }
    }

    /// How many bytes were taken, where the count stays at the greatest `u64`.
    pub fn count(&self) -> u64
        ensures { result ≡ self.now }
    {
        self.count
    }
}

impl Sink for CountSink {
    ghost view = { λ sink. record { put = None; faults = 0 } };

    fn write(&mut self, piece: &[u8]) -> Result<usize, Failed>
        ensures never_fails { IsOk result }
        ensures count { IfOk result (λ n. n ≡ length piece.now) }
        ensures exact { self.new ≡ min (self.old + length piece.now) (2 ^ 64 - 1) }
    {
        self.count = self.count.saturating_add(piece.len() as u64);
        Ok(piece.len())
    }
}
