//! The sink over std's output. What it holds isn't told.

ghost use Rattle.std.specs.Prelude.{◌≡◌, None, IfOk};
ghost use Rattle.kan_base.specs.Faults.{faults_after};
ghost use Rattle.kan_base.specs.Writes.{Writes};

use crate::faults::{Failed, one_more};
use crate::sinks::Sink;
use crate::std_streams::write_some;
use std::io;
use std::io::Print;
use std::marker::Model;

/// Standard output, by the runtime.
#[derive(Drop)]
pub struct StdSink<R: Print + Drop> {
    rt: R,
    faults: u64,
}

impl<R: Print + Drop> Model for StdSink<R> {
    ghost use Rattle.std.specs.Prelude.{ℕ};

    ghost Value = { ℕ };

    ghost view = { λ sink. sink.faults };
}

impl<R: Print + Drop> StdSink<R> {
    /// A sink over standard output. It is seen as its count of faults.
    pub fn new(rt: R) -> StdSink<R>
        ensures { result ≡ 0 }
    {
        StdSink { rt, faults: 0 }
    }
}

impl<R: Print + Drop> Sink for StdSink<R> {
    ghost view = { λ sink. record { put = None; faults = sink } };

    fn write(&mut self, piece: &[u8]) -> Result<usize, Failed>
        ensures written { IfOk result (λ n. Writes None None n piece.now) }
        ensures faults { self.new ≡ faults_after result self.old }
    {
        let result = write_some(&mut io::writer(&self.rt), piece);
        if result.is_err() {
            self.faults = one_more(self.faults);
        }
        result
    }
}
