//! A sink that keeps in memory what was put.

ghost use Rattle.std.specs.Prelude.{◌≡◌, ◌≤◌, [], Some, IfOk, IfErr, OnErr, is_err};
ghost use Rattle.kan_base.specs.Faults.{faults_after};
ghost use Rattle.kan_base.specs.Writes.{Writes};
ghost use Rattle.kan_base.specs.Plans.{new_plan};
ghost use Rattle.kan_base.specs.InMemory.{write_fails, write_count};
ghost use Rattle.kan_base.specs.InMemory.{after_write, after_failed_write};

use crate::faults::Failed;
use crate::plan::Plan;
use crate::sinks::Sink;
use std::alloc::Global;
use std::marker::Model;

/// A sink that keeps in memory what was put. The calls that it is told fail.
#[derive(Drop)]
pub struct MemorySink {
    bytes: Vec<u8>,
    room: u32,
    piece: u32,
    plan: Plan,
}

impl Model for MemorySink {
    ghost use Rattle.std.specs.Prelude.{◌≤◌, length, vec_capacity};
    ghost use Rattle.kan_base.specs.InMemory.{SinkState};

    ghost Value = { SinkState };

    ghost view = { λ sink. record {
      put = sink.bytes.items;
      room = sink.room;
      piece = sink.piece;
      plan = sink.plan;
    } };

    ghost invariant = { λ sink. (1 ≤ sink.piece) × (length sink.bytes.items ≤ sink.room)
        × (sink.room ≤ vec_capacity sink.bytes) };
}

impl MemorySink {
    /// A sink with memory for `room` bytes. A write takes at most `piece` bytes, and the writes
    /// whose numbers stand in `fails` fail, counted from 0. Where there is no memory the list comes
    /// back.
    pub fn new(
        alloc: Global,
        room: u32,
        piece: u32,
        fails: Vec<u32>,
    ) -> Result<MemorySink, Vec<u32>>
        requires { 1 ≤ piece }
        ensures made { IfOk result (λ sink. sink ≡ record {
          put = [];
          room = room;
          piece = piece;
          plan = new_plan fails.items;
        }) }
        ensures refused { IfErr result (λ list. list ≡ fails) }
    {
        let Ok(bytes) = Vec::with_capacity(alloc, room as usize) else {
            return Err(fails);
        };
        Ok(MemorySink {
            bytes,
            room,
            piece,
            plan: Plan::new(fails),
        })
    }

    /// What was put.
    pub fn put(&self) -> &[u8]
        ensures { result.now ≡ self.now.put }
    {
        self.bytes.as_slice()
    }
}

impl Sink for MemorySink {
    ghost view = { λ sink. record { put = Some sink.put; faults = sink.plan.faults } };

    fn write(&mut self, piece: &[u8]) -> Result<usize, Failed>
        ensures written { IfOk result (λ n.
            Writes (Some self.old.put) (Some self.new.put) n piece.now) }
        ensures faults { self.new.plan.faults ≡ faults_after result self.old.plan.faults }
        // Exactly where it is planned to, and where nothing of a piece that isn't empty fits.
        ensures fails { is_err result ≡ write_fails self.old piece.now }
        ensures count { IfOk result (λ n. n ≡ write_count self.old piece.now) }
        ensures ok { IfOk result (λ n. self.new ≡ after_write self.old n piece.now) }
        ensures err { OnErr result (self.new ≡ after_failed_write self.old) }
    {
        let free = self.room as usize - self.bytes.len();
        if self.plan.is_due() || (!piece.is_empty() && free == 0) {
            self.plan.fail();
            return Err(Failed);
        }
        let n = piece.len().min(self.piece as usize).min(free);
        // The room was taken when the sink was made.
        if self.bytes.extend_from_slice(&piece[..n]).is_err() {
            self.plan.fail();
            return Err(Failed);
        }
        self.plan.pass();
        Ok(n)
    }
}
