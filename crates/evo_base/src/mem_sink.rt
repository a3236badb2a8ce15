ghost use Rattle.std.specs.Prelude.{vec_len, vec_capacity, ◌++◌, ◌+◌, ◌≡◌, [], IfOk, OnOk, OnErr, length, IsErr, IsTrue, ◌↔◌, ◌-◌, ◌≤◌, ℕ, is_err, false};
ghost use Rattle.evo_base.specs.Causes.{HasCause};
ghost use Rattle.evo_base.specs.Content.{Writes};

use crate::plan::FailurePlan;
use crate::{Failed, Sink};
use std::alloc::{AllocError, Global};
use std::marker::Model;

/// A sink in memory, with room for so many bytes in all.
#[derive(Drop)]
pub struct MemSink {
    bytes: Vec<u8>,
    room: u64,
    plan: FailurePlan,
    faults: u64,
    failed: bool,
}

impl Model for MemSink {
    ghost use Rattle.std.specs.Prelude.{vec_len, vec_capacity, ◌≤◌};
    ghost use Rattle.evo_base.specs.MemSinkState.{MemSinkState};

    ghost Value = { MemSinkState };

    ghost view = { λ s. record { bytes = s.bytes.items; room = s.room; plan = s.plan; faults = s.faults; failed = s.failed } };

    ghost invariant = { λ s. (vec_len s.bytes ≤ s.room) × (s.room ≤ vec_capacity s.bytes) };
}

impl MemSink {
    ghost use Rattle.evo_base.specs.MemSinkState.{MemSinkState};
    ghost use Rattle.std.specs.Prelude.{◌∷◌, ◌++◌};

    /// An empty sink with room for `room` bytes, which it takes at once.
    pub fn new(alloc: Global, room: u64) -> Result<MemSink, AllocError>
        ensures { IfOk result (λ s. s ≡ record { bytes = []; room = room; plan = record { calls = 0; listed = [] }; faults = 0; failed = false }) }
    {
        Ok(MemSink {
            bytes: Vec::with_capacity(alloc, room as usize)?,
            room,
            plan: FailurePlan::new(alloc),
            faults: 0,
            failed: false,
        })
    }

    /// Lists the number of a `write` that is to fail, counted from 1. A listed `write` keeps the first half of its bytes.
    pub fn fail(&mut self, call: u64) -> Result<(), AllocError>
        ensures ok { OnOk result (self.new ≡ record self.old { plan = record self.old.plan { listed = self.old.plan.listed ++ call ∷ [] } }) }
        ensures err { OnErr result (self.new ≡ self.old) }
    {
        self.plan.fail(call)
    }

    /// What was written.
    pub fn bytes(&self) -> &[u8]
        ensures { result.now ≡ self.now.bytes }
    {
        self.bytes.as_slice()
    }
}

// Puts bytes at the end of a `Vec` that has room for them.
fn append(bytes: &mut Vec<u8>, piece: &[u8])
    requires { vec_len bytes.old + length piece.now ≤ vec_capacity bytes.old }
    ensures items { bytes.new.items ≡ bytes.old.items ++ piece.now }
    ensures capacity { vec_capacity bytes.old ≤ vec_capacity bytes.new }
{
    bytes.extend_from_slice(piece).unwrap();
}

impl Sink for MemSink {
    ghost use Rattle.std.specs.Prelude.{Some};
    ghost use Rattle.evo_base.specs.MemSinkState.{sink_state, Takes, after_write, fails_at};
    ghost use Rattle.evo_base.specs.Laws.{sink_takes_fewer};

    ghost state = { sink_state };

    fn write(&mut self, piece: &[u8]) -> Result<(), Failed>
        ensures content { Writes (Some self.old.bytes) (Some self.new.bytes) piece.now result }
        ensures failed { self.new.failed ≡ is_err result }
        ensures cause { HasCause self.old.faults self.new.faults (Takes self.old (length piece.now)) result }
        ensures takes { (n : ℕ) → length piece.now ≤ n → Takes self.old n → Takes self.new (n - length piece.now) }
        // Which writes fail, and what is kept of them.
        ensures after { self.new ≡ after_write self.old piece.now }
        ensures fails { is_err result ≡ fails_at self.old (length piece.now) }
    {
        let listed = self.plan.next();
        let left = self.room as usize - self.bytes.len();
        if left < piece.len() {
            append(&mut self.bytes, &piece[..left]);
            self.faults = self.faults.saturating_add(1);
            self.failed = true;
            return Err(Failed {});
        }
        if listed {
            append(&mut self.bytes, &piece[..piece.len() / 2]);
            self.faults = self.faults.saturating_add(1);
            self.failed = true;
            return Err(Failed {});
        }
        append(&mut self.bytes, piece);
        self.failed = false;
        Ok(())
    }

    ghost takes_fewer = { sink_takes_fewer };
}
