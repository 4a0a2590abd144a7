//! A sink in memory.

ghost use Rattle.std.specs.Prelude.{◌≡◌, ◌≤◌, ◌+◌, ◌++◌, length, vec_capacity};

use crate::Sink;
use crate::plan::Plan;
use std::alloc::{AllocError, Global};
use vt_base::Failed;

/// Keeps what is written, up to a stated number of bytes. Its calls are counted from 0.
#[derive(Drop)]
pub struct MemSink {
    /// What was written so far.
    content: Vec<u8>,
    /// The most bytes that it takes in all.
    room: usize,
    /// Which calls fail.
    plan: Plan,
    ghost content_fits: { length content.items ≤ room },
    ghost room_made: { room ≤ vec_capacity content },
}

/// Appends where there is room, so that no memory is taken.
fn append(content: &mut Vec<u8>, piece: &[u8])
    requires { length content.old.items + length piece.now ≤ vec_capacity content.old }
    ensures items { content.new.items ≡ content.old.items ++ piece.now }
    ensures room { vec_capacity content.old ≤ vec_capacity content.new }
{
    if content.extend_from_slice(piece).is_err() {
        unreachable!()
    }
}

impl MemSink {
    ghost use Rattle.std.specs.Prelude.{◌≡◌, [], IfOk};
    ghost use Rattle.vt_out.specs.Memory.{sink_written, sink_room, sink_failing};
    ghost use Rattle.vt_out.specs.Memory.{sink_calls, sink_faults};

    /// Has room for so many bytes. A call fails only where its piece doesn't fit.
    pub fn new(alloc: Global, room: usize) -> Result<Self, AllocError>
        ensures written { IfOk result (λ sink. sink_written sink ≡ []) }
        ensures room { IfOk result (λ sink. sink_room sink ≡ room) }
        ensures failing { IfOk result (λ sink. sink_failing sink ≡ []) }
        ensures calls { IfOk result (λ sink. sink_calls sink ≡ 0) }
        ensures faults { IfOk result (λ sink. sink_faults sink ≡ 0) }
    {
        let content = Vec::with_capacity(alloc, room)?;
        Ok(MemSink {
            content,
            room,
            plan: Plan::new(Vec::new(alloc)),
        })
    }

    /// From now on the calls with these numbers fail, in place of those that were named before.
    pub fn failing(self, calls: Vec<u64>) -> Self
        ensures written { sink_written result ≡ sink_written self }
        ensures room { sink_room result ≡ sink_room self }
        ensures failing { sink_failing result ≡ calls.items }
        ensures calls { sink_calls result ≡ sink_calls self }
        ensures faults { sink_faults result ≡ sink_faults self }
    {
        let mut sink = self;
        sink.plan.failing = calls;
        sink
    }

    /// The bytes that were written.
    pub fn written(&self) -> &[u8]
        ensures { result.now ≡ sink_written self.now }
    {
        &self.content
    }

    /// How many calls have failed.
    pub fn faults(&self) -> u64
        ensures { result ≡ sink_faults self.now }
    {
        self.plan.faults
    }
}

impl Sink for MemSink {
    ghost use Rattle.std.specs.Prelude.{◌≡◌, ◌↔◌, ◌⊎◌, ◌<◌, ◌+◌, ◌-◌, ◌/◌, ◌^◌, ◌++◌, min, true};
    ghost use Rattle.std.specs.Prelude.{length, take, Contains, OnOk, OnErr, IsErr};
    ghost use Rattle.vt_base.specs.Faults.{HasCause, IsOneMore};
    ghost use Rattle.vt_out.specs.Memory.{sink_written, sink_room, sink_failing};
    ghost use Rattle.vt_out.specs.Memory.{sink_calls, sink_faults};

    ghost tells = { true };

    ghost written = { sink_written };

    ghost faults = { sink_faults };

    ghost faults_fit = { λ s. s.plan.faults_fit };

    /// A call that fails writes the first half of the piece, as far as there is room.
    fn put(&mut self, piece: &[u8]) -> Result<(), Failed>
        ensures failing { IsErr result
            ↔ (Contains (sink_failing self.old) (sink_calls self.old)
            ⊎ (sink_room self.old < length (sink_written self.old) + length piece.now)) }
        ensures appended { OnOk result
            (sink_written self.new ≡ sink_written self.old ++ piece.now) }
        ensures half { OnErr result
            (let spare = sink_room self.old - length (sink_written self.old) in
            sink_written self.new
            ≡ sink_written self.old ++ take (min (length piece.now / 2) spare) piece.now) }
        ensures cause { HasCause result (sink_faults self.old) (sink_faults self.new) }
        ensures calls { IsOneMore (sink_calls self.old) (sink_calls self.new) }
        ensures room { sink_room self.new ≡ sink_room self.old }
        ensures list { sink_failing self.new ≡ sink_failing self.old }
    {
        let spare = self.room - self.content.len();
        let fails = self.plan.lists_next() || spare < piece.len();
        self.plan.count(fails);
        if fails {
            // (a put that fails takes half of the piece, so that tests see what was cut)
            let half = (piece.len() / 2).min(spare);
            append(&mut self.content, &piece[..half]);
            return Err(Failed);
        }
        append(&mut self.content, piece);
        Ok(())
    }
}
