//! A source in memory.

ghost use Rattle.std.specs.Prelude.{◌≡◌, ◌≤◌, length};
ghost use Rattle.vt_base.specs.Bytes.{AreBytes};
ghost use Rattle.vt_out.specs.Streams.{piece_length};

use crate::Source;
use crate::plan::Plan;
use std::alloc::Global;
use vt_base::Failed;

/// Gives stated bytes, in pieces of stated lengths. Its calls are counted from 0.
#[derive(Drop)]
pub struct MemSource {
    /// All of its bytes, those that were given among them.
    content: Vec<u8>,
    /// How many bytes were given.
    given: usize,
    /// The most bytes that each call gives, in turn; no bound where there are none.
    pieces: Vec<usize>,
    /// Which calls fail.
    plan: Plan,
    ghost given_fits: { given ≤ length content.items },
    ghost content_fits: { AreBytes content.items },
}

/// The most bytes that the call of this number moves.
fn next_length(pieces: &[usize], call: u64, room: usize) -> usize
    ensures { result ≡ piece_length pieces.now call room }
{
    if pieces.is_empty() {
        return room;
    }
    let turn = (call % pieces.len() as u64) as usize;
    pieces[turn].max(1).min(room)
}

impl MemSource {
    ghost use Rattle.std.specs.Prelude.{◌≡◌, []};
    ghost use Rattle.vt_out.specs.Memory.{source_given, source_left, source_pieces, source_failing};
    ghost use Rattle.vt_out.specs.Memory.{source_calls, source_faults};

    /// Gives these bytes, as many at once as there is room for. No call fails.
    pub fn new(alloc: Global, content: Vec<u8>) -> Self
        ensures given { source_given result ≡ [] }
        ensures left { source_left result ≡ content.items }
        ensures pieces { source_pieces result ≡ [] }
        ensures failing { source_failing result ≡ [] }
        ensures calls { source_calls result ≡ 0 }
        ensures faults { source_faults result ≡ 0 }
    {
        MemSource {
            content,
            given: 0,
            pieces: Vec::new(alloc),
            plan: Plan::new(Vec::new(alloc)),
        }
    }

    /// From now on a call moves no more bytes than the entry of the list says whose turn it is, by
    /// the call's number, and 1 where it says 0.
    pub fn in_pieces(self, pieces: Vec<usize>) -> Self
        ensures given { source_given result ≡ source_given self }
        ensures left { source_left result ≡ source_left self }
        ensures pieces { source_pieces result ≡ pieces.items }
        ensures failing { source_failing result ≡ source_failing self }
        ensures calls { source_calls result ≡ source_calls self }
        ensures faults { source_faults result ≡ source_faults self }
    {
        let mut source = self;
        source.pieces = pieces;
        source
    }

    /// From now on the calls with these numbers fail.
    pub fn failing(self, calls: Vec<u64>) -> Self
        ensures given { source_given result ≡ source_given self }
        ensures left { source_left result ≡ source_left self }
        ensures pieces { source_pieces result ≡ source_pieces self }
        ensures failing { source_failing result ≡ calls.items }
        ensures calls { source_calls result ≡ source_calls self }
        ensures faults { source_faults result ≡ source_faults self }
    {
        let mut source = self;
        source.plan.failing = calls;
        source
    }

    /// The bytes that are left.
    pub fn left(&self) -> &[u8]
        ensures { result.now ≡ source_left self.now }
    {
        &self.content[self.given..]
    }

    /// How many calls have failed.
    pub fn faults(&self) -> u64
        ensures { result ≡ source_faults self.now }
    {
        self.plan.faults
    }
}

impl Source for MemSource {
    ghost use Rattle.std.specs.Prelude.{◌≡◌, ◌↔◌, ◌<◌, ◌+◌, ◌-◌, ◌^◌, ◌++◌, min, true, []};
    ghost use Rattle.std.specs.Prelude.{length, take, drop, Contains, IfOk, OnErr, IsErr};
    ghost use Rattle.std.proofs.Common.{arith};
    ghost use Rattle.std.proofs.lemmas.List.{get_or-drop};
    ghost use Rattle.vt_base.specs.Faults.{HasCause, IsOneMore};
    ghost use Rattle.vt_out.specs.Memory.{source_given, source_left, source_pieces, source_failing};
    ghost use Rattle.vt_out.specs.Memory.{source_calls, source_faults};
    ghost use Rattle.vt_out.specs.Streams.{piece_length};

    ghost tells = { true };

    ghost given = { source_given };

    ghost left = { source_left };

    ghost faults = { source_faults };

    ghost Kept = { Unit {0} };

    ghost kept = { λ _. tt };

    ghost left_bytes = { λ s i. Prim.omega
        (arith, get_or-drop s.given s.content.items i 0, s.content_fits (s.given + i)) };

    ghost faults_fit = { λ s. s.plan.faults_fit };

    /// Gives the next bytes that are left, as many as its pieces and the buffer have room for,
    /// unless the call is one of those that fail.
    fn take(&mut self, buf: &mut [u8]) -> Result<usize, Failed>
        ensures failing { IsErr result
            ↔ Contains (source_failing self.old) (source_calls self.old) }
        ensures length { IfOk result (λ n. n ≡ min (length (source_left self.old))
            (piece_length (source_pieces self.old) (source_calls self.old) (length buf.old))) }
        ensures moved { IfOk result (λ n.
            source_left self.old ≡ take n buf.new ++ source_left self.new) }
        ensures came { IfOk result (λ n.
            source_given self.new ≡ source_given self.old ++ take n buf.new) }
        ensures end { IfOk result (λ n.
            n ≡ 0 → 0 < length buf.old → source_left self.old ≡ []) }
        ensures rest { IfOk result (λ n. drop n buf.new ≡ drop n buf.old) }
        ensures kept { OnErr result (source_left self.new ≡ source_left self.old) }
        ensures none { OnErr result (source_given self.new ≡ source_given self.old) }
        ensures untouched { OnErr result (buf.new ≡ buf.old) }
        ensures cause { HasCause result (source_faults self.old) (source_faults self.new) }
        ensures calls { IsOneMore (source_calls self.old) (source_calls self.new) }
        ensures pieces { source_pieces self.new ≡ source_pieces self.old }
        ensures list { source_failing self.new ≡ source_failing self.old }
    {
        let fails = self.plan.lists_next();
        let most = next_length(&self.pieces, self.plan.calls, buf.len());
        self.plan.count(fails);
        if fails {
            return Err(Failed);
        }
        let left = &self.content[self.given..];
        let n = most.min(left.len());
        buf[..n].copy_from_slice(&left[..n]);
        self.given += n;
        Ok(n)
    }
}
