//! A link in memory.

use crate::{Link, MemSink, MemSource, Sink, Source};
use vt_base::Failed;

/// What comes in from a source in memory, and goes out to a sink in memory. Calls of `take` and of
/// `put` are counted apart.
#[derive(Drop)]
pub struct MemLink {
    pub source: MemSource,
    pub sink: MemSink,
}

impl Link for MemLink {
    ghost use Rattle.std.specs.Prelude.{◌≡◌, ◌↔◌, ◌⊎◌, ◌<◌, ◌+◌, ◌-◌, ◌/◌, ◌^◌, ◌++◌, min, true};
    ghost use Rattle.std.specs.Prelude.{[], length, take, drop, Contains, IfOk, OnOk, OnErr, IsErr};
    ghost use Rattle.std.proofs.Common.{arith};
    ghost use Rattle.std.proofs.lemmas.List.{get_or-drop};
    ghost use Rattle.vt_base.specs.Faults.{HasCause, IsOneMore};
    ghost use Rattle.vt_out.specs.Memory.{source_given, source_left, source_pieces, source_failing};
    ghost use Rattle.vt_out.specs.Memory.{source_calls, source_faults, sink_written, sink_room};
    ghost use Rattle.vt_out.specs.Memory.{sink_failing, sink_calls, sink_faults};
    ghost use Rattle.vt_out.specs.Streams.{piece_length};

    ghost tells = { true };

    ghost given = { λ link. source_given link.source };

    ghost left = { λ link. source_left link.source };

    ghost written = { λ link. sink_written link.sink };

    ghost read_faults = { λ link. source_faults link.source };

    ghost write_faults = { λ link. sink_faults link.sink };

    ghost left_bytes = { λ link i. Prim.omega (
      arith,
      get_or-drop link.source.given link.source.content.items i 0,
      link.source.content_fits (link.source.given + i),
    ) };

    ghost read_faults_fit = { λ link. link.source.plan.faults_fit };

    ghost write_faults_fit = { λ link. link.sink.plan.faults_fit };

    /// As the source does it.
    fn take(&mut self, buf: &mut [u8]) -> Result<usize, Failed>
        ensures failing { IsErr result
            ↔ Contains (source_failing self.old.source) (source_calls self.old.source) }
        ensures length { IfOk result (λ n. n ≡ min (length (source_left self.old.source))
            (piece_length (source_pieces self.old.source) (source_calls self.old.source)
            (length buf.old))) }
        ensures moved { IfOk result (λ n.
            source_left self.old.source ≡ take n buf.new ++ source_left self.new.source) }
        ensures came { IfOk result (λ n. source_given self.new.source
            ≡ source_given self.old.source ++ take n buf.new) }
        ensures end { IfOk result (λ n.
            n ≡ 0 → 0 < length buf.old → source_left self.old.source ≡ []) }
        ensures rest { IfOk result (λ n. drop n buf.new ≡ drop n buf.old) }
        ensures kept { OnErr result
            (source_left self.new.source ≡ source_left self.old.source) }
        ensures none { OnErr result
            (source_given self.new.source ≡ source_given self.old.source) }
        ensures untouched { OnErr result (buf.new ≡ buf.old) }
        ensures cause { HasCause result
            (source_faults self.old.source) (source_faults self.new.source) }
        ensures calls { IsOneMore (source_calls self.old.source) (source_calls self.new.source) }
        ensures pieces { source_pieces self.new.source ≡ source_pieces self.old.source }
        ensures list { source_failing self.new.source ≡ source_failing self.old.source }
        ensures sink { self.new.sink ≡ self.old.sink }
    {
        self.source.take(buf)
    }

    /// As the sink does it.
    fn put(&mut self, piece: &[u8]) -> Result<(), Failed>
        ensures failing { IsErr result
            ↔ (Contains (sink_failing self.old.sink) (sink_calls self.old.sink)
            ⊎ (sink_room self.old.sink < length (sink_written self.old.sink) + length piece.now)) }
        ensures appended { OnOk result
            (sink_written self.new.sink ≡ sink_written self.old.sink ++ piece.now) }
        ensures half { OnErr result
            (let spare = sink_room self.old.sink - length (sink_written self.old.sink) in
            sink_written self.new.sink
            ≡ sink_written self.old.sink ++ take (min (length piece.now / 2) spare) piece.now) }
        ensures cause { HasCause result
            (sink_faults self.old.sink) (sink_faults self.new.sink) }
        ensures calls { IsOneMore (sink_calls self.old.sink) (sink_calls self.new.sink) }
        ensures room { sink_room self.new.sink ≡ sink_room self.old.sink }
        ensures list { sink_failing self.new.sink ≡ sink_failing self.old.sink }
        ensures source { self.new.source ≡ self.old.source }
    {
        self.sink.put(piece)
    }
}
