//! The stream that is read, and that where results go.

use crate::Client;
use vt_base::Failed;
use vt_out::{Link, Sink, Source};

/// What comes from a source and goes out to a sink: the client of a session, or one that speaks
/// another protocol.
#[derive(Drop)]
pub struct Streams<S, K> {
    pub source: S,
    pub sink: K,
}

impl<S: Source, K: Sink> Client for Streams<S, K> {
    ghost use Rattle.std.specs.Prelude.{◌&&◌, false};

    ghost tells = { S.tells && K.tells };

    ghost waits = { false };

    ghost sent = { λ streams. S.given streams.source };

    ghost left = { λ streams. S.left streams.source };

    ghost written = { λ streams. K.written streams.sink };

    ghost read_faults = { λ streams. S.faults streams.source };

    ghost write_faults = { λ streams. K.faults streams.sink };

    /// Takes bytes from the source.
    fn take(&mut self, buf: &mut [u8]) -> Result<usize, Failed> {
        self.source.take(buf)
    }

    /// Puts bytes into the sink.
    fn put(&mut self, piece: &[u8]) -> Result<(), Failed> {
        self.sink.put(piece)
    }
}

impl<S: Source, K: Sink> Link for Streams<S, K> {
    ghost use Rattle.std.specs.Prelude.{◌&&◌};

    ghost tells = { S.tells && K.tells };

    ghost given = { λ streams. S.given streams.source };

    ghost left = { λ streams. S.left streams.source };

    ghost written = { λ streams. K.written streams.sink };

    ghost read_faults = { λ streams. S.faults streams.source };

    ghost write_faults = { λ streams. K.faults streams.sink };

    ghost left_bytes = { λ streams. S.left_bytes streams.source };

    ghost read_faults_fit = { λ streams. S.faults_fit streams.source };

    ghost write_faults_fit = { λ streams. K.faults_fit streams.sink };

    /// Takes bytes from the source.
    fn take(&mut self, buf: &mut [u8]) -> Result<usize, Failed> {
        self.source.take(buf)
    }

    /// Puts bytes into the sink.
    fn put(&mut self, piece: &[u8]) -> Result<(), Failed> {
        self.sink.put(piece)
    }
}
