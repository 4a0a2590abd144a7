//! Texts in pieces, on their way to a stream.

ghost use Rattle.std.specs.Prelude.{◌≡◌, ◌++◌, IsTrue, map, OnOk, OnErr};
ghost use Rattle.std.specs.List.{concat};
ghost use Rattle.vt_base.specs.Faults.{HasCause};
ghost use Rattle.vt_out.specs.Streams.{AppendsPrefix};
ghost use Rattle.run_base.specs.Change.{sink_change};
ghost use Rattle.run_base.specs.Formatting.{Prints};

use crate::error::CommandError;
use vt_base::Failed;
use vt_out::Sink;

/// Puts the pieces one behind another, until a put fails.
pub fn put_pieces<K: Sink>(sink: &mut K, pieces: &[&[u8]]) -> Result<(), Failed>
    ensures appended { OnOk result (IsTrue K.tells → K.written sink.new
        ≡ K.written sink.old ++ concat (map (λ piece. piece.now) pieces.now)) }
    ensures failed { OnErr result (IsTrue K.tells → AppendsPrefix (K.written sink.old)
        (K.written sink.new) (concat (map (λ piece. piece.now) pieces.now))) }
    ensures cause { HasCause result (K.faults sink.old) (K.faults sink.new) }
{
    for piece in pieces {
        sink.put(piece)?;
    }
    Ok(())
}

/// Prints what a command found out, as its outcome.
pub fn print<K: Sink>(sink: &mut K, pieces: &[&[u8]]) -> Result<(), CommandError>
    ensures { Prints (concat (map (λ piece. piece.now) pieces.now)) result
        (sink_change K.Sink sink.old sink.new) }
{
    match put_pieces(sink, pieces) {
        Ok(()) => Ok(()),
        Err(Failed) => Err(CommandError::WriteFault),
    }
}
