//! Streams, of which each call that fails is told.

use crate::teller::{Call, Teller};
use crate::told::ToldAs;
use std::io;
use std::io::ErrorKind;
use vt_host::{ReadCalls, WriteCalls};

impl<R: ReadCalls, T: Teller + Copy> ReadCalls for ToldAs<R, T> {
    ghost tells = { R.tells };

    ghost made = { λ stream. R.made stream.calls };

    ghost given = { λ stream. R.given stream.calls };

    ghost left = { λ stream. R.left stream.calls };

    ghost remaining = { λ stream. R.remaining stream.calls };

    ghost left_bytes = { λ stream. R.left_bytes stream.calls };

    /// Reads once. A read that a signal interrupted isn't told: it is made again.
    fn read_some(&mut self, buf: &mut [u8]) -> io::Result<usize> {
        match self.calls.read_some(buf) {
            Ok(n) => Ok(n),
            Err(why) => {
                if why.kind() != ErrorKind::Interrupted {
                    self.label.tell(Call::Read, &why);
                }
                Err(why)
            }
        }
    }
}

impl<W: WriteCalls, T: Teller + Copy> WriteCalls for ToldAs<W, T> {
    ghost tells = { W.tells };

    ghost made = { λ stream. W.made stream.calls };

    ghost went = { λ stream. W.went stream.calls };

    ghost contents = { λ stream. W.contents stream.calls };

    /// Writes the piece once.
    fn put_all(&mut self, piece: &[u8]) -> io::Result<()> {
        let done = self.calls.put_all(piece);
        self.label.hear(Call::Write, &done);
        done
    }

    /// Flushes it once.
    fn flush_all(&mut self) -> io::Result<()> {
        let done = self.calls.flush_all();
        self.label.hear(Call::Flush, &done);
        done
    }
}
