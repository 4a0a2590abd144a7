//! A link, as a client.

use crate::Client;
use vt_base::Failed;
use vt_out::Link;

/// A link, as the client of a session.
#[derive(Drop)]
pub struct LinkClient<L> {
    pub link: L,
}

impl<L: Link> Client for LinkClient<L> {
    ghost use Rattle.std.specs.Prelude.{false};

    ghost tells = { L.tells };

    ghost waits = { false };

    ghost sent = { λ client. L.given client.link };

    ghost left = { λ client. L.left client.link };

    ghost written = { λ client. L.written client.link };

    ghost read_faults = { λ client. L.read_faults client.link };

    ghost write_faults = { λ client. L.write_faults client.link };

    /// Takes bytes from the link.
    fn take(&mut self, buf: &mut [u8]) -> Result<usize, Failed> {
        self.link.take(buf)
    }

    /// Puts bytes on the link.
    fn put(&mut self, piece: &[u8]) -> Result<(), Failed> {
        self.link.put(piece)
    }
}
