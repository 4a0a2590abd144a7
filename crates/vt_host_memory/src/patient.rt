//! A client that sends nothing before the replies to what it sent came, over the program's streams.

ghost use Rattle.std.specs.Prelude.{◌<◌, ◌^◌};

use crate::host::{Lent, Runtime, TestSink, confs, run_lent};
use crate::messages::OUR_LINE;
use crate::partitions::Partitions;
use crate::ran::Ran;
use crate::running::{dialer_of, no_folder};
use std::alloc::{AllocError, Global};
use std::cell::Cell;
use vt_base::{Failed, Sha1Scorer};
use vt_out::{Sink, Source};

/// What is sent, and how many bytes are said to it.
pub type Part = (&'static [u8], usize);

/// A source that gives a piece only once the replies to all that it gave came, and else fails.
#[derive(Drop)]
struct PatientSource<'a> {
    /// What is still to be sent, the part that is under way among it.
    parts: &'a [Part],
    /// How many bytes each piece has at most.
    cut: usize,
    /// How much of the first part was given.
    given: usize,
    /// How many bytes are owed before more is given.
    owed: usize,
    /// How many bytes the program has written, which `PatientSink` counts.
    said: &'a Cell<usize>,
    /// How many calls came before the replies that were owed, and so failed.
    failed: u64,
    ghost fits: { failed < 2 ^ 64 },
}

impl Source for PatientSource<'_> {
    ghost use Rattle.std.specs.Prelude.{[], false};
    ghost use Rattle.vt_base.specs.Bytes.{AreBytes-none};

    ghost tells = { false };

    ghost given = { λ _. [] };

    ghost left = { λ _. [] };

    ghost faults = { λ source. source.failed };

    ghost Kept = { Unit {0} };

    ghost kept = { λ _. tt };

    ghost left_bytes = { λ _. AreBytes-none };

    ghost faults_fit = { λ source. source.fits };

    fn take(&mut self, buf: &mut [u8]) -> Result<usize, Failed> {
        let [(part, says), behind @ ..] = self.parts else {
            return Ok(0);
        };
        if self.said.get() < self.owed {
            self.failed = self.failed.saturating_add(1);
            return Err(Failed);
        }
        let piece = part.get(self.given..).unwrap_or(&[]);
        let n = self.cut.min(piece.len()).min(buf.len());
        buf[..n].copy_from_slice(&piece[..n]);
        self.given = self.given.saturating_add(n);
        if n == piece.len() {
            self.owed = self.owed.saturating_add(*says);
            self.parts = behind;
            self.given = 0;
        }
        Ok(n)
    }
}

/// Where all is written, and counted for the source.
#[derive(Drop)]
struct PatientSink<'a> {
    /// All that the program wrote.
    written: Vec<u8>,
    /// How many bytes that is: `PatientSource` reads it.
    said: &'a Cell<usize>,
    /// How many calls failed, since there was no memory.
    failed: u64,
    ghost fits: { failed < 2 ^ 64 },
}

impl Sink for PatientSink<'_> {
    ghost use Rattle.std.specs.Prelude.{[], false};

    ghost tells = { false };

    ghost written = { λ _. [] };

    ghost faults = { λ sink. sink.failed };

    ghost faults_fit = { λ sink. sink.fits };

    fn put(&mut self, piece: &[u8]) -> Result<(), Failed> {
        if self.written.extend_from_slice(piece).is_err() {
            self.failed = self.failed.saturating_add(1);
            return Err(Failed);
        }
        self.said.set(self.said.get().saturating_add(piece.len()));
        Ok(())
    }
}

impl TestSink for PatientSink<'_> {
    fn told(&self, alloc: Global) -> Result<Vec<u8>, AllocError> {
        Ok(Vec::from_slice(alloc, &self.written)?)
    }
}

/// Runs the program with these words over these partitions for this client, whose pieces have so
/// many bytes at most.
pub fn run_patient(
    rt: &impl Runtime,
    parts: &mut Partitions,
    words: &[&str],
    sent: &[Part],
    cut: usize,
) -> Result<Ran, AllocError> {
    let alloc = rt.alloc();
    let files = confs(alloc)?;
    let dialer = dialer_of(alloc, None)?;
    let folders = no_folder(alloc)?;
    let said = Cell::new(0);
    let lent = Lent {
        source: PatientSource {
            parts: sent,
            cut,
            given: 0,
            owed: OUR_LINE.len(),
            said: &said,
            failed: 0,
        },
        sink: PatientSink {
            written: Vec::new(alloc),
            said: &said,
            failed: 0,
        },
        files,
        dialer,
        folders,
    };
    let (ran, back) = run_lent(rt, words, lent, parts.take(alloc), &Sha1Scorer)?;
    parts.put_back(back);
    Ok(ran)
}
