//! Standard error where it is a terminal: lines that show how far a long call is, and the lines
//! behind them.
//!
//! What is shown so is no result: no clause speaks of it.

ghost use Rattle.std.specs.Prelude.{◌≤◌};

use crate::faults::Faults;
use crate::system::{ClockCalls, WriteCalls};
use std::io;
use std::time::Duration;
use vt_base::Failed;
use vt_out::Sink;

/// Erases what stands to the right (ECMA-48, erase in line).
const ERASE: &[u8] = b"\x1b[K";
/// How many bytes of a line are shown.
const WIDTH: usize = 120;
/// In milliseconds: the time between two lines of which one is written over the other.
const BETWEEN: u128 = 100;

/// Shows lines. Of those that end with a carriage return, so that the next is written over them, one
/// is shown in a tenth of a second, and the others are dropped.
#[derive(Drop)]
pub struct Terminal<W, C> {
    output: W,
    clock: C,
    /// When the last such line was shown.
    shown: Option<Duration>,
    /// The line so far, which began behind the last one that ended.
    line: [u8; WIDTH],
    len: usize,
    faults: Faults,
    ghost len_fits: { len ≤ 120 },
}

impl<W: WriteCalls, C: ClockCalls> Terminal<W, C> {
    ghost use Rattle.std.specs.Prelude.{◌≡◌};

    /// On this writer, by this clock.
    pub fn new(output: W, clock: C) -> Self {
        Terminal {
            output,
            clock,
            shown: None,
            line: [0; WIDTH],
            len: 0,
            faults: Faults::new(),
        }
    }

    /// Adds a piece to the line, and shows the line where the piece ends it.
    fn add(&mut self, piece: &[u8]) -> io::Result<()>
        ensures { self.new.faults ≡ self.old.faults }
    {
        match piece.split_last() {
            Some((b'\n', text)) => {
                self.push(text);
                self.show(b"\n")
            }
            Some((b'\r', text)) => {
                self.push(text);
                if self.is_due() {
                    return self.show(b"\r");
                }
                self.len = 0;
                Ok(())
            }
            _ => {
                self.push(piece);
                Ok(())
            }
        }
    }

    /// Adds as much of a text to the line as there is room for.
    fn push(&mut self, text: &[u8])
        ensures { self.new.faults ≡ self.old.faults }
    {
        let n = text.len().min(WIDTH - self.len);
        let end = self.len + n;
        self.line[self.len..end].copy_from_slice(&text[..n]);
        self.len = end;
    }

    /// Whether the last line that is written over was shown long enough ago. A clock that can't be
    /// asked, or was set back, holds up none.
    fn is_due(&mut self) -> bool
        ensures { self.new.faults ≡ self.old.faults }
    {
        let Ok(now) = self.clock.time() else {
            return true;
        };
        match self.shown {
            Some(last) if last.abs_diff(now).as_millis() < BETWEEN => false,
            _ => {
                self.shown = Some(now);
                true
            }
        }
    }

    /// Shows the line with this end, over what stood there, and begins another.
    fn show(&mut self, end: &[u8]) -> io::Result<()>
        ensures { self.new.faults ≡ self.old.faults }
    {
        let len = self.len;
        self.len = 0;
        self.output.put_all(&self.line[..len])?;
        self.output.put_all(ERASE)?;
        self.output.put_all(end)?;
        self.output.flush_all()
    }
}

impl<W: WriteCalls, C: ClockCalls> Sink for Terminal<W, C> {
    ghost use Rattle.std.specs.Prelude.{false, []};

    ghost tells = { false };

    ghost written = { λ _. [] };

    ghost faults = { λ terminal. terminal.faults.count };

    ghost faults_fit = { λ terminal. terminal.faults.fits };

    /// Shows the line that the piece ends, if it ends one.
    fn put(&mut self, piece: &[u8]) -> Result<(), Failed> {
        let shown = self.add(piece);
        self.faults.counted(shown)
    }
}

/// Standard error, where what a line that is written over left is erased in front of each piece, if
/// that is a terminal.
#[derive(Clone, Copy)]
pub struct Erasing<W> {
    output: W,
    is_terminal: bool,
}

impl<W> Erasing<W> {
    /// This writer, which is a terminal or isn't.
    pub fn new(output: W, is_terminal: bool) -> Self {
        Erasing {
            output,
            is_terminal,
        }
    }
}

impl<W: WriteCalls> WriteCalls for Erasing<W> {
    ghost use Rattle.std.specs.Prelude.{◌≡◌, ◌++◌, ◌∷◌, [], IsTrue, None, false, is_ok};
    ghost use Rattle.vt_host.specs.Calls.{flushed, put};
    ghost use Rattle.vt_host.specs.Passing.{PutsBytes};
    ghost use Rattle.vt_host.specs.Streams.{erases, erasing_output};

    ghost tells = { false };

    ghost made = { λ _. [] };

    ghost went = { λ _. [] };

    ghost contents = { λ _. None };

    /// Writes the whole piece; where it is no terminal, that alone.
    fn put_all(&mut self, piece: &[u8]) -> io::Result<()>
        ensures plain { IsTrue W.tells → erases self.old ≡ false
            → W.made (erasing_output self.new)
            ≡ W.made (erasing_output self.old) ++ put piece.now (is_ok result) ∷ [] }
        ensures bytes_put { IsTrue W.tells → erases self.old ≡ false → PutsBytes result piece.now
            (W.went (erasing_output self.old)) (W.went (erasing_output self.new)) }
    {
        if self.is_terminal {
            self.output.put_all(ERASE)?;
        }
        self.output.put_all(piece)
    }

    /// Puts out what the writer's own buffer has.
    fn flush_all(&mut self) -> io::Result<()>
        ensures out { IsTrue W.tells → W.made (erasing_output self.new)
            ≡ W.made (erasing_output self.old) ++ flushed (is_ok result) ∷ [] }
    {
        self.output.flush_all()
    }
}
