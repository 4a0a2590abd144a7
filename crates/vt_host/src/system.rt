//! What the adapters ask of the system.
//!
//! Each method is one call. The system tells nothing of the calls that were made of it, nor of what it
//! holds, so that the few lines of its impls below are trusted. What stands on the traits is proved
//! over all that tells: which calls are made, in which order, and with which answers, whatever
//! others change between two calls; and what is held, which ties the answers of several calls
//! together where nobody else changes it between them.

ghost use Rattle.std.specs.Prelude.{◌≡◌, ◌≤◌, ◌<◌, ◌+◌, ◌++◌, ◌∷◌, ℕ, Bool, IsTrue, List, [], length};
ghost use Rattle.std.specs.Prelude.{Option, Some, IfOk, OnOk, is_ok};
ghost use Rattle.std.specs.Io.KnownBytes.{Appends, Keeps, ReadConsumes};
ghost use Rattle.std.specs.Result.{result_ok};
ghost use Rattle.vt_base.specs.Bytes.{AreBytes};
ghost use Rattle.vt_base.specs.Filled.{filled};
ghost use Rattle.vt_disk.specs.Disk.{Only, part, with_bytes};
ghost use Rattle.vt_host.specs.Held.{StaysHeld, Overwrites};
ghost use Rattle.vt_host.specs.Opening.{IsWay, read_options};
ghost use Rattle.vt_host.specs.Passing.{PutsBytes, TakesBytes};
ghost use Rattle.vt_host.specs.Calls.{Connecting};
ghost use Rattle.vt_host.specs.Calls.{Opening, FileCall, measured, resized, read, written, locked};
ghost use Rattle.vt_host.specs.Calls.{synced};
ghost use Rattle.vt_host.specs.Calls.{WriteCall, put, flushed, ReadCall};

use std::fs::{File, Files, OpenOptions};
use std::io::{Read, Seek, SeekFrom, Write};
use std::net::{Net, OpenStream, TcpStream};
use std::os::unix::fs::FileExt;
use std::time::Duration;
use std::{io, time};

/// Opens files by name.
pub trait Opener {
    /// What a file is opened as.
    type File: FileCalls;

    /// What was to be opened so far, where its files tell their calls.
    ghost opened: { Self → List Opening };

    /// Whether what is opened to be read alone stays as it is as long as the program runs: nobody
    /// writes it, be it by a file that was opened here, or puts another in its place; and of a folder
    /// that is opened so nothing is read.
    ghost still: { Bool };

    /// What such a file of a name then has.
    ghost holds: { (name : List ℕ) → Option (List ℕ) };

    /// Opens the file at this path, from the working folder: to be read alone, or as a disk.
    fn open(&mut self, how: &OpenOptions, name: &str) -> io::Result<Self::File>
        requires { IsWay how.now }
        ensures noted { IsTrue Self.File.tells → opened self.new ≡ opened self.old
            ++ record { how = how.now; name = name.now; ok = is_ok result } ∷ [] }
        ensures untouched { IfOk result (λ file.
            IsTrue Self.File.tells → Self.File.made file ≡ []) }
        ensures found { IfOk result (λ file. IsTrue Self.File.tells → IsTrue still
            → how.now ≡ read_options → holds name.now ≡ Some (Self.File.bytes file)) }
        ensures kept { IfOk result (λ file. IsTrue Self.File.tells → IsTrue still
            → how.now ≡ read_options → IsTrue (Self.File.kept file)) };
}

/// An open file. Where others may change it between two calls, no clause ties a call to the one
/// before, and none says what a read gives, which may be made in several steps.
pub trait FileCalls {
    /// Whether files of this type tell which calls were made of them, and what they hold.
    ghost tells: { Bool };

    /// The calls that were made of it, in order.
    ghost made: { Self → List FileCall };

    /// The bytes that a read gives.
    ghost bytes: { Self → List ℕ };

    /// What a crash at this moment may leave.
    ghost images: { Self → List ℕ → Type 0 };

    /// Whether nobody else changes it from now on. Behind a lock, which is advisory (flock(2)), that
    /// rests on a premise: nobody writes a file, under whatever name, without its lock.
    ghost kept: { Self → Bool };

    /// How many bytes the file has now.
    fn measure(&mut self) -> io::Result<u64>
        ensures noted { IsTrue tells
            → made self.new ≡ made self.old ++ measured (result_ok result) ∷ [] }
        ensures length { IfOk result (λ len. IsTrue tells → len ≡ length (bytes self.new)) }
        ensures stays { IsTrue tells → IsTrue (kept self.old) → StaysHeld (kept self.new)
            (bytes self.old) (bytes self.new) (images self.old) (images self.new) };

    /// Cuts it off, or fills it up with zero bytes. Until the next sync, a crash may leave the length
    /// that it had.
    fn resize(&mut self, len: u64) -> io::Result<()>
        ensures noted { IsTrue tells
            → made self.new ≡ made self.old ++ resized len (is_ok result) ∷ [] }
        ensures filled { OnOk result (IsTrue tells → IsTrue (kept self.old)
            → length (bytes self.old) ≤ len → bytes self.new ≡ filled len (bytes self.old)) }
        ensures kept { IsTrue tells → IsTrue (kept self.old) → IsTrue (kept self.new) };

    /// Fills the whole buffer with the bytes from a place on.
    fn read_at(&mut self, start: u64, buf: &mut [u8]) -> io::Result<()>
        ensures noted { IsTrue tells
            → made self.new ≡ made self.old ++ read start buf.new (is_ok result) ∷ [] }
        ensures read { OnOk result (IsTrue tells → IsTrue (kept self.old)
            → buf.new ≡ part start (length buf.old) (bytes self.new)) }
        ensures stays { IsTrue tells → IsTrue (kept self.old) → StaysHeld (kept self.new)
            (bytes self.old) (bytes self.new) (images self.old) (images self.new) };

    /// Writes the whole chunk from a place on. One that fails may have changed any of what it
    /// touches.
    fn write_at(&mut self, start: u64, chunk: &[u8]) -> io::Result<()>
        ensures noted { IsTrue tells
            → made self.new ≡ made self.old ++ written start chunk.now (is_ok result) ∷ [] }
        ensures written { OnOk result (IsTrue tells → IsTrue (kept self.old)
            → start + length chunk.now ≤ length (bytes self.old)
            → bytes self.new ≡ with_bytes start chunk.now (bytes self.old)) }
        ensures others { IsTrue tells → IsTrue (kept self.old)
            → start + length chunk.now ≤ length (bytes self.old)
            → Overwrites start (length chunk.now) (kept self.new)
            (bytes self.old) (bytes self.new) (images self.old) (images self.new) };

    /// Takes the file's exclusive lock, if nobody else has it. It goes with the file.
    fn lock(&mut self) -> io::Result<()>
        ensures noted { IsTrue tells → made self.new ≡ made self.old ++ locked (is_ok result) ∷ [] }
        ensures kept { OnOk result (IsTrue tells → IsTrue (kept self.new)) }
        ensures stays { IsTrue tells → IsTrue (kept self.old) → StaysHeld (kept self.new)
            (bytes self.old) (bytes self.new) (images self.old) (images self.new) };

    /// Puts on the disk what was written. That behind one that fails a read still gives it, and a
    /// later one puts it there, is a premise: a system may forget what it couldn't put there
    /// (fsync(2)).
    fn sync(&mut self) -> io::Result<()>
        ensures noted { IsTrue tells → made self.new ≡ made self.old ++ synced (is_ok result) ∷ [] }
        ensures settled { OnOk result (IsTrue tells → IsTrue (kept self.old)
            → Only (bytes self.old) (images self.new)) }
        ensures stays { IsTrue tells → IsTrue (kept self.old) → StaysHeld (kept self.new)
            (bytes self.old) (bytes self.new) (images self.old) (images self.new) };

    /// It holds bytes: numbers below 256.
    ghost are_bytes: { (file : Self) → IsTrue tells → AreBytes (bytes file) };

    /// A crash may leave what a read gives.
    ghost read_is_image: { (file : Self) → IsTrue tells → images file (bytes file) };

    /// A crash leaves bytes, be it another number of them.
    ghost images_are_bytes: { (file : Self) (c : List ℕ) → IsTrue tells → images file c
        → AreBytes c };
}

/// A stream that is written.
pub trait WriteCalls {
    /// Whether streams of this type tell which calls were made of them, and what they took.
    ghost tells: { Bool };

    /// The calls that were made of it, in order.
    ghost made: { Self → List WriteCall };

    /// The bytes that it took. Those behind the last flush may be in its own buffer.
    ghost went: { Self → List ℕ };

    /// The bytes that it holds, where they are known.
    ghost contents: { Self → Option (List ℕ) };

    /// Writes the whole piece. One that fails may have written a front of it.
    fn put_all(&mut self, piece: &[u8]) -> io::Result<()>
        ensures noted { IsTrue tells
            → made self.new ≡ made self.old ++ put piece.now (is_ok result) ∷ [] }
        ensures puts { IsTrue tells
            → PutsBytes result piece.now (went self.old) (went self.new) }
        ensures bytes { OnOk result (Appends (contents self.old) (contents self.new) piece.now) };

    /// Puts out what the stream's own buffer has, if there is one.
    fn flush_all(&mut self) -> io::Result<()>
        ensures noted { IsTrue tells
            → made self.new ≡ made self.old ++ flushed (is_ok result) ∷ [] }
        ensures stays { IsTrue tells → went self.new ≡ went self.old }
        ensures bytes { Keeps (contents self.old) (contents self.new) };
}

/// A stream that is read.
pub trait ReadCalls {
    /// Whether streams of this type tell which calls were made of them, and what comes in.
    ghost tells: { Bool };

    /// The calls that were made of it, in order.
    ghost made: { Self → List ReadCall };

    /// The bytes that came in so far.
    ghost given: { Self → List ℕ };

    /// The bytes that are left to come in.
    ghost left: { Self → List ℕ };

    /// The bytes that it has left, where they are known.
    ghost remaining: { Self → Option (List ℕ) };

    /// Moves bytes to the front of the buffer, and says how many. Behind an end, where a terminal or
    /// a file that grows may have more, none is read: 0 says that nothing is left.
    fn read_some(&mut self, buf: &mut [u8]) -> io::Result<usize>
        ensures fits { IfOk result (λ n. n ≤ length buf.old) }
        ensures noted { IsTrue tells
            → made self.new ≡ made self.old ++ record { buf = buf.new; answer = result } ∷ [] }
        ensures takes { IsTrue tells → TakesBytes result buf.old buf.new
            (given self.old) (given self.new) (left self.old) (left self.new) }
        ensures bytes { ReadConsumes (remaining self.old) (remaining self.new) result buf.new };

    /// What is left is bytes: numbers below 256.
    ghost left_bytes: { (stream : Self) → AreBytes (left stream) };
}

/// Makes connections, and closes them.
pub trait Connector {
    ghost use Rattle.std.specs.Prelude.{Some, OnErr};
    ghost use Rattle.vt_dial.specs.Dialled.{Dialled, with_back, with_link};

    /// What comes in.
    type Input: ReadCalls;

    /// What goes out.
    type Output: WriteCalls;

    /// Whether it tells which connections were to be made, and what became of one.
    ghost tells: { Bool };

    /// The connections that were to be made, in order.
    ghost connected: { Self → List Connecting };

    /// To which host and port one was made, and how its two directions came back.
    ghost dialled: { Self → Dialled (Self.Input × Self.Output) };

    /// Makes one to a host, which is told by its name or its number, at a port. Of a call that fails
    /// none comes out.
    fn connect(&mut self, host: &str, port: u16) -> io::Result<(Self::Input, Self::Output)>
        ensures noted { IsTrue tells → connected self.new ≡ connected self.old
            ++ record { host = host.now; port = port; ok = is_ok result } ∷ [] }
        ensures unread { IfOk result (λ both. IsTrue Self.Input.tells
            → Self.Input.made both.0 ≡ []) }
        ensures unwritten { IfOk result (λ both. IsTrue Self.Output.tells
            → Self.Output.made both.1 ≡ []) }
        ensures none_given { IfOk result (λ both. IsTrue Self.Input.tells
            → Self.Input.given both.0 ≡ []) }
        ensures none_written { IfOk result (λ both. IsTrue Self.Output.tells
            → Self.Output.went both.1 ≡ []) }
        ensures made { OnOk result (IsTrue tells → dialled self.new
            ≡ with_link (record { host = Some host.now; port = port }) (dialled self.old)) }
        ensures none { OnErr result (IsTrue tells → dialled self.new ≡ dialled self.old) };

    /// Closes one.
    fn close(&mut self, input: Self::Input, output: Self::Output)
        ensures noted { IsTrue tells → connected self.new ≡ connected self.old }
        ensures back { IsTrue tells
            → dialled self.new ≡ with_back (input, output) (dialled self.old) };
}

/// A clock.
pub trait ClockCalls {
    ghost use Rattle.std.specs.declared.time.Duration.{Duration};

    /// Whether clocks of this type tell what they answer next.
    ghost tells: { Bool };

    /// What it answers next, where it tells it: the time, or none where it fails.
    ghost answer: { Self → Option Duration };

    /// The time since the beginning of 1970.
    fn time(&mut self) -> io::Result<Duration>
        ensures { IsTrue tells → result_ok result ≡ answer self.old };
}

/// The system's calls, by one of its handles: of files, of a stream, of connections or of the clock. A
/// handle keeps no record of its calls, so that nothing is told of them.
#[derive(Clone, Copy, Drop)]
pub struct System<H>(pub H);

impl<R: Files<File = File>> Opener for System<R> {
    ghost use Rattle.std.specs.Prelude.{false, None};

    type File = File;

    ghost opened = { λ _. [] };

    ghost still = { false };

    ghost holds = { λ _. None };

    /// Opens the file, as the options say.
    fn open(&mut self, how: &OpenOptions, name: &str) -> io::Result<File> {
        how.open(&self.0, name)
    }
}

impl FileCalls for File {
    ghost use Rattle.std.specs.Prelude.{false};
    ghost use Rattle.vt_host.specs.Untold.{untold};

    ghost tells = { false };

    ghost made = { λ _. [] };

    ghost bytes = { λ _. [] };

    ghost images = { λ _ _. Unit {0} };

    ghost kept = { λ _. false };

    ghost are_bytes = { λ _ tells. untold tells };

    ghost read_is_image = { λ _ tells. untold tells };

    ghost images_are_bytes = { λ _ _ tells _. untold tells };

    /// How many bytes the file has, by the place of its end.
    fn measure(&mut self) -> io::Result<u64> {
        self.seek(SeekFrom::End(0))
    }

    /// Cuts the file, or fills it up with zeros.
    fn resize(&mut self, len: u64) -> io::Result<()> {
        self.set_len(len)
    }

    /// Fills the buffer from a place on; a file that ends before that is an error.
    fn read_at(&mut self, start: u64, buf: &mut [u8]) -> io::Result<()> {
        self.read_exact_at(buf, start)
    }

    /// Writes all bytes from a place on.
    fn write_at(&mut self, start: u64, chunk: &[u8]) -> io::Result<()> {
        self.write_all_at(chunk, start)
    }

    /// Takes the file's lock, and doesn't wait for it.
    fn lock(&mut self) -> io::Result<()> {
        Ok(self.try_lock()?)
    }

    /// Hands all that was written to the device.
    fn sync(&mut self) -> io::Result<()> {
        self.sync_all()
    }
}

impl<W: Write> WriteCalls for System<W> {
    ghost use Rattle.std.specs.Prelude.{false};

    ghost tells = { false };

    ghost made = { λ _. [] };

    ghost went = { λ _. [] };

    ghost contents = { λ stream. W.contents stream.0 };

    /// Writes the whole piece.
    fn put_all(&mut self, piece: &[u8]) -> io::Result<()> {
        self.0.write_all(piece)
    }

    /// Hands on what the writer still keeps.
    fn flush_all(&mut self) -> io::Result<()> {
        self.0.flush()
    }
}

impl<R: Read> ReadCalls for System<R> {
    ghost use Rattle.std.specs.Prelude.{false};
    ghost use Rattle.vt_base.specs.Bytes.{AreBytes-none};

    ghost tells = { false };

    ghost made = { λ _. [] };

    ghost given = { λ _. [] };

    ghost left = { λ _. [] };

    ghost remaining = { λ stream. R.remaining stream.0 };

    ghost left_bytes = { λ _. AreBytes-none };

    /// Reads once, as many bytes as there are and fit.
    fn read_some(&mut self, buf: &mut [u8]) -> io::Result<usize> {
        self.0.read(buf)
    }
}

/// A name has the addresses that the system finds for it, which are tried in order.
impl<N: Net> Connector for System<N> {
    ghost use Rattle.std.specs.Prelude.{false};
    ghost use Rattle.vt_dial.specs.Dialled.{nobody};

    type Input = System<N::Stream>;

    type Output = System<N::Stream>;

    ghost tells = { false };

    ghost connected = { λ _. [] };

    ghost dialled = { λ _. nobody };

    /// Makes a connection, and gives its two halves, the one that is read first.
    fn connect(
        &mut self,
        host: &str,
        port: u16,
    ) -> io::Result<(System<N::Stream>, System<N::Stream>)> {
        let input = TcpStream::connect(&self.0, (host, port))?;
        let output = input.try_clone()?;
        Ok((System(input), System(output)))
    }

    /// Closes both of its handles.
    fn close(&mut self, input: System<N::Stream>, output: System<N::Stream>) {
        drop((input, output));
    }
}

impl<C: time::Clock> ClockCalls for System<C> {
    ghost use Rattle.std.specs.Prelude.{false, None};

    ghost tells = { false };

    ghost answer = { λ _. None };

    /// The time since 1970, which a clock before that can't tell.
    fn time(&mut self) -> io::Result<Duration> {
        self.0.since_1970()
    }
}
