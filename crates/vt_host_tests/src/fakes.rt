//! Files and streams in memory, which keep a record of their calls and tell what they hold, for tests.

ghost use Rattle.std.specs.Prelude.{◌≡◌, ◌+◌, ◌≤◌, ◌++◌, ◌∷◌, [], IfOk, IfSome, IsTrue, OnOk, OnErr};
ghost use Rattle.std.specs.Prelude.{is_ok, length};
ghost use Rattle.vt_base.specs.Filled.{filled};
ghost use Rattle.vt_disk.specs.Disk.{AreAmong, ChangesAt, Only, SameBut, Touches, part, with_bytes};
ghost use Rattle.std.specs.Prelude.{Some};
ghost use Rattle.vt_memdisk.specs.Memory.{memory_bytes};
ghost use Rattle.vt_out.specs.Streams.{AppendsPrefix};
ghost use Rattle.vt_host.specs.Paths.{MovesPiece};
ghost use Rattle.vt_host_tests.specs.Kept.{kept_under};
ghost use Rattle.vt_host_tests.specs.Still.{still_bytes, still_item, still_look, still_names};
ghost use Rattle.vt_partitions.specs.Parts.{IsMade};

use std::alloc::Global;
use std::fs::OpenOptions;
use std::io::ErrorKind;
use std::process::Abort;
use std::time::Duration;
use std::{io, mem};
use vt_base::{Bytes, Failed, Text};
use vt_disk::Disk;
use vt_host::{
    ClockCalls, Connector, FileCalls, FolderCalls, Look, Opener, PieceCalls, ReadCalls, WriteCalls,
};
use vt_memdisk::{Listed, MemDisk};
use vt_out::{ItemKind, MemSink, MemSource, Sink, Source};
use vt_partitions::{Failing, MakesDisks};

/// Calls that were made, numbered from 0. The one with a stated number fails.
#[derive(Drop)]
pub struct Notes<C, R> {
    rt: R,
    alloc: Global,
    /// In the order in which they were made.
    pub calls: Vec<C>,
    /// The number of the call that fails. None does where so many aren't made.
    failing: usize,
}

impl<C: Drop, R: Abort + Drop> Notes<C, R> {
    pub fn new(rt: R, alloc: Global, failing: usize) -> Self
        ensures { result.calls.items ≡ [] }
    {
        Notes {
            rt,
            alloc,
            calls: Vec::new(alloc),
            failing,
        }
    }

    /// Whether the next call succeeds.
    fn next_is_ok(&self) -> bool {
        self.calls.len() != self.failing
    }

    /// A copy of these bytes, for a note. A test that has no memory for it ends here.
    fn copy_of(&self, bytes: &[u8]) -> Bytes
        ensures { result ≡ bytes.now }
    {
        Bytes::copy_of(self.alloc, bytes).expect(&self.rt, "memory")
    }

    /// A copy of this text, likewise.
    fn text_of(&self, text: &str) -> Text
        ensures { result ≡ text.now }
    {
        Text::from_vec(self.copy_of(text.as_bytes()).into_vec())
    }

    /// Notes a call behind all others.
    fn note(&mut self, call: C)
        ensures { self.new.calls.items ≡ self.old.calls.items ++ call ∷ [] }
    {
        self.calls.push(call).expect(&self.rt, "memory");
    }
}

/// What a call answers.
fn answer(ok: bool) -> io::Result<()>
    ensures { is_ok result ≡ ok }
{
    if ok {
        Ok(())
    } else {
        Err(io::Error::from(ErrorKind::Other))
    }
}

/// A call of a file.
#[derive(Drop)]
pub enum FileNote {
    /// The length that was answered, if the call succeeded.
    Measured(Option<u64>),
    /// The new length, and whether the call succeeded.
    Resized(u64, bool),
    /// From where on, what then stood in the buffer, and whether the call succeeded.
    Read(u64, Bytes, bool),
    /// From where on, what was written, and whether the call succeeded.
    Written(u64, Bytes, bool),
    /// Whether the call succeeded.
    Locked(bool),
    /// Whether the call succeeded.
    Synced(bool),
}

/// A disk of this length, with these bytes at its front and zeros behind them, of which a crash leaves
/// nothing else.
fn disk_of<D: Disk + Drop, M: MakesDisks<D>>(
    alloc: Global,
    maker: &M,
    len: u64,
    front: &[u8],
) -> Option<D>
    requires { length front.now ≤ len }
    ensures { IfSome result (λ disk. IsTrue D.tells → IsMade D.Disk front.now len disk) }
{
    let mut disk = maker.make(alloc, len).ok()?;
    put_front(&mut disk, front).ok()?;
    Some(disk)
}

/// Writes these bytes at a disk's front, and syncs it.
fn put_front<D: Disk>(disk: &mut D, front: &[u8]) -> Result<(), Failed>
    requires { length front.now ≤ D.size disk.old }
    ensures bytes { OnOk result (IsTrue D.tells
        → D.bytes disk.new ≡ with_bytes 0 front.now (D.bytes disk.old)) }
    ensures settled { OnOk result (IsTrue D.tells → Only (D.bytes disk.new) (D.images disk.new)) }
    ensures size { D.size disk.new ≡ D.size disk.old }
{
    disk.write_at(0, front)?;
    disk.sync()
}

/// A longer disk in place of this one, filled up with zeros. Gives whether it was made.
fn lengthen<D: Disk + Drop, M: MakesDisks<D>>(
    alloc: Global,
    maker: &M,
    disk: &mut D,
    len: u64,
) -> bool
    ensures { IsTrue result → IsTrue D.tells → D.bytes disk.new ≡ filled len (D.bytes disk.old) }
{
    if len < disk.len() {
        return false;
    }
    let Ok(mut bytes) = vec![in alloc; 0; disk.len() as usize] else {
        return false;
    };
    if disk.read_at(0, &mut bytes).is_err() {
        return false;
    }
    match disk_of(alloc, maker, len, &bytes) {
        Some(longer) => {
            *disk = longer;
            true
        }
        None => false,
    }
}

/// Whether so many bytes from a place on lie on a disk.
fn fits<D: Disk>(disk: &D, start: u64, len: usize) -> bool
    ensures { IsTrue result → start + len ≤ D.size disk.now }
{
    let len = len as u64;
    len <= disk.len() && start <= disk.len() - len
}

/// Reads, if that much is there. Gives whether it did.
fn read_within<D: Disk>(disk: &mut D, start: u64, buf: &mut [u8]) -> bool
    ensures read { IsTrue result → IsTrue D.tells
        → buf.new ≡ part start (length buf.old) (D.bytes disk.new) }
    ensures bytes { D.bytes disk.new ≡ D.bytes disk.old }
    ensures images { AreAmong (D.images disk.new) (D.images disk.old) }
{
    fits(disk, start, buf.len()) && disk.read_at(start, buf).is_ok()
}

/// Writes over what is there, if that is to succeed and that much is there. Gives whether it did.
fn write_within<D: Disk>(disk: &mut D, start: u64, chunk: &[u8], succeeds: bool) -> bool
    ensures written { IsTrue result → IsTrue D.tells
        → D.bytes disk.new ≡ with_bytes start chunk.now (D.bytes disk.old) }
    ensures others { IsTrue D.tells
        → SameBut (Touches start (length chunk.now)) (D.bytes disk.old) (D.bytes disk.new) }
    ensures images { ChangesAt (Touches start (length chunk.now))
        (D.images disk.old) (D.images disk.new) }
    ensures kept { AreAmong (D.images disk.old) (D.images disk.new) }
{
    succeeds && fits(disk, start, chunk.len()) && disk.write_at(start, chunk).is_ok()
}

/// Syncs a disk, if that is to succeed. Gives whether it did.
fn sync_if<D: Disk>(disk: &mut D, succeeds: bool) -> bool
    ensures settled { IsTrue result → IsTrue D.tells → Only (D.bytes disk.old) (D.images disk.new) }
    ensures bytes { D.bytes disk.new ≡ D.bytes disk.old }
    ensures images { AreAmong (D.images disk.new) (D.images disk.old) }
{
    succeeds && disk.sync().is_ok()
}

/// A file in memory, which nobody else changes.
#[derive(Drop)]
pub struct FakeFile<R> {
    pub notes: Notes<FileNote, R>,
    /// What it holds, and what a crash may leave of it.
    disk: MemDisk<Listed>,
}

impl<R: Abort + Drop> FileCalls for FakeFile<R> {
    ghost use Rattle.std.specs.Prelude.{true, map};
    ghost use Rattle.std.proofs.Common.{sym};
    ghost use Rattle.vt_host.specs.Calls.{measured, resized, read, written, locked, synced};
    ghost use Rattle.vt_host_tests.specs.declared.fakes.FileNote.TheVariants.{Measured, Resized, Read};
    ghost use Rattle.vt_host_tests.specs.declared.fakes.FileNote.TheVariants.{Written, Locked, Synced};
    ghost use Rattle.vt_memdisk.specs.Cells.{IsCombination};
    ghost use Rattle.vt_memdisk.specs.Memory.{memory_bytes, memory_pending, memory_synced};

    ghost tells = { true };

    ghost made = { λ file. map (elim [
      | Measured answer ↦ measured answer
      | Resized len ok ↦ resized len ok
      | Read start bytes ok ↦ read start bytes ok
      | Written start bytes ok ↦ written start bytes ok
      | Locked ok ↦ locked ok
      | Synced ok ↦ synced ok
    ]) file.notes.calls.items };

    ghost bytes = { λ file. memory_bytes file.disk };

    ghost images = { λ file. IsCombination (memory_synced file.disk) (memory_pending file.disk) };

    ghost kept = { λ _. true };

    ghost are_bytes = { λ file _. file.disk.cells.content_fits };

    ghost read_is_image = { λ file _. record {
      fits = file.disk.cells.content_fits;
      same_length = sym file.disk.cells.synced_length;
      settled = file.disk.cells.settled;
    } };

    ghost images_are_bytes = { λ _ _ _ is. is.fits };

    fn measure(&mut self) -> io::Result<u64> {
        if !self.notes.next_is_ok() {
            self.notes.note(FileNote::Measured(None));
            return Err(io::Error::from(ErrorKind::Other));
        }
        let len = self.disk.len();
        self.notes.note(FileNote::Measured(Some(len)));
        Ok(len)
    }

    fn resize(&mut self, len: u64) -> io::Result<()> {
        let maker = Failing::new(Vec::new(self.notes.alloc));
        let ok = self.notes.next_is_ok() && lengthen(self.notes.alloc, &maker, &mut self.disk, len);
        self.notes.note(FileNote::Resized(len, ok));
        answer(ok)
    }

    fn read_at(&mut self, start: u64, buf: &mut [u8]) -> io::Result<()> {
        let ok = self.notes.next_is_ok() && read_within(&mut self.disk, start, buf);
        let bytes = self.notes.copy_of(buf);
        self.notes.note(FileNote::Read(start, bytes, ok));
        answer(ok)
    }

    fn write_at(&mut self, start: u64, chunk: &[u8]) -> io::Result<()> {
        let ok = write_within(&mut self.disk, start, chunk, self.notes.next_is_ok());
        let bytes = self.notes.copy_of(chunk);
        self.notes.note(FileNote::Written(start, bytes, ok));
        answer(ok)
    }

    fn lock(&mut self) -> io::Result<()> {
        let ok = self.notes.next_is_ok();
        self.notes.note(FileNote::Locked(ok));
        answer(ok)
    }

    fn sync(&mut self) -> io::Result<()> {
        let ok = sync_if(&mut self.disk, self.notes.next_is_ok());
        self.notes.note(FileNote::Synced(ok));
        answer(ok)
    }
}

/// Lines that name users, some of which aren't those of a name and a number.
const USERS: &[u8] =
    b"root:x:0:0:root:/root:/bin/sh\n\nnoid\nbad:x:01:1\na:x:7:1:\nb::7:1:\n:x:8\nlast:x:9";

/// Lines that name groups.
const GROUPS: &[u8] = b"wheel:x:0:\nstaff:x:7:a\n";

/// What a file of this name has.
#[tactic(auto, unfolding(crate::specs::Kept::kept_under))]
fn kept_under(name: &str) -> &'static [u8]
    ensures { result.now ≡ kept_under name.now }
{
    match name {
        "/etc/passwd" => USERS,
        "/etc/group" => GROUPS,
        _ => &[7, 7, 7, 7, 7, 7, 7, 7],
    }
}

/// A disk that holds just these bytes.
fn disk_with(alloc: Global, bytes: &[u8]) -> Option<MemDisk<Listed>>
    ensures { IfSome result (λ disk. memory_bytes disk ≡ bytes.now) }
{
    disk_of(
        alloc,
        &Failing::new(Vec::new(alloc)),
        bytes.len() as u64,
        bytes,
    )
}

/// An opening.
#[derive(Drop)]
pub struct OpenNote {
    pub how: OpenOptions,
    pub name: Text,
    /// Whether it succeeded.
    pub ok: bool,
}

/// Opens files by name, which are there anew at each opening: two have lines that name users and
/// groups, and any other eight sevens. The call with a stated number fails.
#[derive(Drop)]
pub struct FakeOpener<R> {
    pub notes: Notes<OpenNote, R>,
    /// The number of the call that fails of each of these files.
    pub file_failing: usize,
}

impl<R: Abort + Copy + Drop> Opener for FakeOpener<R> {
    ghost use Rattle.std.specs.Prelude.{Some, map, true};
    ghost use Rattle.vt_host_tests.specs.Kept.{kept_under};

    type File = FakeFile<R>;

    ghost opened = { λ opener. map (λ note.
        record { how = note.how; name = note.name; ok = note.ok }) opener.notes.calls.items };

    ghost still = { true };

    ghost holds = { λ name. Some (kept_under name) };

    fn open(&mut self, how: &OpenOptions, name: &str) -> io::Result<FakeFile<R>> {
        let ok = self.notes.next_is_ok();
        let noted = self.notes.text_of(name);
        let how = how.clone().expect(&self.notes.rt, "memory");
        self.notes.note(OpenNote {
            how,
            name: noted,
            ok,
        });
        answer(ok)?;
        let (rt, alloc) = (self.notes.rt, self.notes.alloc);
        Ok(FakeFile {
            notes: Notes::new(rt, alloc, self.file_failing),
            disk: disk_with(alloc, kept_under(name)).expect(&rt, "memory"),
        })
    }
}

/// Writes the piece if that is to succeed. Gives whether it did.
fn put_if<K: Sink>(sink: &mut K, piece: &[u8], succeeds: bool) -> bool
    ensures put { IsTrue result → IsTrue K.tells → K.written sink.new ≡ K.written sink.old ++ piece.now }
    ensures cut { IsTrue K.tells → AppendsPrefix (K.written sink.old) (K.written sink.new) piece.now }
{
    succeeds && sink.put(piece).is_ok()
}

/// A call of a stream that is written.
#[derive(Drop)]
pub enum WriteNote {
    /// What was written, and whether the call succeeded.
    Put(Bytes, bool),
    /// Whether the call succeeded.
    Flushed(bool),
}

/// A stream that is written, and has room for 64 bytes.
#[derive(Drop)]
pub struct FakeOutput<R> {
    pub notes: Notes<WriteNote, R>,
    /// What was written.
    sink: MemSink,
}

impl<R: Abort + Copy + Drop> FakeOutput<R> {
    ghost use Rattle.vt_out.specs.Memory.{sink_written};

    /// Nothing was written. The call of this number fails.
    pub fn new(rt: R, alloc: Global, failing: usize) -> Self
        ensures notes { result.notes.calls.items ≡ [] }
        ensures written { sink_written result.sink ≡ [] }
    {
        FakeOutput {
            notes: Notes::new(rt, alloc, failing),
            sink: MemSink::new(alloc, 64).expect(&rt, "memory"),
        }
    }
}

impl<R: Abort + Drop> WriteCalls for FakeOutput<R> {
    ghost use Rattle.std.specs.Prelude.{true, None, map};
    ghost use Rattle.vt_host.specs.Calls.{put, flushed};
    ghost use Rattle.vt_host_tests.specs.declared.fakes.WriteNote.TheVariants.{Put, Flushed};
    ghost use Rattle.vt_out.specs.Memory.{sink_written};

    ghost tells = { true };

    ghost made = { λ output. map (elim [ Put piece ok ↦ put piece ok | Flushed ok ↦ flushed ok ])
        output.notes.calls.items };

    ghost went = { λ output. sink_written output.sink };

    ghost contents = { λ _. None };

    fn put_all(&mut self, piece: &[u8]) -> io::Result<()> {
        let ok = put_if(&mut self.sink, piece, self.notes.next_is_ok());
        let bytes = self.notes.copy_of(piece);
        self.notes.note(WriteNote::Put(bytes, ok));
        answer(ok)
    }

    fn flush_all(&mut self) -> io::Result<()> {
        let ok = self.notes.next_is_ok();
        self.notes.note(WriteNote::Flushed(ok));
        answer(ok)
    }
}

/// A clock that stands still, or fails.
#[derive(Drop)]
pub struct FakeClock(pub Option<Duration>);

impl ClockCalls for FakeClock {
    ghost use Rattle.std.specs.Prelude.{true};

    ghost tells = { true };

    ghost answer = { λ clock. clock.0 };

    fn time(&mut self) -> io::Result<Duration> {
        self.0.ok_or(io::Error::from(ErrorKind::Other))
    }
}

/// A read, with how it left its buffer.
#[derive(Drop)]
pub struct ReadNote {
    pub buf: Bytes,
    pub answer: io::Result<usize>,
}

/// A stream that gives eight sevens, of which one read is interrupted.
#[derive(Drop)]
pub struct FakeInput<R> {
    pub notes: Notes<ReadNote, R>,
    /// What it gives.
    source: MemSource,
}

impl<R: Abort + Copy + Drop> FakeInput<R> {
    ghost use Rattle.vt_out.specs.Memory.{source_given};

    /// Nothing came yet. The read of this number is interrupted.
    pub fn new(rt: R, alloc: Global, interrupted: usize) -> Self
        ensures notes { result.notes.calls.items ≡ [] }
        ensures given { source_given result.source ≡ [] }
    {
        FakeInput {
            notes: Notes::new(rt, alloc, interrupted),
            source: MemSource::new(alloc, vec![in alloc; 7; 8].expect(&rt, "memory")),
        }
    }
}

impl<R: Abort + Drop> ReadCalls for FakeInput<R> {
    ghost use Rattle.std.specs.Prelude.{true, None, map};
    ghost use Rattle.std.proofs.Common.{arith};
    ghost use Rattle.std.proofs.lemmas.List.{get_or-drop};
    ghost use Rattle.vt_out.specs.Memory.{source_given, source_left};

    ghost tells = { true };

    ghost made = { λ input. map (λ note. record { buf = note.buf; answer = note.answer })
        input.notes.calls.items };

    ghost given = { λ input. source_given input.source };

    ghost left = { λ input. source_left input.source };

    ghost remaining = { λ _. None };

    ghost left_bytes = { λ input i. let s = input.source in Prim.omega
        (arith, get_or-drop s.given s.content.items i 0, s.content_fits (s.given + i)) };

    fn read_some(&mut self, buf: &mut [u8]) -> io::Result<usize> {
        let answer = if self.notes.next_is_ok() {
            let taken = self.source.take(buf);
            taken.map_err(|_| io::Error::from(ErrorKind::Other))
        } else {
            Err(io::Error::from(ErrorKind::Interrupted))
        };
        let buf = self.notes.copy_of(buf);
        self.notes.note(ReadNote { buf, answer });
        answer
    }
}

/// A connection that was to be made.
#[derive(Drop)]
pub struct ConnectNote {
    pub host: Text,
    pub port: u16,
    /// Whether it was made.
    pub ok: bool,
}

/// Where a connection is: none was made, one to this host and port is out or back, or there were more.
#[derive(Drop)]
enum Made<R> {
    Nobody,
    Out(Text, u16),
    Back(Text, u16, FakeInput<R>, FakeOutput<R>),
    More,
}

/// Makes connections, of which the one with a stated number fails.
#[derive(Drop)]
pub struct FakeConnector<R> {
    pub notes: Notes<ConnectNote, R>,
    made: Made<R>,
}

impl<R: Abort + Copy + Drop> FakeConnector<R> {
    /// None was made. The one of this number fails.
    pub fn new(rt: R, alloc: Global, failing: usize) -> Self {
        FakeConnector {
            notes: Notes::new(rt, alloc, failing),
            made: Made::Nobody,
        }
    }
}

impl<R: Abort + Copy + Drop> Connector for FakeConnector<R> {
    ghost use Rattle.std.specs.Prelude.{Some, true, map};
    ghost use Rattle.vt_dial.specs.Dialled.{back, more, nobody, out};
    ghost use Rattle.vt_host_tests.specs.declared.fakes.Made.TheVariants.{Back, More, Nobody, Out};

    type Input = FakeInput<R>;

    type Output = FakeOutput<R>;

    ghost tells = { true };

    ghost connected = { λ net. map (λ note.
        record { host = note.host; port = note.port; ok = note.ok }) net.notes.calls.items };

    ghost dialled = { λ net. elim net.made [
      | Nobody ↦ nobody
      | Out host port ↦ out (record { host = Some host; port = port })
      | Back host port input output ↦
          back (record { host = Some host; port = port }) (input, output)
      | More ↦ more
    ] };

    fn connect(&mut self, host: &str, port: u16) -> io::Result<(FakeInput<R>, FakeOutput<R>)> {
        let ok = self.notes.next_is_ok();
        let note = self.notes.text_of(host);
        self.notes.note(ConnectNote {
            host: note,
            port,
            ok,
        });
        answer(ok)?;
        let host = self.notes.text_of(host);
        self.made = match self.made {
            Made::Nobody => Made::Out(host, port),
            _ => Made::More,
        };
        let (rt, alloc) = (self.notes.rt, self.notes.alloc);
        Ok((FakeInput::new(rt, alloc, 9), FakeOutput::new(rt, alloc, 9)))
    }

    fn close(&mut self, input: FakeInput<R>, output: FakeOutput<R>) {
        self.made = match mem::replace(&mut self.made, Made::More) {
            Made::Out(host, port) => Made::Back(host, port, input, output),
            _ => Made::More,
        };
    }
}

/// A folder with one file, which has this owner, this group and this time.
#[derive(Clone, Copy)]
pub struct FakeFolder {
    /// The number of both the owner and the group.
    pub id: u32,
    /// In seconds since 1970.
    pub mtime: i64,
}

impl FolderCalls for FakeFolder {
    ghost use Rattle.std.specs.Prelude.{None, false};

    type File = NoPieces;

    ghost tells = { false };

    ghost made = { λ _. [] };

    ghost still = { false };

    ghost look_at = { λ _. None };

    ghost names_at = { λ _. None };

    fn another(&self) -> FakeFolder {
        *self
    }

    fn look(&mut self, path: &str) -> io::Result<Look> {
        let kind = if path.ends_with("/f") {
            ItemKind::File
        } else {
            ItemKind::Folder
        };
        Ok(Look {
            kind,
            mode: 0,
            mtime: self.mtime,
            uid: self.id,
            gid: self.id,
        })
    }

    fn names(&mut self, alloc: Global, _path: &str) -> io::Result<Vec<u8>> {
        Ok(Vec::from_slice(alloc, b"f\0")?)
    }

    fn open(&mut self, _path: &str) -> io::Result<NoPieces> {
        answer(false)?;
        Ok(NoPieces)
    }
}

/// A file that can't be read.
#[derive(Clone, Copy)]
pub struct NoPieces;

impl PieceCalls for NoPieces {
    ghost use Rattle.std.specs.Prelude.{None, false};

    ghost tells = { false };

    ghost made = { λ _. [] };

    ghost still = { false };

    ghost bytes_at = { λ _. None };

    ghost path = { λ _. [] };

    fn read_piece(&mut self, _start: u64, _buf: &mut [u8]) -> io::Result<usize> {
        Err(io::Error::from(ErrorKind::Other))
    }
}

/// A call by path.
#[derive(Drop)]
pub enum PathNote {
    /// What stands there, if the call succeeded.
    Looked(Text, Option<Look>),
    /// Whether the call succeeded.
    Listed(Text, bool),
    /// Whether the call succeeded.
    Opened(Text, bool),
}

/// A folder `home` with two files, `f` of three bytes and `g` of four, which stays as it is. A call
/// fails only where nothing stands at its path.
#[derive(Drop)]
pub struct StillFolder<R> {
    pub notes: Notes<PathNote, R>,
}

/// An item of this kind, without permissions, time and owners.
fn still_item(kind: ItemKind) -> Look
    ensures { result ≡ still_item kind }
{
    Look {
        kind,
        mode: 0,
        mtime: 0,
        uid: 0,
        gid: 0,
    }
}

/// What stands at a path of it.
fn still_look(path: &str) -> Option<Look>
    ensures { result ≡ still_look path.now }
{
    match path {
        "home/." => Some(still_item(ItemKind::Folder)),
        "home/./f" => Some(still_item(ItemKind::File)),
        "home/./g" => Some(still_item(ItemKind::File)),
        _ => None,
    }
}

/// The names in the folder at a path of it, of which `z` is gone since.
fn still_names(alloc: Global, path: &str) -> io::Result<Vec<u8>>
    ensures { IfOk result (λ names. still_names path.now ≡ Some names.items) }
{
    match path {
        "home/." => Ok(Vec::from_slice(alloc, b"f\0z\0g\0")?),
        _ => Err(io::Error::from(ErrorKind::NotFound)),
    }
}

/// The bytes of the file at a path of it.
fn still_bytes(path: &[u8]) -> Option<&'static [u8]>
    ensures { IfSome result (λ bytes. still_bytes path.now ≡ Some bytes.now) }
{
    if path == b"home/./f".as_slice() {
        Some(b"abc")
    } else if path == b"home/./g".as_slice() {
        Some(b"wxyz")
    } else {
        None
    }
}

impl<R: Abort + Copy + Drop> FolderCalls for StillFolder<R> {
    ghost use Rattle.std.specs.Prelude.{map, true};
    ghost use Rattle.vt_host.specs.Paths.{listed, looked, opened};
    ghost use Rattle.vt_host_tests.specs.Still.{still_look, still_names};
    ghost use Rattle.vt_host_tests.specs.declared.fakes.PathNote.TheVariants.{Listed, Looked, Opened};

    type File = StillFile<R>;

    ghost tells = { true };

    ghost made = { λ folder. map (elim [
      | Looked path found ↦ looked path found
      | Listed path ok ↦ listed path ok
      | Opened path ok ↦ opened path ok
    ]) folder.notes.calls.items };

    ghost still = { true };

    ghost look_at = { still_look };

    ghost names_at = { still_names };

    fn another(&self) -> StillFolder<R> {
        StillFolder {
            notes: Notes::new(self.notes.rt, self.notes.alloc, self.notes.failing),
        }
    }

    fn look(&mut self, path: &str) -> io::Result<Look> {
        let found = still_look(path);
        let noted = self.notes.text_of(path);
        self.notes.note(PathNote::Looked(noted, found));
        found.ok_or(io::Error::from(ErrorKind::NotFound))
    }

    fn names(&mut self, alloc: Global, path: &str) -> io::Result<Vec<u8>> {
        let names = still_names(alloc, path);
        let noted = self.notes.text_of(path);
        self.notes.note(PathNote::Listed(noted, names.is_ok()));
        names
    }

    fn open(&mut self, path: &str) -> io::Result<StillFile<R>> {
        let ok = still_bytes(path.as_bytes()).is_some();
        let noted = self.notes.text_of(path);
        self.notes.note(PathNote::Opened(noted, ok));
        answer(ok)?;
        Ok(StillFile {
            notes: Notes::new(self.notes.rt, self.notes.alloc, self.notes.failing),
            path: self.notes.text_of(path),
        })
    }
}

/// A read of a file from a place on, with how it left its buffer.
#[derive(Drop)]
pub struct PieceNote {
    pub start: u64,
    pub buf: Bytes,
    pub answer: io::Result<usize>,
}

/// One of its files.
#[derive(Drop)]
pub struct StillFile<R> {
    pub notes: Notes<PieceNote, R>,
    path: Text,
}

/// Moves bytes of these, from a place on, to the front of a buffer, and says how many.
fn move_piece(bytes: &[u8], start: u64, buf: &mut [u8]) -> usize
    ensures fits { result ≤ length buf.old }
    ensures moved { MovesPiece (Some bytes.now) start result buf.old buf.new }
{
    let start = start.min(bytes.len() as u64) as usize;
    let n = buf.len().min(bytes.len() - start);
    buf[..n].copy_from_slice(&bytes[start..start + n]);
    n
}

/// Reads a piece of the file at a path of it, if there is one.
fn read_still(path: &[u8], start: u64, buf: &mut [u8]) -> io::Result<usize>
    ensures fits { IfOk result (λ n. n ≤ length buf.old) }
    ensures moved { IfOk result (λ n. MovesPiece (still_bytes path.now) start n buf.old buf.new) }
    ensures untouched { OnErr result (buf.new ≡ buf.old) }
{
    match still_bytes(path) {
        Some(bytes) => Ok(move_piece(bytes, start, buf)),
        None => Err(io::Error::from(ErrorKind::NotFound)),
    }
}

impl<R: Abort + Copy + Drop> PieceCalls for StillFile<R> {
    ghost use Rattle.std.specs.Prelude.{map, true};
    ghost use Rattle.vt_host_tests.specs.Still.{still_bytes};

    ghost tells = { true };

    ghost made = { λ file. map (λ note.
        record { start = note.start; buf = note.buf; answer = note.answer }) file.notes.calls.items };

    ghost still = { true };

    ghost bytes_at = { still_bytes };

    ghost path = { λ file. file.path };

    fn read_piece(&mut self, start: u64, buf: &mut [u8]) -> io::Result<usize> {
        let answer = read_still(self.path.as_slice(), start, buf);
        let noted = self.notes.copy_of(buf);
        self.notes.note(PieceNote {
            start,
            buf: noted,
            answer,
        });
        answer
    }
}
