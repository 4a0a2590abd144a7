//! A small archive in memory, its view, and clients of it.

ghost use Rattle.std.specs.Prelude.{◌≡◌, ◌≤◌, IfOk, length};
ghost use Rattle.vt_tree.specs.Entries.{IsTreeEntry};
ghost use Rattle.nine_view.specs.Files.{FitsMessage};

use crate::large::large_sample;
use nine_view::{Ended, View, serve_nine};
use std::alloc::{AllocError, Global};
use std::test::Fail;
use vac_read::{Archive, VacBad};
use vt_base::{Kind, Score, Sha1Scorer};
use vt_out::{MemLink, MemSink, MemSource};
use vt_rows::Rows;
use vt_tree::{BlockErr, Blocks, Entry, MemBlocks, Root, TreeErr, write_stream};

/// Puts a block that has to be taken.
pub fn put<B: Blocks>(
    alloc: Global,
    blocks: &mut B,
    kind: Kind,
    bytes: &[u8],
) -> Result<Score, Fail>
    requires { length bytes.now ≤ 57344 }
{
    match blocks.put(alloc, kind, bytes) {
        Ok(score) => Ok(score),
        Err(_) => Err("not put".into()),
    }
}

/// A stream of bytes.
fn stream<B: Blocks>(
    alloc: Global,
    blocks: &mut B,
    bytes: &[u8],
    is_dir: bool,
) -> Result<Entry, Fail>
    ensures { IfOk result IsTreeEntry }
{
    let mut source = MemSource::new(alloc, Vec::from_slice(alloc, bytes)?);
    match write_stream(alloc, blocks, &mut source, 480, 500, is_dir) {
        Ok(entry) => Ok(entry),
        Err(_) => Err("not written".into()),
    }
}

/// The bytes of the record of an item of this name, of user `u` and group `g`.
fn record(name: u8, is_folder: bool, numbers: [u32; 4]) -> [u8; 30] {
    let [entry, mode, mtime, qid] = numbers;
    let mut bytes = *b"\0\x01a\0\0\0\0\0\0\0\0\0\0\0\0\0\0\0\0\0\0\0\0\0\0\x01u\0\x01g";
    bytes[2] = name;
    bytes[3] = u8::from(is_folder);
    bytes[4..8].copy_from_slice(&entry.to_be_bytes());
    bytes[8..12].copy_from_slice(&mode.to_be_bytes());
    bytes[12..16].copy_from_slice(&mtime.to_be_bytes());
    bytes[20..24].copy_from_slice(&qid.to_be_bytes());
    bytes
}

/// These bytes, one part behind another.
pub fn joined(alloc: Global, parts: &[&[u8]]) -> Result<Vec<u8>, AllocError> {
    let mut bytes = Vec::new(alloc);
    for part in parts {
        bytes.extend_from_slice(part)?;
    }
    Ok(bytes)
}

/// The entry of a file whose one block is in no store that is read.
fn absent_file(alloc: Global) -> Result<[u8; 40], Fail> {
    let mut absent = MemBlocks::new(alloc, Sha1Scorer);
    Ok(stream(alloc, &mut absent, b"bbb", false)?.encode())
}

/// The entries of the top folder's items: the file `a` is empty, the one block of the file `b`
/// isn't there, the folder `d` has the file `x` of `abc`, and the metadata of the folder `e` is
/// broken.
fn entries<B: Blocks>(alloc: Global, blocks: &mut B) -> Result<[u8; 40], Fail> {
    let a = stream(alloc, blocks, b"", false)?.encode();
    let b = absent_file(alloc)?;
    let x = stream(alloc, blocks, b"abc", false)?.encode();
    let inside = stream(alloc, blocks, &x, true)?.encode();
    let records = record(b'x', false, [0, 0o644, 5, 4]);
    let d = stream(alloc, blocks, &records, false)?.encode();
    let e = stream(alloc, blocks, b"???", false)?.encode();
    let bytes = joined(alloc, &[&a, &b, &inside, &d, &inside, &e])?;
    Ok(stream(alloc, blocks, &bytes, true)?.encode())
}

/// The metadata of the top folder.
fn metadata<B: Blocks>(alloc: Global, blocks: &mut B) -> Result<[u8; 40], Fail> {
    let a = record(b'a', false, [0, 0o644, 7, 1]);
    let b = record(b'b', false, [1, 0o600, 9, 2]);
    let d = record(b'd', true, [2, 0o755, 11, 3]);
    let e = record(b'e', true, [4, 0o755, 11, 5]);
    let records = joined(alloc, &[&a, &b, &d, &e])?;
    Ok(stream(alloc, blocks, &records, false)?.encode())
}

/// The view of an archive of these items.
fn sample<B: Blocks>(alloc: Global, blocks: &mut B) -> Result<View, Fail> {
    let first = entries(alloc, blocks)?;
    let second = metadata(alloc, blocks)?;
    view_of(alloc, blocks, &first, &second)
}

/// A block of two entries.
fn top_block(first: &[u8; 40], second: &[u8; 40]) -> [u8; 80] {
    let mut top = [0; 80];
    top[..40].copy_from_slice(first);
    top[40..].copy_from_slice(second);
    top
}

/// The view of an archive with these two entries of its top folder.
pub fn view_of<B: Blocks>(
    alloc: Global,
    blocks: &mut B,
    first: &[u8; 40],
    second: &[u8; 40],
) -> Result<View, Fail> {
    let top = top_block(first, second);
    let top = put(alloc, blocks, Kind::DIRECTORY, &top)?;
    let mut root = Root {
        name: [0; 128],
        kind: [0; 128],
        score: top,
        block_size: 8192,
        prev: Score([0; 20]),
    };
    root.kind[..4].copy_from_slice(b"rvac");
    let score = put(alloc, blocks, Kind::ROOT, &root.encode())?;
    match Archive::at(alloc, blocks, &score) {
        Ok(archive) => Ok(View::new(alloc, archive)?),
        Err(_) => Err("not opened".into()),
    }
}

/// The record of a file `n`, whose user has a name of 100 bytes.
const WIDE_RECORD: &[u8] =
    b"\0\x01n\0\0\0\0\0\0\0\x01\xa4\0\0\0\x07\0\0\0\0\0\0\0\x01\0duuuuuuuuuuuuuuuuuuuuuuuuuuuuuuuuuuuuuuuuuuuuuuuuuuuuuuuuuuuuuuuuuuuuuuuuuuuuuuuuuuuuuuuuuuuuuuuuuuuu\0\x01g";

/// The view of an archive of the file `n` alone, of which 251 bytes tell.
fn wide_sample<B: Blocks>(alloc: Global, blocks: &mut B) -> Result<View, Fail> {
    let file = stream(alloc, blocks, b"", false)?.encode();
    let first = stream(alloc, blocks, &file, true)?.encode();
    let second = stream(alloc, blocks, WIDE_RECORD, false)?.encode();
    view_of(alloc, blocks, &first, &second)
}

/// An archive in memory.
#[derive(Clone, Copy)]
pub enum Shown {
    /// That of four items.
    Small,
    /// That of the file `n`.
    Wide,
    /// That of 3,000 files.
    Large,
}

/// Clients of a view, and what is seen of them.
pub trait Case {
    fn see<B: Blocks>(
        &self,
        alloc: Global,
        view: &mut View,
        blocks: &mut B,
        rows: &mut Rows,
    ) -> Result<(), AllocError>;
}

/// Makes the view of an archive, and sees what comes of its clients.
fn see_made<B: Blocks, C: Case>(
    alloc: Global,
    blocks: &mut B,
    shown: Shown,
    case: &C,
    rows: &mut Rows,
) -> Result<(), Fail> {
    let made = match shown {
        Shown::Small => sample(alloc, blocks),
        Shown::Wide => wide_sample(alloc, blocks),
        Shown::Large => large_sample(alloc, blocks),
    };
    let mut view = made?;
    Ok(case.see(alloc, &mut view, blocks, rows)?)
}

/// The same of an archive in a store of blocks in memory, of which these calls fail.
pub fn see_shown<C: Case>(
    alloc: Global,
    shown: Shown,
    failing: Vec<u64>,
    case: &C,
) -> Result<(), Fail> {
    let mut rows = Rows::new();
    let mut blocks = MemBlocks::new(alloc, Sha1Scorer).failing(failing);
    see_made(alloc, &mut blocks, shown, case, &mut rows)?;
    rows.all()?;
    Ok(())
}

/// How many calls are made of a store before the view of the small archive is there.
pub fn calls_of_sample(alloc: Global) -> Result<u64, Fail> {
    let mut blocks = MemBlocks::new(alloc, Sha1Scorer);
    let _view = sample(alloc, &mut blocks)?;
    let calls = blocks.puts().len().saturating_add(blocks.gets().len());
    Ok(calls as u64)
}

/// A message, and its reply.
pub type Row = (&'static [u8], &'static [u8]);

/// What is asked of a view, and what it has to reply.
#[derive(Drop)]
pub struct Talk {
    pub asked: Vec<u8>,
    pub replied: Vec<u8>,
}

impl Talk {
    pub fn new(alloc: Global) -> Self {
        Talk {
            asked: Vec::new(alloc),
            replied: Vec::new(alloc),
        }
    }

    /// This is asked, and this is to be replied.
    pub fn say(&mut self, asked: &[u8], replied: &[u8]) -> Result<(), AllocError> {
        self.asked.extend_from_slice(asked)?;
        self.replied.extend_from_slice(replied)?;
        Ok(())
    }

    /// The same of each row.
    pub fn say_all(&mut self, rows: &[Row]) -> Result<(), AllocError> {
        for (asked, replied) in rows {
            self.say(asked, replied)?;
        }
        Ok(())
    }
}

/// Why the archive couldn't be read.
#[derive(Clone, Copy, PartialEq, Eq)]
pub enum Failure {
    /// A call of the store failed.
    Fault,
    /// The store said no.
    Refused,
    /// Anything else.
    Other,
}

/// The same of what a connection tells, if it tells any.
fn failure_of(failure: &Option<VacBad>) -> Option<Failure> {
    match failure {
        None => None,
        Some(VacBad::Tree(TreeErr::Block(BlockErr::Fault))) => Some(Failure::Fault),
        Some(VacBad::Tree(TreeErr::Block(BlockErr::Refused(_)))) => Some(Failure::Refused),
        Some(_) => Some(Failure::Other),
    }
}

/// What came of a connection.
#[derive(Clone, Copy)]
pub struct Came {
    pub ended: Ended,
    /// How many bytes were taken, and how many went out.
    pub taken: u64,
    pub len: usize,
    /// Whether what went out is what was wanted.
    pub is_replied: bool,
    /// Why the archive couldn't be read, the first time that it couldn't.
    pub failure: Option<Failure>,
}

impl Came {
    /// Whether the connection ended well, with the replies that were wanted.
    pub fn is_well(&self) -> bool {
        self.is_replied && self.ended == Ended::Closed
    }
}

/// A link that brings these bytes in pieces of this length, and has room for so many.
pub fn link(alloc: Global, input: &[u8], piece: usize, room: usize) -> Result<MemLink, AllocError> {
    let pieces = vec![in alloc; piece]?;
    let sink = MemSink::new(alloc, room)?;
    let source = MemSource::new(alloc, Vec::from_slice(alloc, input)?);
    Ok(MemLink {
        source: source.in_pieces(pieces),
        sink,
    })
}

/// Serves a client over a link, where these replies are wanted.
fn served<B: Blocks>(
    alloc: Global,
    view: &mut View,
    blocks: &mut B,
    link: &mut MemLink,
    wanted: &[u8],
) -> Came {
    let came = serve_nine(alloc, view, blocks, link);
    let written = link.sink.written();
    Came {
        ended: came.ended,
        taken: came.taken,
        len: written.len(),
        is_replied: written == wanted,
        failure: failure_of(&came.failure),
    }
}

/// Serves a client from which this comes in pieces, and to which so many bytes can go out, where
/// these replies are wanted.
pub fn serve<B: Blocks>(
    alloc: Global,
    view: &mut View,
    blocks: &mut B,
    input: &[u8],
    (piece, room): (usize, usize),
    wanted: &[u8],
) -> Result<Came, AllocError> {
    let mut link = link(alloc, input, piece, room)?;
    Ok(served(alloc, view, blocks, &mut link, wanted))
}

/// Notes each reply of a table that isn't the one that went out.
fn see_replies(written: &[u8], table: &[Row], rows: &mut Rows) {
    let mut rest = written;
    for (n, (_, replied)) in table.iter().enumerate() {
        let (found, behind) = rest.split_at(replied.len().min(rest.len()));
        rows.nth(n, "the reply", found == *replied);
        rest = behind;
    }
    rows.is("what goes out behind the last reply", rest.is_empty());
}

/// Serves a client that asks one message after another, over one connection, and notes each reply
/// that isn't the wanted one.
pub fn see_talk<B: Blocks>(
    alloc: Global,
    view: &mut View,
    blocks: &mut B,
    table: &[Row],
    piece: usize,
    rows: &mut Rows,
) -> Result<Came, AllocError> {
    let mut talk = Talk::new(alloc);
    talk.say_all(table)?;
    let mut link = link(alloc, &talk.asked, piece, 100_000)?;
    let came = served(alloc, view, blocks, &mut link, &talk.replied);
    see_replies(link.sink.written(), table, rows);
    rows.is("how the connection ends", came.ended == Ended::Closed);
    rows.is(
        "how many bytes are taken",
        came.taken == talk.asked.len() as u64,
    );
    Ok(came)
}
