//! Streams written as trees of blocks and read back, with entries and scores from outside.

use std::alloc::{AllocError, Global};
use std::test::Fail;
use vt_base::{Failed, Key, Score, Sha1Scorer};
use vt_out::{MemSource, Source};
use vt_rows::Rows;
use vt_tree::{BlockErr, Blocks, Entry, MemBlocks, TreeErr, read_range, write_stream};

/// The score of no bytes, by SHA-1.
const ZERO: Score = Score(
    *b"\xda\x39\xa3\xee\x5e\x6b\x4b\x0d\x32\x55\xbf\xef\x95\x60\x18\x90\xaf\xd8\x07\x09",
);

/// Bytes of which no two leaves of 480 are equal, and none ends in a zero. With a hole, some of
/// the leaves are zeros.
fn some_bytes(alloc: Global, len: u32, hole: bool) -> Result<Vec<u8>, Fail> {
    let mut bytes = Vec::new(alloc);
    for i in 0..len {
        let leaf = i / 480;
        let byte = match i % 480 {
            _ if hole && leaf % 3 == 1 => 0,
            0 => leaf,
            1 => leaf / 251,
            k => k % 250 + 1,
        };
        bytes.push((byte % 251) as u8)?;
    }
    Ok(bytes)
}

/// What writing a stream came to.
#[derive(Clone, Copy, PartialEq, Eq)]
enum Came {
    /// The stream is there, under this entry.
    Written(Entry),
    /// A call of the store failed.
    Fault,
    /// The store said no.
    Refused,
    /// A call of the source failed.
    SourceFault,
    /// Anything else: no row wants it.
    Other,
}

/// A source's stream as a tree, of leaves and pointer blocks of these sizes, or of the nearest that
/// may be.
fn write<B: Blocks, R: Source>(
    alloc: Global,
    blocks: &mut B,
    source: &mut R,
    dsize: u16,
    psize: u16,
    is_dir: bool,
) -> Came {
    let dsize = dsize.clamp(480, 57_344);
    let psize = psize.clamp(500, 57_344);
    match write_stream(alloc, blocks, source, dsize, psize, is_dir) {
        Ok(entry) => Came::Written(entry),
        Err(bad) => unwritten(&bad),
    }
}

/// What this refusal is told as.
fn unwritten(bad: &TreeErr) -> Came {
    match bad {
        TreeErr::Block(BlockErr::Fault) => Came::Fault,
        TreeErr::Block(BlockErr::Refused(_)) => Came::Refused,
        TreeErr::SourceFault => Came::SourceFault,
        _ => Came::Other,
    }
}

/// How deep an entry's file is, how many bytes it has, and its score.
fn shape(came: Came) -> Option<(u8, u64, Score)> {
    match came {
        Came::Written(entry) => Some((entry.depth, entry.size, entry.score)),
        _ => None,
    }
}

/// Whether what was written is read back whole as these bytes.
fn gives<B: Blocks>(alloc: Global, blocks: &mut B, came: Came, wanted: &[u8]) -> bool {
    let Came::Written(entry) = came else {
        return false;
    };
    if entry.depth >= 8 || entry.size >= 1 << 32 {
        return false;
    }
    match read_range(alloc, blocks, &entry, 0, entry.size as u32) {
        Ok(bytes) => bytes.as_slice() == wanted,
        Err(_) => false,
    }
}

/// Whether a key comes twice.
fn repeats(keys: &[Key]) -> bool {
    for (i, key) in keys.iter().enumerate() {
        if keys.iter().take(i).any(|other| other == key) {
            return true;
        }
    }
    false
}

/// How many bytes a stream has, whether it has holes, and the sizes of its leaves and pointer blocks;
/// how deep it is, and how many blocks are put.
type Row = (u32, bool, u16, u16, (u8, usize));

const STREAMS: &[Row] = &[
    (0, false, 480, 500, (0, 0)),
    (1, false, 480, 500, (0, 0)),
    (480, false, 480, 500, (0, 1)),
    (481, false, 480, 500, (1, 3)),
    (12_000, false, 480, 500, (1, 26)),
    (12_000, true, 480, 500, (1, 18)),
    (12_001, false, 480, 500, (2, 29)),
    (300_000, false, 480, 500, (2, 651)),
    (300_001, true, 480, 500, (3, 444)),
    // three leaves and a pointer block
    (20_000, false, 8192, 8180, (1, 4)),
];

/// Writes a stream, and reads it back.
fn see_stream(alloc: Global, row: usize, stream: Row, rows: &mut Rows) -> Result<(), Fail> {
    let (len, hole, dsize, psize, wanted) = stream;
    let bytes = some_bytes(alloc, len, hole)?;
    let mut source = MemSource::new(alloc, Vec::from_slice(alloc, &bytes)?);
    let mut blocks = MemBlocks::new(alloc, Sha1Scorer);
    let came = write(alloc, &mut blocks, &mut source, dsize, psize, false);
    let (depth, puts) = wanted;
    rows.nth(
        row,
        "how deep the stream is",
        shape(came).is_some_and(|s| s.0 == depth),
    );
    rows.nth(row, "how many blocks are put", blocks.puts().len() == puts);
    rows.nth(row, "each block is put once", !repeats(blocks.puts()));
    rows.nth(
        row,
        "how many blocks are held",
        blocks.blocks().len() == puts,
    );
    rows.nth(
        row,
        "the bytes that are read",
        gives(alloc, &mut blocks, came, &bytes),
    );
    rows.nth(row, "each block is asked for once", !repeats(blocks.gets()));
    rows.nth(
        row,
        "how many blocks are asked for",
        blocks.gets().len() == puts,
    );
    Ok(())
}

#[test]
fn streams_are_written_and_read_back(rt: HostRuntime) -> Result<(), Fail> {
    let mut rows = Rows::new();
    for (row, stream) in STREAMS.iter().enumerate() {
        see_stream(rt.alloc(), row, *stream, &mut rows)?;
    }
    rows.passes()
}

/// Whether what was written is read back whole as so many zeros.
fn gives_zeros<B: Blocks>(alloc: Global, blocks: &mut B, came: Came, len: usize) -> bool {
    let Came::Written(entry) = came else {
        return false;
    };
    if entry.depth >= 8 || entry.size >= 1 << 32 {
        return false;
    }
    match read_range(alloc, blocks, &entry, 0, entry.size as u32) {
        Ok(bytes) => bytes.len() == len && bytes.as_slice().iter().all(|b| *b == 0),
        Err(_) => false,
    }
}

/// The entry of the stream `hello world`.
const HELLO: &[u8; 40] = b"\x00\x00\x00\x00\x03\xfc\x04\x00\x01\x00\x00\x00\x00\x00\
    \x00\x00\x00\x00\x00\x0b\x2a\xae\x6c\x35\xc9\x4f\xcf\xb4\x15\xdb\
    \xe9\x5f\x40\x8b\x9c\xe9\x1e\xe8\x46\xed";

/// A short stream is known.
fn see_hello<B: Blocks, R: Source>(alloc: Global, blocks: &mut B, source: &mut R, rows: &mut Rows) {
    let came = write(alloc, blocks, source, 1024, 1020, false);
    let is_known = match (came, Entry::decode(HELLO)) {
        (Came::Written(found), Ok(entry)) => found == entry,
        _ => false,
    };
    rows.is("the entry of a short stream", is_known);
}

/// Zeros take no block, and none is asked for.
fn see_zeros<B: Blocks>(alloc: Global, blocks: &mut B, rows: &mut Rows) {
    let mut zeros = Zeros { left: 20_000 };
    let came = write(alloc, blocks, &mut zeros, 8192, 8180, false);
    rows.is("20,000 zeros", shape(came) == Some((1, 20_000, ZERO)));
    rows.is(
        "the zeros that are read",
        gives_zeros(alloc, blocks, came, 20_000),
    );
    let mut zeros = Zeros { left: 1 << 30 };
    let came = write(alloc, blocks, &mut zeros, 57_344, 57_344, false);
    rows.is("2^30 zeros", shape(came) == Some((2, 1 << 30, ZERO)));
}

#[test]
fn short_files_and_zeros(rt: HostRuntime) -> Result<(), Fail> {
    let alloc = rt.alloc();
    let mut source = MemSource::new(alloc, Vec::from_slice(alloc, b"hello world")?);
    let mut blocks = MemBlocks::new(alloc, Sha1Scorer);
    let mut rows = Rows::new();
    see_hello(alloc, &mut blocks, &mut source, &mut rows);
    rows.is(
        "how many blocks a short stream takes",
        blocks.puts().len() == 1,
    );
    see_zeros(alloc, &mut blocks, &mut rows);
    rows.is("how many blocks are put", blocks.puts().len() == 1);
    rows.is("how many blocks are asked for", blocks.gets().len() == 0);
    rows.passes()
}

/// A store of which call 2 fails, and call 4 is refused.
fn failing_store(alloc: Global) -> Result<MemBlocks<Sha1Scorer>, AllocError> {
    let failing = vec![in alloc; 2]?;
    let refusing = vec![in alloc; 4]?;
    let blocks = MemBlocks::new(alloc, Sha1Scorer).failing(failing);
    Ok(blocks.refusing(refusing))
}

#[test]
fn streams_are_given_up_where_a_store_fails(rt: HostRuntime) -> Result<(), Fail> {
    let alloc = rt.alloc();
    let mut source = MemSource::new(alloc, some_bytes(alloc, 3_000, false)?);
    let mut blocks = failing_store(alloc)?;
    let mut rows = Rows::new();
    let came = write(alloc, &mut blocks, &mut source, 480, 500, true);
    rows.is("call 2, a put that fails", came == Came::Fault);
    rows.is("how many blocks are put", blocks.puts().len() == 2);
    rows.is("how many bytes aren't taken", source.left().len() == 1_560);
    let came = write(alloc, &mut blocks, &mut source, 480, 500, true);
    rows.is("call 4, a put that is refused", came == Came::Refused);
    rows.passes()
}

/// A source of 3,000 bytes, in pieces of 100, of which the one with this number fails.
fn failing_source(alloc: Global, call: u64) -> Result<MemSource, Fail> {
    let pieces = vec![in alloc; 100; 40]?;
    let failing = vec![in alloc; call]?;
    let source = MemSource::new(alloc, some_bytes(alloc, 3_000, false)?);
    Ok(source.in_pieces(pieces).failing(failing))
}

#[test]
fn streams_are_given_up_where_a_source_fails(rt: HostRuntime) -> Result<(), Fail> {
    let alloc = rt.alloc();
    let mut source = failing_source(alloc, 12)?;
    let mut blocks = MemBlocks::new(alloc, Sha1Scorer);
    let mut rows = Rows::new();
    let came = write(alloc, &mut blocks, &mut source, 480, 500, false);
    rows.is("a source that fails", came == Came::SourceFault);
    rows.is("how many of its calls failed", source.faults() == 1);
    rows.is(
        "how many of its bytes aren't taken",
        source.left().len() == 1_840,
    );
    rows.passes()
}

/// Gives zeros.
#[derive(Drop)]
struct Zeros {
    /// How many are still to come.
    left: u64,
}

impl Source for Zeros {
    ghost use Rattle.std.specs.Prelude.{false, []};
    ghost use Rattle.std.proofs.Common.{arith};
    ghost use Rattle.vt_base.specs.Bytes.{AreBytes-none};

    ghost tells = { false };

    ghost given = { λ _. [] };

    ghost left = { λ _. [] };

    ghost faults = { λ _. 0 };

    ghost Kept = { Unit {0} };

    ghost kept = { λ _. tt };

    ghost left_bytes = { λ _. AreBytes-none };

    ghost faults_fit = { λ _. Prim.omega arith };

    fn take(&mut self, buf: &mut [u8]) -> Result<usize, Failed> {
        let n = (buf.len() as u64).min(self.left) as usize;
        buf[..n].fill(0);
        self.left -= n as u64;
        Ok(n)
    }
}
