//! A folder of 3,000 files: as the Linux client lists it, buffer by buffer, each filled up by a read for the rest of
//! it, and walked to one by one.

ghost use Rattle.std.specs.Prelude.{IfOk};
ghost use Rattle.vt_tree.specs.Entries.{IsTreeEntry};

use crate::samples::{Case, Shown, Talk, see_shown, serve, view_of};
use nine_view::View;
use std::alloc::{AllocError, Global};
use std::test::Fail;
use vt_base::Sha1Scorer;
use vt_out::MemSource;
use vt_rows::Rows;
use vt_tree::{Blocks, Entry, MemBlocks, write_stream};

/// How many files the folder has.
const FILES: u32 = 3000;

/// How many bytes tell of each.
const STAT: u32 = 57;

/// The buffer of a client whose messages have 8,192 bytes, and how many files are told in it: 8,151 bytes of it.
const BUFFER: u32 = 8168;

const EACH: u32 = 143;

/// How many buffers the folder fills; the last one in part.
const BUFFERS: u32 = 21;

/// The digit of a number at this unit.
fn digit(n: u32, unit: u32) -> u8 {
    b'0'.saturating_add((n / unit.max(1) % 10) as u8)
}

/// The name of a file, `f0000` to `f2999`.
fn name_of(n: u32) -> [u8; 5] {
    [
        b'f',
        digit(n, 1000),
        digit(n, 100),
        digit(n, 10),
        digit(n, 1),
    ]
}

/// The record of a file, which is empty, with the name of the first one.
fn numbered(n: u32) -> [u8; 34] {
    let mut bytes = *b"\0\x05f0000\0\0\0\0\0\0\0\x01\xa4\0\0\0\x07\0\0\0\0\0\0\0\0\0\x01u\0\x01g";
    bytes[8..12].copy_from_slice(&n.to_be_bytes());
    bytes[24..28].copy_from_slice(&n.saturating_add(1).to_be_bytes());
    bytes
}

/// The same with its own name.
fn record_of(n: u32) -> [u8; 34] {
    let mut bytes = numbered(n);
    bytes[2..7].copy_from_slice(&name_of(n));
    bytes
}

/// What is told of a file.
fn stat_of(n: u32) -> [u8; 57] {
    let mut bytes =
        *b"7\0\0\0\0\0\0\0\0\0\0\0\0\0\0\0\0\0\0\0\0\xa4\x01\0\0\x07\0\0\0\x07\0\0\0\0\0\0\0\0\0\0\0\x05\0f0000\x01\0u\x01\0g\x01\0u";
    bytes[13..17].copy_from_slice(&n.saturating_add(1).to_le_bytes());
    bytes[43..48].copy_from_slice(&name_of(n));
    bytes
}

/// A stream of bytes in leaves of 204 entries, and 240 records.
fn stream<B: Blocks>(
    alloc: Global,
    blocks: &mut B,
    bytes: Vec<u8>,
    is_dir: bool,
) -> Result<Entry, Fail>
    ensures { IfOk result IsTreeEntry }
{
    let mut source = MemSource::new(alloc, bytes);
    match write_stream(alloc, blocks, &mut source, 8160, 8160, is_dir) {
        Ok(entry) => Ok(entry),
        Err(_) => Err("not written".into()),
    }
}

/// The view of an archive of these files.
pub fn large_sample<B: Blocks>(alloc: Global, blocks: &mut B) -> Result<View, Fail> {
    let empty = stream(alloc, blocks, Vec::new(alloc), false)?.encode();
    let mut entries = Vec::new(alloc);
    let mut records = Vec::new(alloc);
    for n in 0..FILES {
        entries.extend_from_slice(&empty)?;
        records.extend_from_slice(&record_of(n))?;
    }
    let first = stream(alloc, blocks, entries, true)?.encode();
    let second = stream(alloc, blocks, records, false)?.encode();
    view_of(alloc, blocks, &first, &second)
}

/// What a client begins with: a version, and the top folder's fid.
fn begun(alloc: Global) -> Result<Talk, AllocError> {
    let mut talk = Talk::new(alloc);
    talk.say(
        b"\x13\0\0\0d\xff\xff\0 \0\0\x06\09P2000",
        b"\x13\0\0\0e\xff\xff\0 \0\0\x06\09P2000",
    )?;
    talk.say(
        b"\x14\0\0\0h\x01\0\x01\0\0\0\xff\xff\xff\xff\x01\0u\0\0",
        b"\x14\0\0\0i\x01\0\x80\0\0\0\0\0\0\0\0\0\0\0\0",
    )?;
    Ok(talk)
}

/// A read of the folder behind so many bytes, by this count, and its reply up to the bytes, so many.
fn say_read(talk: &mut Talk, from: u32, count: u32, len: u32) -> Result<(), AllocError> {
    let mut asked = *b"\x17\0\0\0t\x01\0\x01\0\0\0\0\0\0\0\0\0\0\0\0\0\0\0";
    asked[11..15].copy_from_slice(&from.to_le_bytes());
    asked[19..].copy_from_slice(&count.to_le_bytes());
    let mut head = *b"\0\0\0\0u\x01\0\0\0\0\0";
    head[..4].copy_from_slice(&len.saturating_add(11).to_le_bytes());
    head[7..].copy_from_slice(&len.to_le_bytes());
    talk.say(&asked, &head)
}

/// A read that has no room for one file, nor asks for the rest of a count.
fn say_small(talk: &mut Talk, from: u32, count: u32) -> Result<(), AllocError> {
    let mut asked = *b"\x17\0\0\0t\x01\0\x01\0\0\0\0\0\0\0\0\0\0\0\0\0\0\0";
    asked[11..15].copy_from_slice(&from.to_le_bytes());
    asked[19..].copy_from_slice(&count.to_le_bytes());
    talk.say(&asked, b"\x18\0\0\0k\x01\0\x0f\0count too small")
}

/// One buffer is filled, by the files from this number on. Behind them it is asked for less and for more than the
/// rest, which is refused, and for the rest twice, which is answered by nothing.
fn say_buffer(talk: &mut Talk, first: u32) -> Result<(), AllocError> {
    let count = FILES.saturating_sub(first).min(EACH);
    let from = first.saturating_mul(STAT);
    let len = count.saturating_mul(STAT);
    say_read(talk, from, BUFFER, len)?;
    for n in first..first.saturating_add(count) {
        talk.say(b"", &stat_of(n))?;
    }
    let behind = from.saturating_add(len);
    let rest = BUFFER.saturating_sub(len);
    if count == EACH {
        say_small(talk, behind, rest.saturating_sub(1))?;
        say_small(talk, behind, rest.saturating_add(1))?;
    }
    say_read(talk, behind, rest, 0)?;
    say_read(talk, behind, rest, 0)
}

/// All of the folder, buffer by buffer, and the end behind it.
fn listing(alloc: Global) -> Result<Talk, AllocError> {
    let mut talk = begun(alloc)?;
    talk.say(
        b"\x0c\0\0\0p\x01\0\x01\0\0\0\0",
        b"\x18\0\0\0q\x01\0\x80\0\0\0\0\0\0\0\0\0\0\0\0\xe8\x1f\0\0",
    )?;
    for n in 0..BUFFERS {
        say_buffer(&mut talk, n.saturating_mul(EACH))?;
    }
    say_read(&mut talk, FILES.saturating_mul(STAT), BUFFER, 0)?;
    Ok(talk)
}

/// Messages of 256 bytes, in which four files are told; the client asks for eight bytes more than they have room for,
/// and then for the rest of that.
fn rests(alloc: Global) -> Result<Talk, AllocError> {
    let mut talk = Talk::new(alloc);
    talk.say(
        b"\x13\0\0\0d\xff\xff\0\x01\0\0\x06\09P2000",
        b"\x13\0\0\0e\xff\xff\0\x01\0\0\x06\09P2000",
    )?;
    talk.say(
        b"\x14\0\0\0h\x01\0\x01\0\0\0\xff\xff\xff\xff\x01\0u\0\0",
        b"\x14\0\0\0i\x01\0\x80\0\0\0\0\0\0\0\0\0\0\0\0",
    )?;
    talk.say(
        b"\x0c\0\0\0p\x01\0\x01\0\0\0\0",
        b"\x18\0\0\0q\x01\0\x80\0\0\0\0\0\0\0\0\0\0\0\0\xe8\0\0\0",
    )?;
    say_read(&mut talk, 0, 240, 228)?;
    for n in 0..4 {
        talk.say(b"", &stat_of(n))?;
    }
    say_small(&mut talk, 228, 4)?;
    say_read(&mut talk, 228, 12, 0)?;
    say_small(&mut talk, 228, 11)?;
    say_read(&mut talk, 228, 12, 0)?;
    say_small(&mut talk, 0, 12)?;
    say_read(&mut talk, 228, 57, 57)?;
    talk.say(b"", &stat_of(4))?;
    // Nothing of the last count is left.
    say_small(&mut talk, 285, 12)?;
    say_read(&mut talk, 285, 0, 0)?;
    Ok(talk)
}

/// Each file is walked to, and its fid forgotten.
fn walks(alloc: Global) -> Result<Talk, AllocError> {
    let mut talk = begun(alloc)?;
    for n in 0..FILES {
        let mut asked = *b"\x18\0\0\0n\x01\0\x01\0\0\0\x02\0\0\0\x01\0\x05\0f0000";
        asked[19..].copy_from_slice(&name_of(n));
        let mut qid = *b"\x16\0\0\0o\x01\0\x01\0\0\0\0\0\0\0\0\0\0\0\0\0\0";
        qid[14..18].copy_from_slice(&n.saturating_add(1).to_le_bytes());
        talk.say(&asked, &qid)?;
        talk.say(b"\x0b\0\0\0x\x01\0\x02\0\0\0", b"\x07\0\0\0y\x01\0")?;
    }
    Ok(talk)
}

/// What is asked of the view.
#[derive(Clone, Copy)]
enum Asks {
    /// All of it is listed.
    Listing,
    /// The rest of a count is asked for, and less and more.
    Rests,
}

impl Asks {
    fn talk(self, alloc: Global) -> Result<Talk, AllocError> {
        match self {
            Asks::Listing => listing(alloc),
            Asks::Rests => rests(alloc),
        }
    }
}

impl Case for Asks {
    fn see<B: Blocks>(
        &self,
        alloc: Global,
        view: &mut View,
        blocks: &mut B,
        rows: &mut Rows,
    ) -> Result<(), AllocError> {
        let talk = self.talk(alloc)?;
        let came = serve(
            alloc,
            view,
            blocks,
            &talk.asked,
            (1000, 400_000),
            &talk.replied,
        )?;
        rows.is("the replies to the reads", came.is_well());
        rows.is("a failure of a read", came.failure == None);
        Ok(())
    }
}

#[test]
fn a_long_folder_is_listed_by_buffers(rt: HostRuntime) -> Result<(), Fail> {
    see_shown(
        rt.alloc(),
        Shown::Large,
        Vec::new(rt.alloc()),
        &Asks::Listing,
    )
}

#[test]
fn the_rest_of_a_count_is_no_end(rt: HostRuntime) -> Result<(), Fail> {
    see_shown(rt.alloc(), Shown::Large, Vec::new(rt.alloc()), &Asks::Rests)
}

/// Walks to each file, and says whether each walk was answered.
fn walk_all<B: Blocks>(alloc: Global, view: &mut View, blocks: &mut B) -> Result<bool, Fail> {
    let talk = walks(alloc)?;
    let came = serve(
        alloc,
        view,
        blocks,
        &talk.asked,
        (1000, 400_000),
        &talk.replied,
    )?;
    Ok(came.is_well())
}

#[test]
fn walks_read_a_folder_once(rt: HostRuntime) -> Result<(), Fail> {
    let mut rows = Rows::new();
    let mut blocks = MemBlocks::new(rt.alloc(), Sha1Scorer);
    let mut view = large_sample(rt.alloc(), &mut blocks)?;
    let before = blocks.gets().len();
    rows.is(
        "the replies to the walks",
        walk_all(rt.alloc(), &mut view, &mut blocks)?,
    );
    let asked = blocks.gets().len().saturating_sub(before);
    // The metadata, 13 leaves below one block, and 15 leaves of entries, each below one block.
    rows.is("how many blocks are asked for", asked == 14 + 30);
    rows.all()?;
    Ok(())
}
