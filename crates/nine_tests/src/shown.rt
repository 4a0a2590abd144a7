//! An archive of blocks in memory that is shown: what its client says, and what goes out.

use crate::samples::{joined, link, put};
use nine_view::{Ended, Served};
use std::alloc::Global;
use std::test::Fail;
use vac_read::VacBad;
use vac_view::view_archive;
use vt_base::{Kind, MAX_BLOCK, Score, Sha1Scorer};
use vt_rows::Rows;
use vt_tree::{BlockErr, Blocks, MemBlocks, TreeErr};

/// The blocks of an archive of one file, `f` of three bytes, but its root, by another encoder; each
/// with its type.
const BLOCKS: [(Kind, &[u8]); 4] = [
    (Kind::DATA, b"abc"),
    (
        Kind::DIRECTORY,
        b"\0\0\0\0\x1f\xf4 \0\x01\0\0\0\0\0\0\0\0\0\0\x03\xa9\x99>6G\x06\x81j\xba>%qxP\xc2l\
        \x9c\xd0\xd8\x9d",
    ),
    (
        Kind::DATA,
        b"\0\x01f\0\0\0\0\0\0\0\x01\xa4\0\0\0\x05\0\0\0\0\0\0\0\x01\0\x01u\0\x01g",
    ),
    (
        Kind::DIRECTORY,
        b"\0\0\0\0\x1f\xf4\x1f\xe0\x03\0\0\0\0\0\0\0\0\0\0(\xd2yoW_q\xea\xf6N\x06\x95\xbe\x0b\
        \xddFR&\x0a\xce\xe8\0\0\0\0\x1f\xf4 \0\x01\0\0\0\0\0\0\0\0\0\0\x1e\x01\xe46\x11\xc6]\
        \xe6\xdb8O\x13\xa03<77\x84\x9f\xa0s",
    ),
];

/// The bytes of its root, one part behind another: the version and the name, the type, the score of
/// the top entries, the block size, and the score of no bytes.
const ROOT: &[&[u8]] = &[
    b"\0\x02vac",
    &[0; 125],
    b"rvac",
    &[0; 124],
    b"\xf2{\xbd_\x97\xe7\x01\xc5\xf0\x0cC\x1b8k\x05\xf2HO\xa2\xf7",
    b"\x20\0",
    b"\xda9\xa3\xee^kK\x0d2U\xbf\xef\x95`\x18\x90\xaf\xd8\x07\x09",
];

/// The root's score.
const SCORE: Score = Score(*b"4\x8a\xa3D\xb4\xa7\xd9`\xb7\x05\x15;\xae-\x9f;\x99\xae\xfbQ");

/// A version, the top folder, a walk to `f`, to open it, its bytes, and to be done.
const ASKED: &[u8] =
    b"\x13\0\0\0d\xff\xff\0 \0\0\x06\09P2000\x13\0\0\0h\x01\0\x01\0\0\0\xff\xff\xff\xff\0\0\0\
    \0\x14\0\0\0n\x02\0\x01\0\0\0\x02\0\0\0\x01\0\x01\0f\x0c\0\0\0p\x03\0\x02\0\0\0\0\x17\0\0\
    \0t\x04\0\x02\0\0\0\0\0\0\0\0\0\0\0d\0\0\0\x0b\0\0\0x\x05\0\x02\0\0\0";

/// What is replied to these.
const REPLIED: &[u8] =
    b"\x13\0\0\0e\xff\xff\0 \0\0\x06\09P2000\x14\0\0\0i\x01\0\x80\0\0\0\0\0\0\0\0\0\0\0\0\x16\
    \0\0\0o\x02\0\x01\0\0\0\0\0\0\x01\0\0\0\0\0\0\0\x18\0\0\0q\x03\0\0\0\0\0\0\x01\0\0\0\0\0\0\
    \0\xe8\x1f\0\0\x0e\0\0\0u\x04\0\x03\0\0\0abc\x07\0\0\0y\x05\0";

/// Puts the archive's blocks, and gives the score of its root.
fn archive<B: Blocks>(alloc: Global, blocks: &mut B) -> Result<Score, Fail> {
    for (kind, block) in BLOCKS {
        if block.len() > MAX_BLOCK {
            return Err("a block that is too long".into());
        }
        put(alloc, blocks, kind, block)?;
    }
    let root = joined(alloc, ROOT)?;
    if root.len() > MAX_BLOCK {
        return Err("a root that is too long".into());
    }
    put(alloc, blocks, Kind::ROOT, &root)
}

/// Notes whether a connection was closed by its client behind all that it says, and nothing failed.
fn see_served(served: &Served, rows: &mut Rows) {
    rows.is("how the connection ends", served.ended == Ended::Closed);
    rows.is(
        "how many bytes are taken",
        served.taken == ASKED.len() as u64,
    );
    rows.is("a failure", served.failure.is_none());
}

/// What is asked of the archive is replied to so.
fn see_shown<B: Blocks>(alloc: Global, blocks: &mut B, rows: &mut Rows) -> Result<(), Fail> {
    let score = archive(alloc, blocks)?;
    rows.is("the archive's score", score == SCORE);
    let mut client = link(alloc, ASKED, 1_024, 1_024)?;
    match view_archive(alloc, blocks, &SCORE, &mut client) {
        Ok(served) => see_served(&served, rows),
        Err(_) => rows.is("whether the archive is opened", false),
    }
    rows.is("the replies", client.sink.written() == REPLIED);
    Ok(())
}

/// Whether an archive isn't opened since its store has no such block.
fn is_absent(bad: &VacBad) -> bool {
    match bad {
        VacBad::Tree(TreeErr::Block(BlockErr::Refused(why))) => {
            why.as_slice() == b"no such block".as_slice()
        }
        _ => false,
    }
}

/// No archive has a score of zeros, and nothing is replied.
fn see_none<B: Blocks>(alloc: Global, blocks: &mut B, rows: &mut Rows) -> Result<(), Fail> {
    archive(alloc, blocks)?;
    let mut client = link(alloc, ASKED, 1_024, 1_024)?;
    match view_archive(alloc, blocks, &Score([0; 20]), &mut client) {
        Ok(_) => rows.is("whether an archive is opened", false),
        Err(bad) => rows.is("why the archive isn't opened", is_absent(&bad)),
    }
    rows.is("what is replied", client.sink.written().is_empty());
    Ok(())
}

#[test]
fn an_archive_is_shown(rt: HostRuntime) -> Result<(), Fail> {
    let mut rows = Rows::new();
    let mut blocks = MemBlocks::new(rt.alloc(), Sha1Scorer);
    see_shown(rt.alloc(), &mut blocks, &mut rows)?;
    rows.all()?;
    Ok(())
}

#[test]
fn what_is_no_archive_is_not_shown(rt: HostRuntime) -> Result<(), Fail> {
    let mut rows = Rows::new();
    let mut blocks = MemBlocks::new(rt.alloc(), Sha1Scorer);
    see_none(rt.alloc(), &mut blocks, &mut rows)?;
    rows.all()?;
    Ok(())
}
