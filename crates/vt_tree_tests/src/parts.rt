//! A file that is read part by part: how many blocks are asked for.

ghost use Rattle.std.specs.Prelude.{IfOk};
ghost use Rattle.vac_read.specs.Nodes.{AreNodeEntries};

use crate::blocks::stream;
use std::alloc::{AllocError, Global};
use std::test::Fail;
use vac_read::{LastWay, Node, Stored, read_on_way};
use vt_base::{Sha1Scorer, Text};
use vt_out::{Item, ItemKind};
use vt_rows::Rows;
use vt_tree::{Blocks, MemBlocks};

/// How many bytes the file has: two leaves of 480 bytes, and one of 340, below one block.
const LEN: u32 = 1300;

/// How many bytes are read at a time, and how often.
const PART: u32 = 100;

const PARTS: u32 = 13;

/// A byte of the file, in which no two leaves are equal.
fn byte_of(n: u32) -> u8 {
    (n % 251) as u8
}

/// The bytes of the file.
fn all_bytes(alloc: Global) -> Result<Vec<u8>, AllocError> {
    let mut bytes = Vec::new(alloc);
    for n in 0..LEN {
        bytes.push(byte_of(n))?;
    }
    Ok(bytes)
}

/// The item of a file of these bytes.
fn file<B: Blocks>(alloc: Global, blocks: &mut B, bytes: &[u8]) -> Result<Node, Fail>
    ensures { IfOk result (λ n. AreNodeEntries n.stored) }
{
    let entry = stream(alloc, blocks, bytes, false)?;
    Ok(Node {
        item: Item {
            name: Text::copy_of(alloc, b"f")?,
            kind: ItemKind::File,
            mode: 0,
            mtime: 0,
            uid: Text::copy_of(alloc, b"u")?,
            gid: Text::copy_of(alloc, b"g")?,
        },
        qid: 1,
        size: entry.size,
        stored: Stored::File(entry),
    })
}

/// Whether a part of the file is read right.
fn is_part<B: Blocks>(
    alloc: Global,
    blocks: &mut B,
    way: &mut LastWay,
    file: &Node,
    wanted: &[u8],
    number: u32,
) -> bool
    requires { AreNodeEntries file.now.stored }
{
    let at = number.saturating_mul(PART);
    let from = at as usize;
    match read_on_way(alloc, blocks, way, &file.stored, u64::from(at), PART) {
        Ok(bytes) => Some(bytes.as_slice()) == wanted.get(from..from.saturating_add(PART as usize)),
        Err(_) => false,
    }
}

/// Whether each part of the file is read right, one behind another.
fn are_parts<B: Blocks>(
    alloc: Global,
    blocks: &mut B,
    way: &mut LastWay,
    file: &Node,
    wanted: &[u8],
) -> bool
    requires { AreNodeEntries file.now.stored }
{
    let mut all = true;
    for number in 0..PARTS {
        let is = is_part(alloc, blocks, way, file, wanted, number);
        all = all && is;
    }
    all
}

#[test]
fn a_file_that_is_read_in_order_is_asked_for_once(rt: HostRuntime) -> Result<(), Fail> {
    let alloc = rt.alloc();
    let mut rows = Rows::new();
    let mut blocks = MemBlocks::new(alloc, Sha1Scorer);
    let wanted = all_bytes(alloc)?;
    let node = file(alloc, &mut blocks, &wanted)?;
    let mut way = LastWay::new(alloc);
    let is = are_parts(alloc, &mut blocks, &mut way, &node, &wanted);
    rows.is("the parts", is);
    rows.is("how many blocks are asked for", blocks.gets().len() == 4);
    // The first leaf isn't the last one any more, and the block above it still is kept.
    let is = are_parts(alloc, &mut blocks, &mut way, &node, &wanted);
    rows.is("the parts, again", is);
    rows.is("how many are asked for again", blocks.gets().len() == 4 + 3);
    rows.passes()
}
