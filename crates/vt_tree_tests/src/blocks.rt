//! Blocks and streams that are put into a store.

ghost use Rattle.std.specs.Prelude.{◌≡◌, ◌≤◌, length, IfOk};
ghost use Rattle.vt_tree.specs.Entries.{IsTreeEntry};

use std::alloc::Global;
use std::test::Fail;
use vt_base::{Kind, Score};
use vt_out::MemSource;
use vt_tree::{Blocks, Entry, write_stream};

/// Puts a block that has to be taken.
pub fn put<B: Blocks>(
    alloc: Global,
    blocks: &mut B,
    kind: Kind,
    bytes: &[u8],
) -> Result<Score, Fail>
    requires { length bytes.now ≤ 57344 }
{
    match blocks.put(alloc, kind, bytes) {
        Ok(score) => Ok(score),
        Err(_) => Err("not put".into()),
    }
}

/// A stream of bytes.
pub fn stream<B: Blocks>(
    alloc: Global,
    blocks: &mut B,
    bytes: &[u8],
    is_dir: bool,
) -> Result<Entry, Fail>
    ensures entry { IfOk result IsTreeEntry }
    ensures kind { IfOk result (λ e. e.is_dir ≡ is_dir) }
{
    let mut source = MemSource::new(alloc, Vec::from_slice(alloc, bytes)?);
    match write_stream(alloc, blocks, &mut source, 480, 500, is_dir) {
        Ok(entry) if entry.is_dir == is_dir => Ok(entry),
        _ => Err("not written".into()),
    }
}
