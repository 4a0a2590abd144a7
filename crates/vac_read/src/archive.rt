//! The root of an archive.

ghost use Rattle.std.specs.Prelude.{◌≡◌, IfOk, MatchResult};
ghost use Rattle.vac_read.specs.Broken.{AreNoEntries};
ghost use Rattle.vac_read.specs.Folders.{IsArchiveRoot, IsNoRoot, BeginsWithFolder};
ghost use Rattle.vac_read.specs.Nodes.{AreNodeEntries, FitsToldItem, top_item};
ghost use Rattle.vac_read.specs.Reading.{ReadsArchive, OpensArchive};

use crate::directory::entry_in;
use crate::{Node, RootField, Stored, VacBad};
use std::alloc::{AllocError, Global};
use vac_model::{MAX_BLOCK_SIZE, MIN_BLOCK_SIZE};
use vt_base::{Kind, Score, Text};
use vt_out::{Item, ItemKind};
use vt_tree::{Blocks, Root};

/// An archive.
#[derive(Drop)]
pub struct Archive {
    /// Its top folder: `/`, which everybody may read, of user and group `vac`, with number 0.
    pub top: Node,
}

impl Archive {
    /// The archive whose root has this score: a root of 300 bytes, version 2, type `rvac` and a
    /// block size of 512 to 53,248, tested in this order, that names a block of two entries or
    /// more. Of these the first is a directory's, and the second isn't.
    pub fn at<B: Blocks>(alloc: Global, blocks: &mut B, score: &Score) -> Result<Self, VacBad>
        ensures opens { ReadsArchive B.does B.holds B.score_of blocks.old blocks.new result
            (OpensArchive score.now.0 result) }
        ensures entries { IfOk result (λ a. AreNodeEntries a.top.stored) }
        ensures item { IfOk result (λ a. FitsToldItem a.top.item) }
    {
        let block = blocks.get(alloc, Kind::ROOT, score)?;
        let root = root_in(block.as_slice())?;
        let block = blocks.get(alloc, Kind::DIRECTORY, &root.score)?;
        let stored = top_in(block.as_slice())?;
        Ok(Archive {
            top: Node {
                item: top_item(alloc)?,
                qid: 0,
                size: 0,
                stored,
            },
        })
    }
}

/// The root of an archive that these bytes are.
fn root_in(bytes: &[u8]) -> Result<Root, VacBad>
    ensures { MatchResult result (IsArchiveRoot bytes.now) (IsNoRoot bytes.now) }
{
    let root = Root::decode(bytes)?;
    let mut kind = [0; 128];
    kind[..4].copy_from_slice(b"rvac");
    if root.kind != kind {
        return Err(VacBad::Root {
            field: RootField::Type,
        });
    }
    if root.block_size < MIN_BLOCK_SIZE || root.block_size > MAX_BLOCK_SIZE {
        return Err(VacBad::Root {
            field: RootField::BlockSize,
        });
    }
    Ok(root)
}

/// The two entries of the top folder, which these bytes begin with.
fn top_in(bytes: &[u8]) -> Result<Stored, VacBad>
    ensures { MatchResult result (BeginsWithFolder bytes.now) (AreNoEntries bytes.now) }
{
    let Some((entries, rest)) = bytes.split_first_chunk() else {
        return Err(VacBad::Meta { at: 0 });
    };
    let Some((metadata, _)) = rest.split_first_chunk() else {
        return Err(VacBad::Meta { at: 0 });
    };
    let entries = entry_in(entries, true, 0)?;
    let metadata = entry_in(metadata, false, 0)?;
    Ok(Stored::Folder { entries, metadata })
}

/// What is told of the top folder.
fn top_item(alloc: Global) -> Result<Item, AllocError>
    ensures { IfOk result (λ item. item ≡ top_item) }
{
    Ok(Item {
        name: Text::copy_of(alloc, b"/")?,
        kind: ItemKind::Folder,
        mode: 0o555,
        mtime: 0,
        uid: Text::copy_of(alloc, b"vac")?,
        gid: Text::copy_of(alloc, b"vac")?,
    })
}
