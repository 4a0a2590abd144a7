//! Folders in memory are archived into the store of a configuration, on partitions in memory that
//! are kept from one run to the next, and read back.

ghost use Rattle.std.specs.Prelude.{IfSome};
ghost use Rattle.vac_read.specs.Nodes.{AreNodeEntries};

use crate::items::{Sample, items_of};
use std::alloc::{AllocError, Global};
use std::test::Fail;
use vac_read::{Archive, Node, read, walk};
use vac_store::{ArchiveError, ArchiveFolder, ArchivedAt, archived_at};
use vac_write::VacErr;
use vt_base::{Score, Sha1Scorer, Text, Why, parse_score};
use vt_blocks::Local;
use vt_conf::parse_conf;
use vt_format::laws::configurations_number_their_files;
use vt_format::{format_arenas, format_index, format_section, parse_arena_size, parse_name};
use vt_memdisk::{Listed, MemDisk};
use vt_open::{configurations_can_be_opened, open_store};
use vt_out::{Folder, MemFolder, Silent};
use vt_partitions::{Failing, MemParts, Parts};
use vt_requests::Driven;
use vt_rows::Rows;
use vt_tree::Blocks;
use vt_use::{StoreError, use_conf};

/// Partitions of a store.
#[derive(Drop)]
struct Stores<P> {
    alloc: Global,
    parts: P,
}

impl<P: Parts> Stores<P> {
    /// Makes a partition of one arena of 32,768 bytes, which has its file's name.
    fn arenas(&mut self, file: &[u8]) -> Result<(), Fail> {
        let file = Text::copy_of(self.alloc, file)?;
        let size = parse_arena_size(b"32768").ok().ok_or("size")?;
        parse_name(file.as_slice()).ok().ok_or("name")?;
        let made = format_arenas(self.alloc, &mut self.parts, &file, &file, 40_960, size);
        made.ok().ok_or("arenas")?;
        Ok(())
    }

    /// Makes a section of one bucket, which has its file's name.
    fn section(&mut self, file: &[u8]) -> Result<(), Fail> {
        let file = Text::copy_of(self.alloc, file)?;
        parse_name(file.as_slice()).ok().ok_or("name")?;
        let made = format_section(self.alloc, &mut self.parts, &file, &file, 41_472);
        made.ok().ok_or("section")?;
        Ok(())
    }

    /// Puts the section of a configuration to use.
    fn index(&mut self, text: &[u8]) -> Result<(), Fail> {
        configurations_number_their_files();
        let conf = parse_conf(self.alloc, text).ok().ok_or("configuration")?;
        let done = format_index(self.alloc, &mut self.parts, Sha1Scorer, &mut Silent, &conf);
        done.ok().ok_or("index")?;
        Ok(())
    }

    /// Archives a folder into the store of a configuration, and says whether this is told.
    fn archive<F: Folder>(
        &mut self,
        text: &[u8],
        folder: &mut F,
        bsize: u16,
        wanted: Wanted,
    ) -> Result<bool, Fail> {
        configurations_can_be_opened();
        let conf = parse_conf(self.alloc, text).ok().ok_or("configuration")?;
        let bsize = bsize.clamp(512, 53_248);
        let parts = &mut self.parts;
        let job = ArchiveFolder { bsize };
        let used = use_conf(self.alloc, parts, &conf, &Sha1Scorer, 1, job, folder);
        Ok(is_wanted(&archived_at(used), wanted))
    }

    /// Whether the file `d/f` of an archive in the store of a configuration has these bytes.
    fn gives(&mut self, text: &[u8], score: &Score, wanted: &[u8]) -> Result<bool, Fail> {
        configurations_can_be_opened();
        let conf = parse_conf(self.alloc, text).ok().ok_or("configuration")?;
        let core = open_store(self.alloc, &mut self.parts, &conf, 1, Sha1Scorer);
        let core = core.ok().ok_or("not opened")?;
        let mut blocks = Local::new(Driven::new(core, 0), Sha1Scorer);
        Ok(has_file(self.alloc, &mut blocks, score, wanted))
    }
}

/// The names that lead to the file `d/f`.
fn names(alloc: Global) -> Result<[Text; 2], AllocError> {
    Ok([Text::copy_of(alloc, b"d")?, Text::copy_of(alloc, b"f")?])
}

/// The node that these names lead to.
fn found<B: Blocks>(alloc: Global, blocks: &mut B, top: &Node, names: &[Text]) -> Option<Node>
    requires { AreNodeEntries top.now.stored }
    ensures { IfSome result (λ node. AreNodeEntries node.stored) }
{
    match walk(alloc, blocks, top, names) {
        Ok(end) => end,
        Err(_) => None,
    }
}

/// Whether a file has these bytes.
fn is_file<B: Blocks>(alloc: Global, blocks: &mut B, node: &Node, wanted: &[u8]) -> bool
    requires { AreNodeEntries node.now.stored }
{
    match read(alloc, blocks, node, 0, 100) {
        Ok(bytes) => bytes.as_slice() == wanted,
        Err(_) => false,
    }
}

/// Whether names lead to a file that has these bytes.
fn leads<B: Blocks>(
    alloc: Global,
    blocks: &mut B,
    top: &Node,
    names: &[Text],
    wanted: &[u8],
) -> bool
    requires { AreNodeEntries top.now.stored }
{
    match found(alloc, blocks, top, names) {
        Some(node) => is_file(alloc, blocks, &node, wanted),
        None => false,
    }
}

/// Whether the file `d/f` of an archive has these bytes.
fn has_file<B: Blocks>(alloc: Global, blocks: &mut B, score: &Score, wanted: &[u8]) -> bool {
    let Ok(names) = names(alloc) else {
        return false;
    };
    match Archive::at(alloc, blocks, score) {
        Ok(archive) => leads(alloc, blocks, &archive.top, &names, wanted),
        Err(_) => false,
    }
}

/// What is to be told of an archiving.
#[derive(Clone, Copy)]
enum Wanted {
    /// The archive's score, and how many blocks are new.
    Stored(&'static str, u64),
    /// The store isn't opened.
    Unopened,
    /// The folder couldn't be listed.
    FolderFault,
    /// The store said no first for this reason.
    Refused(Why),
}

/// Whether the answer tells this.
fn is_wanted(answer: &Result<ArchivedAt, ArchiveError>, wanted: Wanted) -> bool {
    match (answer, wanted) {
        (Ok(stored), Wanted::Stored(score, added)) => {
            Ok(stored.archived.score) == parse_score(score.as_bytes()) && stored.blocks == added
        }
        (Err(ArchiveError::Store(StoreError::Unopened(_))), Wanted::Unopened) => true,
        (Err(ArchiveError::Folder(VacErr::FolderFault)), Wanted::FolderFault) => true,
        (Err(ArchiveError::Store(StoreError::Refused(why))), Wanted::Refused(wanted)) => *why
            == wanted,
        _ => false,
    }
}

/// The configuration of the store that is there.
const CONF: &[u8] = b"arenas a\nisect i\n";

/// The scores of the archives of two samples, and of the second without its folder `d`.
const EMPTY: &str = "bc0134b39e3f1c437bec79b6dcbfc5a24a26b717";

const SMALL: &str = "cfd1270f57bb4fddde84a62de63149f0b829e079";

const WITHOUT: &str = "38d9c4f6567f2d3b353e7d019c76534c6dde195e";

/// A configuration, a folder, the block size, the call of the folder that fails, and what is told.
type Row = (&'static [u8], Sample, u16, u64, Wanted);

/// A call that is never made.
const NEVER: u64 = u64::MAX;

/// Each over the store that those before it left.
const ROWS: &[Row] = &[
    (CONF, Sample::Empty, 8192, NEVER, Wanted::Stored(EMPTY, 2)),
    (CONF, Sample::Empty, 8192, NEVER, Wanted::Stored(EMPTY, 0)),
    (CONF, Sample::Small, 8192, 0, Wanted::FolderFault),
    (CONF, Sample::Small, 8192, 2, Wanted::Stored(WITHOUT, 4)),
    (CONF, Sample::Small, 8192, NEVER, Wanted::Stored(SMALL, 7)),
    (CONF, Sample::Small, 8192, NEVER, Wanted::Stored(SMALL, 0)),
    (
        CONF,
        Sample::Large,
        512,
        NEVER,
        Wanted::Refused(Why::ArenasFull),
    ),
    (
        b"arenas a\nisect x\n",
        Sample::Empty,
        8192,
        NEVER,
        Wanted::Unopened,
    ),
    (CONF, Sample::Empty, 8192, NEVER, Wanted::Stored(EMPTY, 0)),
];

/// A folder of which this call fails.
fn folder_of(alloc: Global, which: Sample, failing: u64) -> Result<MemFolder, Fail> {
    let failing = vec![in alloc; failing]?;
    let items = items_of(alloc, which)?;
    Ok(MemFolder::new(alloc, items).failing(failing))
}

/// Whether a row is told as it is to be.
fn goes_as<P: Parts>(to: &mut Stores<P>, row: Row) -> Result<bool, Fail> {
    let (text, which, bsize, failing, wanted) = row;
    let mut folder = folder_of(to.alloc, which, failing)?;
    to.archive(text, &mut folder, bsize, wanted)
}

/// Makes a store, does what the rows say, and looks at what is kept.
fn archives_each<P: Parts>(to: &mut Stores<P>) -> Result<(), Fail> {
    let small = parse_score(SMALL.as_bytes()).ok().ok_or("score")?;
    to.arenas(b"a")?;
    to.section(b"i")?;
    to.index(CONF)?;
    let mut rows = Rows::new();
    for (n, row) in ROWS.iter().enumerate() {
        rows.nth(n, "what is told of the archiving", goes_as(to, *row)?);
    }
    rows.is(
        "the file that is read back",
        to.gives(CONF, &small, b"abc")?,
    );
    rows.all()?;
    Ok(())
}

#[test]
fn stores_keep_archives_from_run_to_run(rt: HostRuntime) -> Result<(), Fail> {
    let alloc = rt.alloc();
    let maker = Failing::new(Vec::new(alloc));
    let parts = MemParts::<MemDisk<Listed>, Failing<Global>>::new(alloc, maker);
    archives_each(&mut Stores { alloc, parts })
}
