//! Folders in memory become archives, with scores from an encoder of its own.

use crate::items::{Sample, facts, file, folder, items_of, link, long_named, nested, one, two};
use std::alloc::{AllocError, Global};
use std::test::Fail;
use vac_write::{Archived, Paths, VacErr, archive};
use vt_base::{Failed, Score, Sha1Scorer, Text, parse_score};
use vt_out::{Folder, Item, ItemKind, Listing, MemContent, MemFolder, MemItem, OutErr};
use vt_rows::Rows;
use vt_tree::{BlockErr, Blocks, MemBlocks, TreeErr};

/// Archives a folder in blocks of this size, or of the nearest that may be. It is generic, so that no
/// clause is looked at with the folder and the blocks in memory.
fn archived<F: Folder, B: Blocks>(
    alloc: Global,
    folder: &mut F,
    blocks: &mut B,
    bsize: u16,
) -> Result<Archived, VacErr> {
    archive(alloc, folder, blocks, bsize.clamp(512, 53_248))
}

/// What an archiving left.
#[derive(Clone, Copy)]
struct Left {
    /// How many blocks were put, how many are held, and how many of these are synced.
    puts: usize,
    held: usize,
    synced: usize,
    /// How many bytes are held.
    bytes: usize,
    /// How many calls of the folder were made, and how many have failed.
    calls: u64,
    folder_faults: u64,
    /// How many calls of the store have failed.
    block_faults: u64,
}

/// What an archiving of this folder left, and of these blocks.
fn left_of(folder: &MemFolder, blocks: &MemBlocks<Sha1Scorer>) -> Left {
    let mut bytes = 0usize;
    for block in blocks.blocks() {
        bytes = bytes.saturating_add(block.bytes.len());
    }
    Left {
        puts: blocks.puts().len(),
        held: blocks.blocks().len(),
        synced: blocks.synced(),
        bytes,
        calls: folder.calls(),
        folder_faults: folder.faults(),
        block_faults: blocks.faults(),
    }
}

/// Archives items, where these calls of their folder and of the store fail.
fn archive_items(
    alloc: Global,
    items: Vec<MemItem>,
    bsize: u16,
    failing: Vec<u64>,
    failing_blocks: Vec<u64>,
) -> (Result<Archived, VacErr>, Left) {
    let mut folder = MemFolder::new(alloc, items).in_pieces(300).failing(failing);
    let mut blocks = MemBlocks::new(alloc, Sha1Scorer).failing(failing_blocks);
    let result = archived(alloc, &mut folder, &mut blocks, bsize);
    (result, left_of(&folder, &blocks))
}

/// Archives items twice, and gives the second answer, and how many blocks were put and are held.
fn archive_again(
    alloc: Global,
    items: Vec<MemItem>,
    bsize: u16,
) -> (Result<Archived, VacErr>, usize, usize) {
    let mut folder = MemFolder::new(alloc, items);
    let mut blocks = MemBlocks::new(alloc, Sha1Scorer);
    let _first = archived(alloc, &mut folder, &mut blocks, bsize);
    let second = archived(alloc, &mut folder, &mut blocks, bsize);
    (second, blocks.puts().len(), blocks.blocks().len())
}

/// The paths, with a space behind each.
fn listed(alloc: Global, paths: &Paths) -> Result<Vec<u8>, AllocError> {
    let mut names = Vec::new(alloc);
    for path in paths.as_slice() {
        names.extend_from_slice(path.as_slice())?;
        names.push(b' ')?;
    }
    Ok(names)
}

/// A folder, the block size, the archive's score, how many blocks are put, of how many bytes, and
/// what is skipped.
type Row = (Sample, u16, &'static str, usize, usize, &'static str);

const ROWS: &[Row] = &[
    (
        Sample::Empty,
        8192,
        "bc0134b39e3f1c437bec79b6dcbfc5a24a26b717",
        2,
        380,
        "",
    ),
    (
        Sample::Small,
        8192,
        "cfd1270f57bb4fddde84a62de63149f0b829e079",
        7,
        633,
        "",
    ),
    (
        Sample::Mixed,
        8192,
        "f4e513de3e771f6dae341b6a9c77d12905a18b97",
        9,
        842,
        "a/z link ",
    ),
    (
        Sample::Mixed,
        512,
        "159080d05780d243b708b40e733da7819f33294e",
        9,
        842,
        "a/z link ",
    ),
    (
        Sample::Large,
        512,
        "9993562da0e9f62cba7d38a5ef966eac5e9a303e",
        51,
        22_020,
        "",
    ),
    (
        Sample::Large,
        53_248,
        "3d911ade61fdc03dacf1dfb0dff3fa897ffd22f8",
        8,
        22_636,
        "",
    ),
    (
        Sample::Many,
        512,
        "3396a1f077b4d3dcd52d93f4cbbfbed3efd22834",
        51,
        3470,
        "",
    ),
];

/// The score of what was archived.
fn score_of(answer: &Result<Archived, VacErr>) -> Option<Score> {
    match answer {
        Ok(archived) => Some(archived.score),
        Err(_) => None,
    }
}

/// Whether these paths, with a space behind each, were skipped.
fn skips(alloc: Global, answer: &Result<Archived, VacErr>, wanted: &[u8]) -> bool {
    let Ok(archived) = answer else {
        return false;
    };
    match listed(alloc, &archived.skipped) {
        Ok(names) => names.as_slice() == wanted,
        Err(_) => false,
    }
}

/// The folder's archive is the known one.
fn see_known(alloc: Global, n: usize, row: Row, rows: &mut Rows) -> Result<(), Fail> {
    let (which, bsize, score, puts, bytes, skipped) = row;
    let score = parse_score(score.as_bytes()).ok().ok_or("no score")?;
    let items = items_of(alloc, which)?;
    let (found, left) = archive_items(alloc, items, bsize, Vec::new(alloc), Vec::new(alloc));
    rows.nth(n, "the archive's score", score_of(&found) == Some(score));
    rows.nth(n, "how many blocks are put", left.puts == puts);
    rows.nth(n, "how many blocks are held", left.held == puts);
    rows.nth(n, "how many blocks are synced", left.synced == puts);
    rows.nth(n, "how many bytes are held", left.bytes == bytes);
    rows.nth(
        n,
        "what is skipped",
        skips(alloc, &found, skipped.as_bytes()),
    );
    Ok(())
}

/// The same again puts the same, of which nothing is new.
fn see_again(alloc: Global, n: usize, row: Row, rows: &mut Rows) -> Result<(), Fail> {
    let (which, bsize, score, puts, ..) = row;
    let score = parse_score(score.as_bytes()).ok().ok_or("no score")?;
    let items = items_of(alloc, which)?;
    let (again, puts_twice, held) = archive_again(alloc, items, bsize);
    rows.nth(
        n,
        "the score of the same again",
        score_of(&again) == Some(score),
    );
    rows.nth(
        n,
        "how many blocks are put in both",
        puts_twice == puts.saturating_mul(2),
    );
    rows.nth(n, "how many blocks both hold", held == puts);
    Ok(())
}

#[test]
fn archives_have_their_scores(rt: HostRuntime) -> Result<(), Fail> {
    let mut rows = Rows::new();
    for (n, row) in ROWS.iter().enumerate() {
        see_known(rt.alloc(), n, *row, &mut rows)?;
    }
    rows.all()?;
    Ok(())
}

#[test]
fn archives_again_hold_nothing_new(rt: HostRuntime) -> Result<(), Fail> {
    let mut rows = Rows::new();
    for (n, row) in ROWS.iter().enumerate() {
        see_again(rt.alloc(), n, *row, &mut rows)?;
    }
    rows.all()?;
    Ok(())
}

/// Why these items aren't archived.
fn refusal(alloc: Global, items: Vec<MemItem>) -> Option<VacErr> {
    archive_items(alloc, items, 8192, Vec::new(alloc), Vec::new(alloc))
        .0
        .err()
}

/// An empty file of this name and owner.
fn named(alloc: Global, name: &[u8], owner: &[u8]) -> Result<MemItem, Fail> {
    let about = facts(alloc, name, 0, 0, owner, owner)?;
    Ok(MemItem::File(about, MemContent::from_vec(Vec::new(alloc))))
}

/// The file `e`, and a folder of a link `c` and this item.
fn around(alloc: Global, item: MemItem) -> Result<Vec<MemItem>, Fail> {
    let c = link(alloc, b"c")?;
    let d = folder(alloc, b"d", two(alloc, c, item)?)?;
    let e = file(alloc, b"e", 0, b"")?;
    two(alloc, e, d)
}

/// Whether the item of this path is refused; or none, where there is none.
fn is_for(refusal: &Option<VacErr>, path: Option<&[u8]>) -> bool {
    match (refusal, path) {
        (None, None) => true,
        (Some(VacErr::BadName(found)), Some(path)) => found.as_slice() == path,
        _ => false,
    }
}

/// Whether a folder of the item, a link `c`, and the file `c` where there are two, is refused for
/// the item of this path; or archived, where there is none.
fn is_refused_for(
    alloc: Global,
    name: &[u8],
    owner: &[u8],
    path: Option<&[u8]>,
) -> Result<bool, Fail> {
    let item = named(alloc, name, owner)?;
    let items = around(alloc, item)?;
    Ok(is_for(&refusal(alloc, items), path))
}

/// A name that is too long by one byte.
const LONG: [u8; 256] = [b'n'; 256];

/// The longest name.
const MOST: [u8; 255] = [b'n'; 255];

/// Where the long name stands.
const LONG_PATH: &[u8] = b"d/\
    nnnnnnnnnnnnnnnnnnnnnnnnnnnnnnnnnnnnnnnnnnnnnnnnnnnnnnnnnnnnnnnn\
    nnnnnnnnnnnnnnnnnnnnnnnnnnnnnnnnnnnnnnnnnnnnnnnnnnnnnnnnnnnnnnnn\
    nnnnnnnnnnnnnnnnnnnnnnnnnnnnnnnnnnnnnnnnnnnnnnnnnnnnnnnnnnnnnnnn\
    nnnnnnnnnnnnnnnnnnnnnnnnnnnnnnnnnnnnnnnnnnnnnnnnnnnnnnnnnnnnnnnn";

/// An item's name and owner, and the path that is refused, where there is one.
const ITEMS: &[(&[u8], &[u8], Option<&[u8]>)] = &[
    (b"", b"u", Some(b"d/")),
    (b"a/b", b"u", Some(b"d/a/b")),
    (b"a\0", b"u", Some(b"d/a\0")),
    (b"c", b"u", Some(b"d/c")),
    (&LONG, b"u", Some(LONG_PATH)),
    (b"a", &LONG, Some(b"d/a")),
    (&MOST, &MOST, None),
    (b"\xff", b"", None),
];

#[test]
fn items_that_cannot_be_archived_are_named(rt: HostRuntime) -> Result<(), Fail> {
    let mut rows = Rows::new();
    for (n, (name, owner, path)) in ITEMS.iter().enumerate() {
        let is_told = is_refused_for(rt.alloc(), name, owner, *path)?;
        rows.nth(n, "the path of the item that is refused", is_told);
    }
    rows.all()?;
    Ok(())
}

/// Where the store fails, so many files with long names are given up for that, if their metadata isn't
/// too long; where it is, the store wasn't asked.
fn is_told(alloc: Global, count: u32, fits: bool) -> Result<bool, Fail> {
    let items = long_named(alloc, count)?;
    let failing = vec![in alloc; 0u64]?;
    let (result, left) = archive_items(alloc, items, 8192, Vec::new(alloc), failing);
    Ok(match result {
        Err(VacErr::Tree(TreeErr::Block(_))) => fits,
        Err(VacErr::Tree(TreeErr::TooLong)) => !fits && left.puts == 0,
        _ => false,
    })
}

/// The path that is told of so many folders in one another, where they are too deep.
fn too_deep(alloc: Global, depth: u32) -> Result<Option<Text>, Fail> {
    let items = nested(alloc, depth)?;
    match refusal(alloc, items) {
        None => Ok(None),
        Some(VacErr::TooDeep(path)) => Ok(Some(path)),
        Some(_) => Err("another refusal".into()),
    }
}

#[test]
fn metadata_and_depth_have_their_limits(rt: HostRuntime) -> Result<(), Fail> {
    let alloc = rt.alloc();
    // Metadata has 2^24 bytes at most.
    let fits = is_told(alloc, 21_183, true)?;
    let is_too_long = is_told(alloc, 21_184, false)?;
    let deepest = too_deep(alloc, 256)?.is_none();
    let Some(path) = too_deep(alloc, 257)? else {
        return Err("not too deep".into());
    };
    let mut rows = Rows::new();
    rows.is("the longest metadata", fits);
    rows.is("metadata that is too long", is_too_long);
    rows.is("the deepest folder", deepest);
    rows.is(
        "how long the path of a deeper one is",
        path.len() == 2 * 257 - 1,
    );
    rows.is(
        "the path of a deeper one",
        path.as_slice().starts_with(b"d/d/d/"),
    );
    rows.all()?;
    Ok(())
}

/// Whether archiving is given up where the folder can't be listed, by its only call.
fn is_given_up_unlisted(alloc: Global) -> Result<bool, Fail> {
    let items = items_of(alloc, Sample::Small)?;
    let failing = vec![in alloc; 0u64]?;
    let (result, left) = archive_items(alloc, items, 8192, failing, Vec::new(alloc));
    Ok(
        matches!(result, Err(VacErr::FolderFault))
            && (left.calls, left.folder_faults, left.puts) == (1, 1, 0),
    )
}

/// What is left of `Sample::Small` where this call of it fails.
fn small_without(alloc: Global, call: u64) -> Result<Vec<MemItem>, Fail> {
    match call {
        1 => {
            let f = file(alloc, b"f", 0o644, b"abc")?;
            one(alloc, folder(alloc, b"d", one(alloc, f)?)?)
        }
        2 => one(alloc, file(alloc, b"a", 0o644, b"")?),
        _ => {
            let d = folder(alloc, b"d", Vec::new(alloc))?;
            let a = file(alloc, b"a", 0o644, b"")?;
            two(alloc, a, d)
        }
    }
}

/// Whether these paths, with a space behind each, are told as those that couldn't be read.
fn lacks(alloc: Global, answer: &Result<Archived, VacErr>, wanted: &[u8]) -> bool {
    let Ok(archived) = answer else {
        return false;
    };
    match listed(alloc, &archived.failed) {
        Ok(names) => names.as_slice() == wanted,
        Err(_) => false,
    }
}

/// Whether `items`, where these calls fail, become the archive of `rest`, the paths of all else are
/// told, and what was put is synced.
fn becomes(
    alloc: Global,
    items: Vec<MemItem>,
    failing: Vec<u64>,
    rest: Vec<MemItem>,
    paths: &[u8],
) -> bool {
    let failures = failing.len() as u64;
    let (wanted, _) = archive_items(alloc, rest, 512, Vec::new(alloc), Vec::new(alloc));
    let (found, left) = archive_items(alloc, items, 512, failing, Vec::new(alloc));
    score_of(&found).is_some()
        && score_of(&found) == score_of(&wanted)
        && lacks(alloc, &found, paths)
        && left.folder_faults == failures
        && left.synced == left.held
}

/// Whether the archive of `Sample::Small` is that of all but what is at this path, where a call fails.
fn goes_on(alloc: Global, call: u64, path: &[u8]) -> Result<bool, Fail> {
    let items = items_of(alloc, Sample::Small)?;
    let rest = small_without(alloc, call)?;
    let failing = vec![in alloc; call]?;
    Ok(becomes(alloc, items, failing, rest, path))
}

/// The path that is told where this call of `Sample::Small` fails: of two folders that are listed, and
/// two files that are read, one of them twice, all but the first.
const FAILING: [(u64, &[u8]); 4] = [(1, b"a "), (2, b"d "), (3, b"d/f "), (4, b"d/f ")];

/// Whether of `Sample::Large` blocks are put of a file that couldn't be read to its end, and nothing of
/// it is in the archive.
fn leaves_nothing_half(alloc: Global) -> Result<bool, Fail> {
    let items = items_of(alloc, Sample::Large)?;
    let rest = items_of(alloc, Sample::LargeBehind)?;
    // The folder is listed, and its first file read in pieces of 300 bytes.
    let failing = vec![in alloc; 30u64]?;
    Ok(becomes(alloc, items, failing, rest, b"big "))
}

/// Whether all calls of files and folders may fail, and nothing is in the archive then.
fn may_be_empty(alloc: Global) -> Result<bool, Fail> {
    let items = items_of(alloc, Sample::Small)?;
    let failing = vec![in alloc; 1u64, 2]?;
    Ok(becomes(alloc, items, failing, Vec::new(alloc), b"a d "))
}

/// Whether it is given up where this call of the store fails, as its last one.
fn blocks_fail_at(alloc: Global, call: u64) -> Result<bool, Fail> {
    let items = items_of(alloc, Sample::Small)?;
    let failing = vec![in alloc; call]?;
    let (result, left) = archive_items(alloc, items, 8192, Vec::new(alloc), failing);
    Ok(
        matches!(result, Err(VacErr::Tree(TreeErr::Block(BlockErr::Fault))))
            && (left.puts as u64, left.block_faults, left.synced) == (call, 1, 0),
    )
}

#[test]
fn archiving_goes_on_where_a_call_fails(rt: HostRuntime) -> Result<(), Fail> {
    let alloc = rt.alloc();
    let mut rows = Rows::new();
    for (n, (call, path)) in FAILING.iter().enumerate() {
        let is_told = goes_on(alloc, *call, path)?;
        rows.nth(n, "a call of the folder that fails", is_told);
    }
    let is_whole = leaves_nothing_half(alloc)?;
    rows.is("a file that fails in its middle", is_whole);
    let is_empty = may_be_empty(alloc)?;
    rows.is("all that is in a folder fails", is_empty);
    rows.all()?;
    Ok(())
}

#[test]
fn archiving_is_given_up_where_a_call_fails(rt: HostRuntime) -> Result<(), Fail> {
    let mut rows = Rows::new();
    let is_given_up = is_given_up_unlisted(rt.alloc())?;
    rows.is("a folder that can't be listed", is_given_up);
    // Seven blocks are put, and then all is committed.
    for call in 0..8u64 {
        let is_told = blocks_fail_at(rt.alloc(), call)?;
        rows.nth(call as usize, "a call of the store that fails", is_told);
    }
    rows.all()?;
    Ok(())
}

/// A folder of one file, of which each read gives one byte, up to the fourth, which gives none.
#[derive(Drop)]
struct Growing {
    /// How often the file was read.
    reads: u8,
}

impl Folder for Growing {
    ghost use Rattle.std.specs.Prelude.{false};
    ghost use Rattle.std.proofs.Common.{arith};
    ghost use Rattle.vt_out.specs.FolderItems.{all_paths, none};

    ghost tells = { false };

    ghost holds = { λ _. none };

    ghost may_fail = { λ _. all_paths };

    ghost faults = { λ _. 0 };

    ghost holds_bytes = { λ _. tt };

    ghost faults_fit = { λ _. Prim.omega arith };

    fn list(&mut self, alloc: Global, _path: &[Text]) -> Result<Listing, OutErr> {
        match growing_file(alloc) {
            Ok(item) => match Vec::from_array(alloc, [item]) {
                Ok(items) => Ok(Listing::from_vec(items)),
                Err(_) => Err(OutErr::NoMemory),
            },
            Err(_) => Err(OutErr::NoMemory),
        }
    }

    fn read(&mut self, _path: &[Text], _at: u64, buf: &mut [u8]) -> Result<usize, Failed> {
        self.reads = self.reads.saturating_add(1);
        if buf.is_empty() || self.reads == 4 {
            return Ok(0);
        }
        buf[0] = b'a' + (self.reads - 1) % 26;
        Ok(1)
    }
}

/// The file that such a folder lists, as `f`.
fn growing_file(alloc: Global) -> Result<Item, AllocError> {
    facts(alloc, b"f", 0o644, 0, b"u", b"g")?.listed(alloc, ItemKind::File)
}

/// The score of the archive of a growing file, and how often it is read.
fn grown(alloc: Global) -> (Option<Score>, u8) {
    let mut growing = Growing { reads: 0 };
    let mut blocks = MemBlocks::new(alloc, Sha1Scorer);
    let grown = archived(alloc, &mut growing, &mut blocks, 8192);
    (score_of(&grown), growing.reads)
}

#[test]
fn a_file_is_what_its_reads_gave(rt: HostRuntime) -> Result<(), Fail> {
    let alloc = rt.alloc();
    let still = one(alloc, file(alloc, b"f", 0o644, b"abc")?)?;
    let (whole, _) = archive_items(alloc, still, 8192, Vec::new(alloc), Vec::new(alloc));
    let (score, reads) = grown(alloc);
    let mut rows = Rows::new();
    rows.is("the score of a growing file's archive", score.is_some());
    rows.is(
        "the score of the same file that stands still",
        score_of(&whole) == score,
    );
    rows.is("how often the file is read", reads == 4);
    rows.all()?;
    Ok(())
}
