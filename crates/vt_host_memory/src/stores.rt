//! Stores that tests make.

use crate::call_order::CallOrder;
use crate::host::Runtime;
use crate::partitions::Partitions;
use crate::running::{Given, run, run_noted};
use std::alloc::AllocError;
use vt_rows::Rows;

/// The program's words, one command behind another.
pub type Commands = &'static [&'static [&'static str]];

/// The partitions of a store of one arena of 128 KiB, four buckets, and a filter.
pub const PARTITIONS: Commands = &[
    &["fmtarenas", "a.part", "a0", "139264", "131072"],
    &["fmtisect", "i.part", "i0", "92160"],
    &["fmtbloom", "b.part", "8192", "8"],
];

/// Their section is put to use.
pub const INDEX: &[&str] = &["fmtindex", "v.conf"];

/// A store of one arena of that size, and four buckets.
pub const ONE_ARENA: Commands = &[
    &["fmtarenas", "a.part", "a0", "139264", "131072"],
    &["fmtisect", "i.part", "i0", "92160"],
    &["fmtindex", "small.conf"],
];

/// One of one arena that has room for 124 blocks of three bytes.
pub const SMALL_ARENA: Commands = &[
    &["fmtarenas", "a.part", "a0", "40960", "32768"],
    &["fmtisect", "i.part", "i0", "92160"],
    &["fmtindex", "small.conf"],
];

/// One of two such arenas.
pub const TWO_ARENAS: Commands = &[
    &["fmtarenas", "a.part", "a0", "73728", "32768"],
    &["fmtisect", "i.part", "i0", "92160"],
    &["fmtindex", "small.conf"],
];

/// One of a large arena, and one bucket, which has room for 263 entries.
pub const ONE_BUCKET: Commands = &[
    &["fmtarenas", "a.part", "a0", "139264", "131072"],
    &["fmtisect", "i.part", "i0", "41472"],
    &["fmtindex", "small.conf"],
];

/// Where the third byte of the first block stands on the partition of arenas.
pub const THIRD_BYTE: u64 = 8_192 + 24_576 + 38 + 2;

/// The commands are done over these partitions, and it is noted whether each ends well.
pub fn make(
    rt: &impl Runtime,
    rows: &mut Rows,
    parts: &mut Partitions,
    commands: &[&[&str]],
) -> Result<(), AllocError> {
    for (number, words) in commands.iter().enumerate() {
        let ends_well = status_of(rt, parts, words)? == 0;
        rows.nth(number, "a command that makes a store", ends_well);
    }
    Ok(())
}

/// The status of this command over these partitions.
fn status_of(rt: &impl Runtime, parts: &mut Partitions, words: &[&str]) -> Result<u8, AllocError> {
    let ran = run(rt, parts, &Given::new(words, &[]))?;
    Ok(ran.status)
}

/// What the commands make.
pub fn made(
    rt: &impl Runtime,
    rows: &mut Rows,
    commands: &[&[&str]],
) -> Result<Partitions, AllocError> {
    let mut parts = Partitions::new(rt.alloc());
    make(rt, rows, &mut parts, commands)?;
    Ok(parts)
}

/// A store of the configuration `v.conf`, without blocks.
pub fn store(rt: &impl Runtime, rows: &mut Rows) -> Result<Partitions, AllocError> {
    let mut parts = made(rt, rows, PARTITIONS)?;
    make(rt, rows, &mut parts, &[INDEX])?;
    Ok(parts)
}

// ---- partitions of which calls fail

/// The partitions of a small store with a filter: the name of each, and the command that makes it.
pub const FILTERED: &[(&str, &[&str])] = &[
    ("a.part", &["fmtarenas", "a.part", "a0", "40960", "32768"]),
    ("i.part", &["fmtisect", "i.part", "i0", "41472"]),
    ("b.part", &["fmtbloom", "b.part", "8192", "8"]),
];

/// All of them but the one with this number, no call of which fails. Of each disk that is made for
/// these partitions so many calls fail, from this one on.
pub fn all_but(
    rt: &impl Runtime,
    rows: &mut Rows,
    number: usize,
    first: u64,
    span: u64,
) -> Result<Partitions, AllocError> {
    let mut parts = Partitions::failing(rt.alloc(), first, span)?;
    for (other, (name, words)) in FILTERED.iter().enumerate() {
        if other != number {
            let alone = Partitions::new(rt.alloc());
            add_made(rt, rows, &mut parts, alone, name, words)?;
        }
    }
    Ok(parts)
}

/// The partition of this name, which this command makes among others alone, is one of these.
fn add_made(
    rt: &impl Runtime,
    rows: &mut Rows,
    parts: &mut Partitions,
    mut alone: Partitions,
    name: &str,
    words: &[&str],
) -> Result<(), AllocError> {
    let status = status_of(rt, &mut alone, words)?;
    rows.is("a command that makes a partition", status == 0);
    let is_there = parts.take_from(rt.alloc(), &mut alone, name)?;
    rows.is("a partition that is made", is_there);
    Ok(())
}

/// The partitions of a small store in use, of which so many calls of the one with this number fail,
/// from this one on; if they can be made.
pub fn failing_store(
    rt: &impl Runtime,
    rows: &mut Rows,
    number: usize,
    first: u64,
    span: u64,
) -> Result<Option<Partitions>, AllocError> {
    let Some((_, words)) = FILTERED.get(number) else {
        return Ok(None);
    };
    let mut parts = all_but(rt, rows, number, first, span)?;
    if status_of(rt, &mut parts, words)? != 0 {
        return Ok(None);
    }
    if status_of(rt, &mut parts, INDEX)? != 0 {
        return Ok(None);
    }
    Ok(Some(parts))
}

// ---- the order of calls

/// The names of the partitions of a small store.
pub const NAMES: [&str; 3] = ["a.part", "i.part", "b.part"];

/// A store of one arena of 32 KiB, four buckets and a filter: what makes each of `NAMES`, in their order, and then what
/// puts the section to use.
pub const SMALL_STORE: Commands = &[
    &["fmtarenas", "a.part", "a0", "40960", "32768"],
    &["fmtisect", "i.part", "i0", "92160"],
    &["fmtbloom", "b.part", "8192", "8"],
    INDEX,
];

/// The most calls whose order is noted.
const NOTED: usize = 256;

/// In which order calls come of the partitions of a new small store and of a run over it, which ends well; and how many
/// of them make the store.
pub fn noted(
    rt: &impl Runtime,
    rows: &mut Rows,
    given: &Given<'_>,
) -> Result<(CallOrder, usize), AllocError> {
    let order = CallOrder::new(rt.alloc(), NOTED)?;
    let mut parts = Partitions::new(rt.alloc());
    for words in SMALL_STORE {
        note(rt, rows, &mut parts, &order, &Given::new(words, &[]))?;
    }
    let made = order.made();
    note(rt, rows, &mut parts, &order, given)?;
    rows.is("the order of all calls is noted", order.made() <= NOTED);
    Ok((order, made))
}

/// A run whose calls are noted ends well.
fn note(
    rt: &impl Runtime,
    rows: &mut Rows,
    parts: &mut Partitions,
    order: &CallOrder,
    given: &Given<'_>,
) -> Result<(), AllocError> {
    let ran = run_noted(rt, parts, order, given)?;
    rows.is("a run whose calls are noted", ran.status == 0);
    Ok(())
}

/// A small store. Of each of `NAMES` so many calls fail, from the one on that this list has for it: reads, writes and
/// syncs are numbered together, from the partition's first call on, which is 0.
pub fn store_failing(
    rt: &impl Runtime,
    rows: &mut Rows,
    firsts: &[u64],
    span: u64,
) -> Result<Partitions, AllocError> {
    let mut parts = Partitions::new(rt.alloc());
    for ((name, words), first) in NAMES.iter().zip(SMALL_STORE).zip(firsts) {
        let alone = Partitions::failing(rt.alloc(), *first, span)?;
        add_made(rt, rows, &mut parts, alone, name, words)?;
    }
    make(rt, rows, &mut parts, &[INDEX])?;
    Ok(parts)
}
