//! The edges of what `vacfs` shows of a folder that `vac` archived: the folder at each size of a
//! message from 256 on, offsets in it, and those in a file of two blocks.

use crate::items::{file, two};
use std::alloc::{AllocError, Global};
use std::test::Fail;
use vt_host_memory::{
    Given, ONE_ARENA, Partitions, Ran, Runtime, Talk, Told, folder_named, made, run_with_folders,
    see_talk, told,
};
use vt_out::MemFolders;
use vt_rows::Rows;

// ---- the folder

/// 8,194 bytes, of which no block of 8,192 has two equal pairs.
fn content(alloc: Global) -> Result<Vec<u8>, AllocError> {
    let mut bytes = Vec::new(alloc);
    for n in 0..4_097u16 {
        bytes.extend_from_slice(&n.to_be_bytes())?;
    }
    Ok(bytes)
}

/// Under the name `home`, the file `n` of these bytes, whose owner's name is long, and an empty one.
fn home(alloc: Global) -> Result<MemFolders, AllocError> {
    let n = file(alloc, (b"n", 0o644, OWNER), content(alloc)?)?;
    let s = file(alloc, (b"s", 0o644, b"u"), Vec::new(alloc))?;
    let items = two(alloc, s, n)?;
    folder_named(alloc, "home", items, usize::MAX, &[])
}

/// A name of 100 bytes.
const OWNER: &[u8] =
    b"uuuuuuuuuuuuuuuuuuuuuuuuuuuuuuuuuuuuuuuuuuuuuuuuuuuuuuuuuuuuuuuuuuuuuuuuuuuuuuuuuuuuuuuuuuuuuuuuuuuu";

/// What the folder tells of its files: 251 bytes of `n`, and 53 of `s`.
const FILES: &[u8] =
    b"\xf9\0\0\0\0\0\0\0\0\0\0\0\0\x01\0\0\0\0\0\0\0\xa4\x01\0\0\x07\0\0\0\x07\0\0\0\x02 \0\0\0\0\0\0\x01\0nd\0uuuuuuuuuuuuuuuuuuuuuuuuuuuuuuuuuuuuuuuuuuuuuuuuuuuuuuuuuuuuuuuuuuuuuuuuuuuuuuuuuuuuuuuuuuuuuuuuuuuu\x01\0gd\0uuuuuuuuuuuuuuuuuuuuuuuuuuuuuuuuuuuuuuuuuuuuuuuuuuuuuuuuuuuuuuuuuuuuuuuuuuuuuuuuuuuuuuuuuuuuuuuuuuuu3\0\0\0\0\0\0\0\0\0\0\0\0\x02\0\0\0\0\0\0\0\xa4\x01\0\0\x07\0\0\0\x07\0\0\0\0\0\0\0\0\0\0\0\x01\0s\x01\0u\x01\0g\x01\0u";

// ---- messages

/// A version of this type of message, with messages of so many bytes at most.
fn version(kind: u8, most: u32) -> [u8; 19] {
    let mut message = *b"\x13\0\0\0d\xff\xff\0\0\0\0\x06\09P2000";
    message[4] = kind;
    message[7..11].copy_from_slice(&most.to_le_bytes());
    message
}

/// The top folder gets fid 1; the reply to that; and it is opened.
const ATTACH: &[u8] = b"\x13\0\0\0h\x01\0\x01\0\0\0\xff\xff\xff\xff\0\0\0\0";

const ATTACHED: &[u8] = b"\x14\0\0\0i\x01\0\x80\0\0\0\0\0\0\0\0\0\0\0\0";

const OPEN: &[u8] = b"\x0c\0\0\0p\x01\0\x01\0\0\0\0";

/// The folder is open, for so many bytes a message.
fn opened(most: u32) -> [u8; 24] {
    let mut message = *b"\x18\0\0\0q\x01\0\x80\0\0\0\0\0\0\0\0\0\0\0\0\0\0\0\0";
    message[20..].copy_from_slice(&most.saturating_sub(24).to_le_bytes());
    message
}

/// A read of this fid behind so many bytes.
fn read(fid: u8, from: u64, count: u32) -> [u8; 23] {
    let mut message = *b"\x17\0\0\0t\x01\0\0\0\0\0\0\0\0\0\0\0\0\0\0\0\0\0";
    message[7] = fid;
    message[11..19].copy_from_slice(&from.to_le_bytes());
    message[19..].copy_from_slice(&count.to_le_bytes());
    message
}

/// What stands in front of so many bytes that were read.
fn head(len: u32) -> [u8; 11] {
    let mut message = *b"\0\0\0\0u\x01\0\0\0\0\0";
    message[..4].copy_from_slice(&len.saturating_add(11).to_le_bytes());
    message[7..].copy_from_slice(&len.to_le_bytes());
    message
}

/// What is said to a read that has no room for a file, and to one that begins where none may.
const TOO_SMALL: &[u8] = b"\x18\0\0\0k\x01\0\x0f\0count too small";

const BAD_OFFSET: &[u8] = b"\x13\0\0\0k\x01\0\x0a\0bad offset";

/// What a read of the folder gives: its bytes from one place to another, or a refusal.
#[derive(Clone, Copy, Drop)]
enum Gives {
    /// The bytes of `FILES` from this place to that one.
    Files(usize, usize),
    /// It has no room for the next file.
    TooSmall,
    /// It begins neither at the start nor where the last one ended.
    BadOffset,
}

/// These bytes are read.
fn say_read(talk: &mut Talk, asked: &[u8], bytes: &[u8]) -> Result<(), AllocError> {
    let len = u32::try_from(bytes.len()).unwrap_or(0);
    talk.say(&[asked], &[&head(len), bytes])
}

/// A new connection, in which the folder is open.
fn begin(talk: &mut Talk, most: u32) -> Result<(), AllocError> {
    talk.say(
        &[&version(b'd', most), ATTACH, OPEN],
        &[&version(b'e', most), ATTACHED, &opened(most)],
    )
}

/// The folder is read from this place on: either these bytes of it, or what is said.
fn say_folder(talk: &mut Talk, from: u64, count: u32, gives: Gives) -> Result<(), AllocError> {
    let asked = read(1, from, count);
    match gives {
        Gives::Files(first, last) => {
            say_read(talk, &asked, FILES.get(first..last).unwrap_or(&[]))
        }
        Gives::TooSmall => talk.say(&[&asked], &[TOO_SMALL]),
        Gives::BadOffset => talk.say(&[&asked], &[BAD_OFFSET]),
    }
}

// ---- what is said

/// Where messages have at most so many bytes: the first read, and one behind the first file.
fn at_most(most: u32) -> (Gives, Gives) {
    match most {
        0..=274 => (Gives::TooSmall, Gives::BadOffset),
        275..=327 => (Gives::Files(0, 251), Gives::Files(251, 304)),
        _ => (Gives::Files(0, 304), Gives::BadOffset),
    }
}

/// The folder at each size of a message.
fn sizes(alloc: Global) -> Result<Talk, AllocError> {
    let mut talk = Talk::new(alloc);
    for most in 256..=340u32 {
        let (first, second) = at_most(most);
        begin(&mut talk, most)?;
        say_folder(&mut talk, 0, 8_192, first)?;
        say_folder(&mut talk, 251, 8_192, second)?;
    }
    Ok(talk)
}

/// From where the folder is read, how many bytes are asked for, and what comes: but its start, only the
/// end of the last read goes.
const OFFSETS: &[(u64, u32, Gives)] = &[
    (251, 8_192, Gives::BadOffset),
    (0, 250, Gives::TooSmall),
    (0, 251, Gives::Files(0, 251)),
    (250, 8_192, Gives::BadOffset),
    (252, 8_192, Gives::BadOffset),
    (304, 8_192, Gives::BadOffset),
    (251, 52, Gives::TooSmall),
    (251, 53, Gives::Files(251, 304)),
    (303, 8_192, Gives::BadOffset),
    (305, 8_192, Gives::BadOffset),
    (304, 8_192, Gives::Files(304, 304)),
    (u64::MAX, 8_192, Gives::BadOffset),
    (0, 303, Gives::Files(0, 251)),
    (0, 304, Gives::Files(0, 304)),
    (251, 8_192, Gives::BadOffset),
];

/// What a client says that reads the folder at each of `OFFSETS`.
fn offsets(alloc: Global) -> Result<Talk, AllocError> {
    let mut talk = Talk::new(alloc);
    begin(&mut talk, 8_192)?;
    for &(from, count, gives) in OFFSETS {
        say_folder(&mut talk, from, count, gives)?;
    }
    Ok(talk)
}

/// The file is walked to, isn't opened to be written, and is opened.
const FILE: &[(&[u8], &[u8])] = &[
    (
        b"\x14\0\0\0n\x01\0\x01\0\0\0\x02\0\0\0\x01\0\x01\0n",
        b"\x16\0\0\0o\x01\0\x01\0\0\0\0\0\0\x01\0\0\0\0\0\0\0",
    ),
    (
        b"\x0c\0\0\0p\x01\0\x02\0\0\0\x01",
        b"\x1e\0\0\0k\x01\0\x15\0read-only file system",
    ),
    (
        b"\x0c\0\0\0p\x01\0\x02\0\0\0\x02",
        b"\x1e\0\0\0k\x01\0\x15\0read-only file system",
    ),
    (
        b"\x0c\0\0\0p\x01\0\x02\0\0\0\x10",
        b"\x1e\0\0\0k\x01\0\x15\0read-only file system",
    ),
    (
        b"\x0c\0\0\0p\x01\0\x02\0\0\0\0",
        b"\x18\0\0\0q\x01\0\0\0\0\0\0\x01\0\0\0\0\0\0\0\xe8\x1f\0\0",
    ),
];

/// Reads of the file: from where, of how many bytes, and which of its bytes these are.
const PARTS: &[(u64, u32, usize, usize)] = &[
    (0, 0, 0, 0),
    (0, 1, 0, 1),
    (0, 8_192, 0, 8_168),
    (25, 8_168, 25, 8_193),
    (26, 8_168, 26, 8_194),
    (27, 8_168, 27, 8_194),
    (8_191, 1, 8_191, 8_192),
    (8_191, 2, 8_191, 8_193),
    (8_191, 8_192, 8_191, 8_194),
    (8_192, 1, 8_192, 8_193),
    (8_192, 3, 8_192, 8_194),
    (8_193, 1, 8_193, 8_194),
    (8_194, 1, 0, 0),
    (8_195, 1, 0, 0),
    (4_294_967_296, 8_192, 0, 0),
    (u64::MAX, 8_192, 0, 0),
];

/// What a client says that reads each of `PARTS` of the file `n`.
fn parts_of_file(alloc: Global) -> Result<Talk, AllocError> {
    let content = content(alloc)?;
    let mut talk = Talk::new(alloc);
    talk.say(
        &[&version(b'd', 8_192), ATTACH],
        &[&version(b'e', 8_192), ATTACHED],
    )?;
    for (asked, replied) in FILE {
        talk.say(&[asked], &[replied])?;
    }
    say_parts(&mut talk, &content)?;
    Ok(talk)
}

/// Each of `PARTS` is read, of this content.
fn say_parts(talk: &mut Talk, content: &[u8]) -> Result<(), AllocError> {
    for &(from, count, first, last) in PARTS {
        let part = content.get(first..last).unwrap_or(&[]);
        say_read(talk, &read(2, from, count), part)?;
    }
    Ok(())
}

// ---- it is said

/// The folder is archived.
fn archive(rt: &impl Runtime, rows: &mut Rows, parts: &mut Partitions) -> Result<Ran, AllocError> {
    let folders = home(rt.alloc())?;
    let words = ["vac", "small.conf", "home"];
    let ran = run_with_folders(rt, parts, folders, &Given::new(&words, &[]))?;
    rows.is("the folder is archived", ran.status == 0);
    Ok(ran)
}

const SHOWS: Told = told!("an archive that is shown");

/// Notes whether the archive is shown so. What it is found by has 44 bytes.
fn see_shown(rt: &impl Runtime, rows: &mut Rows, talk: &Talk) -> Result<(), AllocError> {
    let mut parts = made(rt, rows, ONE_ARENA)?;
    let archived = archive(rt, rows, &mut parts)?;
    let line = archived.output.get(..44).unwrap_or(&[]);
    let score = str::from_utf8(line).unwrap_or("");
    let words = ["vacfs", "small.conf", score];
    see_talk(rt, rows, &mut parts, &SHOWS, 0, &words, talk)
}

#[test]
fn a_folder_is_read_at_each_size_of_a_message(rt: HostRuntime) -> Result<(), Fail> {
    let mut rows = Rows::new();
    let talk = sizes(rt.alloc())?;
    see_shown(&rt, &mut rows, &talk)?;
    rows.all()?;
    Ok(())
}

#[test]
fn a_folder_has_offsets(rt: HostRuntime) -> Result<(), Fail> {
    let mut rows = Rows::new();
    let talk = offsets(rt.alloc())?;
    see_shown(&rt, &mut rows, &talk)?;
    rows.all()?;
    Ok(())
}

#[test]
fn a_file_is_read_at_its_edges(rt: HostRuntime) -> Result<(), Fail> {
    let mut rows = Rows::new();
    let talk = parts_of_file(rt.alloc())?;
    see_shown(&rt, &mut rows, &talk)?;
    rows.all()?;
    Ok(())
}
