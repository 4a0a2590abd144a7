//! Rows and causes of configurations, words and rooms.

use std::alloc::{AllocError, Global};
use std::test::Fail;
use vt_conf::{
    Conf, ConfBad, ConfCause, ConfErr, PartFile, cached_blocks, conf_text, entry_room,
    parse_address, parse_conf, parse_number, parse_size,
};
use vt_rows::Rows;

/// A configuration that isn't read.
fn unread() -> Rows {
    let mut rows = Rows::new();
    rows.is("it is read", false);
    rows
}

/// A file's name and line.
fn file(files: &[PartFile], i: usize) -> Option<(&[u8], usize)> {
    files.get(i).map(|file| (file.name.as_slice(), file.line))
}

/// Whether a configuration says what its lines and the defaults say.
fn short_rows(conf: &Conf) -> Rows {
    let mut rows = Rows::new();
    rows.is(
        "the index's name",
        conf.index.as_slice() == b"main".as_slice(),
    );
    rows.is("how many files of arenas", conf.arenas.len() == 1);
    rows.is("how many files of sections", conf.sections.len() == 1);
    rows.is(
        "the file of arenas",
        file(&conf.arenas, 0) == Some((b"a.part".as_slice(), 2)),
    );
    rows.is(
        "the section's file",
        file(&conf.sections, 0) == Some((b"i.part".as_slice(), 3)),
    );
    rows.is(
        "the caches' sizes",
        (conf.mem, conf.icmem) == (1_048_576, 1_048_576),
    );
    rows.is("no filter", conf.filter.is_none());
    rows.is("every host", conf.addr.host.is_none());
    rows.is("the port", conf.addr.port == 17_034);
    rows
}

/// Four lines; all else is by default.
const SHORT: &[u8] = b"index main\narenas a.part\nisect i.part\nmem 1m\n";

/// The stated configuration, with defaults.
#[test]
fn a_configuration_is_read(rt: HostRuntime) -> Result<(), Fail> {
    let rows = match parse_conf(rt.alloc(), SHORT) {
        Ok(conf) => short_rows(&conf),
        Err(_) => unread(),
    };
    rows.passes()
}

/// The sizes of the caches, of blocks and of index entries, if the text is a configuration.
fn cache_sizes(alloc: Global, text: &[u8]) -> Option<(u64, u64)> {
    match parse_conf(alloc, text) {
        Ok(conf) => Some((conf.mem, conf.icmem)),
        Err(_) => None,
    }
}

#[test]
fn caches_have_sizes_without_lines(rt: HostRuntime) -> Result<(), Fail> {
    let sizes = cache_sizes(rt.alloc(), b"arenas a\nisect i\n");
    let mut rows = Rows::new();
    rows.is("64 MiB and 1 MiB", sizes == Some((67_108_864, 1_048_576)));
    rows.passes()
}

/// Whether a configuration says what each of its lines says.
fn long_rows(conf: &Conf) -> Rows {
    let filter = match &conf.filter {
        Some(file) => Some((file.name.as_slice(), file.line)),
        None => None,
    };
    let host = match &conf.addr.host {
        Some(host) => Some(host.as_slice()),
        None => None,
    };
    let mut rows = Rows::new();
    rows.is(
        "the first section's file",
        file(&conf.sections, 0) == Some((b"i1".as_slice(), 3)),
    );
    rows.is(
        "the next section's file",
        file(&conf.sections, 1) == Some((b"i0".as_slice(), 4)),
    );
    rows.is("the filter's file", filter == Some((b"b#b".as_slice(), 6)));
    rows.is(
        "the caches' sizes",
        (conf.mem, conf.icmem) == (4 << 30, 3_072),
    );
    rows.is("the host", host == Some(b"h".as_slice()));
    rows.is("the port", conf.addr.port == 80);
    rows
}

/// With comments, blanks and a tab, two sections, and no newline at its end.
const LONG: &[u8] = b"# all\n\n\tisect  i1 # one\nisect i0\narenas a0\nbloom b#b\nqueuewrites\n\
    webroot /w\nhttpaddr x\nbcmem 2K\nicmem 3k\nmem 4G\naddr tcp!h!80";

/// The stated configuration, with comments and blanks.
#[test]
fn a_configuration_with_comments_is_read(rt: HostRuntime) -> Result<(), Fail> {
    let rows = match parse_conf(rt.alloc(), LONG) {
        Ok(conf) => long_rows(&conf),
        Err(_) => unread(),
    };
    rows.passes()
}

/// Why a configuration is refused, if it is.
fn refusal(alloc: Global, text: &[u8]) -> Option<ConfErr> {
    match parse_conf(alloc, text) {
        Ok(_) => None,
        Err(why) => Some(why),
    }
}

/// Whether a configuration is refused for this.
fn is_refused(alloc: Global, text: &[u8], line: usize, why: ConfCause) -> bool {
    refusal(alloc, text) == Some(ConfErr::Bad(ConfBad { line, why }))
}

/// Each cause at its line, in the order of testing.
const CAUSES: [(&[u8], usize, ConfCause); 31] = [
    (b"", 0, ConfCause::NoArenas),
    (b"# none\n \t\n", 0, ConfCause::NoArenas),
    (b"isect i\n", 0, ConfCause::NoArenas),
    (b"arenas a", 0, ConfCause::NoSections),
    (b"nonsense\n\n\xff", 3, ConfCause::NotUtf8),
    (b"\xc3\n\xa9", 1, ConfCause::NotUtf8),
    (b"\xff\r\n", 1, ConfCause::NotUtf8),
    (b"arenas a\r\nisect i\r\n", 1, ConfCause::CarriageReturn),
    (b"nonsense\n\r\n\xff", 2, ConfCause::CarriageReturn),
    (b"arenas a\nisect i # s\r", 2, ConfCause::CarriageReturn),
    (
        b"index main\narenas a.part\nisect i.part\nmem 1x\n",
        4,
        ConfCause::BadSize,
    ),
    (b"index a b\narena a", 1, ConfCause::ExtraValue),
    (b"arenas a\nArenas b", 2, ConfCause::UnknownName),
    (b"\narenas\t# a", 2, ConfCause::MissingValue),
    (b"mem", 1, ConfCause::MissingValue),
    (b"queuewrites 1", 1, ConfCause::ExtraValue),
    (b"mem 1 2", 1, ConfCause::ExtraValue),
    (b"mem 1kk", 1, ConfCause::BadSize),
    (b"icmem k", 1, ConfCause::BadSize),
    (b"bcmem -1", 1, ConfCause::BadSize),
    (b"mem 9223372036854775808", 1, ConfCause::BadSize),
    (b"mem 8589934592g", 1, ConfCause::BadSize),
    (b"addr localhost", 1, ConfCause::BadAddress),
    (b"addr tcp!h!0", 1, ConfCause::BadAddress),
    (b"addr tcp!h!65536", 1, ConfCause::BadAddress),
    (b"index a\narenas a\nindex a", 3, ConfCause::Repeated),
    (b"queuewrites\nqueuewrites", 2, ConfCause::Repeated),
    (b"mem 1\nmem 1x", 2, ConfCause::BadSize),
    (b"bloom b\nbloom b", 2, ConfCause::Repeated),
    (b"webroot a\rb\r c", 1, ConfCause::ExtraValue),
    (
        b"index ma\rin\narenas a\nisect i\nmem 1\r",
        4,
        ConfCause::CarriageReturn,
    ),
];

/// A row that doesn't hold is told by its cause.
#[test]
fn a_configuration_is_refused(rt: HostRuntime) -> Result<(), Fail> {
    let mut rows = Rows::new();
    for (row, (text, line, why)) in CAUSES.iter().enumerate() {
        rows.nth(
            row,
            conf_text(why),
            is_refused(rt.alloc(), text, *line, *why),
        );
    }
    rows.passes()
}

/// The lines of 64 files of each kind, then spaces up to so many bytes, and then this end.
fn many_files(alloc: Global, len: usize, end: &[u8]) -> Result<Vec<u8>, AllocError> {
    let mut text = Vec::new(alloc);
    for _ in 0..63 {
        text.extend_from_slice(b"arenas a\nisect i\n")?;
    }
    text.extend_from_slice(b"arenas a\nisect i")?;
    for _ in text.len()..len {
        text.push(b' ')?;
    }
    text.extend_from_slice(end)?;
    Ok(text)
}

/// The same is read.
fn are_read(alloc: Global, len: usize, end: &[u8]) -> Result<bool, AllocError> {
    let text = many_files(alloc, len, end)?;
    Ok(refusal(alloc, &text) == None)
}

/// The same is refused for this.
fn are_refused(
    alloc: Global,
    len: usize,
    end: &[u8],
    line: usize,
    why: ConfCause,
) -> Result<bool, AllocError> {
    let text = many_files(alloc, len, end)?;
    Ok(is_refused(alloc, &text, line, why))
}

/// A configuration names 64 files of each kind, and has 65,536 bytes, and no more of them.
#[test]
fn a_configuration_has_limits(rt: HostRuntime) -> Result<(), Fail> {
    let alloc = rt.alloc();
    let files = are_read(alloc, 0, b"\n")?;
    let more = are_refused(alloc, 0, b"\nisect i", 129, ConfCause::TooMany)?;
    let full = are_read(alloc, 65_536, b"")?;
    let over = are_refused(alloc, 65_536, b"\n", 0, ConfCause::TooLong)?;
    let mut rows = Rows::new();
    rows.is("64 files of each kind", files);
    rows.is("one file more", more);
    rows.is("65,536 bytes", full);
    rows.is("one byte more", over);
    rows.passes()
}

/// The number that a text says, or the place of the byte that can't stand there.
fn read_number(text: &[u8]) -> Result<u64, usize> {
    match parse_number(text, 32_768, 1 << 30) {
        Ok(number) => Ok(number),
        Err(bad) => Err(bad.at),
    }
}

/// A word, and the number that it says, from 32,768 to 2^30; or the place of its first wrong byte.
const NUMBERS: [(&[u8], Result<u64, usize>); 12] = [
    (b"32768", Ok(32_768)),
    (b"40000", Ok(40_000)),
    (b"32767", Err(0)),
    (b"1073741825", Err(0)),
    (b"", Err(0)),
    (b"x", Err(0)),
    (b"4096x", Err(4)),
    (b"8k", Err(1)),
    (b"+40000", Err(0)),
    (b"040000", Err(1)),
    (b"99999999999999999999", Err(0)),
    (b"40000 ", Err(5)),
];

#[test]
fn numbers_are_read() -> Result<(), Fail> {
    let mut rows = Rows::new();
    for (row, (text, number)) in NUMBERS.iter().enumerate() {
        rows.nth(row, "the number", read_number(text) == *number);
    }
    rows.passes()
}

/// A word, and how many bytes it says; None where it is no size.
const SIZES: [(&[u8], Option<u64>); 10] = [
    (b"0", Some(0)),
    (b"512", Some(512)),
    (b"1k", Some(1_024)),
    (b"2M", Some(2 << 20)),
    (b"3g", Some(3 << 30)),
    (b"8589934591G", Some(8_589_934_591 << 30)),
    (b"", None),
    (b"m", None),
    (b"1mk", None),
    (b"01", None),
];

#[test]
fn sizes_are_read() -> Result<(), Fail> {
    let mut rows = Rows::new();
    for (row, (text, size)) in SIZES.iter().enumerate() {
        rows.nth(row, "the size", parse_size(text) == *size);
    }
    rows.passes()
}

/// The port of the address that a text says, if it says one.
fn port(alloc: Global, text: &[u8]) -> Result<Option<u16>, AllocError> {
    match parse_address(alloc, text)? {
        Some(address) => Ok(Some(address.port)),
        None => Ok(None),
    }
}

/// A word, and the port of the address that it is; None where it is none.
const ADDRESSES: [(&[u8], Option<u16>); 9] = [
    (b"tcp!*!venti", Some(17_034)),
    (b"tcp!localhost!17034", Some(17_034)),
    (b"tcp!::1!65535", Some(65_535)),
    (b"tcp!!venti", None),
    (b"tcp!h", None),
    (b"tcp!h!", None),
    (b"tcp!h!1!2", None),
    (b"udp!h!1", None),
    (b":memory:", None),
];

#[test]
fn addresses_are_read(rt: HostRuntime) -> Result<(), Fail> {
    let alloc = rt.alloc();
    let mut rows = Rows::new();
    for (row, (text, wanted)) in ADDRESSES.iter().enumerate() {
        rows.nth(row, "the address's port", port(alloc, text) == Ok(*wanted));
    }
    rows.passes()
}

/// The room for blocks, where there are sections.
fn room_for_blocks(mem: u64, sections: u32) -> Option<u32> {
    if sections == 0 {
        return None;
    }
    Some(cached_blocks(mem, sections))
}

/// How many bytes `mem` gives, over how many sections, and for how many blocks that is room in a shard.
const BLOCKS: [(u64, u32, u32); 7] = [
    (0, 1, 4),
    (4 * 57_344, 1, 4),
    (5 * 57_344, 1, 5),
    (65_536 * 57_344, 1, 65_536),
    (u64::MAX, 64, 65_536),
    (1 << 20, 1, 18),
    (1 << 20, 2, 9),
];

/// The edges of how many blocks a shard keeps in memory.
#[test]
fn rooms_for_blocks() -> Result<(), Fail> {
    let mut rows = Rows::new();
    for (row, (mem, sections, room)) in BLOCKS.iter().enumerate() {
        let found = room_for_blocks(*mem, *sections);
        rows.nth(row, "the room for blocks", found == Some(*room));
    }
    rows.passes()
}

/// The room for entries, where there are sections.
fn room_for_entries(icmem: u64, sections: u32) -> Option<u32> {
    if sections == 0 {
        return None;
    }
    Some(entry_room(icmem, sections))
}

/// How many bytes `icmem` gives, over how many sections, and for how many entries that is room in a shard.
const ENTRIES: [(u64, u32, u32); 6] = [
    (0, 1, 64),
    (64 * 65, 1, 65),
    (1 << 20, 1, 16_384),
    (1 << 20, 64, 256),
    (1 << 26, 1, 1 << 20),
    (u64::MAX, 1, 1 << 20),
];

/// The edges of how many entries a shard keeps in memory.
#[test]
fn rooms_for_entries() -> Result<(), Fail> {
    let mut rows = Rows::new();
    for (row, (icmem, sections, room)) in ENTRIES.iter().enumerate() {
        let found = room_for_entries(*icmem, *sections);
        rows.nth(row, "the room for entries", found == Some(*room));
    }
    rows.passes()
}
