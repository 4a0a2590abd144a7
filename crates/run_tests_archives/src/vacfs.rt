//! An archive that is shown over the partitions of a configuration, or over a server: what its client
//! says, the status, what goes out, and the line on the fault sink.

use std::alloc::AllocError;
use std::test::Fail;
use vt_host_memory::messages::{OUR_LINE, WELCOME};
use vt_host_memory::{
    Act, Bits, Given, INDEX, PARTITIONS, Partitions, Row, Runtime, Server, THIRD_BYTE, Told,
    Wanted, do_acts, failing_store, joined, run, see_rows, told,
};
use vt_rows::Rows;

/// The blocks of an archive of one file, `f` of three bytes, by another encoder: what its folder's
/// two streams have, and that which names these; but its root.
const ENTRIES: &[u8] = b"\0\0\0\0\x1f\xf4 \0\x01\0\0\0\0\0\0\0\0\0\0\x03\
    \xa9\x99>6G\x06\x81j\xba>%qxP\xc2l\x9c\xd0\xd8\x9d";

const METADATA: &[u8] = b"\0\x01f\0\0\0\0\0\0\0\x01\xa4\0\0\0\x05\0\0\0\0\0\0\0\x01\0\x01u\0\x01g";

const STREAMS: &[u8] = b"\0\0\0\0\x1f\xf4\x1f\xe0\x03\0\0\0\0\0\0\0\0\0\0(\
    \xd2yoW_q\xea\xf6N\x06\x95\xbe\x0b\xddFR&\x0a\xce\xe8\
    \0\0\0\0\x1f\xf4 \0\x01\0\0\0\0\0\0\0\0\0\0\x1e\
    \x01\xe46\x11\xc6]\xe6\xdb8O\x13\xa03<77\x84\x9f\xa0s";

/// What stands in a root before the score of that block, and behind it; and that score.
const FRONT: &[u8] = b"\0\x02vac";

const KIND: &[u8] = b"rvac";

const BACK: &[u8] = b"\x20\0\xda9\xa3\xee^kK\x0d2U\xbf\xef\x95`\x18\x90\xaf\xd8\x07\x09";

const TOP: &[u8] = b"\xf2{\xbd_\x97\xe7\x01\xc5\xf0\x0cC\x1b8k\x05\xf2HO\xa2\xf7";

/// The score of its root.
const ROOT: &str = "348aa344b4a7d960b705153bae2d9f3b99aefb51";

/// The bytes of its file are written, and then the rest of it.
const FILE: &[Row] = &[(
    &["write", "v.conf", "13"],
    &[b"abc"],
    0,
    &[b"a9993e364706816aba3e25717850c26c9cd0d89d\n"],
    "",
)];

const FOLDER: &[Row] = &[
    (
        &["write", "v.conf", "2"],
        &[ENTRIES],
        0,
        &[b"d2796f575f71eaf64e0695be0bdd4652260acee8\n"],
        "",
    ),
    (
        &["write", "v.conf", "13"],
        &[METADATA],
        0,
        &[b"01e43611c65de6db384f13a0333c3737849fa073\n"],
        "",
    ),
    (
        &["write", "v.conf", "2"],
        &[STREAMS],
        0,
        &[b"f27bbd5f97e701c5f00c431b386b05f2484fa2f7\n"],
        "",
    ),
    (
        &["write", "v.conf", "1"],
        &[FRONT, &[0; 125], KIND, &[0; 124], TOP, BACK],
        0,
        &[b"348aa344b4a7d960b705153bae2d9f3b99aefb51\n"],
        "",
    ),
];

/// The same folder, where the file's name is a slash: other metadata, what names it, and the root. The entries are
/// those of `FOLDER`, which is written before.
const FLAWED_FOLDER: &[Row] = &[
    (
        &["write", "v.conf", "13"],
        &[b"\0\x01/\0\0\0\0\0\0\0\x01\xa4\0\0\0\x05\0\0\0\0\0\0\0\x01\0\x01u\0\x01g"],
        0,
        &[b"a73fc62311d8481cdba00f21af089ce7cc7678f3\n"],
        "",
    ),
    (
        &["write", "v.conf", "2"],
        &[
            b"\0\0\0\0\x1f\xf4\x1f\xe0\x03\0\0\0\0\0\0\0\0\0\0(\
            \xd2yoW_q\xea\xf6N\x06\x95\xbe\x0b\xddFR&\x0a\xce\xe8\
            \0\0\0\0\x1f\xf4 \0\x01\0\0\0\0\0\0\0\0\0\0\x1e\
            \xa7?\xc6#\x11\xd8H\x1c\xdb\xa0\x0f!\xaf\x08\x9c\xe7\xccvx\xf3",
        ],
        0,
        &[b"984995c94cec3328b9cd07eaa0219250e91ca9b0\n"],
        "",
    ),
    (
        &["write", "v.conf", "1"],
        &[
            FRONT,
            &[0; 125],
            KIND,
            &[0; 124],
            b"\x98I\x95\xc9L\xec3(\xb9\xcd\x07\xea\xa0!\x92P\xe9\x1c\xa9\xb0",
            BACK,
        ],
        0,
        &[b"550ff7727427716e42cfd07dd6cf2d8f34409986\n"],
        "",
    ),
];

/// The score of the flawed archive's root.
const FLAWED_ROOT: &str = "550ff7727427716e42cfd07dd6cf2d8f34409986";

/// What a client asks: a version, the top folder, a walk to `f`, to open it, its bytes, and to be done.
const ASKED: &[u8] =
    b"\x13\0\0\0d\xff\xff\0 \0\0\x06\09P2000\x13\0\0\0h\x01\0\x01\0\0\0\xff\xff\xff\xff\0\0\0\
    \0\x14\0\0\0n\x02\0\x01\0\0\0\x02\0\0\0\x01\0\x01\0f\x0c\0\0\0p\x03\0\x02\0\0\0\0\x17\0\0\
    \0t\x04\0\x02\0\0\0\0\0\0\0\0\0\0\0d\0\0\0\x0b\0\0\0x\x05\0\x02\0\0\0";

/// All of it is told.
const REPLIED: &[u8] =
    b"\x13\0\0\0e\xff\xff\0 \0\0\x06\09P2000\x14\0\0\0i\x01\0\x80\0\0\0\0\0\0\0\0\0\0\0\0\x16\
    \0\0\0o\x02\0\x01\0\0\0\0\0\0\x01\0\0\0\0\0\0\0\x18\0\0\0q\x03\0\0\0\0\0\0\x01\0\0\0\0\0\0\
    \0\xe8\x1f\0\0\x0e\0\0\0u\x04\0\x03\0\0\0abc\x07\0\0\0y\x05\0";

/// The bytes are found to be damaged.
const SPOILT: &[u8] =
    b"\x13\0\0\0e\xff\xff\0 \0\0\x06\09P2000\x14\0\0\0i\x01\0\x80\0\0\0\0\0\0\0\0\0\0\0\0\
    \x16\0\0\0o\x02\0\x01\0\0\0\0\0\0\x01\0\0\0\0\0\0\0\x18\0\0\0q\x03\0\0\0\0\0\0\x01\0\0\0\
    \0\0\0\0\xe8\x1f\0\0\x16\0\0\0k\x04\0\x0d\0block damaged\x07\0\0\0y\x05\0";

/// There are no such bytes.
const LOST: &[u8] =
    b"\x13\0\0\0e\xff\xff\0 \0\0\x06\09P2000\x14\0\0\0i\x01\0\x80\0\0\0\0\0\0\0\0\0\0\0\0\
    \x16\0\0\0o\x02\0\x01\0\0\0\0\0\0\x01\0\0\0\0\0\0\0\x18\0\0\0q\x03\0\0\0\0\0\0\x01\0\0\0\
    \0\0\0\0\xe8\x1f\0\0\x16\0\0\0k\x04\0\x0d\0no such block\x07\0\0\0y\x05\0";

/// The call that asks for the bytes fails.
const UNASKED: &[u8] =
    b"\x13\0\0\0e\xff\xff\0 \0\0\x06\09P2000\x14\0\0\0i\x01\0\x80\0\0\0\0\0\0\0\0\0\0\0\0\
    \x16\0\0\0o\x02\0\x01\0\0\0\0\0\0\x01\0\0\0\0\0\0\0\x18\0\0\0q\x03\0\0\0\0\0\0\x01\0\0\0\
    \0\0\0\0\xe8\x1f\0\0\x13\0\0\0k\x04\0\x0a\0disk fault\x07\0\0\0y\x05\0";

/// The server says no more.
const CUT: &[u8] =
    b"\x13\0\0\0e\xff\xff\0 \0\0\x06\09P2000\x14\0\0\0i\x01\0\x80\0\0\0\0\0\0\0\0\0\0\0\0\
    \x16\0\0\0o\x02\0\x01\0\0\0\0\0\0\x01\0\0\0\0\0\0\0\x18\0\0\0q\x03\0\0\0\0\0\0\x01\0\0\0\
    \0\0\0\0\xe8\x1f\0\0\x11\0\0\0k\x04\0\x08\0peer cut\x07\0\0\0y\x05\0";

/// The names in the top folder can't be told.
const NAMELESS: &[u8] =
    b"\x13\0\0\0e\xff\xff\0 \0\0\x06\09P2000\x14\0\0\0i\x01\0\x80\0\0\0\0\0\0\0\0\0\0\0\0\
    \x14\0\0\0k\x02\0\x0b\0bad archive\x14\0\0\0k\x03\0\x0b\0unknown fid\x14\0\0\0k\x04\0\
    \x0b\0unknown fid\x14\0\0\0k\x05\0\x0b\0unknown fid";

/// What goes to the fault sink where `abd` stands in place of the file's `abc`.
const WRONG: &str = "venti: damaged: want a9993e364706816aba3e25717850c26c9cd0d89d, found \
cb4cc28df0fdbe0ecf9d9662e294b118092a5735\n";

const VACFS: &[&str] = &["vacfs", "v.conf", ROOT];

/// What a client says over the archive, and what it is told; and inputs that end it.
const SHOWN: &[Row] = &[
    (VACFS, &[ASKED], 0, &[REPLIED], ""),
    (VACFS, &[], 0, &[], ""),
    (VACFS, &[b"\x13\0"], 5, &[], "venti: cut at 2\n"),
    (VACFS, &[b"\x06\0\0\0"], 5, &[], "venti: malformed at 0\n"),
    (
        &["vacfs", "v.conf", "abc"],
        &[ASKED],
        5,
        &[],
        "venti: bad score at 3\n",
    ),
    (
        &["vacfs", "x.conf", ROOT],
        &[ASKED],
        6,
        &[],
        "venti: read fault\n",
    ),
    (
        &["vacfs", "none.conf", ROOT],
        &[ASKED],
        4,
        &[],
        "venti: disk fault\n",
    ),
    (
        &[
            "vacfs",
            "v.conf",
            "a9993e364706816aba3e25717850c26c9cd0d89d",
        ],
        &[ASKED],
        11,
        &[],
        "venti: refused: no such block\n",
    ),
    (
        &[
            "vacfs",
            "v.conf",
            "da39a3ee5e6b4b0d3255bfef95601890afd80709",
        ],
        &[ASKED],
        5,
        &[],
        "venti: bad archive at 0\n",
    ),
    (
        &["vacfs", ":memory:", ROOT],
        &[ASKED],
        11,
        &[],
        "venti: refused: no such block\n",
    ),
    (
        &[
            "vacfs",
            ":memory:",
            "da39a3ee5e6b4b0d3255bfef95601890afd80709",
        ],
        &[ASKED],
        5,
        &[],
        "venti: bad archive at 0\n",
    ),
    (
        &["vacfs", "tcp!*!venti", ROOT],
        &[ASKED],
        6,
        &[],
        "venti: read fault\n",
    ),
];

/// The bytes of `f` are damaged.
const DAMAGED: &[Row] = &[(VACFS, &[ASKED], 9, &[SPOILT], WRONG)];

/// They aren't in the store.
const ABSENT: &[Row] = &[(
    VACFS,
    &[ASKED],
    11,
    &[LOST],
    "venti: refused: no such block\n",
)];

/// The file's name is a slash.
const FLAWED: &[Row] = &[(
    &["vacfs", "v.conf", FLAWED_ROOT],
    &[ASKED],
    5,
    &[NAMELESS],
    "venti: bad archive at 2\n",
)];

/// An archive that is shown, and then has a block that is damaged.
const ARCHIVE: &[Act] = &[
    Act::Make(PARTITIONS),
    Act::Make(&[INDEX]),
    Act::See(told!("the bytes of a file"), FILE),
    Act::See(told!("the blocks of a folder"), FOLDER),
    Act::See(told!("an archive that is shown"), SHOWN),
    Act::Spoil("a.part", THIRD_BYTE, b"d"),
    Act::See(told!("an archive that is damaged"), DAMAGED),
];

#[test]
fn an_archive_is_shown_and_damaged(rt: HostRuntime) -> Result<(), Fail> {
    let mut rows = Rows::new();
    do_acts(&rt, &mut rows, ARCHIVE)?;
    rows.all()?;
    Ok(())
}

/// An archive without the bytes of its file, beside one of which the names can't be told.
const LACKING: &[Act] = &[
    Act::Make(PARTITIONS),
    Act::Make(&[INDEX]),
    Act::See(told!("the blocks of a folder"), FOLDER),
    Act::See(told!("a file without its bytes"), ABSENT),
    Act::See(told!("the blocks of a folder with a flaw"), FLAWED_FOLDER),
    Act::See(told!("names that can't be told"), FLAWED),
];

#[test]
fn an_archive_may_lack_blocks_and_names(rt: HostRuntime) -> Result<(), Fail> {
    let mut rows = Rows::new();
    do_acts(&rt, &mut rows, LACKING)?;
    rows.all()?;
    Ok(())
}

/// The call of the partition of arenas that reads the bytes of `f`, behind those that make it and
/// write the archive.
const FAILING: u64 = 68;

/// It fails.
const FAULTY: &[Row] = &[(VACFS, &[ASKED], 4, &[UNASKED], "venti: disk fault\n")];

const WRITES: Told = told!("the blocks of an archive");

const FAILS: Told = told!("a call that fails");

/// The archive is written to this store, and that call fails.
fn see_faulty(
    rt: &impl Runtime,
    rows: &mut Rows,
    parts: &mut Partitions,
) -> Result<(), AllocError> {
    see_rows(rt, rows, parts, &WRITES, FILE)?;
    see_rows(rt, rows, parts, &WRITES, FOLDER)?;
    see_rows(rt, rows, parts, &FAILS, FAULTY)
}

#[test]
fn a_call_may_fail_while_an_archive_is_shown(rt: HostRuntime) -> Result<(), Fail> {
    let mut rows = Rows::new();
    match failing_store(&rt, &mut rows, 0, FAILING, 1)? {
        Some(mut parts) => see_faulty(&rt, &mut rows, &mut parts)?,
        None => rows.is("a store is made", false),
    }
    rows.all()?;
    Ok(())
}

// ---- over a server

/// What a server says that has all of the archive but the bytes of `f`, and then the next one, where
/// those are asked for.
const SAYS: Bits = &[
    OUR_LINE,
    WELCOME,
    b"\x01\x2e\x0d\x01",
    FRONT,
    &[0; 125],
    KIND,
    &[0; 124],
    TOP,
    BACK,
    b"\x00\x52\x0d\x02",
    STREAMS,
    b"\x00\x20\x0d\x03",
    METADATA,
    b"\x00\x2a\x0d\x04",
    ENTRIES,
];

/// What the server says last, and the calls that fail; the status, what goes out, and the line.
type Served = (
    &'static [u8],
    &'static [u64],
    u8,
    &'static [u8],
    &'static str,
);

/// The server's line is taken by 16 calls, and each of its messages by two.
const SERVED: [Served; 5] = [
    (b"\x00\x05\x0d\x05abc", &[], 0, REPLIED, ""),
    (b"\x00\x05\x0d\x05abd", &[], 9, SPOILT, WRONG),
    (
        b"\x00\x11\x01\x05\x00\x0dno such block",
        &[],
        11,
        LOST,
        "venti: refused: no such block\n",
    ),
    (b"", &[], 11, CUT, "venti: refused: peer cut\n"),
    (
        b"\x00\x05\x0d\x05abc",
        &[26],
        6,
        UNASKED,
        "venti: read fault\n",
    ),
];

const SERVES: Told = told!("an archive of a server");

/// Notes whether the archive of a server is shown as this row says.
fn see_served(
    rt: &impl Runtime,
    rows: &mut Rows,
    number: usize,
    row: &Served,
) -> Result<(), AllocError> {
    let (last, failing, status, replied, line) = *row;
    let before = joined(rt.alloc(), SAYS)?;
    let mut parts = Partitions::new(rt.alloc());
    let server = Server {
        says: &[&before, last],
        pieces: &[],
        failing,
    };
    let given = Given {
        server: Some(server),
        ..Given::new(&["vacfs", "tcp!localhost!venti", ROOT], &[ASKED])
    };
    let ran = run(rt, &mut parts, &given)?;
    let wanted = Wanted {
        status,
        output: &[replied],
        complaint: line.as_bytes(),
    };
    ran.see(rows, number, &SERVES, &wanted);
    Ok(())
}

#[test]
fn an_archive_of_a_server_is_shown(rt: HostRuntime) -> Result<(), Fail> {
    let mut rows = Rows::new();
    for (number, row) in SERVED.iter().enumerate() {
        see_served(&rt, &mut rows, number, row)?;
    }
    rows.all()?;
    Ok(())
}
