//! Folders in memory that are archived at a server in memory, which says what was written down
//! before: what is printed, what goes to the fault sink, the status, and what the server heard.

use crate::items::{one, other};
use std::alloc::{AllocError, Global};
use std::test::Fail;
use vt_host_memory::messages::{OUR_LINE, WELCOME};
use vt_host_memory::{
    Bits, Given, Partitions, Ran, Runtime, Server, Told, Wanted, folder_named, joined,
    run_with_folders, told,
};
use vt_out::MemFolders;
use vt_rows::Rows;

/// Under the name `home`, a folder with nothing but an item that is no file and no folder.
fn home(alloc: Global, name: &[u8], failing: &[u64]) -> Result<MemFolders, AllocError> {
    let items = one(alloc, other(alloc, (name, 0o777, b"u"))?)?;
    folder_named(alloc, "home", items, usize::MAX, failing)
}

const VAC: &[&str] = &["vac", "tcp!localhost!venti", "home"];

/// The score of the block of the top folder's two entries, and that of the root, by SHA-1 alone.
const TOP: &[u8] =
    b"\x5f\x46\x4c\xe4\x96\xa3\x76\xde\x47\xdf\x31\xfe\xb5\xe1\x26\x87\x52\xbc\x8d\x1c";

const ROOT: &[u8] =
    b"\xbc\x01\x34\xb3\x9e\x3f\x1c\x43\x7b\xec\x79\xb6\xdc\xbf\xc5\xa2\x4a\x26\xb7\x17";

/// What is printed.
const LINE: &[u8] = b"vac:bc0134b39e3f1c437bec79b6dcbfc5a24a26b717\n";

/// What is told of an item with that name.
const SKIPPED: &[u8] = b"venti: skipped l\xff\n";

/// The words, what the server says behind its welcome, the item's name, the calls of the folder that
/// fail; the status, what is printed, and what goes to the fault sink.
type Row = (
    &'static [&'static str],
    Bits,
    &'static [u8],
    &'static [u64],
    u8,
    &'static [u8],
    &'static [u8],
);

/// What a server says that takes both blocks in, and the sync.
const TAKEN: Bits = &[
    b"\x00\x16\x0f\x01",
    TOP,
    b"\x00\x16\x0f\x02",
    ROOT,
    b"\x00\x02\x11\x03",
];

/// Each with a server and a folder of its own.
const ROWS: [Row; 9] = [
    (VAC, TAKEN, b"l\xff", &[], 0, LINE, SKIPPED),
    (
        VAC,
        &[b"\x00\x0b\x01\x01\x00\x07no room"],
        b"l",
        &[],
        11,
        b"",
        b"venti: refused: no room\n",
    ),
    (
        VAC,
        &[b"\x00\x16\x0f\x01", TOP],
        b"l",
        &[],
        11,
        b"",
        b"venti: refused: peer cut\n",
    ),
    (
        VAC,
        &[b"\x00\x16\x0f\x01", ROOT],
        b"l",
        &[],
        9,
        b"",
        b"venti: damaged: want 5f464ce496a376de47df31feb5e1268752bc8d1c, found \
        bc0134b39e3f1c437bec79b6dcbfc5a24a26b717\n",
    ),
    (
        VAC,
        &[
            b"\x00\x16\x0f\x01",
            TOP,
            b"\x00\x16\x0f\x02",
            ROOT,
            b"\x00\x0e\x01\x03\x00\x0adisk fault",
        ],
        b"l",
        &[],
        11,
        b"",
        b"venti: refused: disk fault\n",
    ),
    (VAC, TAKEN, b"l", &[0], 6, b"", b"venti: read fault\n"),
    (VAC, TAKEN, b"a/b", &[], 5, b"", b"venti: bad name at 0\n"),
    (
        &["vac", "tcp!localhost!1", "home"],
        TAKEN,
        b"l",
        &[],
        6,
        b"",
        b"venti: read fault\n",
    ),
    (
        &["vac", "-b", "511", "tcp!localhost!venti", "home"],
        TAKEN,
        b"l",
        &[],
        5,
        b"",
        b"venti: bad number at 0\n",
    ),
];

/// Runs the program with these words, what comes in, a server that says this behind its welcome, and
/// that folder.
fn run_served(
    rt: &impl Runtime,
    words: &[&str],
    input: &[u8],
    says: &[u8],
    folders: MemFolders,
) -> Result<Ran, AllocError> {
    let mut parts = Partitions::new(rt.alloc());
    let input = [input];
    let server = Server {
        says: &[OUR_LINE, WELCOME, says],
        pieces: &[1, 7],
        failing: &[],
    };
    let given = Given {
        server: Some(server),
        ..Given::new(words, &input)
    };
    run_with_folders(rt, &mut parts, folders, &given)
}

const SENDS: Told = told!("a folder that goes to a server");

/// Notes whether the run of this row is as it says.
fn see_row(rt: &impl Runtime, rows: &mut Rows, number: usize, row: &Row) -> Result<(), AllocError> {
    let (words, says, name, failing, status, output, complaint) = *row;
    let folders = home(rt.alloc(), name, failing)?;
    let says = joined(rt.alloc(), says)?;
    let ran = run_served(rt, words, b"", &says, folders)?;
    let wanted = Wanted {
        status,
        output: &[output],
        complaint,
    };
    ran.see(rows, number, &SENDS, &wanted);
    Ok(())
}

#[test]
fn a_server_may_say_anything(rt: HostRuntime) -> Result<(), Fail> {
    let mut rows = Rows::new();
    for (number, row) in ROWS.iter().enumerate() {
        see_row(&rt, &mut rows, number, row)?;
    }
    rows.all()?;
    Ok(())
}

/// How many bytes the server heard: the client's line, a hello, two blocks, a sync and a goodbye.
const HEARD: usize = 16 + 22 + (8 + 80) + (8 + 300) + 4 + 4;

#[test]
fn a_folder_goes_to_a_server(rt: HostRuntime) -> Result<(), Fail> {
    let mut rows = Rows::new();
    let folders = home(rt.alloc(), b"l", &[])?;
    let says = joined(rt.alloc(), TAKEN)?;
    let ran = run_served(&rt, VAC, b"", &says, folders)?;
    rows.is("the status", ran.status == 0);
    rows.is(
        "the length of what the server heard",
        ran.heard.len() == HEARD,
    );
    rows.all()?;
    Ok(())
}
