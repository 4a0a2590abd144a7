//! Blocks that go to a server in memory, which says what was written down before, and come back; and
//! those of the store in memory.

use std::alloc::AllocError;
use std::test::Fail;
use vt_host_memory::messages::{OUR_LINE, WELCOME, WROTE_ABC};
use vt_host_memory::{Given, Partitions, Ran, Runtime, Server, Told, Wanted, run, told};
use vt_rows::Rows;

/// The words, what comes in, what the server says behind its welcome, the status, what goes out, and
/// the line on the fault sink.
type Row = (
    &'static [&'static str],
    &'static [u8],
    &'static [u8],
    u8,
    &'static [u8],
    &'static str,
);

/// The score of `abc`, and that as a line.
const A: &str = "a9993e364706816aba3e25717850c26c9cd0d89d";

const LINE: &[u8] = b"a9993e364706816aba3e25717850c26c9cd0d89d\n";

const READ: &[&str] = &["read", "tcp!localhost!17034", A, "13"];

const WRITE: &[&str] = &["write", "tcp!localhost!venti", "13"];

/// Each with a server of its own.
const ROWS: [Row; 14] = [
    (READ, b"", b"\x00\x05\x0d\x01abc", 0, b"abc", ""),
    (
        READ,
        b"",
        b"\x00\x11\x01\x01\x00\x0dno such block",
        11,
        b"",
        "venti: refused: no such block\n",
    ),
    (
        READ,
        b"",
        b"\x00\x05\x0d\x01abd",
        9,
        b"",
        "venti: damaged: want a9993e364706816aba3e25717850c26c9cd0d89d, found \
        cb4cc28df0fdbe0ecf9d9662e294b118092a5735\n",
    ),
    (
        READ,
        b"",
        b"\x00\x05\x0d\x02abc",
        11,
        b"",
        "venti: refused: bad reply\n",
    ),
    (
        READ,
        b"",
        b"\x00\x05\x0d\x01ab",
        11,
        b"",
        "venti: refused: peer cut\n",
    ),
    (
        WRITE,
        b"abc",
        b"\x00\x02\x11\x02",
        11,
        b"",
        "venti: refused: bad reply\n",
    ),
    (
        WRITE,
        b"abd",
        WROTE_ABC,
        9,
        b"",
        "venti: damaged: want \
        cb4cc28df0fdbe0ecf9d9662e294b118092a5735, found \
        a9993e364706816aba3e25717850c26c9cd0d89d\n",
    ),
    (
        WRITE,
        b"abc",
        WROTE_ABC,
        11,
        b"",
        "venti: refused: peer cut\n",
    ),
    (
        &["read", "tcp!*!17034", A, "13"],
        b"",
        b"",
        6,
        b"",
        "venti: read fault\n",
    ),
    (
        &["write", "tcp!localhost!1", "13"],
        b"abc",
        b"",
        6,
        b"",
        "venti: read fault\n",
    ),
    (
        &["read", "tcp!localhost!65536", A, "13"],
        b"",
        b"",
        6,
        b"",
        "venti: read fault\n",
    ),
    (
        &["read", ":memory:", A, "13"],
        b"",
        b"",
        11,
        b"",
        "venti: refused: no such block\n",
    ),
    (&["write", ":memory:", "13"], b"abc", b"", 0, LINE, ""),
    (
        &["write", ":memory:", "14"],
        b"abc",
        b"",
        11,
        b"",
        "venti: refused: bad type\n",
    ),
];

const SERVED: Told = told!("a block, or what is said instead");

/// Runs the program with these words, what comes in, and a server that says this behind its welcome.
fn run_served(
    rt: &impl Runtime,
    words: &[&str],
    input: &[u8],
    says: &[u8],
) -> Result<Ran, AllocError> {
    let mut parts = Partitions::new(rt.alloc());
    let input = [input];
    let server = Server {
        says: &[OUR_LINE, WELCOME, says],
        pieces: &[1, 7],
        failing: &[],
    };
    let given = Given {
        server: Some(server),
        ..Given::new(words, &input)
    };
    run(rt, &mut parts, &given)
}

/// Notes whether the run of this row is as it says.
fn see_row(rt: &impl Runtime, rows: &mut Rows, number: usize, row: &Row) -> Result<(), AllocError> {
    let (words, input, says, status, output, complaint) = *row;
    let ran = run_served(rt, words, input, says)?;
    let wanted = Wanted {
        status,
        output: &[output],
        complaint: complaint.as_bytes(),
    };
    ran.see(rows, number, &SERVED, &wanted);
    Ok(())
}

#[test]
fn a_server_may_say_anything(rt: HostRuntime) -> Result<(), Fail> {
    let mut rows = Rows::new();
    for (number, row) in ROWS.iter().enumerate() {
        see_row(&rt, &mut rows, number, row)?;
    }
    rows.all()?;
    Ok(())
}

/// What the server says where it takes the block in and syncs.
const TAKEN: &[u8] = b"\x00\x16\x0f\x01\
\xa9\x99\x3e\x36\x47\x06\x81\x6a\xba\x3e\x25\x71\x78\x50\xc2\x6c\x9c\xd0\xd8\x9d\
\x00\x02\x11\x02";

/// All that the server heard of a write: the client's line, a hello, the block, a sync and a goodbye.
const HEARD: &[u8] = b"venti-02-rattle\n\
\x00\x14\x04\x00\x00\x0202\x00\x09anonymous\x00\x00\x00\
\x00\x09\x0e\x01\x0d\x00\x00\x00abc\x00\x02\x10\x02\x00\x02\x06\x03";

#[test]
fn a_block_goes_to_a_server(rt: HostRuntime) -> Result<(), Fail> {
    let mut rows = Rows::new();
    let ran = run_served(&rt, WRITE, b"abc", TAKEN)?;
    rows.is("the status", ran.status == 0);
    rows.is("the score that is printed", ran.output.as_slice() == LINE);
    rows.is("the line on the fault sink", ran.complaint.is_empty());
    rows.is("what the server heard", ran.heard.as_slice() == HEARD);
    rows.all()?;
    Ok(())
}
