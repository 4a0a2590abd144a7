//! Commands that format, and the rehearsal: words, what is printed, the status and the line on the
//! fault sink.

use std::alloc::AllocError;
use std::test::Fail;
use vt_host_memory::{
    FILTERED, Given, INDEX, Partitions, Ran, Row, Runtime, Told, Wanted, all_but, run, see_rows,
    told,
};
use vt_rows::Rows;

/// Each over what those before it left.
const ROWS: &[Row] = &[
    // What is made.
    (
        &["fmtarenas", "a.part", "a0", "40960", "32768"],
        &[],
        0,
        &[b"fmtarenas a0: 1 arenas of 32768 bytes\n"],
        "",
    ),
    (
        &["fmtisect", "i.part", "i0", "92160"],
        &[],
        0,
        &[b"fmtisect i0: 4 buckets\n"],
        "",
    ),
    (
        &["fmtbloom", "b.part", "8192", "8"],
        &[],
        0,
        &[b"fmtbloom: 8192 bytes, 8 positions\n"],
        "",
    ),
    // What is there isn't made shorter, and is grown where it is.
    (
        &["fmtarenas", "a.part", "a.-_1", "0", "32768"],
        &[],
        0,
        &[b"fmtarenas a.-_1: 1 arenas of 32768 bytes\n"],
        "",
    ),
    (
        &["fmtisect", "i.part", "i1", "41472"],
        &[],
        0,
        &[b"fmtisect i1: 4 buckets\n"],
        "",
    ),
    (
        &["fmtbloom", "b.part", "16384", "32"],
        &[],
        0,
        &[b"fmtbloom: 16384 bytes, 32 positions\n"],
        "",
    ),
    // What is refused: the first word in order, and then the file.
    (
        &["fmtbloom", "b.part", "8192", "8"],
        &[],
        3,
        &[],
        "venti: b.part: m is 16, want 17\n",
    ),
    (
        &["fmtisect", "j.part", "i0", "41471"],
        &[],
        3,
        &[],
        "venti: j.part: too small: 41471, need 41472\n",
    ),
    (
        &["fmtarenas", "c.part", "a0", "40959", "32768"],
        &[],
        3,
        &[],
        "venti: c.part: too small: 40959, need 40960\n",
    ),
    (
        &["fmtarenas", "a.part", "a0", "40960", "40000"],
        &[],
        5,
        &[],
        "venti: bad number at 0\n",
    ),
    (
        &["fmtarenas", "a.part", "a0", "4096k", "32768"],
        &[],
        5,
        &[],
        "venti: bad number at 4\n",
    ),
    (
        &["fmtarenas", "a.part", "a/0", "x", "y"],
        &[],
        5,
        &[],
        "venti: bad name at 1\n",
    ),
    (
        &["fmtarenas", "a.part", "", "40960", "32768"],
        &[],
        5,
        &[],
        "venti: bad name at 0\n",
    ),
    (
        &[
            "fmtarenas",
            "a.part",
            "a234567890123456789012345678901234567890123456789012345678901234567",
            "40960",
            "32768",
        ],
        &[],
        5,
        &[],
        "venti: bad name at 64\n",
    ),
    (
        &["fmtisect", "i.part", "caf\u{e9}", "92160"],
        &[],
        5,
        &[],
        "venti: bad name at 3\n",
    ),
    (
        &["fmtisect", "i.part", "i0", "01"],
        &[],
        5,
        &[],
        "venti: bad number at 1\n",
    ),
    (
        &["fmtisect", "i.part", "i0", "1099511627777"],
        &[],
        5,
        &[],
        "venti: bad number at 0\n",
    ),
    (
        &["fmtbloom", "b.part", "16385", "0"],
        &[],
        5,
        &[],
        "venti: bad number at 0\n",
    ),
    (
        &["fmtbloom", "b.part", "16384", "33"],
        &[],
        5,
        &[],
        "venti: bad number at 0\n",
    ),
    (
        &["fmtbloom", "b.part", "16384", "3x"],
        &[],
        5,
        &[],
        "venti: bad number at 1\n",
    ),
    // Rehearsals.
    (
        &["rehearse", "1", "0"],
        &[],
        0,
        &[
            b"events 0\nwrites 0 accepted 0 held 0\nreads 0 found 0 missing 0\n",
            b"syncs 0\ncrashes 0 lost 0\nblocks 0\ncheck ok\n",
        ],
        "",
    ),
    (
        &["rehearse", "1", "1"],
        &[],
        0,
        &[
            b"events 1\nwrites 0 accepted 0 held 0\nreads 1 found 0 missing 1\n",
            b"syncs 0\ncrashes 0 lost 0\nblocks 0\ncheck ok\n",
        ],
        "",
    ),
    (
        &["rehearse", "0", "1"],
        &[],
        0,
        &[
            b"events 0\nwrites 0 accepted 0 held 0\nreads 0 found 0 missing 0\n",
            b"syncs 0\ncrashes 1 lost 0\nblocks 0\ncheck ok\n",
        ],
        "",
    ),
    (
        &["rehearse", "2", "1"],
        &[],
        0,
        &[
            b"events 1\nwrites 0 accepted 0 held 0\nreads 0 found 0 missing 0\n",
            b"syncs 0\ncrashes 0 lost 0\nblocks 0\ncheck ok\n",
        ],
        "",
    ),
    // A block is written, and lost in a crash; another is written twice, and read; a third one is
    // written and synced, which takes six device calls, and read behind a crash.
    (
        &["rehearse", "15", "2"],
        &[],
        0,
        &[
            b"events 1\nwrites 1 accepted 1 held 0\nreads 0 found 0 missing 0\n",
            b"syncs 0\ncrashes 1 lost 1\nblocks 0\ncheck ok\n",
        ],
        "",
    ),
    (
        &["rehearse", "328907", "3"],
        &[],
        0,
        &[
            b"events 3\nwrites 2 accepted 1 held 1\nreads 1 found 1 missing 0\n",
            b"syncs 0\ncrashes 0 lost 0\nblocks 1\ncheck ok\n",
        ],
        "",
    ),
    (
        &["rehearse", "17104", "4"],
        &[],
        0,
        &[
            b"events 10\nwrites 1 accepted 1 held 0\nreads 1 found 1 missing 0\n",
            b"syncs 1\ncrashes 1 lost 0\nblocks 1\ncheck ok\n",
        ],
        "",
    ),
    (
        &["rehearse", "9223372036854775807", "0"],
        &[],
        0,
        &[
            b"events 0\nwrites 0 accepted 0 held 0\nreads 0 found 0 missing 0\n",
            b"syncs 0\ncrashes 0 lost 0\nblocks 0\ncheck ok\n",
        ],
        "",
    ),
    (
        &["rehearse", "9223372036854775808", "0"],
        &[],
        5,
        &[],
        "venti: bad number at 0\n",
    ),
    (
        &["rehearse", "1", "4294967296"],
        &[],
        5,
        &[],
        "venti: bad number at 0\n",
    ),
    (
        &["rehearse", "1x", "y"],
        &[],
        5,
        &[],
        "venti: bad number at 1\n",
    ),
    // What is no command.
    (
        &["fmtbloom", "b.part", "16384"],
        &[],
        1,
        &[],
        "venti: bad command line\n",
    ),
    (
        &["fmtisect", "i.part", "i0", "92160", "0"],
        &[],
        1,
        &[],
        "venti: bad command line\n",
    ),
    (&["fmtindex"], &[], 1, &[], "venti: bad command line\n"),
    // What an index is made of, and why it isn't.
    (
        &["fmtindex", "v.conf"],
        &[],
        0,
        &[b"fmtindex main: 4 buckets in 1 sections\n"],
        "",
    ),
    (&["fmtindex", "x.conf"], &[], 6, &[], "venti: read fault\n"),
    (
        &["fmtindex", "size.conf"],
        &[],
        2,
        &[],
        "venti: config line 4: bad size\n",
    ),
    (
        &["fmtindex", "empty.conf"],
        &[],
        2,
        &[],
        "venti: config line 0: no arenas\n",
    ),
    (
        &["fmtindex", "none.conf"],
        &[],
        4,
        &[],
        "venti: disk fault\n",
    ),
    (
        &["fmtindex", "other.conf"],
        &[],
        3,
        &[],
        "venti: b.part: not formatted\n",
    ),
    (
        &["fmtarenas", "c.part", "a.-_1", "40960", "32768"],
        &[],
        0,
        &[b"fmtarenas a.-_1: 1 arenas of 32768 bytes\n"],
        "",
    ),
    (
        &["fmtindex", "twice.conf"],
        &[],
        3,
        &[],
        "venti: c.part: name is that of a.part\n",
    ),
    // What was handed out, and isn't back.
    (
        &["fmtisect", "lent.part", "i0", "92160"],
        &[],
        4,
        &[],
        "venti: disk fault\n",
    ),
];

const FORMATS: Told = told!("a command that formats, or rehearses");

/// The rows are as they say, where a partition was handed out and isn't back.
#[test]
fn files_are_formatted(rt: HostRuntime) -> Result<(), Fail> {
    let mut rows = Rows::new();
    let mut parts = Partitions::new(rt.alloc());
    let is_lent = parts.lend(rt.alloc(), "lent.part", 8192)?;
    rows.is("a partition is handed out", is_lent);
    see_rows(&rt, &mut rows, &mut parts, &FORMATS, ROWS)?;
    rows.all()?;
    Ok(())
}

const TOO_LONG: Told = told!("a configuration that is too long");

/// A file of this name and this content.
fn file<'a>(name: &'a str, content: &'a [u8]) -> (&'a str, &'a [u8]) {
    (name, content)
}

/// What a command is given whose configuration this is.
fn with_long<'a>(content: &'a [u8]) -> Given<'a> {
    Given {
        file: Some(file("long.conf", content)),
        ..Given::new(&["fmtindex", "long.conf"], &[])
    }
}

/// A configuration has one byte more than it may have.
#[test]
fn a_configuration_may_be_too_long(rt: HostRuntime) -> Result<(), Fail> {
    let mut rows = Rows::new();
    let long = vec![in rt.alloc(); b'#'; 65_537]?;
    let wanted = Wanted {
        status: 2,
        output: &[],
        complaint: b"venti: config line 0: too long\n",
    };
    let ran = run(&rt, &mut Partitions::new(rt.alloc()), &with_long(&long))?;
    ran.see(&mut rows, 0, &TOO_LONG, &wanted);
    rows.all()?;
    Ok(())
}

const FULL_SINK: Told = told!("a sink that is full");

/// The sink takes ten bytes, and the file is formatted.
#[test]
fn a_sink_may_be_full(rt: HostRuntime) -> Result<(), Fail> {
    let mut rows = Rows::new();
    let given = Given {
        room: 10,
        ..Given::new(&["fmtisect", "i.part", "i0", "92160"], &[])
    };
    let wanted = Wanted {
        status: 7,
        output: &[b"fmtisect i"],
        complaint: b"venti: write fault\n",
    };
    let ran = run(&rt, &mut Partitions::new(rt.alloc()), &given)?;
    ran.see(&mut rows, 0, &FULL_SINK, &wanted);
    rows.all()?;
    Ok(())
}

/// Runs the program with these words.
fn run_words(rt: &impl Runtime, parts: &mut Partitions, words: &[&str]) -> Result<Ran, AllocError> {
    run(rt, parts, &Given::new(words, &[]))
}

/// What is said where a call of the command that makes a partition fails: `w` that the partition
/// was made; else what `at_stop` says.
fn letter(
    rt: &impl Runtime,
    rows: &mut Rows,
    number: usize,
    words: &[&str],
    call: usize,
) -> Result<u8, AllocError> {
    let mut parts = all_but(rt, rows, number, call as u64, 1)?;
    let ran = run_words(rt, &mut parts, words)?;
    if ran.status == 0 {
        return Ok(b'w');
    }
    ran.see(rows, call, &STOPPED, &FAULT);
    let said = at_stop(rt, &mut parts)?;
    let again = run_words(rt, &mut parts, words)?;
    rows.nth(call, "a command that is done again", again.status == 0);
    Ok(said)
}

const STOPPED: Told = told!("a command of which a call fails");

/// How a command ends of which a call fails.
const FAULT: Wanted<'static> = Wanted {
    status: 4,
    output: &[],
    complaint: b"venti: disk fault\n",
};

/// What `fmtindex` says of partitions at one of which a command stopped: `n` that the file isn't
/// formatted, or `f` that the index is. Done again, the command ends well.
fn at_stop(rt: &impl Runtime, parts: &mut Partitions) -> Result<u8, AllocError> {
    let ran = run(rt, parts, &Given::new(INDEX, &[]))?;
    Ok(if ran.complaint.ends_with(b": not formatted\n") {
        b'n'
    } else if ran.status == 0 {
        b'f'
    } else {
        b'?'
    })
}

/// For each call at which the command stops its letter (see `letter`), `w` where it makes no such call;
/// and what a wrong one is told by. Behind its last write a file is formatted, also where the sync
/// fails that follows, or a read.
const LETTERS: [(&[u8], &str); 3] = [
    (b"nnnnffw", "what is said of a file of arenas"),
    (b"nffw", "what is said of a section"),
    (b"nffw", "what is said of a filter"),
];

/// Where each call of the command that makes this partition fails, in turn, this is said.
fn see_letters(
    rt: &impl Runtime,
    rows: &mut Rows,
    number: usize,
    letters: &(&[u8], &'static str),
    words: &[&str],
) -> Result<(), AllocError> {
    let (wanted, what) = *letters;
    for (call, wanted) in wanted.iter().enumerate() {
        let found = letter(rt, rows, number, words, call)?;
        rows.nth(call, what, found == *wanted);
    }
    Ok(())
}

#[test]
fn a_file_is_formatted_by_its_last_write(rt: HostRuntime) -> Result<(), Fail> {
    let mut rows = Rows::new();
    for (number, (letters, (_, words))) in LETTERS.iter().zip(FILTERED.iter()).enumerate() {
        see_letters(&rt, &mut rows, number, letters, words)?;
    }
    rows.all()?;
    Ok(())
}
