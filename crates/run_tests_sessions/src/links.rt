//! Sessions of which a call of a stream fails: each by which bytes are taken, and each by which they are put.

use crate::session::{OVER, Over};
use std::alloc::AllocError;
use std::test::Fail;
use vt_host_memory::messages::{SCRIPT, SCRIPT_REPLIES};
use vt_host_memory::{Bits, Given, Partitions, Ran, Runtime, are_joined, run, store};
use vt_rows::Rows;

/// How many bytes come in at a time: parts of messages, more than one, and all.
const CUTS: [usize; 3] = [5, 40, 65_536];

/// More calls than a session has of a stream.
const MOST: u64 = 64;

/// Whether these bytes are a front of the parts, one behind another.
fn is_front(bytes: &[u8], parts: &[&[u8]]) -> bool {
    let mut left = bytes;
    for part in parts {
        match left.strip_prefix(*part) {
            Some(behind) => left = behind,
            None => return part.starts_with(left),
        }
    }
    left.is_empty()
}

/// What is said to the first so many bytes of `SCRIPT`: the line, and a reply to each message that is whole.
fn said_to(taken: u64) -> Bits {
    let (mut end, mut whole) = (0u64, 0usize);
    for part in SCRIPT {
        end = end.saturating_add(part.len() as u64);
        if end <= taken {
            whole = whole.saturating_add(1);
        }
    }
    SCRIPT_REPLIES.get(..whole.max(1)).unwrap_or(SCRIPT_REPLIES)
}

/// Which call of a stream fails.
#[derive(Clone, Copy)]
enum Fails {
    Take,
    Put,
}

/// Whether this is what is said where this call fails and so many bytes come in at a time: all that was taken is
/// answered, or a front of it.
fn is_right(output: &[u8], cut: usize, fails: Fails, call: u64) -> bool {
    match fails {
        Fails::Take => are_joined(output, said_to(call.saturating_mul(cut as u64))),
        Fails::Put => is_front(output, SCRIPT_REPLIES) && !are_joined(output, SCRIPT_REPLIES),
    }
}

/// The status and the line of a session of which such a call fails.
fn fault(fails: Fails) -> (u8, &'static str) {
    match fails {
        Fails::Take => (6, "venti: read fault\n"),
        Fails::Put => (7, "venti: write fault\n"),
    }
}

/// Notes whether a session ended as it has to of which this call fails, where so many bytes come in at a time.
fn see_fault(rows: &mut Rows, over: &Over, cut: usize, fails: Fails, call: u64, ran: &Ran) {
    let (_, told) = over;
    let (status, line) = fault(fails);
    let row = call as usize;
    rows.nth(row, told.status, ran.status == status);
    rows.nth(row, told.output, is_right(&ran.output, cut, fails, call));
    rows.nth(row, told.line, ran.complaint.as_slice() == line.as_bytes());
}

/// What comes in at a session in such pieces, and which of its calls fail.
fn given_for<'a>(
    words: &'a [&'a str],
    pieces: &'a [usize],
    takes: &'a [u64],
    puts: &'a [u64],
) -> Given<'a> {
    Given {
        pieces,
        failing: takes,
        failing_puts: puts,
        ..Given::new(words, SCRIPT)
    }
}

/// Runs a session of which this call fails.
fn failing(
    rt: &impl Runtime,
    parts: &mut Partitions,
    over: &Over,
    cut: usize,
    fails: Fails,
    call: u64,
) -> Result<Ran, AllocError> {
    let (words, _) = over;
    match fails {
        Fails::Take => run(rt, parts, &given_for(words, &[cut], &[call], &[])),
        Fails::Put => run(rt, parts, &given_for(words, &[cut], &[], &[call])),
    }
}

/// Whether this call comes in a session, which it fails.
fn comes(
    rt: &impl Runtime,
    rows: &mut Rows,
    parts: &mut Partitions,
    over: &Over,
    cut: usize,
    fails: Fails,
    call: u64,
) -> Result<bool, AllocError> {
    let ran = failing(rt, parts, over, cut, fails, call)?;
    if ran.status == 0 {
        let whole = are_joined(&ran.output, SCRIPT_REPLIES);
        rows.nth(call as usize, "what is said where no call fails", whole);
        return Ok(false);
    }
    see_fault(rows, over, cut, fails, call, &ran);
    Ok(true)
}

/// Each call fails in turn, until one doesn't come.
fn see_calls(
    rt: &impl Runtime,
    rows: &mut Rows,
    parts: &mut Partitions,
    over: &Over,
    cut: usize,
    fails: Fails,
) -> Result<(), AllocError> {
    for call in 0..MOST {
        if !comes(rt, rows, parts, over, cut, fails, call)? {
            rows.nth(cut, "a session has calls of a stream", call > 0);
            return Ok(());
        }
    }
    rows.nth(cut, "a session has few calls of a stream", false);
    Ok(())
}

/// Over a store of either kind.
fn see_over(
    rt: &impl Runtime,
    rows: &mut Rows,
    parts: &mut Partitions,
    cut: usize,
    fails: Fails,
) -> Result<(), AllocError> {
    for over in &OVER {
        see_calls(rt, rows, parts, over, cut, fails)?;
    }
    Ok(())
}

/// However bytes come in.
fn see_all(rt: &impl Runtime, rows: &mut Rows, fails: Fails) -> Result<(), AllocError> {
    let mut parts = store(rt, rows)?;
    for cut in CUTS {
        see_over(rt, rows, &mut parts, cut, fails)?;
    }
    Ok(())
}

#[test]
fn each_take_fails_in_turn(rt: HostRuntime) -> Result<(), Fail> {
    let mut rows = Rows::new();
    see_all(&rt, &mut rows, Fails::Take)?;
    rows.all()?;
    Ok(())
}

#[test]
fn each_put_fails_in_turn(rt: HostRuntime) -> Result<(), Fail> {
    let mut rows = Rows::new();
    see_all(&rt, &mut rows, Fails::Put)?;
    rows.all()?;
    Ok(())
}

/// What a session is given over a sink that takes twenty bytes.
fn full<'a>(words: &'a [&'a str]) -> Given<'a> {
    Given {
        room: 20,
        ..Given::new(words, SCRIPT)
    }
}

/// The sink is full in the middle of a reply.
#[test]
fn a_sink_may_have_no_room(rt: HostRuntime) -> Result<(), Fail> {
    let mut rows = Rows::new();
    let mut parts = store(&rt, &mut rows)?;
    for over in &OVER {
        let (words, _) = over;
        let ran = run(&rt, &mut parts, &full(words))?;
        see_fault(&mut rows, over, 0, Fails::Put, 0, &ran);
    }
    rows.all()?;
    Ok(())
}
