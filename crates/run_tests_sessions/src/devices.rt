//! A session during which calls of partitions fail: each alone, and those of all partitions together from each one on,
//! with a crash and a new session behind it.

use std::alloc::AllocError;
use std::test::Fail;
use vt_host_memory::messages::{
    ABSENT, GAVE_ABC, GAVE_ABD, GOODBYE, HELLO, LINE, OUR_LINE, READ_ABC, READ_ABD, SCRIPT,
    SCRIPT_REPLIES, SYNCED, WELCOME, WROTE_ABC, WROTE_ABD,
};
use vt_host_memory::{
    Bits, CallOrder, Given, NAMES, Partitions, Ran, Runtime, are_joined, noted, run, store_failing,
};
use vt_memdisk::CrashMode;
use vt_rows::Rows;

const SESSION: &[&str] = &["session", "v.conf"];

/// What is replied to a message under each tag where a call fails for it.
const FAULT_1: &[u8] = b"\x00\x0e\x01\x01\x00\x0adisk fault";

const FAULT_2: &[u8] = b"\x00\x0e\x01\x02\x00\x0adisk fault";

const FAULT_3: &[u8] = b"\x00\x0e\x01\x03\x00\x0adisk fault";

/// And where one failed before, behind which no more is written.
const STOPPED_1: &[u8] = b"\x00\x11\x01\x01\x00\x0dstore stopped";

const STOPPED_3: &[u8] = b"\x00\x11\x01\x03\x00\x0dstore stopped";

/// What may be replied to the messages of a session, to each first what is replied where no call fails.
type Replies = &'static [&'static [&'static [u8]]];

/// To those of `SCRIPT`. There is no first block only where its write was refused.
const REPLIES: Replies = &[
    &[WELCOME],
    &[WROTE_ABC, FAULT_1, STOPPED_1],
    &[WROTE_ABD, FAULT_1, STOPPED_1],
    &[SYNCED, FAULT_3, STOPPED_3],
    &[GAVE_ABC, FAULT_2, ABSENT],
];

/// The number of `ABSENT` among those to the read.
const NONE_FOUND: usize = 2;

/// What comes in behind a crash, and what may be replied to that.
const BEHIND: Bits = &[LINE, HELLO, READ_ABC, READ_ABD, GOODBYE];

const FOUND: Replies = &[&[WELCOME], &[GAVE_ABC, ABSENT], &[GAVE_ABD, ABSENT]];

/// Which of these replies comes first, by its number, and what stands behind it.
fn first_of<'a>(said: &'a [u8], replies: &[&[u8]]) -> Option<(usize, &'a [u8])> {
    for (number, reply) in replies.iter().enumerate() {
        if let Some(behind) = said.strip_prefix(*reply) {
            return Some((number, behind));
        }
    }
    None
}

/// Which of its replies each message got, by their numbers; None where one got none of them, or something stands behind
/// the last.
fn replies_in(output: &[u8], replies: Replies) -> Option<[usize; 5]> {
    let mut left = output.strip_prefix(OUR_LINE)?;
    let mut found = [0; 5];
    for (place, those) in found.iter_mut().zip(replies) {
        let (number, behind) = first_of(left, those)?;
        left = behind;
        *place = number;
    }
    if left.is_empty() { Some(found) } else { None }
}

/// What a session has accepted: the blocks whose writes were answered by their scores, and whether the sync was.
#[derive(Clone, Copy)]
struct Accepted {
    abc: bool,
    abd: bool,
    synced: bool,
}

/// Nothing, as where the store can't be opened.
const NOTHING: Accepted = Accepted {
    abc: false,
    abd: false,
    synced: false,
};

/// What a session of `SCRIPT` has accepted that said this; None where a reply is none that may stand there.
fn read_accepted(output: &[u8]) -> Option<Accepted> {
    if output.is_empty() {
        return Some(NOTHING);
    }
    let [_, abc, abd, sync, read] = replies_in(output, REPLIES)?;
    if read == NONE_FOUND && abc == 0 {
        return None;
    }
    Some(Accepted {
        abc: abc == 0,
        abd: abd == 0,
        synced: sync == 0,
    })
}

/// Whether a session ended as it has to where a call fails, or none.
fn ended(ran: &Ran, fails: bool) -> bool {
    let (status, line): (u8, &str) = if fails {
        (4, "venti: disk fault\n")
    } else {
        (0, "")
    };
    ran.status == status && ran.complaint.as_slice() == line.as_bytes()
}

/// Notes whether a session of `SCRIPT` went as it has to where a call fails, or none, and gives what it has accepted.
fn see_script(rows: &mut Rows, row: usize, ran: &Ran, fails: bool) -> Accepted {
    let all = are_joined(&ran.output, SCRIPT_REPLIES);
    let found = read_accepted(&ran.output);
    rows.nth(
        row,
        "the status, 4 just where a call fails, and the line",
        ended(ran, fails),
    );
    rows.nth(row, "what is said where no call fails", all || fails);
    rows.nth(
        row,
        "each reply, its own or one of a failed call",
        found.is_some(),
    );
    found.unwrap_or(NOTHING)
}

/// Notes whether the session behind a crash finds a beginning of what was accepted, and all of it where a sync was
/// answered.
fn see_behind(rows: &mut Rows, row: usize, accepted: &Accepted, ran: &Ran) {
    let found = replies_in(&ran.output, FOUND);
    let [_, abc, abd, _, _] = found.unwrap_or([1; 5]);
    let (abc, abd) = (abc == 0, abd == 0);
    let is_accepted = (accepted.abc || !abc) && (accepted.abd || !abd);
    let is_first = abc || !abd || !accepted.abc;
    let is_all = abc == accepted.abc && abd == accepted.abd;
    rows.nth(
        row,
        "the session behind a crash",
        ended(ran, false) && found.is_some(),
    );
    rows.nth(
        row,
        "a beginning of what was accepted is found",
        is_accepted && is_first,
    );
    rows.nth(
        row,
        "each block that was synced is found",
        is_all || !accepted.synced,
    );
}

/// The partitions are as a crash leaves them.
fn crash(
    rt: &impl Runtime,
    rows: &mut Rows,
    parts: &mut Partitions,
    mode: CrashMode,
) -> Result<(), AllocError> {
    for name in NAMES {
        let is_there = parts.crash(rt.alloc(), name, mode)?;
        rows.is("a partition that crashes", is_there);
    }
    Ok(())
}

/// Which calls of the partitions fail, and how a crash is behind that.
#[derive(Clone, Copy)]
struct Failing {
    /// Of each partition, the first one.
    firsts: [u64; 3],
    /// How many, from that on.
    span: u64,
    mode: CrashMode,
    /// Whether a session of `SCRIPT` comes to one of them.
    comes: bool,
}

/// Notes whether a session of `SCRIPT`, and the next behind a crash, go as they have to where these calls fail.
fn see_failing(
    rt: &impl Runtime,
    rows: &mut Rows,
    row: usize,
    failing: &Failing,
) -> Result<(), AllocError> {
    let mut parts = store_failing(rt, rows, &failing.firsts, failing.span)?;
    let ran = run(rt, &mut parts, &Given::new(SESSION, SCRIPT))?;
    let accepted = see_script(rows, row, &ran, failing.comes);
    crash(rt, rows, &mut parts, failing.mode)?;
    let ran = run(rt, &mut parts, &Given::new(SESSION, BEHIND))?;
    see_behind(rows, row, &accepted, &ran);
    Ok(())
}

/// In which order calls come of a new store and of a session of `SCRIPT` over it, and how many of them make the store.
fn order_of_script(rt: &impl Runtime, rows: &mut Rows) -> Result<(CallOrder, usize), AllocError> {
    noted(rt, rows, &Given::new(SESSION, SCRIPT))
}

// ---- one call

/// This call of this partition fails. Crashes take turns.
fn one_call(number: usize, call: u64, comes: bool) -> Failing {
    let mut firsts = [u64::MAX; 3];
    if let Some(first) = firsts.get_mut(number) {
        *first = call;
    }
    Failing {
        firsts,
        span: 1,
        mode: CrashMode::ALL[call as usize % 4],
        comes,
    }
}

/// Each call of this partition fails in turn, and then the first that doesn't come. The row of a call that doesn't hold
/// is its number in the session, and 100 more for each partition before.
fn see_each(
    rt: &impl Runtime,
    rows: &mut Rows,
    order: &CallOrder,
    made: usize,
    number: usize,
) -> Result<(), AllocError> {
    let (begin, end) = (order.of(number, made), order.of(number, order.made()));
    rows.nth(number, "a session has calls of each partition", begin < end);
    for call in begin..end.saturating_add(1) {
        let row = number
            .saturating_mul(100)
            .saturating_add(call.saturating_sub(begin) as usize);
        see_failing(rt, rows, row, &one_call(number, call, call < end))?;
    }
    Ok(())
}

#[test]
fn each_call_of_a_session_fails_alone(rt: HostRuntime) -> Result<(), Fail> {
    let mut rows = Rows::new();
    let (order, made) = order_of_script(&rt, &mut rows)?;
    for number in 0..3 {
        see_each(&rt, &mut rows, &order, made, number)?;
    }
    rows.all()?;
    Ok(())
}

// ---- all calls from one on

/// More calls than are made of a partition in a session.
const FROM_THEN_ON: u64 = 128;

/// All calls fail that come behind the first so many of all partitions.
fn all_calls(order: &CallOrder, first: usize, mode: CrashMode) -> Failing {
    Failing {
        firsts: [order.of(0, first), order.of(1, first), order.of(2, first)],
        span: FROM_THEN_ON,
        mode,
        comes: first < order.made(),
    }
}

/// All partitions fail from each call of a session on, and from the first on that doesn't come, with a crash in this
/// mode behind it. The row of a call that doesn't hold is its number in the session.
fn see_all(rt: &impl Runtime, rows: &mut Rows, mode: CrashMode) -> Result<(), AllocError> {
    let (order, made) = order_of_script(rt, rows)?;
    rows.is("a session has calls", made < order.made());
    for first in made..order.made().saturating_add(1) {
        let row = first.saturating_sub(made);
        see_failing(rt, rows, row, &all_calls(&order, first, mode))?;
    }
    Ok(())
}

/// What a test comes to in which all partitions fail, with a crash in this mode behind it.
fn passes(rt: &impl Runtime, mode: CrashMode) -> Result<(), Fail> {
    let mut rows = Rows::new();
    see_all(rt, &mut rows, mode)?;
    rows.all()?;
    Ok(())
}

#[test]
fn all_calls_fail_and_writes_are_lost(rt: HostRuntime) -> Result<(), Fail> {
    passes(&rt, CrashMode::Synced)
}

#[test]
fn all_calls_fail_and_writes_are_there(rt: HostRuntime) -> Result<(), Fail> {
    passes(&rt, CrashMode::Written)
}

#[test]
fn all_calls_fail_and_writes_are_torn(rt: HostRuntime) -> Result<(), Fail> {
    passes(&rt, CrashMode::EvenWritten)
}

#[test]
fn all_calls_fail_and_writes_are_garbled(rt: HostRuntime) -> Result<(), Fail> {
    passes(&rt, CrashMode::Garbled)
}
