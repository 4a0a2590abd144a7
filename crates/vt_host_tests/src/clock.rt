//! The clock of the system, and one that stands still.

use crate::fakes::FakeClock;
use std::test::Fail;
use std::time::{Duration, SystemTime};
use vt_host::{StdClock, System};
use vt_out::Clock;
use vt_rows::Rows;

#[test]
fn a_clock_gives_the_time(rt: HostRuntime) -> Result<(), Fail> {
    let before = SystemTime::now(&rt)?;
    let seconds = before.duration_since(SystemTime::UNIX_EPOCH)?.as_secs();
    let now = u64::from(StdClock(System(rt)).now());
    let mut rows = Rows::new();
    rows.is("no time is before this one", seconds <= now);
    rows.is("a minute is not over", now <= seconds.saturating_add(60));
    rows.passes()
}

#[test]
fn a_clock_counts_seconds(rt: HostRuntime) -> Result<(), Fail> {
    let times = [
        (Some(Duration::from_millis(1_999)), 1),
        (Some(Duration::from_secs(1 << 32)), u32::MAX),
        (None, 0),
    ];
    let mut rows = Rows::new();
    for (row, (time, seconds)) in times.into_iter().enumerate() {
        rows.nth(
            row,
            "the seconds",
            StdClock(FakeClock(time)).now() == seconds,
        );
    }
    rows.passes()
}
