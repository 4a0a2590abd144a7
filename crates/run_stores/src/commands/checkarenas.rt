//! The command `checkarenas CONF`: checks the arenas of the store that a configuration names.
// Tests: crates/run_tests_stores/src/checkarenas.rt.

ghost use Rattle.std.specs.Prelude.{◌≡◌, ◌+◌, ◌++◌, ◌<◌, ◌^◌, IsTrue, OnErr, OnOk, length};
ghost use Rattle.vt_base.specs.Faults.{HasCause};
ghost use Rattle.vt_out.specs.Streams.{AppendsPrefix};
ghost use Rattle.run_base.specs.Change.{files_change, parts_change, sink_change};
ghost use Rattle.run_stores.specs.Checkarenas.{ChecksConf, DoesCheckarenas, TellsReports, arena_line, arena_lines, check_failure, first_reported_damage, damage_outcome, result_text, state_text};
ghost use Rattle.run_base.specs.Errors.{HasCauseIn, no_cause, with_files, with_parts, with_sink};

use itoa::Buffer;
use run_base::{CommandError, Shown, Unit, put_pieces, read_conf, told_on};
use std::alloc::Global;
use std::thread::Threads;
use vt_base::{Failed, Scorer, Text};
use vt_check::{ArenaReport, CheckErr, Damage};
use vt_conf::Conf;
use vt_maintain::{MaintainError, check_store};
use vt_open::configurations_can_be_opened;
use vt_out::{Files, Sink};
use vt_partitions::Parts;

/// Reads the configuration, checks the arenas of its store, and prints a line for each of them, also
/// behind a damaged one.
pub fn checkarenas<I: Files, P: Parts, K: Sink, T: Sink + Drop, S: Scorer + Sync>(
    rt: &(impl Threads + Sync),
    alloc: Global,
    files: &mut I,
    parts: &mut P,
    sink: &mut K,
    terminal: Option<T>,
    file: &Text,
    scorer: &S,
) -> Result<(), CommandError>
    ensures does { DoesCheckarenas S.score_of P.Disk.Disk file.now result
        (files_change I.Files files.old files.new) (parts_change P.Parts parts.old parts.new)
        (sink_change K.Sink sink.old sink.new) }
    ensures cause { HasCauseIn (with_files (files_change I.Files files.old files.new)
        (with_parts P.Disk.Disk (parts_change P.Parts parts.old parts.new)
        (with_sink (sink_change K.Sink sink.old sink.new) no_cause))) result }
{
    configurations_can_be_opened();
    let conf = read_conf(alloc, files, file)?;
    let mut shown = Shown::new(terminal, Unit::Arenas);
    check_conf(rt, alloc, parts, sink, &mut shown, file, scorer, &conf)
}

/// Checks the arenas of a configuration's store, and prints a line for each of them.
fn check_conf<P: Parts, K: Sink, T: Sink, S: Scorer + Sync>(
    rt: &(impl Threads + Sync),
    alloc: Global,
    parts: &mut P,
    sink: &mut K,
    shown: &mut Shown<T>,
    file: &Text,
    scorer: &S,
    conf: &Conf,
) -> Result<(), CommandError>
    requires { length conf.now.arenas.items + length conf.now.sections.items + 1 < 2 ^ 32 }
    ensures { ChecksConf S.score_of P.Disk.Disk file.now conf.now result
        (parts_change P.Parts parts.old parts.new) (sink_change K.Sink sink.old sink.new) }
{
    match check_store(rt, alloc, parts, conf, scorer, shown) {
        Ok(report) => tell(sink, &report.arenas),
        Err(MaintainError::Unopened(bad)) => Err(told_on(alloc, shown, file, conf, bad)),
        Err(MaintainError::Ended(bad)) => Err(check_failure(bad)),
    }
}

/// Prints the line of each arena, and then tells the first damage, if there is one.
fn tell<K: Sink>(sink: &mut K, reports: &[ArenaReport]) -> Result<(), CommandError>
    ensures { TellsReports reports.now result (sink_change K.Sink sink.old sink.new) }
{
    match put_reports(sink, reports) {
        Ok(()) => damage_outcome(first_reported_damage(reports)),
        Err(Failed) => Err(CommandError::WriteFault),
    }
}

/// Puts the line of each arena, until a put fails.
fn put_reports<K: Sink>(sink: &mut K, reports: &[ArenaReport]) -> Result<(), Failed>
    ensures appended { OnOk result (IsTrue K.tells → K.written sink.new
        ≡ K.written sink.old ++ arena_lines reports.now) }
    ensures failed { OnErr result (IsTrue K.tells → AppendsPrefix (K.written sink.old)
        (K.written sink.new) (arena_lines reports.now)) }
    ensures cause { HasCause result (K.faults sink.old) (K.faults sink.new) }
{
    for report in reports {
        put_report(sink, report)?;
    }
    Ok(())
}

/// Puts the line of an arena.
fn put_report<K: Sink>(sink: &mut K, report: &ArenaReport) -> Result<(), Failed>
    ensures appended { OnOk result (IsTrue K.tells → K.written sink.new
        ≡ K.written sink.old ++ arena_line report.now) }
    ensures failed { OnErr result (IsTrue K.tells → AppendsPrefix (K.written sink.old)
        (K.written sink.new) (arena_line report.now)) }
    ensures cause { HasCause result (K.faults sink.old) (K.faults sink.new) }
{
    let mut number_digits = Buffer::new();
    let mut clumps_digits = Buffer::new();
    let mut used_digits = Buffer::new();
    put_pieces(
        sink,
        &[
            b"arena ",
            number_digits.format(report.number).as_bytes(),
            b": ",
            clumps_digits.format(report.clumps).as_bytes(),
            b" clumps, ",
            used_digits.format(report.used).as_bytes(),
            b" bytes, ",
            state_text(report.sealed),
            b", ",
            result_text(&report.damage),
            b"\n",
        ],
    )
}

/// The word for an arena that takes no more blocks, and for one that does.
fn state_text(sealed: bool) -> &'static [u8]
    ensures { result.now ≡ state_text sealed }
{
    if sealed { b"sealed" } else { b"unsealed" }
}

// (defined in specs/Checkarenas.antt; tests: crates/run_tests_stores/src/checkarenas.rt)
fn result_text(damage: &Option<Damage>) -> &'static [u8]
    ensures { result.now ≡ result_text damage.now }
{
    match damage {
        Some(_) => b"damaged",
        None => b"ok",
    }
}

/// The damage of the first arena that has one.
fn first_reported_damage(reports: &[ArenaReport]) -> Option<Damage>
    ensures { result ≡ first_reported_damage reports.now }
{
    match reports {
        [report, rest @ ..] => report.damage.or(first_reported_damage(rest)),
        [] => None,
    }
}

/// How the command ends by the first damage that was found: by status 9, or by 0 where there is
/// none.
fn damage_outcome(first: Option<Damage>) -> Result<(), CommandError>
    ensures { result ≡ damage_outcome first }
{
    match first {
        Some(Damage { want, found }) => Err(CommandError::Damaged { want, found }),
        None => Ok(()),
    }
}

/// What is told of what ended the work.
fn check_failure(bad: CheckErr) -> CommandError
    ensures { result ≡ check_failure bad }
{
    match bad {
        CheckErr::Fault => CommandError::DiskFault,
        CheckErr::NoMemory => CommandError::NoMemory,
    }
}
