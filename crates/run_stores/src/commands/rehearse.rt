//! The command `rehearse SEED COUNT`: rehearses crashes of a store in memory.
// Tests: crates/run_tests_stores/src/formatting.rt.

ghost use Rattle.std.specs.Prelude.{◌≡◌, IfErr, IfOk};
ghost use Rattle.run_base.specs.Change.{sink_change};
ghost use Rattle.run_stores.specs.Rehearse.{AsksForNoRehearsal, AsksToRehearse};
ghost use Rattle.run_stores.specs.Rehearse.{DoesRehearse, check_text, summary_text};
ghost use Rattle.run_base.specs.Errors.{HasCauseIn, no_cause, with_sink};
ghost use Rattle.run_base.specs.Formatting.{Prints};

use itoa::Buffer;
use run_base::{CommandError, Shown, Unit, print};
use std::alloc::{AllocError, Global};
use vt_base::Text;
use vt_conf::parse_number;
use vt_out::Sink;
use vt_rehearse::Summary;

/// Reads the words, makes just so many rounds, which the seed draws, and prints what they came to.
pub fn rehearse<K: Sink, T: Sink + Drop>(
    alloc: Global,
    sink: &mut K,
    terminal: Option<T>,
    seed: &Text,
    count: &Text,
) -> Result<(), CommandError>
    ensures does { DoesRehearse seed.now count.now result (sink_change K.Sink sink.old sink.new) }
    ensures cause { HasCauseIn (with_sink (sink_change K.Sink sink.old sink.new) no_cause) result }
{
    let (seed, rounds) = read_words(seed, count)?;
    let mut shown = Shown::new(terminal, Unit::Rounds);
    match vt_rehearse::rehearse(alloc, &mut shown, seed, rounds) {
        Ok(summary) => print_summary(sink, &summary),
        Err(AllocError) => Err(CommandError::NoMemory),
    }
}

/// Prints the lines of a summary.
fn print_summary<K: Sink>(sink: &mut K, summary: &Summary) -> Result<(), CommandError>
    ensures { Prints (summary_text summary.now) result (sink_change K.Sink sink.old sink.new) }
{
    let mut events = Buffer::new();
    let mut writes = Buffer::new();
    let mut accepted = Buffer::new();
    let mut held = Buffer::new();
    let mut reads = Buffer::new();
    let mut found = Buffer::new();
    let mut missing = Buffer::new();
    let mut syncs = Buffer::new();
    let mut crashes = Buffer::new();
    let mut lost = Buffer::new();
    let mut blocks = Buffer::new();
    print(
        sink,
        &[
            b"events ",
            events.format(summary.events).as_bytes(),
            b"\nwrites ",
            writes.format(summary.writes).as_bytes(),
            b" accepted ",
            accepted.format(summary.accepted).as_bytes(),
            b" held ",
            held.format(summary.held).as_bytes(),
            b"\nreads ",
            reads.format(summary.reads).as_bytes(),
            b" found ",
            found.format(summary.found).as_bytes(),
            b" missing ",
            missing.format(summary.missing).as_bytes(),
            b"\nsyncs ",
            syncs.format(summary.syncs).as_bytes(),
            b"\ncrashes ",
            crashes.format(summary.crashes).as_bytes(),
            b" lost ",
            lost.format(summary.lost).as_bytes(),
            b"\nblocks ",
            blocks.format(summary.blocks).as_bytes(),
            b"\ncheck ",
            check_text(summary.ok),
            b"\n",
        ],
    )
}

/// Whether all that the store gave was right.
fn check_text(ok: bool) -> &'static [u8]
    ensures { result.now ≡ check_text ok }
{
    if ok { b"ok" } else { b"failed" }
}

/// The seed and the count that are asked for.
fn read_words(seed: &Text, count: &Text) -> Result<(u64, u32), CommandError>
    ensures good { IfOk result (λ asked. AsksToRehearse seed.now count.now asked.0 asked.1) }
    ensures bad { IfErr result (AsksForNoRehearsal seed.now count.now) }
{
    let seed = match parse_number(seed.as_slice(), 0, (1 << 63) - 1) {
        Ok(seed) => seed,
        Err(bad) => return Err(CommandError::BadNumber(bad.at as u64)),
    };
    match parse_number(count.as_slice(), 0, u64::from(u32::MAX)) {
        Ok(rounds) => Ok((seed, rounds as u32)),
        Err(bad) => Err(CommandError::BadNumber(bad.at as u64)),
    }
}
