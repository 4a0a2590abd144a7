//! The command `fmtarenas FILE NAME LENGTH ARENASIZE`: makes a file a partition of arenas.
// Tests: crates/run_tests_stores/src/formatting.rt.

ghost use Rattle.std.specs.Prelude.{IfErr, IfOk};
ghost use Rattle.run_base.specs.Change.{parts_change, sink_change};
ghost use Rattle.run_stores.specs.Fmtarenas.{AsksForArenas, AsksForNoArenas};
ghost use Rattle.run_stores.specs.Fmtarenas.{DoesFmtarenas, arenas_line};
ghost use Rattle.run_base.specs.Errors.{HasCauseIn, no_cause, with_parts, with_sink};
ghost use Rattle.run_base.specs.Formatting.{Prints};

use crate::refusal::refused;
use itoa::Buffer;
use run_base::{CommandError, print};
use std::alloc::Global;
use vt_base::Text;
use vt_format::{format_arenas, parse_arena_size, parse_len, parse_name};
use vt_out::Sink;
use vt_partitions::Parts;

/// Reads the words, makes the file a partition of this name whose arenas have no blocks, and prints
/// how many they are.
pub fn fmtarenas<P: Parts, K: Sink, T: Sink + Drop>(
    alloc: Global,
    parts: &mut P,
    sink: &mut K,
    terminal: Option<T>,
    file: Text,
    name: &Text,
    length: &Text,
    arena_size: &Text,
) -> Result<(), CommandError>
    ensures does { DoesFmtarenas P.Disk.Disk file name.now length.now arena_size.now result
        (parts_change P.Parts parts.old parts.new) (sink_change K.Sink sink.old sink.new) }
    ensures cause { HasCauseIn (with_parts P.Disk.Disk (parts_change P.Parts parts.old parts.new)
        (with_sink (sink_change K.Sink sink.old sink.new) no_cause)) result }
{
    let (len, size) = read_words(name, length, arena_size)?;
    match format_arenas(alloc, parts, &file, name, len, size) {
        Ok(count) => print_arenas(sink, name, size, count),
        Err(bad) => Err(refused(terminal, file, bad)),
    }
}

/// Prints the line of a partition of arenas.
fn print_arenas<K: Sink>(
    sink: &mut K,
    name: &Text,
    size: u64,
    count: u32,
) -> Result<(), CommandError>
    ensures { Prints (arenas_line name.now size count) result
        (sink_change K.Sink sink.old sink.new) }
{
    let mut count_digits = Buffer::new();
    let mut size_digits = Buffer::new();
    print(
        sink,
        &[
            b"fmtarenas ",
            name.as_slice(),
            b": ",
            count_digits.format(count).as_bytes(),
            b" arenas of ",
            size_digits.format(size).as_bytes(),
            b" bytes\n",
        ],
    )
}

/// The length and the size that are asked for.
fn read_words(name: &Text, length: &Text, arena_size: &Text) -> Result<(u64, u64), CommandError>
    ensures good { IfOk result (λ asked.
        AsksForArenas name.now length.now arena_size.now asked.0 asked.1) }
    ensures bad { IfErr result (AsksForNoArenas name.now length.now arena_size.now) }
{
    if let Err(bad) = parse_name(name.as_slice()) {
        return Err(CommandError::BadName(bad.at as u64));
    }
    let len = match parse_len(length.as_slice()) {
        Ok(len) => len,
        Err(bad) => return Err(CommandError::BadNumber(bad.at as u64)),
    };
    match parse_arena_size(arena_size.as_slice()) {
        Ok(size) => Ok((len, size)),
        Err(bad) => Err(CommandError::BadNumber(bad.at as u64)),
    }
}
