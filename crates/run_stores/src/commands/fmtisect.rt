//! The command `fmtisect FILE NAME LENGTH`: makes a file an index section.
// Tests: crates/run_tests_stores/src/formatting.rt.

ghost use Rattle.std.specs.Prelude.{IfErr, IfOk};
ghost use Rattle.run_base.specs.Change.{parts_change, sink_change};
ghost use Rattle.run_stores.specs.Fmtisect.{AsksForSection, AsksForNoSection};
ghost use Rattle.run_stores.specs.Fmtisect.{DoesFmtisect, section_line};
ghost use Rattle.run_base.specs.Errors.{HasCauseIn, no_cause, with_parts, with_sink};
ghost use Rattle.run_base.specs.Formatting.{Prints};

use crate::refusal::refused;
use itoa::Buffer;
use run_base::{CommandError, print};
use std::alloc::Global;
use vt_base::Text;
use vt_format::{format_section, parse_len, parse_name};
use vt_out::Sink;
use vt_partitions::Parts;

/// Reads the words, makes the file an index section of this name that isn't in use yet, and prints
/// how many buckets it has.
pub fn fmtisect<P: Parts, K: Sink, T: Sink + Drop>(
    alloc: Global,
    parts: &mut P,
    sink: &mut K,
    terminal: Option<T>,
    file: Text,
    name: &Text,
    length: &Text,
) -> Result<(), CommandError>
    ensures does { DoesFmtisect P.Disk.Disk file name.now length.now result
        (parts_change P.Parts parts.old parts.new) (sink_change K.Sink sink.old sink.new) }
    ensures cause { HasCauseIn (with_parts P.Disk.Disk (parts_change P.Parts parts.old parts.new)
        (with_sink (sink_change K.Sink sink.old sink.new) no_cause)) result }
{
    let len = read_words(name, length)?;
    match format_section(alloc, parts, &file, name, len) {
        Ok(count) => print_section(sink, name, count),
        Err(bad) => Err(refused(terminal, file, bad)),
    }
}

/// Prints the line of a section.
fn print_section<K: Sink>(sink: &mut K, name: &Text, count: u32) -> Result<(), CommandError>
    ensures { Prints (section_line name.now count) result (sink_change K.Sink sink.old sink.new) }
{
    let mut digits = Buffer::new();
    print(
        sink,
        &[
            b"fmtisect ",
            name.as_slice(),
            b": ",
            digits.format(count).as_bytes(),
            b" buckets\n",
        ],
    )
}

/// The length that is asked for.
fn read_words(name: &Text, length: &Text) -> Result<u64, CommandError>
    ensures good { IfOk result (AsksForSection name.now length.now) }
    ensures bad { IfErr result (AsksForNoSection name.now length.now) }
{
    if let Err(bad) = parse_name(name.as_slice()) {
        return Err(CommandError::BadName(bad.at as u64));
    }
    match parse_len(length.as_slice()) {
        Ok(len) => Ok(len),
        Err(bad) => Err(CommandError::BadNumber(bad.at as u64)),
    }
}
