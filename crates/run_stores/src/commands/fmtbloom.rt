//! The command `fmtbloom FILE SIZE POSITIONS`: makes a file a Bloom filter.
// Tests: crates/run_tests_stores/src/formatting.rt.

ghost use Rattle.std.specs.Prelude.{ℕ, IfErr, IfOk};
ghost use Rattle.run_base.specs.Change.{parts_change, sink_change};
ghost use Rattle.run_stores.specs.Fmtbloom.{AsksForFilter, AsksForNoFilter};
ghost use Rattle.run_stores.specs.Fmtbloom.{DoesFmtbloom, filter_line};
ghost use Rattle.run_base.specs.Errors.{HasCauseIn, no_cause, with_parts, with_sink};
ghost use Rattle.run_base.specs.Formatting.{Prints};

use crate::refusal::refused;
use itoa::Buffer;
use run_base::{CommandError, print};
use std::alloc::Global;
use vt_base::Text;
use vt_format::{format_filter, parse_filter_size, parse_positions};
use vt_out::Sink;
use vt_partitions::Parts;

/// Reads the words, makes the file a Bloom filter of this size without a bit, and prints it.
pub fn fmtbloom<P: Parts, K: Sink, T: Sink + Drop>(
    alloc: Global,
    parts: &mut P,
    sink: &mut K,
    terminal: Option<T>,
    file: Text,
    size: &Text,
    positions: &Text,
) -> Result<(), CommandError>
    ensures does { DoesFmtbloom P.Disk.Disk file size.now positions.now result
        (parts_change P.Parts parts.old parts.new) (sink_change K.Sink sink.old sink.new) }
    ensures cause { HasCauseIn (with_parts P.Disk.Disk (parts_change P.Parts parts.old parts.new)
        (with_sink (sink_change K.Sink sink.old sink.new) no_cause)) result }
{
    let (bytes, bits) = read_words(size, positions)?;
    match format_filter(alloc, parts, &file, bytes, bits) {
        Ok(()) => print_filter(sink, bytes, bits),
        Err(bad) => Err(refused(terminal, file, bad)),
    }
}

/// Prints `fmtbloom: N bytes, N positions`.
fn print_filter<K: Sink>(sink: &mut K, bytes: u64, bits: u8) -> Result<(), CommandError>
    ensures { Prints (filter_line bytes bits) result (sink_change K.Sink sink.old sink.new) }
{
    let mut bytes_digits = Buffer::new();
    let mut bits_digits = Buffer::new();
    print(
        sink,
        &[
            b"fmtbloom: ",
            bytes_digits.format(bytes).as_bytes(),
            b" bytes, ",
            bits_digits.format(bits).as_bytes(),
            b" positions\n",
        ],
    )
}

/// The size and the count of bits that are asked for.
fn read_words(size: &Text, positions: &Text) -> Result<(u64, u8), CommandError>
    ensures good { IfOk result (λ asked.
        (m : ℕ) × AsksForFilter size.now positions.now m asked.0 asked.1) }
    ensures bad { IfErr result (AsksForNoFilter size.now positions.now) }
{
    let bytes = match parse_filter_size(size.as_slice()) {
        Ok(bytes) => bytes,
        Err(bad) => return Err(CommandError::BadNumber(bad.at as u64)),
    };
    match parse_positions(positions.as_slice()) {
        Ok(bits) => Ok((bytes, bits)),
        Err(bad) => Err(CommandError::BadNumber(bad.at as u64)),
    }
}
