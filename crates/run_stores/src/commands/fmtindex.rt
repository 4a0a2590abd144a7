//! The command `fmtindex CONF`: puts the sections that a configuration names to use as an index.
// Tests: crates/run_tests_stores/src/formatting.rt.

ghost use Rattle.std.specs.Prelude.{◌<◌, ◌^◌, length};
ghost use Rattle.vt_format.specs.Index.{files_in_order};
ghost use Rattle.run_base.specs.Change.{files_change, parts_change, sink_change};
ghost use Rattle.run_stores.specs.Fmtindex.{DoesFmtindex, IndexesConf, IsIndexRefusal, index_line};
ghost use Rattle.run_base.specs.Errors.{HasCauseIn, no_cause, with_files, with_parts, with_sink};
ghost use Rattle.run_base.specs.Formatting.{Prints};

use itoa::Buffer;
use run_base::{CommandError, Shown, Unit, name_at, print, read_conf, refusal_among};
use std::alloc::{AllocError, Global};
use vt_base::{Scorer, Text};
use vt_conf::Conf;
use vt_format::laws::configurations_number_their_files;
use vt_format::{Index, IndexError, format_index};
use vt_out::{Files, Sink};
use vt_partitions::Parts;

/// Reads the configuration, puts all its sections to use, and prints how many buckets they have.
pub fn fmtindex<I: Files, P: Parts, K: Sink, T: Sink + Drop, S: Scorer>(
    alloc: Global,
    files: &mut I,
    parts: &mut P,
    sink: &mut K,
    terminal: Option<T>,
    file: &Text,
    scorer: &S,
) -> Result<(), CommandError>
    ensures does { DoesFmtindex P.Disk.Disk file.now result
        (files_change I.Files files.old files.new) (parts_change P.Parts parts.old parts.new)
        (sink_change K.Sink sink.old sink.new) }
    ensures cause { HasCauseIn (with_files (files_change I.Files files.old files.new)
        (with_parts P.Disk.Disk (parts_change P.Parts parts.old parts.new)
        (with_sink (sink_change K.Sink sink.old sink.new) no_cause))) result }
{
    configurations_number_their_files();
    let conf = read_conf(alloc, files, file)?;
    let mut shown = Shown::new(terminal, Unit::Buckets);
    index_conf(alloc, parts, sink, &mut shown, file, scorer, &conf)
}

/// Puts the sections of a configuration to use, and prints how many buckets they have.
fn index_conf<P: Parts, K: Sink, T: Sink, S: Scorer>(
    alloc: Global,
    parts: &mut P,
    sink: &mut K,
    shown: &mut Shown<T>,
    file: &Text,
    scorer: &S,
    conf: &Conf,
) -> Result<(), CommandError>
    requires { length (files_in_order conf.now) < 2 ^ 32 }
    ensures { IndexesConf P.Disk.Disk file.now conf.now result
        (parts_change P.Parts parts.old parts.new) (sink_change K.Sink sink.old sink.new) }
{
    match format_index(alloc, parts, scorer, shown, conf) {
        Ok(index) => print_index(sink, &conf.index, index),
        Err(bad) => Err(told(alloc, shown, file, conf, bad)),
    }
}

/// Prints the line of an index.
fn print_index<K: Sink>(sink: &mut K, name: &Text, index: Index) -> Result<(), CommandError>
    ensures { Prints (index_line name.now index) result (sink_change K.Sink sink.old sink.new) }
{
    let mut buckets_digits = Buffer::new();
    let mut sections_digits = Buffer::new();
    print(
        sink,
        &[
            b"fmtindex ",
            name.as_slice(),
            b": ",
            buckets_digits.format(index.buckets).as_bytes(),
            b" buckets in ",
            sections_digits.format(index.sections).as_bytes(),
            b" sections\n",
        ],
    )
}

/// What is told where the index of a configuration in this file can't be formatted. A file of which
/// a call failed is named on the terminal.
fn told<T: Sink>(
    alloc: Global,
    shown: &mut Shown<T>,
    file: &Text,
    conf: &Conf,
    bad: IndexError,
) -> CommandError
    ensures { IsIndexRefusal file.now conf.now bad result }
{
    match bad {
        IndexError::Fault { part: Some(part) } | IndexError::Stopped { part } => {
            shown.name(name_at(file, conf, part).as_slice());
            CommandError::DiskFault
        }
        IndexError::Fault { part: None } => CommandError::DiskFault,
        IndexError::Refused(bad) => match refusal_among(alloc, file, conf, bad) {
            Ok(failure) => failure,
            Err(AllocError) => CommandError::NoMemory,
        },
    }
}
