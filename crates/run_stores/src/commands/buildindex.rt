//! The command `buildindex CONF`: rebuilds the index of the store that a configuration names from its
//! arenas.
// Tests: crates/run_tests_stores/src/checkarenas.rt.

ghost use Rattle.std.specs.Prelude.{◌≡◌, ◌+◌, ◌<◌, ◌^◌, length};
ghost use Rattle.run_base.specs.Change.{files_change, parts_change, sink_change};
ghost use Rattle.run_stores.specs.Buildindex.{DoesBuildindex, IsRebuildRefusal, RebuildsConf, blocks_line, rebuild_failure};
ghost use Rattle.run_base.specs.Errors.{HasCauseIn, no_cause, with_files, with_parts, with_sink};
ghost use Rattle.run_base.specs.Formatting.{Prints};

use itoa::Buffer;
use run_base::{CommandError, Shown, Unit, print, read_conf, told_on};
use std::alloc::Global;
use vt_base::{Scorer, Text};
use vt_conf::Conf;
use vt_maintain::{MaintainError, rebuild_store};
use vt_open::configurations_can_be_opened;
use vt_out::{Files, Sink};
use vt_partitions::Parts;
use vt_rebuild::RebuildBad;

/// Reads the configuration, rebuilds the index of its store, and prints how many blocks it has.
pub fn buildindex<I: Files, P: Parts, K: Sink, T: Sink + Drop, S: Scorer>(
    alloc: Global,
    files: &mut I,
    parts: &mut P,
    sink: &mut K,
    terminal: Option<T>,
    file: &Text,
    scorer: &S,
) -> Result<(), CommandError>
    ensures does { DoesBuildindex S.score_of P.Disk.Disk file.now result
        (files_change I.Files files.old files.new) (parts_change P.Parts parts.old parts.new)
        (sink_change K.Sink sink.old sink.new) }
    ensures cause { HasCauseIn (with_files (files_change I.Files files.old files.new)
        (with_parts P.Disk.Disk (parts_change P.Parts parts.old parts.new)
        (with_sink (sink_change K.Sink sink.old sink.new) no_cause))) result }
{
    configurations_can_be_opened();
    let conf = read_conf(alloc, files, file)?;
    let mut shown = Shown::new(terminal, Unit::Buckets);
    rebuild_conf(alloc, parts, sink, &mut shown, file, scorer, &conf)
}

/// Rebuilds the index of a configuration's store, and prints how many blocks it has.
fn rebuild_conf<P: Parts, K: Sink, T: Sink, S: Scorer>(
    alloc: Global,
    parts: &mut P,
    sink: &mut K,
    shown: &mut Shown<T>,
    file: &Text,
    scorer: &S,
    conf: &Conf,
) -> Result<(), CommandError>
    requires few { length conf.now.arenas.items + length conf.now.sections.items + 1 < 2 ^ 32 }
    requires some_section { 0 < length conf.now.sections.items }
    ensures { RebuildsConf S.score_of P.Disk.Disk file.now conf.now result
        (parts_change P.Parts parts.old parts.new) (sink_change K.Sink sink.old sink.new) }
{
    match rebuild_store(alloc, parts, conf, scorer, shown) {
        Ok(blocks) => print_blocks(sink, blocks),
        Err(MaintainError::Unopened(bad)) => Err(told_on(alloc, shown, file, conf, bad)),
        Err(MaintainError::Ended(bad)) => Err(rebuild_failure(bad)),
    }
}

/// Prints the line of an index with the entries of so many blocks.
fn print_blocks<K: Sink>(sink: &mut K, blocks: u64) -> Result<(), CommandError>
    ensures { Prints (blocks_line blocks) result (sink_change K.Sink sink.old sink.new) }
{
    let mut digits = Buffer::new();
    print(
        sink,
        &[
            b"buildindex: ",
            digits.format(blocks).as_bytes(),
            b" blocks\n",
        ],
    )
}

/// What is told of what ended the work.
fn rebuild_failure(bad: RebuildBad) -> CommandError
    ensures { result ≡ rebuild_failure bad }
{
    match bad {
        RebuildBad::Fault => CommandError::DiskFault,
        RebuildBad::IndexFull { bucket: _ } => CommandError::IndexFull,
        RebuildBad::Damaged {
            place: _,
            want,
            found,
        } => CommandError::Damaged { want, found },
        RebuildBad::NoMemory => CommandError::NoMemory,
    }
}
