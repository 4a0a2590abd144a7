//! The command `write STORE TYPE`: what comes in is one block of a store, whose score is printed.
// Tests: crates/run_tests_sessions/src/read.rt, crates/run_tests_sessions/src/write.rt (over a
// server).

ghost use Rattle.std.specs.Prelude.{◌≡◌, ◌≤◌, ◌<◌, ◌++◌, ℕ, List, [], IfErr, IfOk, OnErr, IsTrue, length, take};
ghost use Rattle.vt_base.specs.Faults.{HasCause};
ghost use Rattle.run_base.specs.Change.{dialer_change, files_change, parts_change, sink_change, source_change};
ghost use Rattle.vt_base.specs.declared.TheConstants.{MAX_BLOCK};
ghost use Rattle.vt_use.specs.Places.{CanBeOpened};
ghost use Rattle.run_base.specs.Places.{CanBeUsed};
ghost use Rattle.run_sessions.specs.Write.{DoesWrite, GivesMade, GivesTo, TakesBlock, TakesNone, WritesInput, score_line};
ghost use Rattle.run_base.specs.Errors.{HasCauseIn, no_cause, with_dialer, with_files, with_parts, with_sink, with_source};
ghost use Rattle.run_base.specs.Formatting.{Prints};

use run_base::{
    CommandError, Place, find_store, hexadecimal, print, refusal_for, told_at, type_in, write_made,
};
use std::alloc::Global;
use vt_base::{Bytes, Failed, Kind, MAX_BLOCK, Score, Scorer, Text, Why};
use vt_dial::Dialer;
use vt_out::{Clock, Files, Sink, Source};
use vt_partitions::Parts;
use vt_remote::refusals_have_causes;
use vt_use::{StoreAt, WriteBlock, answer_at, local_refusals_have_causes, use_at};

/// Reads the word, and stores what comes in as a block of this type.
pub fn write<
    R: Source,
    K: Sink,
    I: Files,
    P: Parts,
    N: Dialer,
    C: Clock,
    T: Sink + Drop,
    S: Scorer,
>(
    alloc: Global,
    source: &mut R,
    sink: &mut K,
    files: &mut I,
    parts: &mut P,
    dialer: &mut N,
    clock: &mut C,
    terminal: Option<T>,
    store: &Text,
    kind: &Text,
    scorer: &S,
) -> Result<(), CommandError>
    ensures does { DoesWrite S.score_of P.Disk.Disk N.Link.Link store.now kind.now result
        (source_change R.Source source.old source.new) (sink_change K.Sink sink.old sink.new)
        (files_change I.Files files.old files.new) (parts_change P.Parts parts.old parts.new)
        (dialer_change N.Dialer N.Link.Link dialer.old dialer.new) }
    ensures cause { HasCauseIn (with_source (source_change R.Source source.old source.new)
        (with_sink (sink_change K.Sink sink.old sink.new)
        (with_files (files_change I.Files files.old files.new)
        (with_parts P.Disk.Disk (parts_change P.Parts parts.old parts.new)
        (with_dialer (dialer_change N.Dialer N.Link.Link dialer.old dialer.new) no_cause)))))
        result }
{
    local_refusals_have_causes::<P::Disk>();
    refusals_have_causes::<N::Link>();
    let kind = type_in(kind)?;
    let place = find_store(alloc, files, store)?;
    write_to(
        alloc, source, sink, parts, dialer, clock, terminal, store, &place, kind, scorer,
    )
}

/// Reads what comes in to its end, and writes it to the store at a place. That isn't opened before the
/// block is there, so that one command may read what another writes.
fn write_to<R: Source, K: Sink, P: Parts, N: Dialer, C: Clock, T: Sink + Drop, S: Scorer>(
    alloc: Global,
    source: &mut R,
    sink: &mut K,
    parts: &mut P,
    dialer: &mut N,
    clock: &mut C,
    terminal: Option<T>,
    store: &Text,
    place: &Place,
    kind: Kind,
    scorer: &S,
) -> Result<(), CommandError>
    requires { CanBeUsed place.now }
    ensures { WritesInput S.score_of P.Disk.Disk N.Link.Link store.now kind result
        (source_change R.Source source.old source.new) (sink_change K.Sink sink.old sink.new)
        (parts_change P.Parts parts.old parts.new)
        (dialer_change N.Dialer N.Link.Link dialer.old dialer.new) place.now }
{
    let block = take_block(alloc, source)?;
    let bytes = block.as_slice();
    let now = clock.now();
    match place {
        Place::Memory => write_made_block(alloc, sink, now, kind, bytes, scorer),
        Place::At(at) => write_at(
            alloc, sink, parts, dialer, terminal, store, at, now, kind, bytes, scorer,
        ),
    }
}

/// Hands a block to the store in memory, which is gone behind it.
fn write_made_block<K: Sink, S: Scorer>(
    alloc: Global,
    sink: &mut K,
    now: u32,
    kind: Kind,
    bytes: &[u8],
    scorer: &S,
) -> Result<(), CommandError>
    requires { length bytes.now ≤ MAX_BLOCK }
    ensures { GivesMade S.score_of kind bytes.now result (sink_change K.Sink sink.old sink.new) }
{
    match write_made(alloc, scorer, now, kind, bytes) {
        Ok(score) => print_score(sink, &score),
        Err(why) => Err(refusal_for(why)),
    }
}

/// Hands a block to the store at a place, and prints its score when that has committed it and is
/// closed, or the link to it.
fn write_at<K: Sink, P: Parts, N: Dialer, T: Sink + Drop, S: Scorer>(
    alloc: Global,
    sink: &mut K,
    parts: &mut P,
    dialer: &mut N,
    terminal: Option<T>,
    file: &Text,
    at: &StoreAt,
    now: u32,
    kind: Kind,
    bytes: &[u8],
    scorer: &S,
) -> Result<(), CommandError>
    requires can { CanBeOpened at.now }
    requires most { length bytes.now ≤ MAX_BLOCK }
    ensures { GivesTo S.score_of P.Disk.Disk N.Link.Link file.now at.now now kind bytes.now result
        (sink_change K.Sink sink.old sink.new) (parts_change P.Parts parts.old parts.new)
        (dialer_change N.Dialer N.Link.Link dialer.old dialer.new) }
{
    let job = WriteBlock { kind, bytes };
    let used = use_at(alloc, parts, dialer, at, scorer, now, job, &mut ());
    match answer_at(used) {
        Ok(score) => print_score(sink, &score),
        Err(bad) => Err(told_at(alloc, terminal, file, at, bad)),
    }
}

/// What comes in to its end, if it isn't more than a block.
fn take_block<R: Source>(alloc: Global, source: &mut R) -> Result<Bytes, CommandError>
    ensures taken { IfOk result (λ bytes.
        TakesBlock bytes (source_change R.Source source.old source.new)) }
    ensures none { IfErr result (λ failure.
        TakesNone failure (source_change R.Source source.old source.new)) }
{
    let Ok(mut buf) = vec![in alloc; 0u8; MAX_BLOCK + 1] else {
        return Err(CommandError::NoMemory);
    };
    let Ok(len) = fill(source, &mut buf) else {
        return Err(CommandError::ReadFault);
    };
    if len > MAX_BLOCK {
        return Err(CommandError::Refused(Why::TooBig));
    }
    buf.truncate(len);
    Ok(Bytes::from_vec(buf))
}

/// Takes bytes until the buffer is full or no more come, and says how many.
fn fill<R: Source>(source: &mut R, buf: &mut [u8]) -> Result<usize, Failed>
    ensures within { IfOk result (λ n. n ≤ length buf.new) }
    ensures taken { IfOk result (λ n. IsTrue R.tells
        → R.left source.old ≡ take n buf.new ++ R.left source.new) }
    ensures end { IfOk result (λ n. IsTrue R.tells
        → n < length buf.new → R.left source.new ≡ []) }
    ensures stopped { OnErr result (IsTrue R.tells → (front : List ℕ)
        × (length front < length buf.old)
        × (R.left source.old ≡ front ++ R.left source.new)) }
    ensures cause { HasCause result (R.faults source.old) (R.faults source.new) }
{
    let mut len = 0;
    while len < buf.len() {
        let n = source.take(&mut buf[len..])?;
        if n == 0 {
            return Ok(len);
        }
        len += n;
    }
    Ok(len)
}

/// Prints the digits of a score, in a line.
fn print_score<K: Sink>(sink: &mut K, score: &Score) -> Result<(), CommandError>
    ensures { Prints (score_line score.now) result (sink_change K.Sink sink.old sink.new) }
{
    let mut digits = [0; 40];
    print(sink, &[hexadecimal(&mut digits, &score.0), b"\n"])
}
