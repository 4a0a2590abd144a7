//! What is left out of an archive.
// Tests: crates/run_tests_archives/src/vac.rt.

ghost use Rattle.std.specs.Prelude.{◌≡◌, ◌++◌, ℕ, List, IsTrue, OnErr, OnOk, map, position};
ghost use Rattle.std.specs.List.{concat};
ghost use Rattle.vt_base.specs.Faults.{HasCause};
ghost use Rattle.vt_out.specs.Streams.{AppendsPrefix};
ghost use Rattle.run_archives.specs.Skipped.{begins_with_quote, escaped, in_quotes, is_control, is_quote};
ghost use Rattle.run_archives.specs.Skipped.{quoted, wants_quotes};
ghost use Rattle.run_archives.specs.Skipped.{left_out_lines, path_line, path_lines};

use vac_write::Archived;
use vt_base::{Failed, Text};
use vt_out::Sink;

/// Says of each item that an archive leaves out its path, in a line: first of what is neither a file
/// nor a folder, and then of what couldn't be read. It ends where a put fails.
pub fn tell_left_out<F: Sink>(sink: &mut F, archived: &Archived) -> Result<(), Failed>
    ensures appended { OnOk result (IsTrue F.tells → F.written sink.new
        ≡ F.written sink.old ++ left_out_lines archived.now) }
    ensures failed { OnErr result (IsTrue F.tells → AppendsPrefix (F.written sink.old)
        (F.written sink.new) (left_out_lines archived.now)) }
    ensures cause { HasCause result (F.faults sink.old) (F.faults sink.new) }
{
    tell_paths(sink, b"skipped ", archived.skipped.as_slice())?;
    tell_paths(sink, b"can't read ", archived.failed.as_slice())
}

/// Says each of these paths in a line, behind these words, until a put fails.
fn tell_paths<F: Sink>(sink: &mut F, words: &[u8], paths: &[Text]) -> Result<(), Failed>
    ensures appended { OnOk result (IsTrue F.tells → F.written sink.new
        ≡ F.written sink.old ++ path_lines words.now paths.now) }
    ensures failed { OnErr result (IsTrue F.tells → AppendsPrefix (F.written sink.old)
        (F.written sink.new) (path_lines words.now paths.now)) }
    ensures cause { HasCause result (F.faults sink.old) (F.faults sink.new) }
{
    for path in paths {
        tell_path(sink, words, path.as_slice())?;
    }
    Ok(())
}

/// Says a path in a line, behind these words.
fn tell_path<F: Sink>(sink: &mut F, words: &[u8], path: &[u8]) -> Result<(), Failed>
    ensures appended { OnOk result (IsTrue F.tells → F.written sink.new
        ≡ F.written sink.old ++ path_line words.now path.now) }
    ensures failed { OnErr result (IsTrue F.tells → AppendsPrefix (F.written sink.old)
        (F.written sink.new) (path_line words.now path.now)) }
    ensures cause { HasCause result (F.faults sink.old) (F.faults sink.new) }
{
    sink.put(b"venti: ")?;
    sink.put(words)?;
    put_path(sink, path)?;
    sink.put(b"\n")
}

/// Puts a path, in quotes where it holds a control character, so that it stays in its line, and
/// where it begins with a quote, so that no other path is put so.
fn put_path<F: Sink>(sink: &mut F, path: &[u8]) -> Result<(), Failed>
    ensures appended { OnOk result (IsTrue F.tells → F.written sink.new
        ≡ F.written sink.old ++ quoted path.now) }
    ensures failed { OnErr result (IsTrue F.tells → AppendsPrefix (F.written sink.old)
        (F.written sink.new) (quoted path.now)) }
    ensures cause { HasCause result (F.faults sink.old) (F.faults sink.new) }
{
    if wants_quotes(path) {
        put_quoted(sink, path)
    } else {
        sink.put(path)
    }
}

/// Whether a path begins with a quote, or holds a control character.
fn wants_quotes(path: &[u8]) -> bool
    ensures { result ≡ wants_quotes path.now }
{
    begins_with_quote(path) || first_control(path).is_some()
}

/// Whether a path begins with a quote.
fn begins_with_quote(path: &[u8]) -> bool
    ensures { result ≡ begins_with_quote path.now }
{
    match path {
        [] => false,
        [first, _rest @ ..] => *first == b'"',
    }
}

/// The place of the first control character of a path.
fn first_control(path: &[u8]) -> Option<usize>
    ensures { result ≡ position is_control path.now }
{
    path.iter().position(|b| *b < 32 || *b == 127)
}

/// Puts a path in quotes.
fn put_quoted<F: Sink>(sink: &mut F, path: &[u8]) -> Result<(), Failed>
    ensures appended { OnOk result (IsTrue F.tells → F.written sink.new
        ≡ F.written sink.old ++ in_quotes path.now) }
    ensures failed { OnErr result (IsTrue F.tells → AppendsPrefix (F.written sink.old)
        (F.written sink.new) (in_quotes path.now)) }
    ensures cause { HasCause result (F.faults sink.old) (F.faults sink.new) }
{
    sink.put(b"\"")?;
    put_escaped(sink, path)?;
    sink.put(b"\"")
}

/// Puts each byte as it stands between quotes.
fn put_escaped<F: Sink>(sink: &mut F, path: &[u8]) -> Result<(), Failed>
    ensures appended { OnOk result (IsTrue F.tells → F.written sink.new
        ≡ F.written sink.old ++ concat (map escaped path.now)) }
    ensures failed { OnErr result (IsTrue F.tells → AppendsPrefix (F.written sink.old)
        (F.written sink.new) (concat (map escaped path.now))) }
    ensures cause { HasCause result (F.faults sink.old) (F.faults sink.new) }
{
    for byte in path {
        put_byte(sink, *byte)?;
    }
    Ok(())
}

/// Puts a byte as it stands between quotes.
fn put_byte<F: Sink>(sink: &mut F, b: u8) -> Result<(), Failed>
    ensures appended { OnOk result (IsTrue F.tells → F.written sink.new
        ≡ F.written sink.old ++ escaped b) }
    ensures failed { OnErr result (IsTrue F.tells → AppendsPrefix (F.written sink.old)
        (F.written sink.new) (escaped b)) }
    ensures cause { HasCause result (F.faults sink.old) (F.faults sink.new) }
{
    if is_control(b) {
        return sink.put(&[b'\\', b'0' + b / 64, b'0' + (b / 8) % 8, b'0' + b % 8]);
    }
    if is_quote(b) {
        return sink.put(&[b'\\', b]);
    }
    sink.put(&[b])
}

/// Whether a byte is a control character of ASCII.
fn is_control(b: u8) -> bool
    ensures { result ≡ is_control b }
{
    b < 32 || b == 127
}

/// Whether a byte is a quote or a backslash.
fn is_quote(b: u8) -> bool
    ensures { result ≡ is_quote b }
{
    b == b'"' || b == b'\\'
}

/// Two paths that are told alike are the same.
pub fn paths_are_told_apart()
    ensures { (p q : List ℕ) → quoted p ≡ quoted q → p ≡ q }
{}
