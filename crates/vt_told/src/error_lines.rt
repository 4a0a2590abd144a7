//! Lines on standard error, one for each call of the system that failed.

use crate::reasons::reason;
use crate::teller::{Call, Teller};
use std::alloc::{AllocError, Global};
use std::io;
use vt_host::WriteCalls;

/// What is said where there is no memory for a line.
const SHORT: &[u8] = b"venti: a call failed: no memory to tell which\n";

/// Writes a line for each call that failed, by one write, and at once. Where that fails, the line is
/// lost.
#[derive(Clone, Copy)]
pub struct ErrorLines<W> {
    alloc: Global,
    /// Standard error: a copy of it writes to the same place.
    output: W,
}

impl<W> ErrorLines<W> {
    /// To this writer, by lines of this memory.
    pub fn new(alloc: Global, output: W) -> Self {
        ErrorLines { alloc, output }
    }
}

impl<W: WriteCalls + Copy> Teller for ErrorLines<W> {
    fn tell(&self, call: Call, name: &str, why: &io::Error) {
        let mut output = self.output;
        let _ = match line_of(self.alloc, call, name, why) {
            Ok(line) => output.put_all(line.as_slice()),
            Err(_) => output.put_all(SHORT),
        };
    }
}

/// The line `venti: CALL NAME: REASON`.
fn line_of(alloc: Global, call: Call, name: &str, why: &io::Error) -> Result<Vec<u8>, AllocError> {
    let mut line = Vec::new(alloc);
    line.extend_from_slice(b"venti: ")?;
    line.extend_from_slice(call.word().as_bytes())?;
    line.extend_from_slice(b" ")?;
    push_name(&mut line, name)?;
    line.extend_from_slice(b": ")?;
    push_reason(alloc, &mut line, call, why)?;
    line.push(b'\n')?;
    Ok(line)
}

/// The reason in words, or else by the system's number, if it has one.
fn push_reason(
    alloc: Global,
    line: &mut Vec<u8>,
    call: Call,
    why: &io::Error,
) -> Result<(), AllocError> {
    if let Some(words) = reason(call, why) {
        return line.extend_from_slice(words.as_bytes());
    }
    match why.raw_os_error() {
        Some(number) => {
            let words = format!(in alloc; "error {number}")?;
            line.extend_from_slice(words.as_bytes())
        }
        None => line.extend_from_slice(b"failed"),
    }
}

/// A name, in quotes where it holds a control character, so that it stays in its line.
// (`run_archives` writes paths so to a sink, in `skipped.rt`, where each byte is told by a clause.)
fn push_name(line: &mut Vec<u8>, name: &str) -> Result<(), AllocError> {
    let in_quotes = has_control(name.as_bytes());
    push_if(line, in_quotes, b'"')?;
    push_path(line, name, in_quotes)?;
    push_if(line, in_quotes, b'"')
}

/// Whether a name holds a control character.
fn has_control(name: &[u8]) -> bool {
    name.iter().position(|b| *b < 32 || *b == 127).is_some()
}

/// This byte, or none.
fn push_if(line: &mut Vec<u8>, wanted: bool, byte: u8) -> Result<(), AllocError> {
    if wanted {
        line.push(byte)?;
    }
    Ok(())
}

/// A path. Parts `.` are left out, but for the first: a folder is looked at as `FOLDER/.`, so that a
/// link to one is followed.
fn push_path(line: &mut Vec<u8>, path: &str, in_quotes: bool) -> Result<(), AllocError> {
    let mut is_first = true;
    for part in path.split('/') {
        if is_first || part != "." {
            push_if(line, !is_first, b'/')?;
            push_part(line, part.as_bytes(), in_quotes)?;
        }
        is_first = false;
    }
    Ok(())
}

/// A part of a path.
fn push_part(line: &mut Vec<u8>, part: &[u8], in_quotes: bool) -> Result<(), AllocError> {
    if !in_quotes {
        return line.extend_from_slice(part);
    }
    for byte in part {
        push_escaped(line, *byte)?;
    }
    Ok(())
}

/// A byte between quotes: a control character by three octal digits, and a quote or a backslash, each
/// behind a backslash.
fn push_escaped(line: &mut Vec<u8>, b: u8) -> Result<(), AllocError> {
    if b < 32 || b == 127 {
        return line.extend_from_slice(&[b'\\', b'0' + b / 64, b'0' + (b / 8) % 8, b'0' + b % 8]);
    }
    push_if(line, b == b'"' || b == b'\\', b'\\')?;
    line.push(b)?;
    Ok(())
}
