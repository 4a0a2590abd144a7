//! The line with which a client begins.

ghost use Rattle.std.specs.Prelude.{◌≡◌, ◌<◌, ◌≤◌, ◌==◌, ◌||◌, nat_eq, true, length, codes, IfSome};
ghost use Rattle.std.specs.List.{position, common_prefix_len, list_any};
ghost use Rattle.vt_wire.specs.Lines.{line_of, judged, first_wrong_place, wrong_version, cut_at_colons, is_02};

/// The most bytes that a client's line has, with its newline.
pub const MAX_LINE: usize = 1_024;

/// What a client's line begins with.
const START: &[u8; 6] = b"venti-";

/// The version that the server speaks.
const VERSION: &[u8] = b"02";

/// The line at the front of what a client sent.
#[derive(Clone, Copy, Debug, PartialEq, Eq)]
pub enum Line {
    /// A line of so many bytes with its newline, and whether version 02 is among those that it
    /// offers.
    Whole { len: usize, has_02: bool },
    /// Less than a line.
    More,
    /// A line whose byte at this place can't stand there.
    Bad(usize),
}

/// Reads the line at the front of what a client sent, which may go on behind it.
pub fn decode_line(bytes: &[u8]) -> Line
    ensures { result ≡ line_of bytes.now }
{
    match newline(&bytes[..bytes.len().min(MAX_LINE)]) {
        Some(end) => judge(&bytes[..end]),
        None if bytes.len() > MAX_LINE => Line::Bad(MAX_LINE),
        None => Line::More,
    }
}

/// The place of the first newline.
fn newline(bytes: &[u8]) -> Option<usize>
    ensures { result ≡ position (λ b. b == 10) bytes.now }
{
    bytes.iter().position(|b| *b == b'\n')
}

/// What a whole line is, given without its newline.
fn judge(line: &[u8]) -> Line
    ensures { result ≡ judged line.now (first_wrong_place line.now) }
{
    let same = common_len(line);
    if same < START.len() {
        return Line::Bad(same);
    }
    let rest = &line[START.len()..];
    match wrong_version(rest) {
        Some(place) => Line::Bad(place),
        None => Line::Whole {
            len: line.len() + 1,
            has_02: offers_02(rest),
        },
    }
}

/// How many bytes of a line are as it should begin.
fn common_len(line: &[u8]) -> usize
    ensures value { result ≡ common_prefix_len nat_eq line.now (codes "venti-") }
    ensures within { result ≤ length line.now }
{
    let mut same = 0;
    while same < START.len() && same < line.len() && line[same] == START[same] {
        same += 1;
    }
    same
}

/// The place in the line of the first byte that can't stand in the versions and the dash behind
/// them, which are given.
fn wrong_version(rest: &[u8]) -> Option<usize>
    ensures { result ≡ wrong_version true 6 rest.now }
{
    let mut fresh = true;
    for (i, b) in rest.iter().enumerate() {
        if *b == b':' || *b == b'-' {
            if fresh {
                return Some(START.len() + i);
            }
            if *b == b'-' {
                return None;
            }
        }
        fresh = *b == b':';
    }
    Some(START.len() + rest.len())
}

/// Whether version 02 is among these, which have colons between them and a dash behind them.
fn offers_02(versions: &[u8]) -> bool
    ensures { result ≡ list_any is_02 (cut_at_colons versions.now) }
{
    let mut rest = versions;
    while let Some(end) = version_end(rest) {
        let (version, behind) = rest.split_at(end);
        if version == VERSION {
            return true;
        }
        if behind[0] == b'-' {
            return false;
        }
        rest = &behind[1..];
    }
    rest == VERSION
}

/// The place of the first colon or dash.
fn version_end(bytes: &[u8]) -> Option<usize>
    ensures place { result ≡ position (λ b. b == 58 || b == 45) bytes.now }
    ensures within { IfSome result (λ n. n < length bytes.now) }
{
    bytes.iter().position(|b| *b == b':' || *b == b'-')
}
