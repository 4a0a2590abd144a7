//! The words of a line of a configuration.

ghost use Rattle.std.specs.Prelude.{◌≡◌, ◌<◌, ◌≤◌, false, [], ◌∷◌, length, slice_index, IfSome, IfNone};
ghost use Rattle.std.specs.List.{prefix_len, position_or_len};
ghost use Rattle.vt_conf.specs.Lines.{words_of_line, ends_in_return, is_blank};

/// The first word of a line, and what stands behind it. Spaces and tabs separate words. A word that
/// begins with `#` is none: it and all behind it is a comment.
pub(crate) fn next_word(line: &[u8]) -> Option<(&[u8], &[u8])>
    ensures word { IfSome result (λ parts.
        words_of_line line.now ≡ parts.0.now ∷ words_of_line parts.1.now) }
    ensures none { IfNone result (words_of_line line.now ≡ []) }
{
    let line = trim_start(line);
    if line.is_empty() || line[0] == b'#' {
        return None;
    }
    Some(line.split_at(word_len(line)))
}

/// Whether a carriage return is the line's last byte.
pub(crate) fn ends_in_return(line: &[u8]) -> bool
    ensures { result ≡ ends_in_return line.now }
{
    !line.is_empty() && line[line.len() - 1] == b'\r'
}

/// A line without the blanks at its front.
fn trim_start(line: &[u8]) -> &[u8]
    ensures words { words_of_line result.now ≡ words_of_line line.now }
    ensures start { 0 < length result.now → is_blank (slice_index result.now 0) ≡ false }
{
    &line[blanks_len(line)..]
}

/// How many spaces and tabs stand at the front.
fn blanks_len(line: &[u8]) -> usize
    ensures value { result ≡ prefix_len is_blank line.now }
    ensures within { result ≤ length line.now }
{
    line.iter().take_while(|b| is_blank(**b)).count()
}

/// How many bytes stand before the first space or tab.
fn word_len(line: &[u8]) -> usize
    ensures value { result ≡ position_or_len is_blank line.now }
    ensures within { result ≤ length line.now }
{
    line.iter().take_while(|b| !is_blank(**b)).count()
}

/// Whether a byte parts words: a space or a tab.
fn is_blank(b: u8) -> bool
    ensures { result ≡ is_blank b }
{
    b == b' ' || b == b'\t'
}
