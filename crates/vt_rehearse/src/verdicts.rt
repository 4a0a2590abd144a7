//! Whether what the store says is right, by the plain list.

ghost use Rattle.std.specs.Prelude.{◌≡◌, ◌↔◌, ◌+◌, ◌<◌, ℕ, Bool, IsTrue, List, if◌then◌else◌};
ghost use Rattle.vt_base.specs.declared.answer.Said.{Said};
ghost use Rattle.vt_base.specs.declared.why.Why.{Why};
ghost use Rattle.vt_rehearse.specs.Rehearsal.{IsWordRead, IsWritten};
ghost use Rattle.vt_rehearse.specs.declared.words.TheConstants.{WORDS};

use crate::words::Word;
use vt_base::{Answer, Said, Score, Why};

/// Whether a reader of a word is told its bytes where the list has it, and else that it is absent.
pub(crate) fn is_read_right(listed: &[u32], word: u32, said: &Said) -> bool
    requires { word < WORDS }
    ensures { IsTrue result ↔ ((is_found : Bool) × IsWordRead word listed.now is_found said.now) }
{
    let is_listed = listed.contains(&word);
    match said {
        Said::Block(bytes) => is_listed && bytes.as_slice() == Word::new(word).as_slice(),
        Said::Refused(why) => !is_listed && *why == Why::Absent,
        Said::Score(_) | Said::Synced => false,
    }
}

/// Whether a writer of a word is told its score, and the store has one block more just where the
/// list hasn't the word.
pub(crate) fn is_write_right(
    listed: &[u32],
    word: u32,
    own: Score,
    said: &Said,
    before: u64,
    after: u64,
) -> bool
    ensures { IsTrue result
        ↔ ((is_held : Bool) × IsWritten own.0 word listed.now is_held said.now before after) }
{
    let is_listed = listed.contains(&word);
    match said {
        Said::Score(given) => *given == own && has_grown(before, after, !is_listed),
        Said::Block(_) | Said::Refused(_) | Said::Synced => false,
    }
}

/// Whether a session whose sync waited is told that so many blocks are synced.
pub(crate) fn is_sync_right(answer: &Answer, len: u64) -> bool
    ensures { IsTrue result ↔ ((answer.now.said ≡ Said.Synced) × (answer.now.at ≡ len)) }
{
    match answer.said {
        Said::Synced => answer.at == len,
        Said::Score(_) | Said::Block(_) | Said::Refused(_) => false,
    }
}

/// Whether a session is told that memory ran out.
pub(crate) fn ran_out(said: &Said) -> bool
    ensures { IsTrue result ↔ (said.now ≡ Said.Refused Why.NoMemory) }
{
    match said {
        Said::Refused(why) => *why == Why::NoMemory,
        Said::Score(_) | Said::Block(_) | Said::Synced => false,
    }
}

/// Whether it is told a block.
pub(crate) fn is_block(said: &Said) -> bool
    ensures { IsTrue result ↔ ((bytes : List ℕ) × (said.now ≡ Said.Block bytes)) }
{
    match said {
        Said::Block(_) => true,
        Said::Score(_) | Said::Refused(_) | Said::Synced => false,
    }
}

/// Whether a number is greater by one, or the same.
fn has_grown(before: u64, after: u64, by_one: bool) -> bool
    ensures { IsTrue result ↔ (after ≡ before + (if by_one then 1 else 0)) }
{
    if by_one {
        before < after && after - before == 1
    } else {
        before == after
    }
}
