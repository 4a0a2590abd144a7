//! Why a call or a request was not done.

ghost use Rattle.std.specs.Prelude.{◌≡◌};
ghost use Rattle.vt_base.specs.Protocol.{why_words};

use crate::{Place, Score};

/// A call on an object that was handed in has failed, and its count of faults has risen.
#[derive(Clone, Copy, Debug, PartialEq, Eq)]
pub struct Failed;

/// What stands in a field, or should stand there. Numbers have 128 bits, since sums of fields as read
/// can pass 64.
#[derive(Clone, Copy, Debug, PartialEq, Eq)]
pub enum FieldValue {
    /// A count, a length, an offset or what single bytes say.
    Number(u128),
    /// A score, or the chain of an arena's entries.
    Score(Score),
    /// The four letters of a magic number.
    Magic([u8; 4]),
}

/// Where damage was found: in the clump that stands or should stand at a place of the log, or in the
/// frame of the index bucket of this number.
#[derive(Clone, Copy, Debug, PartialEq, Eq)]
pub enum Site {
    Clump(Place),
    Bucket(u32),
}

/// Why a request was not done.
#[derive(Clone, Copy, Debug, PartialEq, Eq)]
pub enum Why {
    /// The type is not one of a block.
    BadType,
    /// More than 57,344 bytes.
    TooBig,
    /// The block is longer than the count that the reader gave.
    TooSmall,
    /// No block has this score and type.
    Absent,
    /// Another block has the score, with other bytes, or the score is the zero score.
    Collision,
    /// The score's bucket has no room.
    IndexFull,
    /// No arena has room.
    ArenasFull,
    /// A device's count of faults rose.
    DiskFault,
    /// A part of the store makes no more writes since its device call of this number failed.
    Stopped(u64),
    /// What was read differs from what was wanted.
    Damaged {
        site: Site,
        want: FieldValue,
        found: FieldValue,
    },
    /// Memory ran out.
    NoMemory,
}

/// The text that a client is sent (venti(6), Rerror).
pub fn why_text(why: &Why) -> &'static str
    ensures { result.now ≡ why_words why.now }
{
    match why {
        Why::BadType => "bad type",
        Why::TooBig => "block too big",
        Why::TooSmall => "count too small",
        Why::Absent => "no such block",
        Why::Collision => "score collision",
        Why::IndexFull => "index full",
        Why::ArenasFull => "arenas full",
        Why::DiskFault => "disk fault",
        Why::Stopped(_) => "store stopped",
        Why::Damaged { .. } => "block damaged",
        Why::NoMemory => "no memory",
    }
}
