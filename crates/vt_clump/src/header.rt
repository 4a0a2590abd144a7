//! The header of a clump.

ghost use Rattle.std.specs.Prelude.{◌≡◌, ◌≤◌, ◌∷◌, ◌++◌, length, replicate, codes, IfOk};
ghost use Rattle.byteorder.specs.Endian.{big_bytes};
ghost use Rattle.vt_base.specs.Kind.{IsKind};
ghost use Rattle.vt_clump.specs.Spelling.{sizes, stored_in, size_in};
ghost use Rattle.vt_clump.specs.Faults.{FailsWith, bad_encoding, bad_size, bad_fields, bad_header};

use crate::{ClumpBad, Encoding};
use vt_base::fields::{put, put_u8, put_u16, put_u32, u16_at, u32_at};
use vt_base::{Kind, MAX_BLOCK, Score};

/// How many bytes a header has: magic, type, two sizes, score, encoding, creator and time.
pub const HEADER_LEN: usize = 4 + 1 + 2 + 2 + 20 + 1 + 4 + 4;

const _: () = prove!(HEADER_LEN == 38);

/// How many bytes the block of a clump has, by the clump's header, which isn't tested.
pub fn block_len(header: &[u8]) -> u16
    requires { HEADER_LEN ≤ length header.now }
    ensures { result ≡ size_in header.now }
{
    u16_at(header, 5)
}

/// What a header says of its block, beside that it is stored as it is.
#[derive(Clone, Copy)]
pub struct Header {
    pub kind: Kind,
    /// How many bytes the block has.
    pub size: u16,
    pub score: Score,
    /// When the session that wrote it began, in seconds since 1970.
    pub time: u32,
}

impl Header {
    /// The bytes of the header, with 0 as creator.
    pub fn encode(&self) -> [u8; HEADER_LEN]
        ensures kind { IsKind self.now.kind }
        ensures score { length self.now.score.0 ≡ 20 }
        ensures bytes { result ≡ codes "VCLP" ++ (self.now.kind ∷ (sizes self.now.size
            ++ (self.now.score.0 ++ (1 ∷ (replicate 4 0 ++ big_bytes 4 self.now.time))))) }
    {
        let mut bytes = [0; HEADER_LEN];
        let at = put(&mut bytes, 0, b"VCLP");
        let at = put_u8(&mut bytes, at, self.kind.wire());
        // (the size in the clump, and behind it that before compression: the same, since none is
        // made)
        let at = put_u16(&mut bytes, at, self.size);
        let at = put_u16(&mut bytes, at, self.size);
        let at = put(&mut bytes, at, &self.score.0);
        let at = put_u8(&mut bytes, at, 1);
        let at = put_u32(&mut bytes, at, 0);
        put_u32(&mut bytes, at, self.time);
        bytes
    }

    /// The header that the bytes of a clump begin with. It is refused by the first test that fails.
    pub fn decode(bytes: &[u8]) -> Result<Header, ClumpBad>
        ensures refused { FailsWith (bad_header bytes.now) result }
        ensures kind { IfOk result (λ header. header.kind ≡ (stored_in bytes.now).kind) }
        ensures size { IfOk result (λ header. header.size ≡ size_in bytes.now) }
        ensures score { IfOk result (λ header. header.score.0 ≡ (stored_in bytes.now).score) }
        ensures time { IfOk result (λ header. header.time ≡ (stored_in bytes.now).time) }
    {
        Header::decode_before(bytes, bytes.len().saturating_sub(HEADER_LEN))
    }

    /// The header that these bytes begin with, of a clump that has `room` bytes behind its header.
    /// It is refused by the first test that fails.
    pub fn decode_before(bytes: &[u8], room: usize) -> Result<Header, ClumpBad>
        ensures refused { FailsWith (bad_fields bytes.now room) result }
        ensures kind { IfOk result (λ header. header.kind ≡ (stored_in bytes.now).kind) }
        ensures size { IfOk result (λ header. header.size ≡ size_in bytes.now) }
        ensures score { IfOk result (λ header. header.score.0 ≡ (stored_in bytes.now).score) }
        ensures time { IfOk result (λ header. header.time ≡ (stored_in bytes.now).time) }
    {
        if bytes.len() < HEADER_LEN {
            return Err(ClumpBad::Short);
        }
        // (the places of the fields: docs/FORMATS.md, Clumps)
        let magic = [bytes[0], bytes[1], bytes[2], bytes[3]];
        if magic != *b"VCLP" {
            return Err(ClumpBad::Magic(magic));
        }
        let Some(kind) = Kind::from_wire(bytes[4]) else {
            return Err(ClumpBad::Kind(bytes[4]));
        };
        check_encoding(bytes[29])?;
        let size = block_len(bytes);
        check_sizes(size, u16_at(bytes, 7), room)?;
        let mut score = [0; 20];
        score.copy_from_slice(&bytes[9..29]);
        Ok(Header {
            kind,
            size,
            score: Score(score),
            time: u32_at(bytes, 34),
        })
    }
}

/// Takes plain blocks alone (1): a compressed one (2) and a number that isn't known are refused.
fn check_encoding(encoding: u8) -> Result<(), ClumpBad>
    ensures { FailsWith (bad_encoding encoding) result }
{
    match encoding {
        1 => Ok(()),
        2 => Err(ClumpBad::Encoding(Encoding::Compressed)),
        _ => Err(ClumpBad::Encoding(Encoding::Unknown(encoding))),
    }
}

/// Tests the sizes of a clump with so many bytes behind its header. The first that can't be is
/// told.
fn check_sizes(size: u16, uncsize: u16, room: usize) -> Result<(), ClumpBad>
    ensures { FailsWith (bad_size size uncsize room) result }
{
    let (want, found) = if uncsize != size {
        (size, uncsize)
    } else if size == 0 {
        (1, 0)
    } else if size as usize > MAX_BLOCK {
        (MAX_BLOCK as u16, size)
    } else if size as usize > room {
        (room as u16, size)
    } else {
        return Ok(());
    };
    Err(ClumpBad::Size { want, found })
}
