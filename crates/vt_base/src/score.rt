//! Scores, and what computes them.

ghost use Rattle.std.specs.Prelude.{◌≡◌, ℕ, List, [], length};
ghost use Rattle.sha1.specs.Sha1.{sha1};

/// A score names a block: 20 bytes, of SHA-1 where the server is the real one (venti(6)).
#[derive(Clone, Copy, Debug, PartialEq, Eq, PartialOrd, Ord, Hash)]
pub struct Score(pub [u8; 20]);

/// Gives each block its score.
pub trait Scorer {
    ghost use Rattle.vt_base.specs.Bytes.{AreBytes};

    /// The score of a block's bytes, and of nothing else. That of no bytes is the zero score.
    ghost score_of: { List ℕ → List ℕ };

    /// The score of a block's bytes, which are any number, also none.
    fn score(&self, block: &[u8]) -> Score
        ensures { result.0 ≡ score_of block.now };

    /// The zero score, that of no bytes.
    fn zero_score(&self) -> Score
        ensures { result.0 ≡ score_of [] }
    {
        self.score(&[])
    }

    /// A score has 20 bytes.
    ghost score_len: { (block : List ℕ) → length (score_of block) ≡ 20 };

    /// Each of them is below 256, where those of the block are.
    ghost score_bytes: { (block : List ℕ) → AreBytes block → AreBytes (score_of block) };
}

/// A borrowed scorer is one.
impl<S: Scorer> Scorer for &S {
    ghost score_of = { S.score_of };

    ghost score_len = { S.score_len };

    ghost score_bytes = { S.score_bytes };

    /// The score by the scorer that is lent.
    fn score(&self, block: &[u8]) -> Score {
        (**self).score(block)
    }

    /// The zero score of the scorer that is lent.
    fn zero_score(&self) -> Score {
        (**self).zero_score()
    }
}

/// The SHA-1 of no bytes.
const NO_BYTES: Score = Score([
    0xda, 0x39, 0xa3, 0xee, 0x5e, 0x6b, 0x4b, 0x0d, 0x32, 0x55, 0xbf, 0xef, 0x95, 0x60, 0x18, 0x90,
    0xaf, 0xd8, 0x07, 0x09,
]);

/// SHA-1 (FIPS 180-4), by the crate `sha1`.
#[derive(Clone, Copy, Debug)]
pub struct Sha1Scorer;

impl Scorer for Sha1Scorer {
    ghost use Rattle.vt_base.specs.Scores.{length-sha1, bytes-sha1};

    ghost score_of = { sha1 };

    ghost score_len = { length-sha1 };

    ghost score_bytes = { λ block _. bytes-sha1 block };

    /// The SHA-1 of the block (FIPS 180-4).
    fn score(&self, block: &[u8]) -> Score {
        Score(sha1::Sha1::digest(block))
    }

    /// The SHA-1 of no bytes, which isn't computed anew.
    fn zero_score(&self) -> Score {
        NO_BYTES
    }
}

/// For tests, so that blocks with one score can be had: the block's first byte, or 0 where it has none,
/// and 19 zero bytes.
#[derive(Clone, Copy, Debug)]
pub struct ShortScorer;

impl Scorer for ShortScorer {
    ghost use Rattle.vt_base.specs.Scores.{short_score, length-short_score, bytes-short_score};

    ghost score_of = { short_score };

    ghost score_len = { length-short_score };

    ghost score_bytes = { bytes-short_score };

    /// The block's first byte, if it has one, and zeros.
    fn score(&self, block: &[u8]) -> Score {
        let mut bytes = [0; 20];
        if let Some(first) = block.first() {
            bytes[0] = *first;
        }
        Score(bytes)
    }
}
