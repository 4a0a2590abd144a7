//! What is done in each round of a rehearsal, and how that is drawn.

ghost use Rattle.std.specs.Prelude.{◌≡◌};
ghost use Rattle.vt_rehearse.specs.Rounds.{IsDrawn, round_at, behind_round};

use crate::draws::Draws;
use vt_memdisk::CrashMode;

/// One round of a rehearsal. Sessions, words and shards are counted from 0.
#[derive(Clone, Copy)]
pub enum Round {
    /// A session writes a word.
    Write { session: u32, word: u32 },
    /// A session reads one.
    Read { session: u32, word: u32 },
    /// A session asks for a sync, the log commits all, and the session gets its answer.
    Sync { session: u32 },
    /// The log makes one device call.
    Commit,
    /// A shard begins to write back.
    Begin { shard: u32 },
    /// It makes one device call of that.
    Advance { shard: u32 },
    /// It drops a block and an entry.
    Evict { shard: u32 },
    /// All devices crash, and the store is mounted again.
    Crash { mode: CrashMode },
}

impl Round {
    /// The next round, of numbers that are drawn.
    pub fn draw(draws: &mut Draws) -> Self
        ensures round { result ≡ round_at draws.old }
        ensures drawn { IsDrawn result }
        ensures behind { draws.new ≡ behind_round draws.old }
    {
        // (Of sixteen rounds, six write, three read, two commit, and one each does the others.
        // There are 3 sessions, 64 words, 2 shards and 4 modes of a crash.)
        match draws.draw(16) {
            0..=5 => Round::Write {
                session: draws.draw(3),
                word: draws.draw(64),
            },
            6..=8 => Round::Read {
                session: draws.draw(3),
                word: draws.draw(64),
            },
            9 => Round::Sync {
                session: draws.draw(3),
            },
            10 | 11 => Round::Commit,
            12 => Round::Begin {
                shard: draws.draw(2),
            },
            13 => Round::Advance {
                shard: draws.draw(2),
            },
            14 => Round::Evict {
                shard: draws.draw(2),
            },
            _ => Round::Crash {
                mode: CrashMode::ALL[draws.draw(4) as usize],
            },
        }
    }
}
