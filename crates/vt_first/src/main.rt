//! A first look at the server: one session on the standard streams over a store in memory, small
//! enough to be run before anything is proved. The program is `vt_prog`.
#![tactic(auto)]

ghost use Rattle.std.specs.Prelude.{◌≡◌, [], IsTrue};

use std::alloc::Global;
use std::process::ExitCode;
use vt_base::Sha1Scorer;
use vt_conf::{cached_blocks, entry_room};
use vt_empty::{Shape, fresh_store};
use vt_handler::{Client, Streams};
use vt_host::{StdClock, StdSink, StdSource, System};
use vt_out::Clock;
use vt_session::Ended;
use vt_shard::Sizes;
use vt_told::{ErrorLines, ToldAs};
use vt_use::serve_store;

/// The shape of the store.
const SHAPE: Shape = Shape {
    arenas: 1,
    arena_len: 1 << 20,
    sections: 1,
    buckets: 4,
    filter: 8_192,
    positions: 8,
};

/// How many bytes of blocks it keeps at hand, and how many of index entries.
const MEM: u64 = 1 << 20;

/// Ends with 0 where the session ended well, and else with 1. A read or a write that fails is told on
/// standard error.
fn main(rt: HostRuntime) -> ExitCode {
    let alloc = rt.alloc();
    let lines = ErrorLines::new(alloc, System(rt.stderr()));
    let now = StdClock(System(rt)).now();
    let mut client = Streams {
        source: StdSource::new(ToldAs::new(System(rt.stdin()), alloc, "standard input", lines)),
        sink: StdSink::new(ToldAs::new(System(rt.stdout()), alloc, "standard output", lines)),
    };
    ExitCode::from(match serve(alloc, now, &mut client) {
        Ended::Goodbye | Ended::Closed => 0,
        _ => 1,
    })
}

/// Serves one session, which begins at this second, over a store that begins empty.
fn serve<C: Client>(alloc: Global, now: u32, client: &mut C) -> Ended
    requires begins { IsTrue C.tells → IsTrue C.waits →
        (C.sent client.old ≡ []) × (C.written client.old ≡ []) }
{
    let sizes = Sizes {
        lumps: cached_blocks(MEM, SHAPE.sections),
        clean: entry_room(MEM, SHAPE.sections),
    };
    match fresh_store(alloc, &SHAPE, sizes, 1, Sha1Scorer) {
        Ok(store) => serve_store(alloc, store, now, client).0.ended,
        Err(_) => Ended::NoMemory,
    }
}
