//! The whole: a store is opened, links are served, and it is closed.

ghost use Rattle.std.specs.Prelude.{◌<◌, IfSome};
ghost use Rattle.vt_turns_example.specs.Keys.{IsKey};
ghost use Rattle.vt_turns_example.specs.Parts.{log_of};
ghost use Rattle.vt_turns_example.specs.Workers.{IsOneHistory};

use crate::link::Listener;
use crate::opening::{PARTS, open};
use crate::part::Part;
use crate::store::Store;
use crate::workers::{End, serve_all};
use std::alloc::Global;
use std::sync::Wait;
use std::thread::Threads;

/// Serves the links that come, at most `count` of them, over an empty store, and closes it: what
/// each link was told is a talk of the log that is left, each block of which exactly one worker
/// added.
pub fn run<R: Threads + Wait + Sync, D: Listener + Drop>(
    rt: &R,
    alloc: Global,
    cut: u64,
    listener: D,
    count: usize,
) -> (D, Option<(Vec<End<D::Link>>, Vec<Part>)>)
    requires cut { IsKey cut }
    requires count { count < 65536 }
    ensures whole { IfSome result.1 (λ r. IsOneHistory D.Link.told r.0.items (log_of r.1.items)) }
{
    let Ok(room) = Vec::with_capacity(alloc, PARTS) else {
        return (listener, None);
    };
    let Ok((store, pass)) = open(alloc, cut) else {
        return (listener, None);
    };
    let (pass, listener, ends) = serve_all(rt, alloc, &store, pass, listener, count);
    let Store { turns, cut: _ } = store;
    let parts = turns.close(pass, room);
    match ends {
        Some(ends) => (listener, Some((ends, parts))),
        None => (listener, None),
    }
}
