//! Workers, of which each serves a link in a thread of its own.

ghost use Rattle.std.specs.Prelude.{◌≡◌, ◌+◌, ◌<◌, ◌≤◌, [], MatchOption, vec_len, vec_capacity};
ghost use mathlib.Core.List.{IsPrefix};
ghost use Rattle.vt_turns.specs.Views.{view, HoldsNone};
ghost use Rattle.vt_turns.specs.Calls.{IsPassOf};
ghost use Rattle.vt_turns_example.specs.Stores.{IsFree};
ghost use Rattle.vt_turns_example.specs.Work.{Works};
ghost use Rattle.vt_turns_example.specs.Workers.{BeginsWorker, AllBegun, Begun, Joins, HasServed, ServedTwo, less};

use crate::link::{Link, Listener};
use crate::part::{Block, Part};
use crate::serving::serve;
use crate::store::Store;
use std::alloc::Global;
use std::snapshot::Snapshot;
use std::sync::Wait;
use std::thread;
use std::thread::{Promise, PromisedHandle, Scope, Threads};
use vt_turns::Pass;

/// What a worker gives back.
#[derive(Drop)]
pub struct Served<L> {
    /// The worker's pass, with what it has seen and added by then.
    pub pass: Pass<Part, Block>,
    /// The link that it served, which asks nothing more.
    pub link: L,
}

/// A link that was served, and the pass of its worker as it was then.
#[derive(Drop)]
pub struct End<L> {
    pub link: L,
    pub pass: Snapshot<Pass<Part, Block>>,
}

/// The promise that a worker serves its link with the pass that it was given.
#[derive(Drop)]
pub struct Serves {
    pub was: Snapshot<Pass<Part, Block>>,
}

impl<L: Link> Promise<Served<L>> for Serves {
    ghost kept_by = { λ p r. Works p.was.value r.pass (L.told r.link) };
}

/// A worker that runs, or one whose work the caller did, since no thread could be started.
#[derive(Drop)]
pub enum Started<L: Link> {
    Runs(PromisedHandle<Served<L>, Serves>),
    Done(Served<L>),
}

/// Serves one link to its end, and gives back the pass with what its worker knows by then.
fn work<R: Wait, L: Link>(
    rt: &R,
    store: &Store,
    mut pass: Pass<Part, Block>,
    mut link: L,
) -> Served<L>
    requires free { IsFree store.now pass }
    requires fresh { L.told link ≡ [] }
    ensures { Works pass result.pass (L.told result.link) }
{
    serve(rt, store, &mut pass, &mut link);
    Served { pass, link }
}

/// Starts a worker in a thread of its own; where there is none to be had, does its work here.
fn start<'s, E: 's, R: Wait + Sync, L: Link + Send + Drop + 's>(
    scope: &Scope<'s, E>,
    rt: &'s R,
    store: &'s Store,
    pass: Pass<Part, Block>,
    link: L,
) -> Started<L>
    requires free { IsFree store.now pass }
    requires fresh { L.told link ≡ [] }
    ensures { BeginsWorker L.told pass result }
{
    let promise = Serves {
        was: Snapshot::of(&pass),
    };
    let started = scope.spawn_with(
        promise,
        move || -> Served<L>
            requires { IsFree store.now pass × (L.told link ≡ []) }
            ensures { Works pass result.pass (L.told result.link) }
        { work(rt, store, pass, link) },
    );
    match started {
        Ok(handle) => Started::Runs(handle),
        Err(refused) => Started::Done((refused.value)()),
    }
}

/// Waits for a worker to end, and gives back what it gave.
fn finish<R: Threads, L: Link>(rt: &R, started: Started<L>) -> Served<L>
    ensures { (p : _) → BeginsWorker L.told p started → Works p result.pass (L.told result.link) }
{
    match started {
        Started::Runs(handle) => handle.join(rt),
        Started::Done(served) => served,
    }
}

/// Takes in another pass, and all that it has seen.
fn join_pass(store: &Store, pass: &mut Pass<Part, Block>, other: Pass<Part, Block>)
    requires free { IsFree store.now pass.old }
    requires other { IsPassOf store.now.turns other × HoldsNone (view other) }
    ensures free { IsFree store.now pass.new }
    ensures joins { Joins (view pass.old) (view other) (view pass.new) }
{
    store.turns.join(pass, other);
    store.turns.front(pass);
}

/// Tells each of two passes what the other one has seen.
pub fn meet(store: &Store, first: &mut Pass<Part, Block>, second: &mut Pass<Part, Block>)
    requires first { IsFree store.now first.old }
    requires second { IsFree store.now second.old }
    ensures free { IsFree store.now first.new × IsFree store.now second.new }
    ensures first { IsPrefix (view first.old).seen (view first.new).seen
        × IsPrefix (view second.old).seen (view first.new).seen }
    ensures second { IsPrefix (view second.old).seen (view second.new).seen
        × IsPrefix (view first.old).seen (view second.new).seen }
    ensures share { ((view first.new).share ≡ (view first.old).share)
        × ((view second.new).share ≡ (view second.old).share) }
{
    let note = store.turns.note(first);
    join_pass(store, second, note);
    let note = store.turns.note(second);
    join_pass(store, first, note);
}

/// Starts a worker for each link, at most `count` of them.
fn start_all<'s, E: 's, R: Wait + Sync, D: Listener + 's>(
    scope: &Scope<'s, E>,
    rt: &'s R,
    store: &'s Store,
    mut pass: Pass<Part, Block>,
    mut listener: D,
    count: usize,
    mut all: Vec<Started<D::Link>>,
) -> (Pass<Part, Block>, D, Vec<Started<D::Link>>)
    requires free { IsFree store.now pass }
    requires share { count < (view pass).share }
    requires room { (all.items ≡ []) × (count ≤ vec_capacity all) }
    ensures free { IsFree store.now result.0 }
    ensures view { view result.0 ≡ less (view pass) (vec_len result.2) }
    ensures most { vec_len result.2 ≤ count }
    ensures begun { AllBegun D.Link.told store.now (view pass) result.2.items }
{
    for i in 0..count {
        let _i = i;
        let Some(link) = listener.accept() else {
            break;
        };
        let other = store.turns.split(&mut pass);
        all.push_reserved(start(scope, rt, store, other, link));
    }
    (pass, listener, all)
}

/// Joins the workers in their order. `before` is the pass as it was when none was started.
fn join_all<R: Threads, L: Link + Drop>(
    rt: &R,
    store: &Store,
    before: &Snapshot<Pass<Part, Block>>,
    mut pass: Pass<Part, Block>,
    all: Vec<Started<L>>,
    mut ends: Vec<End<L>>,
) -> (Pass<Part, Block>, Vec<End<L>>)
    requires free { IsFree store.now pass }
    requires room { (ends.items ≡ []) × (vec_len all ≤ vec_capacity ends) }
    requires begun { Begun L.told store.now (view before.now.value) (view pass) all.items }
    ensures free { IsFree store.now result.0 }
    ensures served { HasServed L.told (view before.now.value) (view result.0) result.1.items }
{
    for started in all {
        let Served { pass: other, link } = finish(rt, started);
        let was = Snapshot::of(&other);
        join_pass(store, &mut pass, other);
        ends.push_reserved(End { link, pass: was });
    }
    (pass, ends)
}

/// Serves the links that come, at most `count` of them, each in a thread of its own if one can be
/// started, and takes all shares back. Without memory nothing is done.
pub fn serve_all<R: Threads + Wait + Sync, D: Listener + Drop>(
    rt: &R,
    alloc: Global,
    store: &Store,
    pass: Pass<Part, Block>,
    listener: D,
    count: usize,
) -> (Pass<Part, Block>, D, Option<Vec<End<D::Link>>>)
    requires free { IsFree store.now pass }
    requires share { count < (view pass).share }
    ensures free { IsFree store.now result.0 }
    ensures served { MatchOption result.2 (result.0 ≡ pass)
        (λ ends. HasServed D.Link.told (view pass) (view result.0) ends.items) }
{
    let Ok(all) = Vec::with_capacity(alloc, count) else {
        return (pass, listener, None);
    };
    let Ok(ends) = Vec::with_capacity(alloc, count) else {
        return (pass, listener, None);
    };
    let before = Snapshot::of(&pass);
    let (pass, listener, all) = thread::scope(
        thread::scope_env(),
        rt,
        |scope| -> (Pass<Part, Block>, D, Vec<Started<D::Link>>)
            requires { IsFree store.now pass × (count < (view pass).share) × (all.items ≡ [])
                × (count ≤ vec_capacity all) }
            ensures { IsFree store.entry.now result.0 × (vec_len result.2 ≤ count)
                × Begun D.Link.told store.entry.now (view pass) (view result.0) result.2.items }
        { start_all(scope, rt, store, pass, listener, count, all) },
    );
    let (pass, ends) = join_all(rt, store, &before, pass, all, ends);
    (pass, listener, Some(ends))
}

/// Serves two links, the first in a thread of its own if one can be started.
pub fn serve_two<R: Threads + Wait + Sync, L: Link + Send + Drop>(
    rt: &R,
    store: &Store,
    mut pass: Pass<Part, Block>,
    first: L,
    second: L,
) -> (Pass<Part, Block>, L, L)
    requires free { IsFree store.now pass }
    requires two { 1 < (view pass).share }
    requires fresh { (L.told first ≡ []) × (L.told second ≡ []) }
    ensures free { IsFree store.now result.0 }
    ensures served { ServedTwo (view pass) (L.told result.1) (L.told result.2) (view result.0) }
{
    let other = store.turns.split(&mut pass);
    let (back, mine) = thread::scope(
        thread::scope_env(),
        rt,
        |scope| -> (Served<L>, Served<L>)
            requires { IsFree store.now other × IsFree store.now pass × (L.told first ≡ [])
                × (L.told second ≡ []) }
            ensures { Works other result.0.pass (L.told result.0.link)
                × Works pass result.1.pass (L.told result.1.link) }
        {
            let started = start(scope, rt, store, other, first);
            let mine = work(rt, store, pass, second);
            (finish(rt, started), mine)
        },
    );
    let Served {
        pass: mut mine,
        link: second,
    } = mine;
    let Served {
        pass: back,
        link: first,
    } = back;
    join_pass(store, &mut mine, back);
    (mine, first, second)
}
