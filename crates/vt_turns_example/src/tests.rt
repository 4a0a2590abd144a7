//! Links in threads, whose answers are counted the same whatever the schedule.

ghost use Rattle.std.specs.Prelude.{◌≡◌, ◌<◌, [], IfOk};

use super::*;
use std::alloc::{AllocError, Global};
use std::test::Fail;

/// How many lines have each answer.
#[derive(Drop)]
struct Counts {
    added: u64,
    held: u64,
    collisions: u64,
    absent: u64,
    /// Those with `Unknown` or `NoMemory`.
    others: u64,
}

impl Counts {
    /// No line was counted yet.
    fn new() -> Counts {
        Counts {
            added: 0,
            held: 0,
            collisions: 0,
            absent: 0,
            others: 0,
        }
    }

    /// Counts each of these lines by its answer.
    fn count(&mut self, lines: &[Line]) {
        for line in lines {
            let number = match line.said {
                Said::Added => &mut self.added,
                Said::Held => &mut self.held,
                Said::Collision => &mut self.collisions,
                Said::Absent => &mut self.absent,
                Said::Unknown | Said::NoMemory => &mut self.others,
            };
            *number = number.wrapping_add(1);
        }
    }
}

/// A link that writes two keys of its own, the first of the next link's, and one that all links
/// write with values of their own; then it looks for a key whose bit no other key has.
fn script(alloc: Global, number: u64) -> Result<Script, AllocError>
    requires { number < 100 }
    ensures { IfOk result (λ s. s.lines.items ≡ []) }
{
    let first = 2 * number;
    let asks = vec![in alloc;
        Ask::Write(Block {
            key: first,
            value: 1
        }),
        Ask::Write(Block {
            key: first + 1,
            value: 1
        }),
        Ask::Write(Block {
            key: first + 2,
            value: 1
        }),
        Ask::Write(Block {
            key: 1_000,
            value: number
        }),
        Ask::Look(1_001),
    ]?;
    Script::new(alloc, asks)
}

/// Eight links side by side: of 17 keys and one each is added once, 7 are written twice, and 7
/// links find another value under the last one.
#[test]
fn each_block_is_added_by_one_worker(rt: HostRuntime) -> Result<(), Fail> {
    let alloc = rt.alloc();
    let waiting = vec![in alloc;
        script(alloc, 0)?,
        script(alloc, 1)?,
        script(alloc, 2)?,
        script(alloc, 3)?,
        script(alloc, 4)?,
        script(alloc, 5)?,
        script(alloc, 6)?,
        script(alloc, 7)?,
    ]?;
    let (_listener, whole) = run(&rt, alloc, 9, Scripts::new(waiting), 100);
    let (ends, parts) = whole.expect(&rt, "memory");
    let mut counts = Counts::new();
    for end in &ends {
        assert_eq!(rt; end.link.lines().len(), 5);
        counts.count(end.link.lines());
    }
    assert_eq!(rt; ends.len(), 8);
    assert_eq!(rt; counts.added, 18);
    assert_eq!(rt; counts.held, 7);
    assert_eq!(rt; counts.collisions, 7);
    assert_eq!(rt; counts.absent, 8);
    assert_eq!(rt; counts.others, 0);
    for part in &parts {
        if let Part::Log(log) = part {
            assert_eq!(rt; log.blocks.len(), 18);
        }
    }
    Ok(())
}

/// Two links in two threads, each with writes and a look.
#[test]
fn two_threads_write_and_look(rt: HostRuntime) -> Result<(), Fail> {
    let alloc = rt.alloc();
    let (store, pass) = open(alloc, 1)?;
    let (_pass, first, second) = serve_two(&rt, &store, pass, script(alloc, 0)?, script(alloc, 1)?);
    let mut counts = Counts::new();
    counts.count(first.lines());
    counts.count(second.lines());
    assert_eq!(rt; counts.added, 6);
    assert_eq!(rt; counts.held, 1);
    assert_eq!(rt; counts.collisions, 1);
    assert_eq!(rt; counts.absent, 2);
    assert_eq!(rt; counts.others, 0);
    Ok(())
}

/// A pass that meets another one knows of its block.
#[test]
fn passes_that_meet_have_seen_the_same(rt: HostRuntime) -> Result<(), Fail> {
    let (store, mut pass) = open(rt.alloc(), 1)?;
    let mut other = store.split(&mut pass);
    let line = store.write(&rt, &mut pass, Block { key: 5, value: 6 });
    assert!(rt; line.said == Said::Added);
    meet(&store, &mut pass, &mut other);
    assert_eq!(rt; store.count(&mut other), 1);
    let line = store.write(&rt, &mut other, Block { key: 5, value: 7 });
    assert!(rt; line.said == Said::Collision);
    Ok(())
}
