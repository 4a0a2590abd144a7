//! The choices that a crash makes: which of the pending bytes it leaves written.

ghost use Rattle.std.specs.Prelude.{◌≡◌, ◌+◌, ◌-◌, ◌^◌, ◌<◌, ◌≤◌, length, drop, if◌then◌else◌};
ghost use Rattle.vt_memdisk.specs.Cells.{byte_after, chosen};

/// The byte at a place after the crash.
fn next_byte(pending: bool, synced: u8, written: u8, choice: &[u16], next: usize) -> u8
    ensures { result ≡ byte_after pending synced written (drop next choice.now) }
{
    let pick = if next < choice.len() {
        choice[next]
    } else {
        256
    };
    // (what a choice means: `MemDisk::crash`)
    if pending && pick < 256 {
        pick as u8
    } else if pending && pick == 257 {
        written
    } else {
        synced
    }
}

/// The place in the list for the next byte.
fn next_place(pending: bool, next: usize) -> usize
    requires { next < 2 ^ 64 - 1 }
    ensures value { result ≡ (if pending then next + 1 else next) }
    ensures bound { result ≤ next + 1 }
{
    if pending { next + 1 } else { next }
}

/// Makes a crash of these bytes: each pending one, in order of the places, takes the next choice,
/// and stays as it is synced where the choices have run out.
pub fn choose(content: &mut Vec<u8>, synced: &Vec<u8>, pending: &Vec<bool>, choice: &[u16])
    requires synced_length { length synced.now.items ≡ length content.old.items }
    requires pending_length { length pending.now.items ≡ length content.old.items }
    ensures length { length content.new.items ≡ length content.old.items }
    ensures chosen { content.new.items
        ≡ chosen pending.now.items synced.now.items content.old.items choice.now }
{
    let mut next = 0;
    for i in 0..content.len() {
        let flag = pending[i];
        let byte = next_byte(flag, synced[i], content[i], choice, next);
        content[i] = byte;
        next = next_place(flag, next);
    }
}
