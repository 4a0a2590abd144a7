//! What a crash makes of all pending bytes at once.

ghost use Rattle.std.specs.Prelude.{◌≡◌, ◌+◌, ◌%◌, ◌==◌, length, if◌then◌else◌};
ghost use Rattle.vt_memdisk.specs.Crashes.{left_byte, IsLeftBy};

/// What a crash leaves of the pending bytes.
#[derive(Clone, Copy, Debug, PartialEq, Eq)]
pub enum CrashMode {
    /// Each is the synced byte: the writes are lost.
    Synced,
    /// Each is the written byte: the writes are there.
    Written,
    /// It is the written byte at the disk's even places, the synced one at its odd ones.
    EvenWritten,
    /// Each is a5.
    Garbled,
}

impl CrashMode {
    /// The modes, by their numbers from 0 on.
    pub const ALL: [CrashMode; 4] = [
        CrashMode::Synced,
        CrashMode::Written,
        CrashMode::EvenWritten,
        CrashMode::Garbled,
    ];
}

/// What is left of the pending byte at this place.
fn left_byte(mode: CrashMode, at: usize, synced: u8, written: u8) -> u8
    ensures { result ≡ left_byte mode at synced written }
{
    match mode {
        CrashMode::Synced => synced,
        CrashMode::Written => written,
        CrashMode::EvenWritten => if at % 2 == 0 { written } else { synced },
        CrashMode::Garbled => 0xa5,
    }
}

/// Makes what is left of each pending byte.
pub fn leave(content: &mut Vec<u8>, synced: &Vec<u8>, pending: &Vec<bool>, mode: CrashMode)
    requires synced_length { length synced.now.items ≡ length content.old.items }
    requires pending_length { length pending.now.items ≡ length content.old.items }
    ensures { IsLeftBy mode pending.now.items synced.now.items content.old.items
        content.new.items }
{
    for at in 0..content.len() {
        if pending[at] {
            content[at] = left_byte(mode, at, synced[at], content[at]);
        }
    }
}
