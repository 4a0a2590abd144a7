//! Entries of directories.

ghost use Rattle.std.specs.Prelude.{◌≡◌, Some, IfOk, IfErr, IsOkAnd};
ghost use Rattle.vt_tree.specs.declared.entry.Entry.{Entry};
ghost use Rattle.vt_tree.specs.Entries.{FitsEntry, IsTreeEntry, SpellsEntry, tree_entry_bytes};
ghost use Rattle.vt_tree.specs.Entries.{entry_in, entry_fault, entry_fault_in, flags_of};

use vt_base::Score;
use vt_base::fields::{put, put_u8, put_u16, put_u32, put_u48, u16_at, u32_at, u48_at};

/// How many bytes an entry has.
pub const ENTRY_LEN: usize = 40;

/// A file or a directory in a directory (venti(6)). Sizes are in bytes.
#[derive(Clone, Copy, Debug, PartialEq, Eq)]
pub struct Entry {
    /// A number of the client's (venti(6)), which this program writes as 0 and doesn't look at.
    pub generation: u32,
    /// The size of pointer blocks.
    pub psize: u16,
    /// The size of leaves.
    pub dsize: u16,
    /// An entry that isn't active is an empty file.
    pub active: bool,
    /// Whether it is a directory, whose leaves are entries of 40 bytes.
    pub is_dir: bool,
    /// How many pointer blocks stand above each leaf, at most 7.
    pub depth: u8,
    /// The size of the file, below 2^48.
    pub size: u64,
    /// The score of the topmost block.
    pub score: Score,
}

/// A field of an entry that is tested.
#[derive(Clone, Copy, Debug, PartialEq, Eq)]
pub enum EntryField {
    /// The size of pointer blocks: of an active entry 20 at least.
    PSize,
    /// The size of leaves: of an active entry 1 at least, and 40 of a directory.
    DSize,
    /// The byte of flags, in which 0x40 has to be clear.
    Flags,
}

/// What stands in a field of an entry, and can't stand there.
#[derive(Clone, Copy, Debug, PartialEq, Eq)]
pub struct EntryError {
    pub field: EntryField,
    pub found: u16,
}

impl Entry {
    /// The entry that these bytes spell, or the first field that can't stand in an entry: psize,
    /// dsize, and then the flag 0x40.
    pub fn decode(bytes: &[u8; 40]) -> Result<Self, EntryError>
        ensures ok { IfOk result (λ entry. IsTreeEntry entry × SpellsEntry entry bytes.now) }
        ensures only { (entry : Entry) → IsTreeEntry entry → SpellsEntry entry bytes.now
            → IsOkAnd result (λ e. e ≡ entry) }
        ensures bad { IfErr result (λ bad. entry_fault_in bytes.now ≡ Some bad) }
    {
        let flags = bytes[8];
        let entry = fields(bytes);
        if let Some(bad) = entry.fault() {
            return Err(bad);
        }
        // (the flag 0x40)
        if flags / 64 % 2 == 1 {
            return Err(EntryError {
                field: EntryField::Flags,
                found: u16::from(flags),
            });
        }
        Ok(entry)
    }

    /// The bytes of an entry.
    pub fn encode(&self) -> [u8; 40]
        requires { FitsEntry self.now }
        ensures bytes { result ≡ tree_entry_bytes self.now }
        ensures spells { SpellsEntry self.now result }
    {
        let mut bytes = [0; 40];
        let at = put_u32(&mut bytes, 0, self.generation);
        let at = put_u16(&mut bytes, at, self.psize);
        let at = put_u16(&mut bytes, at, self.dsize);
        let at = put_u8(&mut bytes, at, self.flags());
        let at = put(&mut bytes, at, &[0; 5]);
        let at = put_u48(&mut bytes, at, self.size);
        put(&mut bytes, at, &self.score.0);
        bytes
    }

    /// The first field that can't stand in an active entry.
    pub fn fault(&self) -> Option<EntryError>
        ensures { result ≡ entry_fault self.now }
    {
        if !self.active {
            return None;
        }
        if self.psize < 20 {
            return Some(EntryError {
                field: EntryField::PSize,
                found: self.psize,
            });
        }
        // (a pointer block has one score of 20 bytes at least, a directory's leaf one entry of 40)
        let least = if self.is_dir { 40 } else { 1 };
        if self.dsize < least {
            return Some(EntryError {
                field: EntryField::DSize,
                found: self.dsize,
            });
        }
        None
    }

    /// The byte of flags: what the entry is, and its depth.
    fn flags(&self) -> u8
        requires { FitsEntry self.now }
        ensures { result ≡ flags_of self.now }
    {
        // (0x01 active, 0x02 a directory, 0x1c the depth)
        u8::from(self.active) + 2 * u8::from(self.is_dir) + 4 * self.depth
    }
}

/// What the fields of an entry say.
fn fields(bytes: &[u8; 40]) -> Entry
    ensures { result ≡ entry_in bytes.now }
{
    let flags = bytes[8];
    let mut score = [0; 20];
    score.copy_from_slice(&bytes[20..]);
    Entry {
        // (the places of the fields: docs/FORMATS.md, Entries of directories, and roots)
        generation: u32_at(bytes, 0),
        psize: u16_at(bytes, 4),
        dsize: u16_at(bytes, 6),
        active: flags % 2 == 1,
        is_dir: flags / 2 % 2 == 1,
        depth: flags / 4 % 8,
        size: u48_at(bytes, 14),
        score: Score(score),
    }
}
