//! Records of the items of an archived folder.

use std::marker::Model;
use vt_base::Text;

/// What an item of an archive is.
#[derive(Clone, Copy, Debug, PartialEq, Eq)]
pub enum RecordKind {
    File,
    Folder,
}

/// What an archive keeps of a file or a folder beside its bytes (vac(1)).
#[derive(Drop)]
pub struct Record {
    /// Its name in its folder.
    pub name: Text,
    pub kind: RecordKind,
    /// The number of its first entry in the entry stream of its folder.
    pub entry: u32,
    /// Its permissions are the low nine bits.
    pub mode: u32,
    /// When it was changed last, in seconds since 1970.
    pub mtime: u32,
    /// Its number in the archive.
    pub qid: u64,
    /// The name of its owner.
    pub uid: Text,
    /// The name of its group.
    pub gid: Text,
}

/// Records in memory, which contracts see as a list.
#[derive(Drop)]
pub struct Records {
    records: Vec<Record>,
}

impl Model for Records {
    ghost use Rattle.std.specs.Prelude.{List};
    ghost use Rattle.vac_meta.specs.declared.record.Record.{Record};

    ghost Value = { List Record };

    ghost view = { λ r. r.records.items };
}

impl Records {
    ghost use Rattle.std.specs.Prelude.{◌≡◌};

    /// These records, with the memory that they are in.
    pub fn from_vec(records: Vec<Record>) -> Self
        ensures { result ≡ records.items }
    {
        Records { records }
    }

    /// The records, given back with their memory.
    pub fn into_vec(self) -> Vec<Record>
        ensures { result.items ≡ self }
    {
        self.records
    }

    /// Lends the records, in order.
    pub fn as_slice(&self) -> &[Record]
        ensures { result.now ≡ self.now }
    {
        &self.records
    }
}
