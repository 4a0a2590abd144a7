//! What a line of a configuration is about.

ghost use Rattle.std.specs.Prelude.{◌≡◌, ◌⊎◌, IsTrue};
ghost use Rattle.vt_conf.specs.Keywords.{keyword_of, takes_value, most_lines, takes_size, takes_address, is_file, same_keyword};
ghost use Rattle.vt_conf.specs.Exceeding.{exceeded_by};

use crate::{ConfCause, MAX_FILES};

/// The first word of a line (venti.conf(6)), which says what the line is about.
#[derive(Clone, Copy, Debug, PartialEq, Eq)]
pub enum Keyword {
    /// The index's name.
    Index,
    /// A file with a partition of arenas.
    Arenas,
    /// A file with an index section.
    Isect,
    /// The file with the Bloom filter.
    Bloom,
    /// How many bytes of blocks are kept in memory.
    Mem,
    /// How many bytes of index entries are kept in memory.
    Icmem,
    /// A size that is accepted and not used.
    Bcmem,
    /// An address that is accepted, and neither read nor used.
    Httpaddr,
    /// A folder that is accepted and not used.
    Webroot,
    /// A wish that is accepted: writes are always queued.
    Queuewrites,
    /// Where the server listens.
    Addr,
}

impl Keyword {
    /// The keyword that this word is, if it is one.
    pub(crate) fn of(word: &[u8]) -> Option<Keyword>
        ensures { result ≡ keyword_of word.now }
    {
        if word == b"index".as_slice() {
            Some(Keyword::Index)
        } else if word == b"arenas".as_slice() {
            Some(Keyword::Arenas)
        } else if word == b"isect".as_slice() {
            Some(Keyword::Isect)
        } else if word == b"bloom".as_slice() {
            Some(Keyword::Bloom)
        } else if word == b"mem".as_slice() {
            Some(Keyword::Mem)
        } else if word == b"icmem".as_slice() {
            Some(Keyword::Icmem)
        } else if word == b"bcmem".as_slice() {
            Some(Keyword::Bcmem)
        } else if word == b"httpaddr".as_slice() {
            Some(Keyword::Httpaddr)
        } else if word == b"webroot".as_slice() {
            Some(Keyword::Webroot)
        } else if word == b"queuewrites".as_slice() {
            Some(Keyword::Queuewrites)
        } else if word == b"addr".as_slice() {
            Some(Keyword::Addr)
        } else {
            None
        }
    }

    /// Whether a value stands behind it.
    pub(crate) fn takes_value(self) -> bool
        ensures { result ≡ takes_value self }
    {
        self != Keyword::Queuewrites
    }

    /// Whether its value is a size.
    pub(crate) fn takes_size(self) -> bool
        ensures { result ≡ takes_size self }
    {
        matches!(self, Keyword::Mem | Keyword::Icmem | Keyword::Bcmem)
    }

    /// Whether its value is an address that is read.
    pub(crate) fn takes_address(self) -> bool
        ensures { result ≡ takes_address self }
    {
        self == Keyword::Addr
    }

    /// Whether it names one file of several.
    pub(crate) fn is_file(self) -> bool
        ensures { result ≡ is_file self }
    {
        matches!(self, Keyword::Arenas | Keyword::Isect)
    }

    /// Whether two keywords are the same one.
    pub(crate) fn is(self, other: Keyword) -> bool
        ensures { result ≡ same_keyword self other }
    {
        self == other
    }

    /// On how many lines of a configuration it may stand at most.
    pub(crate) fn room(self) -> usize
        ensures { result ≡ most_lines self }
    {
        if self.is_file() { MAX_FILES } else { 1 }
    }

    /// What is wrong with a line more than it may stand on.
    pub(crate) fn exceeded(self) -> ConfCause
        ensures { result ≡ exceeded_by self }
    {
        if self.is_file() {
            ConfCause::TooMany
        } else {
            ConfCause::Repeated
        }
    }
}
