//! Why a request is refused.

/// Why a request is refused, whatever the archive has: the first test that it fails.
#[derive(Clone, Copy, Debug, PartialEq, Eq)]
pub enum RequestError {
    /// No request has its type.
    UnknownMessage,
    /// Its parameters don't fill it.
    BadMessage,
    /// No version is agreed.
    VersionExpected,
    /// Messages are to have fewer than 256 bytes.
    SmallSize,
    /// There is none, so it can't be asked for, nor told of in an attach.
    NoAuthentication,
    /// The fid that names no file can't be set.
    BadFid,
    /// The fid that is to be set is known.
    FidInUse,
    /// 1,024 fids are known.
    TooManyFids,
    /// The fid isn't set.
    UnknownFid,
    /// It would change the archive.
    ReadOnly,
    /// A walk has more than 16 names.
    TooManyNames,
    /// An open fid is opened again, or walked from.
    FidIsOpen,
    /// The first name of a walk is looked for in a file.
    NoDirectory,
    /// The first name of a walk isn't there.
    NoFile,
    /// A fid is read that isn't open.
    FidNotOpen,
    /// A folder is read neither from its start nor from where the last read ended.
    BadOffset,
    /// What is told of a file has no room.
    SmallCount,
}

impl RequestError {
    ghost use Rattle.std.specs.Prelude.{◌≡◌};
    ghost use Rattle.nine_view.specs.Refusals.{refusal_words};

    /// What is said of it.
    pub fn words(self) -> &'static [u8]
        ensures { result.now ≡ refusal_words self }
    {
        match self {
            RequestError::UnknownMessage => b"unknown message",
            RequestError::BadMessage => b"bad message",
            RequestError::VersionExpected => b"version expected",
            RequestError::SmallSize => b"msize too small",
            RequestError::NoAuthentication => b"no authentication",
            RequestError::BadFid => b"bad fid",
            RequestError::FidInUse => b"fid in use",
            RequestError::TooManyFids => b"too many fids",
            RequestError::UnknownFid => b"unknown fid",
            RequestError::ReadOnly => b"read-only file system",
            RequestError::TooManyNames => b"too many names",
            RequestError::FidIsOpen => b"fid is open",
            RequestError::NoDirectory => b"not a directory",
            RequestError::NoFile => b"file does not exist",
            RequestError::FidNotOpen => b"fid not open",
            RequestError::BadOffset => b"bad offset",
            RequestError::SmallCount => b"count too small",
        }
    }
}
