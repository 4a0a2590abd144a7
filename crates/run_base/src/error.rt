//! Why a command ends with a status other than 0.
// Tests: crates/run_tests_sessions/src/read.rt, and write.rt beside it, where a server is why.

ghost use Rattle.std.specs.Prelude.{◌≡◌};
ghost use Rattle.run_base.specs.Errors.{server_status, status_of};

use vt_base::{FieldValue, MountField, Text, Why};
use vt_client::ClientErr;
use vt_conf::ConfBad;
use vt_remote::RemoteError;

/// Why a command ends with a status other than 0. A file is told by the name that it has on the
/// command line.
#[derive(Debug, Drop)]
pub enum CommandError {
    /// The words are no command.
    BadWords,
    /// The configuration is refused.
    BadConf(ConfBad),
    /// The file's partition lacks the magic number of its kind, as one does that wasn't formatted.
    NotFormatted {
        file: Text,
    },
    /// The file has `len` bytes, and needs `need`.
    TooSmall {
        file: Text,
        len: u64,
        need: u64,
    },
    /// A field of the file's partition is another than its length wants.
    Disagree {
        file: Text,
        field: MountField,
        found: u128,
        want: u128,
    },
    /// The partition in the file has the name of that in the other one.
    SameName {
        file: Text,
        other: Text,
    },
    /// A call of a partition failed, or it couldn't be had.
    DiskFault,
    /// A word is no number that may stand there; the place of its first wrong byte.
    BadNumber(u64),
    /// A word is no name; the place of its first wrong byte.
    BadName(u64),
    /// A word is no score; the place of its first wrong byte.
    BadScore(u64),
    /// What stands at this place of a folder's metadata can't stand in an archive; 0 for any other
    /// part of one.
    BadArchive(u64),
    /// A folder is within too many others; the place is 0.
    TooDeep(u64),
    /// A file, or what is kept of a folder's items, is longer than may be; the place is 0.
    TooLong(u64),
    /// The input ended within the line or a message, behind so many bytes.
    Cut(u64),
    /// The input has a wrong byte of the line, or a size below 2, at this place.
    Malformed(u64),
    /// As many bytes came as may be taken.
    Spent(u64),
    /// A read of the stream that is read failed.
    ReadFault,
    /// A file couldn't be read.
    FileFault,
    /// A folder couldn't be had, or a call of it failed.
    FolderFault,
    /// A write failed to the stream where results go.
    WriteFault,
    /// Memory ran out.
    NoMemory,
    /// What stands on a disk is damaged: another value was found than was wanted.
    Damaged {
        want: FieldValue,
        found: FieldValue,
    },
    /// The bucket of a block's score has no room.
    IndexFull,
    /// No arena has room for a block.
    ArenasFull,
    /// The store says no, for this reason.
    Refused(Why),
    /// A block of an archive is refused, for the reason that the text tells.
    NoBlock(Text),
    /// The server at an address wasn't reached, or says no, or something other than what was asked.
    Server(RemoteError),
}

/// The exit status of an outcome.
pub fn status(outcome: &Result<(), CommandError>) -> u8
    ensures { result ≡ status_of outcome.now }
{
    let Err(failure) = outcome else {
        return 0;
    };
    match failure {
        CommandError::BadWords => 1,
        CommandError::BadConf(_) => 2,
        CommandError::NotFormatted { .. }
        | CommandError::TooSmall { .. }
        | CommandError::Disagree { .. }
        | CommandError::SameName { .. } => 3,
        CommandError::DiskFault => 4,
        CommandError::BadNumber(_)
        | CommandError::BadName(_)
        | CommandError::BadScore(_)
        | CommandError::BadArchive(_)
        | CommandError::TooDeep(_)
        | CommandError::TooLong(_)
        | CommandError::Cut(_)
        | CommandError::Malformed(_)
        | CommandError::Spent(_) => 5,
        CommandError::ReadFault | CommandError::FileFault | CommandError::FolderFault => 6,
        CommandError::WriteFault => 7,
        CommandError::NoMemory => 8,
        CommandError::Damaged { .. } => 9,
        CommandError::IndexFull | CommandError::ArenasFull => 10,
        CommandError::Refused(_) | CommandError::NoBlock(_) => 11,
        CommandError::Server(bad) => server_status(bad),
    }
}

/// The exit status where a server is why: 6 where it wasn't reached or a read of its link failed, 7 where a write did,
/// 8 without memory, 9 where a score is another one than was wanted, and else 11: it says no, or nothing that is an
/// answer.
fn server_status(bad: &RemoteError) -> u8
    ensures { result ≡ server_status bad.now }
{
    let RemoteError::Refused(why) = bad else {
        return 6;
    };
    match why {
        ClientErr::ReadFault => 6,
        ClientErr::WriteFault => 7,
        ClientErr::NoMemory => 8,
        ClientErr::WrongScore { .. } => 9,
        ClientErr::Remote(_)
        | ClientErr::Cut
        | ClientErr::BadReply(_)
        | ClientErr::NoVersion
        | ClientErr::Spent => 11,
    }
}
