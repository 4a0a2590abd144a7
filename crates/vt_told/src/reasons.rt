//! Why a call of the system failed, in words.

use crate::teller::Call;
use std::io;
use std::io::ErrorKind;

/// The reason, where it has words. None is where the system's number alone tells it, if there is one.
pub fn reason(call: Call, why: &io::Error) -> Option<&'static str> {
    match (call, why.kind()) {
        (Call::Lock, ErrorKind::WouldBlock) => Some("locked already, by this process or another"),
        (Call::Connect, ErrorKind::Uncategorized) if why.raw_os_error().is_none() => {
            Some("no address found")
        }
        (_, ErrorKind::Uncategorized) => of_number(why),
        (_, kind) => of_file(kind).or(of_peer(kind)),
    }
}

/// Of a number of Linux that is of no kind (errno(3)).
fn of_number(why: &io::Error) -> Option<&'static str> {
    match why.raw_os_error()? {
        5 => Some("input or output error"),
        6 | 19 => Some("no such device"),
        9 => Some("not open"),
        23 | 24 => Some("too many open files"),
        _ => None,
    }
}

/// Of a file, a folder or any stream.
fn of_file(kind: ErrorKind) -> Option<&'static str> {
    Some(match kind {
        ErrorKind::NotFound => "no such file or folder",
        ErrorKind::PermissionDenied => "permission denied",
        ErrorKind::NotADirectory => "not a folder",
        ErrorKind::IsADirectory => "is a folder",
        ErrorKind::ReadOnlyFilesystem => "read-only file system",
        ErrorKind::FilesystemLoop | ErrorKind::TooManyLinks => "too many links",
        ErrorKind::InvalidFilename => "name too long",
        ErrorKind::InvalidInput => "bad argument",
        ErrorKind::StorageFull => "no space left",
        ErrorKind::QuotaExceeded => "quota exceeded",
        ErrorKind::FileTooLarge => "file too large",
        ErrorKind::NotSeekable => "not seekable",
        ErrorKind::ResourceBusy | ErrorKind::ExecutableFileBusy => "in use",
        ErrorKind::StaleNetworkFileHandle => "no longer there",
        ErrorKind::WouldBlock => "would block",
        ErrorKind::UnexpectedEof => "ends too early",
        ErrorKind::WriteZero => "nothing was written",
        ErrorKind::Unsupported => "not supported",
        ErrorKind::Interrupted => "interrupted",
        ErrorKind::OutOfMemory => "no memory",
        _ => return None,
    })
}

/// Of a connection, or a stream that another process has the other end of.
fn of_peer(kind: ErrorKind) -> Option<&'static str> {
    Some(match kind {
        ErrorKind::ConnectionRefused => "connection refused",
        ErrorKind::ConnectionReset => "connection reset",
        ErrorKind::ConnectionAborted => "connection aborted",
        ErrorKind::NotConnected => "not connected",
        ErrorKind::HostUnreachable => "host unreachable",
        ErrorKind::NetworkUnreachable => "network unreachable",
        ErrorKind::NetworkDown => "network down",
        ErrorKind::AddrInUse => "address in use",
        ErrorKind::AddrNotAvailable => "address not available",
        ErrorKind::TimedOut => "timed out",
        ErrorKind::BrokenPipe => "broken pipe",
        _ => return None,
    })
}
