//! What the clients of tests send, and what they are told: lines and messages of venti(6).

use crate::bits::Bits;

/// The client's line.
pub const LINE: &[u8] = b"venti-02-test\n";

/// A client's hello, which names version 02 and nobody.
pub const HELLO: &[u8] = b"\x00\x0b\x04\x00\x00\x0202\x00\x00\x00\x00\x00";

/// The line of our server.
pub const OUR_LINE: &[u8] = b"venti-02-rattle\n";

/// What is replied to a hello.
pub const WELCOME: &[u8] = b"\x00\x0f\x05\x00\x00\x09anonymous\x00\x00";

/// A write of `abc` as a block of type 13.
pub const WRITE_ABC: &[u8] = b"\x00\x09\x0e\x01\x0d\x00\x00\x00abc";

/// What is replied to it: the score of `abc`.
pub const WROTE_ABC: &[u8] = b"\x00\x16\x0f\x01\
\xa9\x99\x3e\x36\x47\x06\x81\x6a\xba\x3e\x25\x71\x78\x50\xc2\x6c\x9c\xd0\xd8\x9d";

/// A read of that score and type, of three bytes at most.
pub const READ_ABC: &[u8] = b"\x00\x1a\x0c\x02\
\xa9\x99\x3e\x36\x47\x06\x81\x6a\xba\x3e\x25\x71\x78\x50\xc2\x6c\x9c\xd0\xd8\x9d\
\x0d\x00\x00\x03";

/// What is replied to it.
pub const GAVE_ABC: &[u8] = b"\x00\x05\x0d\x02abc";

/// A write of `abd` as a block of type 13.
pub const WRITE_ABD: &[u8] = b"\x00\x09\x0e\x01\x0d\x00\x00\x00abd";

/// What is replied to it: the score of `abd`.
pub const WROTE_ABD: &[u8] = b"\x00\x16\x0f\x01\
\xcb\x4c\xc2\x8d\xf0\xfd\xbe\x0e\xcf\x9d\x96\x62\xe2\x94\xb1\x18\x09\x2a\x57\x35";

/// A read of that score and type, of three bytes at most.
pub const READ_ABD: &[u8] = b"\x00\x1a\x0c\x02\
\xcb\x4c\xc2\x8d\xf0\xfd\xbe\x0e\xcf\x9d\x96\x62\xe2\x94\xb1\x18\x09\x2a\x57\x35\
\x0d\x00\x00\x03";

/// What is replied to it.
pub const GAVE_ABD: &[u8] = b"\x00\x05\x0d\x02abd";

/// What is replied to either read where there is no such block.
pub const ABSENT: &[u8] = b"\x00\x11\x01\x02\x00\x0dno such block";

pub const SYNC: &[u8] = b"\x00\x02\x10\x03";

pub const SYNCED: &[u8] = b"\x00\x02\x11\x03";

/// The end of a session, to which nothing is replied.
pub const GOODBYE: &[u8] = b"\x00\x02\x06\x04";

/// A session of two writes, a sync and a read.
pub const SCRIPT: Bits = &[LINE, HELLO, WRITE_ABC, WRITE_ABD, SYNC, READ_ABC, GOODBYE];

/// What is said in it.
pub const SCRIPT_REPLIES: Bits = &[OUR_LINE, WELCOME, WROTE_ABC, WROTE_ABD, SYNCED, GAVE_ABC];
