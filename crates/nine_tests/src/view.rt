//! A small archive, served message by message: what is asked and what is replied, in bytes that
//! another encoder has made.

use crate::samples::{Case, Failure, Row, Shown, see_shown, see_talk, serve};
use nine_view::{Ended, View};
use std::alloc::{AllocError, Global};
use std::test::Fail;
use vt_rows::Rows;
use vt_tree::Blocks;

/// What is asked, one message after another, and what is replied.
static ROWS: [Row; 106] = [
    (
        b"\x14\0\0\0h\x01\0\x01\0\0\0\xff\xff\xff\xff\x01\0u\0\0",
        b"\x19\0\0\0k\x01\0\x10\0version expected",
    ),
    (
        b"\x0b\0\0\0x\x01\0\x01\0\0\0",
        b"\x19\0\0\0k\x01\0\x10\0version expected",
    ),
    (
        b"\x09\0\0\0l\x01\0\x07\0",
        b"\x19\0\0\0k\x01\0\x10\0version expected",
    ),
    (
        b"\x07\0\0\0b\x01\0",
        b"\x18\0\0\0k\x01\0\x0f\0unknown message",
    ),
    (
        b"\x09\0\0\0j\x01\0xx",
        b"\x18\0\0\0k\x01\0\x0f\0unknown message",
    ),
    (
        b"\x08\0\0\0d\x01\0\0",
        b"\x14\0\0\0k\x01\0\x0b\0bad message",
    ),
    (
        b"\x13\0\0\0d\xff\xff\xff\0\0\0\x06\09P2000",
        b"\x18\0\0\0k\xff\xff\x0f\0msize too small",
    ),
    (
        b"\x13\0\0\0d\xff\xff\0 \0\0\x06\09P2001",
        b"\x14\0\0\0e\xff\xff\0 \0\0\x07\0unknown",
    ),
    (
        b"\x14\0\0\0h\x01\0\x01\0\0\0\xff\xff\xff\xff\x01\0u\0\0",
        b"\x19\0\0\0k\x01\0\x10\0version expected",
    ),
    (
        b"\x15\0\0\0d\xff\xffp\x11\x01\0\x08\09P2000.u",
        b"\x13\0\0\0e\xff\xff\0\0\x01\0\x06\09P2000",
    ),
    (
        b"\x13\0\0\0d\xff\xff\0 \0\0\x06\09P2000",
        b"\x13\0\0\0e\xff\xff\0 \0\0\x06\09P2000",
    ),
    (
        b"\x10\0\0\0f\x01\0\x05\0\0\0\x01\0u\0\0",
        b"\x1a\0\0\0k\x01\0\x11\0no authentication",
    ),
    (
        b"\x14\0\0\0h\x01\0\x01\0\0\0\x03\0\0\0\x01\0u\0\0",
        b"\x1a\0\0\0k\x01\0\x11\0no authentication",
    ),
    (
        b"\x14\0\0\0h\x01\0\xff\xff\xff\xff\xff\xff\xff\xff\x01\0u\0\0",
        b"\x10\0\0\0k\x01\0\x07\0bad fid",
    ),
    (
        b"\x14\0\0\0h\x01\0\x01\0\0\0\xff\xff\xff\xff\x01\0u\0\0",
        b"\x14\0\0\0i\x01\0\x80\0\0\0\0\0\0\0\0\0\0\0\0",
    ),
    (
        b"\x14\0\0\0h\x01\0\x01\0\0\0\xff\xff\xff\xff\x01\0u\0\0",
        b"\x13\0\0\0k\x01\0\x0a\0fid in use",
    ),
    (
        b"\x0b\0\0\0h\x01\0\x01\0\0\0",
        b"\x14\0\0\0k\x01\0\x0b\0bad message",
    ),
    (b"\x09\0\0\0l\x01\0\x07\0", b"\x07\0\0\0m\x01\0"),
    (
        b"\x11\0\0\0n\x01\0\x09\0\0\0\x02\0\0\0\0\0",
        b"\x14\0\0\0k\x01\0\x0b\0unknown fid",
    ),
    (
        b"\x0c\0\0\0p\x01\0\x09\0\0\0\0",
        b"\x14\0\0\0k\x01\0\x0b\0unknown fid",
    ),
    (
        b"\x13\0\0\0r\x01\0\x09\0\0\0\x01\0n\xa4\x01\0\0\x01",
        b"\x14\0\0\0k\x01\0\x0b\0unknown fid",
    ),
    (
        b"\x17\0\0\0t\x01\0\x09\0\0\0\0\0\0\0\0\0\0\0\x09\0\0\0",
        b"\x14\0\0\0k\x01\0\x0b\0unknown fid",
    ),
    (
        b"\x19\0\0\0v\x01\0\x09\0\0\0\0\0\0\0\0\0\0\0\x02\0\0\0hi",
        b"\x14\0\0\0k\x01\0\x0b\0unknown fid",
    ),
    (
        b"\x0b\0\0\0x\x01\0\x09\0\0\0",
        b"\x14\0\0\0k\x01\0\x0b\0unknown fid",
    ),
    (
        b"\x0b\0\0\0z\x01\0\x09\0\0\0",
        b"\x14\0\0\0k\x01\0\x0b\0unknown fid",
    ),
    (
        b"\x0b\0\0\0|\x01\0\x09\0\0\0",
        b"\x14\0\0\0k\x01\0\x0b\0unknown fid",
    ),
    (
        b"\x10\0\0\0~\x01\0\x09\0\0\0\x03\0abc",
        b"\x14\0\0\0k\x01\0\x0b\0unknown fid",
    ),
    (
        b"\x13\0\0\0r\x01\0\x01\0\0\0\x01\0n\xa4\x01\0\0\x01",
        b"\x1e\0\0\0k\x01\0\x15\0read-only file system",
    ),
    (
        b"\x19\0\0\0v\x01\0\x01\0\0\0\0\0\0\0\0\0\0\0\x02\0\0\0hi",
        b"\x1e\0\0\0k\x01\0\x15\0read-only file system",
    ),
    (
        b"\x10\0\0\0~\x01\0\x01\0\0\0\x03\0abc",
        b"\x1e\0\0\0k\x01\0\x15\0read-only file system",
    ),
    (
        b"D\0\0\0n\x01\0\x01\0\0\0\x02\0\0\0\x11\0\x01\0d\x01\0d\x01\0d\x01\0d\x01\0d\x01\0d\x01\0d\x01\0d\x01\0d\x01\0d\x01\0d\x01\0d\x01\0d\x01\0d\x01\0d\x01\0d\x01\0d",
        b"\x17\0\0\0k\x01\0\x0e\0too many names",
    ),
    (
        b"\x14\0\0\0n\x01\0\x01\0\0\0\xff\xff\xff\xff\x01\0\x01\0d",
        b"\x10\0\0\0k\x01\0\x07\0bad fid",
    ),
    (
        b"\x11\0\0\0n\x01\0\x01\0\0\0\x02\0\0\0\0\0",
        b"\x09\0\0\0o\x01\0\0\0",
    ),
    (
        b"\x14\0\0\0n\x01\0\x01\0\0\0\x02\0\0\0\x01\0\x01\0d",
        b"\x13\0\0\0k\x01\0\x0a\0fid in use",
    ),
    (b"\x0b\0\0\0x\x01\0\x02\0\0\0", b"\x07\0\0\0y\x01\0"),
    (
        b"\x0b\0\0\0x\x01\0\x02\0\0\0",
        b"\x14\0\0\0k\x01\0\x0b\0unknown fid",
    ),
    (
        b"\x17\0\0\0n\x01\0\x01\0\0\0\x02\0\0\0\x02\0\x01\0d\x01\0x",
        b"#\0\0\0o\x01\0\x02\0\x80\0\0\0\0\x03\0\0\0\0\0\0\0\0\0\0\0\0\x04\0\0\0\0\0\0\0",
    ),
    (b"\x0b\0\0\0x\x01\0\x02\0\0\0", b"\x07\0\0\0y\x01\0"),
    (
        b"\x17\0\0\0n\x01\0\x01\0\0\0\x02\0\0\0\x02\0\x01\0d\x01\0y",
        b"\x16\0\0\0o\x01\0\x01\0\x80\0\0\0\0\x03\0\0\0\0\0\0\0",
    ),
    (
        b"\x0b\0\0\0|\x01\0\x02\0\0\0",
        b"\x14\0\0\0k\x01\0\x0b\0unknown fid",
    ),
    (
        b"\x14\0\0\0n\x01\0\x01\0\0\0\x02\0\0\0\x01\0\x01\0y",
        b"\x1c\0\0\0k\x01\0\x13\0file does not exist",
    ),
    (
        b"\x16\0\0\0n\x01\0\x01\0\0\0\x02\0\0\0\x02\0\0\0\x01\0d",
        b"\x1c\0\0\0k\x01\0\x13\0file does not exist",
    ),
    (
        b"\x14\0\0\0n\x01\0\x01\0\0\0\x02\0\0\0\x01\0\x01\0.",
        b"\x1c\0\0\0k\x01\0\x13\0file does not exist",
    ),
    (
        b"\x1f\0\0\0n\x01\0\x01\0\0\0\x02\0\0\0\x04\0\x02\0..\x01\0d\x02\0..\x01\0a",
        b"=\0\0\0o\x01\0\x04\0\x80\0\0\0\0\0\0\0\0\0\0\0\0\x80\0\0\0\0\x03\0\0\0\0\0\0\0\x80\0\0\0\0\0\0\0\0\0\0\0\0\0\0\0\0\0\x01\0\0\0\0\0\0\0",
    ),
    (
        b"\x14\0\0\0n\x01\0\x02\0\0\0\x03\0\0\0\x01\0\x01\0x",
        b"\x18\0\0\0k\x01\0\x0f\0not a directory",
    ),
    (
        b"\x15\0\0\0n\x01\0\x02\0\0\0\x03\0\0\0\x01\0\x02\0..",
        b"\x18\0\0\0k\x01\0\x0f\0not a directory",
    ),
    (
        b"\x11\0\0\0n\x01\0\x02\0\0\0\x03\0\0\0\0\0",
        b"\x09\0\0\0o\x01\0\0\0",
    ),
    (b"\x0b\0\0\0x\x01\0\x03\0\0\0", b"\x07\0\0\0y\x01\0"),
    (
        b"\x1a\0\0\0n\x01\0\x01\0\0\0\x03\0\0\0\x03\0\x01\0d\x01\0x\x01\0z",
        b"#\0\0\0o\x01\0\x02\0\x80\0\0\0\0\x03\0\0\0\0\0\0\0\0\0\0\0\0\x04\0\0\0\0\0\0\0",
    ),
    (
        b"\x0b\0\0\0|\x01\0\x03\0\0\0",
        b"\x14\0\0\0k\x01\0\x0b\0unknown fid",
    ),
    (
        b"I\0\0\0n\x01\0\x01\0\0\0\x03\0\0\0\x10\0\x01\0d\x02\0..\x01\0d\x02\0..\x01\0d\x02\0..\x01\0d\x02\0..\x01\0d\x02\0..\x01\0d\x02\0..\x01\0d\x02\0..\x01\0d\x02\0..",
        b"\xd9\0\0\0o\x01\0\x10\0\x80\0\0\0\0\x03\0\0\0\0\0\0\0\x80\0\0\0\0\0\0\0\0\0\0\0\0\x80\0\0\0\0\x03\0\0\0\0\0\0\0\x80\0\0\0\0\0\0\0\0\0\0\0\0\x80\0\0\0\0\x03\0\0\0\0\0\0\0\x80\0\0\0\0\0\0\0\0\0\0\0\0\x80\0\0\0\0\x03\0\0\0\0\0\0\0\x80\0\0\0\0\0\0\0\0\0\0\0\0\x80\0\0\0\0\x03\0\0\0\0\0\0\0\x80\0\0\0\0\0\0\0\0\0\0\0\0\x80\0\0\0\0\x03\0\0\0\0\0\0\0\x80\0\0\0\0\0\0\0\0\0\0\0\0\x80\0\0\0\0\x03\0\0\0\0\0\0\0\x80\0\0\0\0\0\0\0\0\0\0\0\0\x80\0\0\0\0\x03\0\0\0\0\0\0\0\x80\0\0\0\0\0\0\0\0\0\0\0\0",
    ),
    (
        b"\x0b\0\0\0|\x01\0\x03\0\0\0",
        b"D\0\0\0}\x01\0;\09\0\0\0\0\0\0\0\x80\0\0\0\0\0\0\0\0\0\0\0\0m\x01\0\x80\0\0\0\0\0\0\0\0\0\0\0\0\0\0\0\0\x01\0/\x03\0vac\x03\0vac\x03\0vac",
    ),
    (
        b"\x14\0\0\0n\x01\0\x03\0\0\0\x03\0\0\0\x01\0\x01\0d",
        b"\x16\0\0\0o\x01\0\x01\0\x80\0\0\0\0\x03\0\0\0\0\0\0\0",
    ),
    (
        b"\x0b\0\0\0|\x01\0\x03\0\0\0",
        b">\0\0\0}\x01\05\03\0\0\0\0\0\0\0\x80\0\0\0\0\x03\0\0\0\0\0\0\0\xed\x01\0\x80\x0b\0\0\0\x0b\0\0\0\0\0\0\0\0\0\0\0\x01\0d\x01\0u\x01\0g\x01\0u",
    ),
    (
        b"\x0b\0\0\0|\x01\0\x02\0\0\0",
        b">\0\0\0}\x01\05\03\0\0\0\0\0\0\0\0\0\0\0\0\x01\0\0\0\0\0\0\0\xa4\x01\0\0\x07\0\0\0\x07\0\0\0\0\0\0\0\0\0\0\0\x01\0a\x01\0u\x01\0g\x01\0u",
    ),
    (
        b"\x0c\0\0\0p\x01\0\x03\0\0\0\x01",
        b"\x1e\0\0\0k\x01\0\x15\0read-only file system",
    ),
    (
        b"\x0c\0\0\0p\x01\0\x03\0\0\0\x03",
        b"\x1e\0\0\0k\x01\0\x15\0read-only file system",
    ),
    (
        b"\x0c\0\0\0p\x01\0\x03\0\0\0@",
        b"\x1e\0\0\0k\x01\0\x15\0read-only file system",
    ),
    (
        b"\x17\0\0\0t\x01\0\x03\0\0\0\0\0\0\0\0\0\0\0d\0\0\0",
        b"\x15\0\0\0k\x01\0\x0c\0fid not open",
    ),
    (
        b"\x0c\0\0\0p\x01\0\x03\0\0\0\0",
        b"\x18\0\0\0q\x01\0\x80\0\0\0\0\x03\0\0\0\0\0\0\0\xe8\x1f\0\0",
    ),
    (
        b"\x0c\0\0\0p\x01\0\x03\0\0\0\0",
        b"\x14\0\0\0k\x01\0\x0b\0fid is open",
    ),
    (
        b"\x0c\0\0\0p\x01\0\x03\0\0\0\x01",
        b"\x14\0\0\0k\x01\0\x0b\0fid is open",
    ),
    (
        b"\x11\0\0\0n\x01\0\x03\0\0\0\x04\0\0\0\0\0",
        b"\x14\0\0\0k\x01\0\x0b\0fid is open",
    ),
    (
        b"\x17\0\0\0t\x01\0\x03\0\0\0\x01\0\0\0\0\0\0\0d\0\0\0",
        b"\x13\0\0\0k\x01\0\x0a\0bad offset",
    ),
    (
        b"\x17\0\0\0t\x01\0\x03\0\0\0\0\0\0\0\0\0\0\04\0\0\0",
        b"\x18\0\0\0k\x01\0\x0f\0count too small",
    ),
    (
        b"\x17\0\0\0t\x01\0\x03\0\0\0\0\0\0\0\0\0\0\0d\0\0\0",
        b"@\0\0\0u\x01\05\0\0\03\0\0\0\0\0\0\0\0\0\0\0\0\x04\0\0\0\0\0\0\0\xa4\x01\0\0\x05\0\0\0\x05\0\0\0\x03\0\0\0\0\0\0\0\x01\0x\x01\0u\x01\0g\x01\0u",
    ),
    (
        b"\x17\0\0\0t\x01\0\x03\0\0\05\0\0\0\0\0\0\0d\0\0\0",
        b"\x0b\0\0\0u\x01\0\0\0\0\0",
    ),
    (
        b"\x17\0\0\0t\x01\0\x03\0\0\05\0\0\0\0\0\0\0\0\0\0\0",
        b"\x0b\0\0\0u\x01\0\0\0\0\0",
    ),
    (
        b"\x17\0\0\0t\x01\0\x03\0\0\0\x01\0\0\0\0\0\0\0d\0\0\0",
        b"\x13\0\0\0k\x01\0\x0a\0bad offset",
    ),
    (
        b"\x17\0\0\0t\x01\0\x03\0\0\0\0\0\0\0\0\0\0\0d\0\0\0",
        b"@\0\0\0u\x01\05\0\0\03\0\0\0\0\0\0\0\0\0\0\0\0\x04\0\0\0\0\0\0\0\xa4\x01\0\0\x05\0\0\0\x05\0\0\0\x03\0\0\0\0\0\0\0\x01\0x\x01\0u\x01\0g\x01\0u",
    ),
    (
        b"\x0b\0\0\0z\x01\0\x03\0\0\0",
        b"\x1e\0\0\0k\x01\0\x15\0read-only file system",
    ),
    (
        b"\x0b\0\0\0|\x01\0\x03\0\0\0",
        b"\x14\0\0\0k\x01\0\x0b\0unknown fid",
    ),
    (
        b"\x0c\0\0\0p\x01\0\x01\0\0\0\0",
        b"\x18\0\0\0q\x01\0\x80\0\0\0\0\0\0\0\0\0\0\0\0\xe8\x1f\0\0",
    ),
    (
        b"\x17\0\0\0t\x01\0\x01\0\0\0\0\0\0\0\0\0\0\0j\0\0\0",
        b"u\0\0\0u\x01\0j\0\0\03\0\0\0\0\0\0\0\0\0\0\0\0\x01\0\0\0\0\0\0\0\xa4\x01\0\0\x07\0\0\0\x07\0\0\0\0\0\0\0\0\0\0\0\x01\0a\x01\0u\x01\0g\x01\0u3\0\0\0\0\0\0\0\0\0\0\0\0\x02\0\0\0\0\0\0\0\x80\x01\0\0\x09\0\0\0\x09\0\0\0\x03\0\0\0\0\0\0\0\x01\0b\x01\0u\x01\0g\x01\0u",
    ),
    (
        b"\x17\0\0\0t\x01\0\x01\0\0\0j\0\0\0\0\0\0\05\0\0\0",
        b"@\0\0\0u\x01\05\0\0\03\0\0\0\0\0\0\0\x80\0\0\0\0\x03\0\0\0\0\0\0\0\xed\x01\0\x80\x0b\0\0\0\x0b\0\0\0\0\0\0\0\0\0\0\0\x01\0d\x01\0u\x01\0g\x01\0u",
    ),
    (
        b"\x17\0\0\0t\x01\0\x01\0\0\0\x9f\0\0\0\0\0\0\0\x05\0\0\0",
        b"\x18\0\0\0k\x01\0\x0f\0count too small",
    ),
    (
        b"\x17\0\0\0t\x01\0\x01\0\0\0\x9f\0\0\0\0\0\0\0\xff\xff\xff\xff",
        b"@\0\0\0u\x01\05\0\0\03\0\0\0\0\0\0\0\x80\0\0\0\0\x05\0\0\0\0\0\0\0\xed\x01\0\x80\x0b\0\0\0\x0b\0\0\0\0\0\0\0\0\0\0\0\x01\0e\x01\0u\x01\0g\x01\0u",
    ),
    (
        b"\x17\0\0\0t\x01\0\x01\0\0\0\0\0\0\0\0\0\0\0\0 \0\0",
        b"\xdf\0\0\0u\x01\0\xd4\0\0\03\0\0\0\0\0\0\0\0\0\0\0\0\x01\0\0\0\0\0\0\0\xa4\x01\0\0\x07\0\0\0\x07\0\0\0\0\0\0\0\0\0\0\0\x01\0a\x01\0u\x01\0g\x01\0u3\0\0\0\0\0\0\0\0\0\0\0\0\x02\0\0\0\0\0\0\0\x80\x01\0\0\x09\0\0\0\x09\0\0\0\x03\0\0\0\0\0\0\0\x01\0b\x01\0u\x01\0g\x01\0u3\0\0\0\0\0\0\0\x80\0\0\0\0\x03\0\0\0\0\0\0\0\xed\x01\0\x80\x0b\0\0\0\x0b\0\0\0\0\0\0\0\0\0\0\0\x01\0d\x01\0u\x01\0g\x01\0u3\0\0\0\0\0\0\0\x80\0\0\0\0\x05\0\0\0\0\0\0\0\xed\x01\0\x80\x0b\0\0\0\x0b\0\0\0\0\0\0\0\0\0\0\0\x01\0e\x01\0u\x01\0g\x01\0u",
    ),
    (b"\x0b\0\0\0x\x01\0\x01\0\0\0", b"\x07\0\0\0y\x01\0"),
    (
        b"\x14\0\0\0h\x01\0\x01\0\0\0\xff\xff\xff\xff\x01\0u\0\0",
        b"\x14\0\0\0i\x01\0\x80\0\0\0\0\0\0\0\0\0\0\0\0",
    ),
    (
        b"\x17\0\0\0n\x01\0\x01\0\0\0\x04\0\0\0\x02\0\x01\0d\x01\0x",
        b"#\0\0\0o\x01\0\x02\0\x80\0\0\0\0\x03\0\0\0\0\0\0\0\0\0\0\0\0\x04\0\0\0\0\0\0\0",
    ),
    (
        b"\x0c\0\0\0p\x01\0\x04\0\0\0\x03",
        b"\x18\0\0\0q\x01\0\0\0\0\0\0\x04\0\0\0\0\0\0\0\xe8\x1f\0\0",
    ),
    (
        b"\x17\0\0\0t\x01\0\x04\0\0\0\0\0\0\0\0\0\0\0\x02\0\0\0",
        b"\x0d\0\0\0u\x01\0\x02\0\0\0ab",
    ),
    (
        b"\x17\0\0\0t\x01\0\x04\0\0\0\x01\0\0\0\0\0\0\0\xff\xff\xff\xff",
        b"\x0d\0\0\0u\x01\0\x02\0\0\0bc",
    ),
    (
        b"\x17\0\0\0t\x01\0\x04\0\0\0\x03\0\0\0\0\0\0\0\x09\0\0\0",
        b"\x0b\0\0\0u\x01\0\0\0\0\0",
    ),
    (
        b"\x17\0\0\0t\x01\0\x04\0\0\0\xff\xff\xff\xff\xff\xff\xff\xff\x09\0\0\0",
        b"\x0b\0\0\0u\x01\0\0\0\0\0",
    ),
    (b"\x0b\0\0\0x\x01\0\x04\0\0\0", b"\x07\0\0\0y\x01\0"),
    (
        b"\x14\0\0\0n\x01\0\x01\0\0\0\x04\0\0\0\x01\0\x01\0b",
        b"\x16\0\0\0o\x01\0\x01\0\0\0\0\0\0\x02\0\0\0\0\0\0\0",
    ),
    (
        b"\x0c\0\0\0p\x01\0\x04\0\0\0\0",
        b"\x18\0\0\0q\x01\0\0\0\0\0\0\x02\0\0\0\0\0\0\0\xe8\x1f\0\0",
    ),
    (
        b"\x17\0\0\0t\x01\0\x04\0\0\0\0\0\0\0\0\0\0\0\0\0\0\0",
        b"\x0b\0\0\0u\x01\0\0\0\0\0",
    ),
    (
        b"\x17\0\0\0t\x01\0\x04\0\0\0\x03\0\0\0\0\0\0\0\x05\0\0\0",
        b"\x0b\0\0\0u\x01\0\0\0\0\0",
    ),
    (
        b"\x17\0\0\0t\x01\0\x04\0\0\0\0\0\0\0\0\0\0\0\x05\0\0\0",
        b"\x16\0\0\0k\x01\0\x0d\0no such block",
    ),
    (
        b"\x17\0\0\0t\x01\0\x04\0\0\0\0\0\0\0\0\0\0\0\x05\0\0\0",
        b"\x16\0\0\0k\x01\0\x0d\0no such block",
    ),
    (
        b"\x14\0\0\0n\x01\0\x01\0\0\0\x05\0\0\0\x01\0\x01\0e",
        b"\x16\0\0\0o\x01\0\x01\0\x80\0\0\0\0\x05\0\0\0\0\0\0\0",
    ),
    (
        b"\x14\0\0\0n\x01\0\x05\0\0\0\x06\0\0\0\x01\0\x01\0x",
        b"\x14\0\0\0k\x01\0\x0b\0bad archive",
    ),
    (
        b"\x17\0\0\0n\x01\0\x01\0\0\0\x06\0\0\0\x02\0\x01\0e\x01\0x",
        b"\x14\0\0\0k\x01\0\x0b\0bad archive",
    ),
    (
        b"\x18\0\0\0n\x01\0\x01\0\0\0\x06\0\0\0\x02\0\x01\0e\x02\0..",
        b"#\0\0\0o\x01\0\x02\0\x80\0\0\0\0\x05\0\0\0\0\0\0\0\x80\0\0\0\0\0\0\0\0\0\0\0\0",
    ),
    (
        b"\x0c\0\0\0p\x01\0\x05\0\0\0\0",
        b"\x18\0\0\0q\x01\0\x80\0\0\0\0\x05\0\0\0\0\0\0\0\xe8\x1f\0\0",
    ),
    (
        b"\x17\0\0\0t\x01\0\x05\0\0\0\0\0\0\0\0\0\0\0\0\0\0\0",
        b"\x14\0\0\0k\x01\0\x0b\0bad archive",
    ),
    (
        b"\x13\0\0\0d\xff\xff\0\x01\0\0\x06\09P2000",
        b"\x13\0\0\0e\xff\xff\0\x01\0\0\x06\09P2000",
    ),
    (
        b"\x0b\0\0\0|\x01\0\x01\0\0\0",
        b"\x14\0\0\0k\x01\0\x0b\0unknown fid",
    ),
    (
        b"\x14\0\0\0h\x01\0\x01\0\0\0\xff\xff\xff\xff\x01\0u\0\0",
        b"\x14\0\0\0i\x01\0\x80\0\0\0\0\0\0\0\0\0\0\0\0",
    ),
    (
        b"\x17\0\0\0n\x01\0\x01\0\0\0\x02\0\0\0\x02\0\x01\0d\x01\0x",
        b"#\0\0\0o\x01\0\x02\0\x80\0\0\0\0\x03\0\0\0\0\0\0\0\0\0\0\0\0\x04\0\0\0\0\0\0\0",
    ),
    (
        b"\x0c\0\0\0p\x01\0\x02\0\0\0\0",
        b"\x18\0\0\0q\x01\0\0\0\0\0\0\x04\0\0\0\0\0\0\0\xe8\0\0\0",
    ),
    (
        b"\x0c\0\0\0p\x01\0\x01\0\0\0\0",
        b"\x18\0\0\0q\x01\0\x80\0\0\0\0\0\0\0\0\0\0\0\0\xe8\0\0\0",
    ),
    (
        b"\x17\0\0\0t\x01\0\x01\0\0\0\0\0\0\0\0\0\0\0\0 \0\0",
        b"\xdf\0\0\0u\x01\0\xd4\0\0\03\0\0\0\0\0\0\0\0\0\0\0\0\x01\0\0\0\0\0\0\0\xa4\x01\0\0\x07\0\0\0\x07\0\0\0\0\0\0\0\0\0\0\0\x01\0a\x01\0u\x01\0g\x01\0u3\0\0\0\0\0\0\0\0\0\0\0\0\x02\0\0\0\0\0\0\0\x80\x01\0\0\x09\0\0\0\x09\0\0\0\x03\0\0\0\0\0\0\0\x01\0b\x01\0u\x01\0g\x01\0u3\0\0\0\0\0\0\0\x80\0\0\0\0\x03\0\0\0\0\0\0\0\xed\x01\0\x80\x0b\0\0\0\x0b\0\0\0\0\0\0\0\0\0\0\0\x01\0d\x01\0u\x01\0g\x01\0u3\0\0\0\0\0\0\0\x80\0\0\0\0\x05\0\0\0\0\0\0\0\xed\x01\0\x80\x0b\0\0\0\x0b\0\0\0\0\0\0\0\0\0\0\0\x01\0e\x01\0u\x01\0g\x01\0u",
    ),
];

/// Each message, over a connection of its own, has its reply.
struct Each;

impl Case for Each {
    fn see<B: Blocks>(
        &self,
        alloc: Global,
        view: &mut View,
        blocks: &mut B,
        rows: &mut Rows,
    ) -> Result<(), AllocError> {
        for (n, (asked, replied)) in ROWS.iter().enumerate() {
            let came = serve(alloc, view, blocks, asked, (100, 1000), replied)?;
            rows.nth(n, "the reply", came.is_replied);
            rows.nth(n, "how the connection ends", came.ended == Ended::Closed);
        }
        Ok(())
    }
}

#[test]
fn each_message_has_its_reply(rt: HostRuntime) -> Result<(), Fail> {
    see_shown(rt.alloc(), Shown::Small, Vec::new(rt.alloc()), &Each)
}

/// All messages come over one connection, in pieces of this length.
struct Pieces(usize);

impl Case for Pieces {
    fn see<B: Blocks>(
        &self,
        alloc: Global,
        view: &mut View,
        blocks: &mut B,
        rows: &mut Rows,
    ) -> Result<(), AllocError> {
        let came = see_talk(alloc, view, blocks, &ROWS, self.0, rows)?;
        // The first failure is kept.
        rows.is("the failure", came.failure == Some(Failure::Refused));
        Ok(())
    }
}

#[test]
fn cuts_into_single_bytes_change_nothing(rt: HostRuntime) -> Result<(), Fail> {
    see_shown(rt.alloc(), Shown::Small, Vec::new(rt.alloc()), &Pieces(1))
}

#[test]
fn cuts_into_two_bytes_change_nothing(rt: HostRuntime) -> Result<(), Fail> {
    see_shown(rt.alloc(), Shown::Small, Vec::new(rt.alloc()), &Pieces(2))
}

#[test]
fn cuts_into_three_bytes_change_nothing(rt: HostRuntime) -> Result<(), Fail> {
    see_shown(rt.alloc(), Shown::Small, Vec::new(rt.alloc()), &Pieces(3))
}

#[test]
fn cuts_into_five_bytes_change_nothing(rt: HostRuntime) -> Result<(), Fail> {
    see_shown(rt.alloc(), Shown::Small, Vec::new(rt.alloc()), &Pieces(5))
}

/// Two flushes, and all but the last byte of these.
const TWO: &[u8] = b"\x09\0\0\0\x6c\x01\0\x05\0\x09\0\0\0\x6c\x01\0\x05\0";

const TWO_CUT: &[u8] = b"\x09\0\0\0\x6c\x01\0\x05\0\x09\0\0\0\x6c\x01\0\x05";

/// What comes in, one connection after another, and for how many bytes there is room; how it
/// ends, how many bytes are taken, and how many go out. Where the first reply has no room,
/// nothing is taken behind its message.
const CONNECTIONS: &[(&[u8], usize, Ended, u64, usize)] = &[
    (b"", 9, Ended::Closed, 0, 0),
    (b"\x13", 9, Ended::Cut, 1, 0),
    (b"\x06\0\0", 9, Ended::Cut, 3, 0),
    (b"\x06\0\0\0", 9, Ended::Malformed(0), 4, 0),
    (b"\x01\0\x01\0\0", 9, Ended::Malformed(0), 4, 0),
    (b"\0\0\x01\0", 9, Ended::Cut, 4, 0),
    (
        b"\x13\0\0\0\x64\xff\xff\0\x01\0\0\x06\x009P2000",
        19,
        Ended::Closed,
        19,
        19,
    ),
    (TWO, 99, Ended::Closed, 18, 14),
    (TWO, 9, Ended::WriteFault, 18, 9),
    (TWO, 0, Ended::WriteFault, 9, 0),
    (TWO_CUT, 99, Ended::Cut, 17, 7),
    (
        b"\x09\0\0\0\x6c\x01\0\x05\0\x01\x01\0\0",
        99,
        Ended::Malformed(9),
        13,
        7,
    ),
    (
        b"\x09\0\0\0\x6c\x01\0\x05\0\0\x01\0\0",
        99,
        Ended::Cut,
        13,
        7,
    ),
];

/// Each connection ends so.
struct Connections;

impl Case for Connections {
    fn see<B: Blocks>(
        &self,
        alloc: Global,
        view: &mut View,
        blocks: &mut B,
        rows: &mut Rows,
    ) -> Result<(), AllocError> {
        for (n, (input, room, ended, taken, len)) in CONNECTIONS.iter().enumerate() {
            let came = serve(alloc, view, blocks, input, (3, *room), b"")?;
            rows.nth(n, "how the connection ends", came.ended == *ended);
            rows.nth(n, "how many bytes are taken", came.taken == *taken);
            rows.nth(n, "how many bytes go out", came.len == *len);
        }
        Ok(())
    }
}

#[test]
fn connections_end(rt: HostRuntime) -> Result<(), Fail> {
    see_shown(rt.alloc(), Shown::Small, Vec::new(rt.alloc()), &Connections)
}
