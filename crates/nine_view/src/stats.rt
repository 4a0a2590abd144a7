//! What is told of files: qids, and stats (stat(5)).

ghost use Rattle.std.specs.Prelude.{◌≡◌, ◌≤◌, length, take};
ghost use Rattle.std.specs.List.{All, flat_map};
ghost use Rattle.nine_wire.specs.Messages.{FitsStat, stat_bytes};
ghost use Rattle.nine_wire.specs.Views.{wire_qid, wire_stat};
ghost use Rattle.nine_view.specs.Files.{is_folder, qid_of, stat_of, stat_in, FitsMessage};
ghost use Rattle.nine_view.specs.Answers.{fitting};

use nine_wire::{Qid, Stat, put_stat};
use vac_read::{Node, Stored};
use vt_out::Item;

/// The bit that a folder's mode has (stat(5)).
const FOLDER: u32 = 0x8000_0000;

/// Whether what is stored is a folder.
pub(crate) fn is_folder(stored: &Stored) -> bool
    ensures { result ≡ is_folder stored.now }
{
    matches!(stored, Stored::Folder { .. })
}

/// A file's qid: whether it is a folder, and its number in the archive.
pub(crate) fn qid_of(node: &Node) -> Qid
    ensures { wire_qid result ≡ qid_of node.now }
{
    Qid {
        is_folder: is_folder(&node.stored),
        path: node.qid,
    }
}

/// What is told of a file (stat(5)).
pub(crate) fn stat_of(node: &Node) -> Stat<'_>
    requires { FitsMessage node.now }
    ensures stat { wire_stat result ≡ stat_of node.now }
    ensures fits { FitsStat (stat_of node.now) }
{
    let mode = node.item.mode;
    Stat {
        qid: qid_of(node),
        mode: if is_folder(&node.stored) {
            FOLDER + mode
        } else {
            mode
        },
        mtime: mtime_of(&node.item),
        len: size_of(node),
        name: node.item.name.as_slice(),
        uid: node.item.uid.as_slice(),
        gid: node.item.gid.as_slice(),
    }
}

/// When an item was changed last, in seconds since 1970.
fn mtime_of(item: &Item) -> u32
    ensures { result ≡ item.now.mtime }
{
    item.mtime
}

/// How many bytes a file has; 0 of a folder.
fn size_of(node: &Node) -> u64
    ensures { result ≡ node.now.size }
{
    node.size
}

/// How many bytes tell of a file, its size field with it.
pub(crate) fn stat_len(stat: &Stat<'_>) -> usize
    requires { FitsStat (wire_stat stat.now) }
    ensures { result ≡ length (stat_bytes (wire_stat stat.now)) }
{
    // 49: the size field's 2, and the 47 of `put_stat` of nine_wire.
    49 + stat.name.len() + 2 * stat.uid.len() + stat.gid.len()
}

/// Writes what is told of files to the front of the buffer, of as many as have room, and says of
/// how many, and in how many bytes.
pub(crate) fn put_files(files: &[Node], room: usize, buf: &mut [u8]) -> (usize, usize)
    requires told { All FitsMessage files.now }
    requires room { room ≤ length buf.old }
    ensures count { result.0 ≡ length (fitting room files.now) }
    ensures len { result.1 ≡ length (flat_map stat_in (fitting room files.now)) }
    ensures written { take result.1 buf.new ≡ flat_map stat_in (fitting room files.now) }
{
    let mut count = 0;
    let mut end = 0;
    for node in files {
        let stat = stat_of(node);
        if stat_len(&stat) > room - end {
            return (count, end);
        }
        end = put_stat(buf, end, &stat);
        count += 1;
    }
    (count, end)
}
