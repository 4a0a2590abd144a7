//! Partitions in memory that tests make and format.

ghost use Rattle.std.specs.Prelude.{IfSome};
ghost use Rattle.vt_part.specs.Table.{IsArenaSize, IsPartName};

use std::alloc::Global;
use vt_base::{MountBad, Sha1Scorer, Text};
use vt_conf::parse_conf;
use vt_format::laws::configurations_number_their_files;
use vt_format::{
    Index, IndexError, format_arenas, format_filter, format_index, format_section,
    parse_arena_size, parse_filter_size, parse_name, parse_positions,
};
use vt_memdisk::{Listed, MemDisk};
use vt_out::Silent;
use vt_partitions::{Failing, MemParts, Parts};
use vt_rows::Rows;

/// Partitions, and what formatting them answers. None says that memory is wanting, or that a word
/// isn't taken. What is done to them is proved for any such, which is much less work than for those
/// in memory, and runs on those.
#[derive(Drop)]
pub struct Made<P> {
    pub alloc: Global,
    pub parts: P,
}

pub type InMemory = MemParts<MemDisk<Listed>, Failing<Global>>;

/// Those in memory, of which there are none yet.
pub fn in_memory(alloc: Global) -> Made<InMemory> {
    let maker = Failing::new(Vec::new(alloc));
    Made {
        alloc,
        parts: MemParts::new(alloc, maker),
    }
}

/// A disk of so many zero bytes, of which this call fails.
fn failing_disk(alloc: Global, len: u64, call: u64) -> Option<MemDisk<Listed>> {
    let calls = vec![in alloc; call; 1].ok()?;
    MemDisk::failing(alloc, len, calls).ok()
}

/// It is the only one.
pub fn failing(alloc: Global, file: &[u8], len: u64, call: u64) -> Option<Made<InMemory>> {
    let file = Text::copy_of(alloc, file).ok()?;
    let disk = failing_disk(alloc, len, call)?;
    let made = in_memory(alloc);
    let parts = made.parts.with(file, disk).ok()?;
    Some(Made { alloc, parts })
}

/// What a partition is to be.
#[derive(Clone, Copy)]
pub enum Form {
    Arenas,
    Section,
    Filter,
}

/// A partition that is made: what a row says of it, what it is to be, its file, its name, how many
/// bytes it is to have, and what is wanted: how many arenas or buckets it has, or why it isn't made.
pub type Making<'a> = (
    &'static str,
    Form,
    &'a [u8],
    &'a [u8],
    u64,
    Result<u32, MountBad>,
);

/// Makes partitions, and notes whether that is answered as is wanted.
pub fn make_all<P: Parts>(to: &mut Made<P>, making: &[Making<'_>], rows: &mut Rows) {
    for (row, (what, form, file, name, len, wanted)) in making.iter().enumerate() {
        rows.nth(row, what, to.make(*form, file, name, *len) == Some(*wanted));
    }
}

/// A name that a partition may have.
fn name_of(alloc: Global, name: &[u8]) -> Option<Text>
    ensures { IfSome result IsPartName }
{
    let Ok(name) = Text::copy_of(alloc, name) else {
        return None;
    };
    if parse_name(name.as_slice()).is_err() {
        return None;
    }
    Some(name)
}

/// The size of an arena.
fn arena_size() -> Option<u64>
    ensures { IfSome result IsArenaSize }
{
    match parse_arena_size(b"32768") {
        Ok(size) => Some(size),
        Err(_) => None,
    }
}

impl<P: Parts> Made<P> {
    /// Makes a partition. A filter has no parts.
    fn make(
        &mut self,
        form: Form,
        file: &[u8],
        name: &[u8],
        len: u64,
    ) -> Option<Result<u32, MountBad>> {
        match form {
            Form::Arenas => self.arenas(file, name, len),
            Form::Section => self.section(file, name, len),
            Form::Filter => match self.filter(file)? {
                Ok(()) => Some(Ok(0)),
                Err(bad) => Some(Err(bad)),
            },
        }
    }

    /// Makes a partition of so many bytes one of arenas of 32,768 bytes, which has a name.
    pub fn arenas(&mut self, file: &[u8], name: &[u8], len: u64) -> Option<Result<u32, MountBad>> {
        let size = arena_size()?;
        let name = name_of(self.alloc, name)?;
        let file = Text::copy_of(self.alloc, file).ok()?;
        Some(format_arenas(self.alloc, &mut self.parts, &file, &name, len, size))
    }

    /// Makes one of so many bytes a section that isn't in use, which has a name.
    pub fn section(&mut self, file: &[u8], name: &[u8], len: u64) -> Option<Result<u32, MountBad>> {
        let name = name_of(self.alloc, name)?;
        let file = Text::copy_of(self.alloc, file).ok()?;
        Some(format_section(self.alloc, &mut self.parts, &file, &name, len))
    }

    /// Makes one a filter of 8,192 bytes, of which a score has eight bits.
    pub fn filter(&mut self, file: &[u8]) -> Option<Result<(), MountBad>> {
        let size = parse_filter_size(b"8192").ok()?;
        let positions = parse_positions(b"8").ok()?;
        let file = Text::copy_of(self.alloc, file).ok()?;
        Some(format_filter(self.alloc, &mut self.parts, &file, size, positions))
    }

    /// Makes a partition of one arena, and a section of one bucket.
    pub fn makes_two(&mut self) -> bool {
        self.arenas(b"a", b"a", 40_960) == Some(Ok(1))
            && self.section(b"i", b"i", 41_472) == Some(Ok(1))
    }

    /// Puts the sections of a configuration to use.
    pub fn index(&mut self, text: &[u8]) -> Option<Result<Index, IndexError>> {
        configurations_number_their_files();
        let Ok(conf) = parse_conf(self.alloc, text) else {
            return None;
        };
        let (alloc, parts) = (self.alloc, &mut self.parts);
        Some(format_index(alloc, parts, Sha1Scorer, &mut Silent, &conf))
    }
}
