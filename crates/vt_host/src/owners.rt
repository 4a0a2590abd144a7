//! The names of users and groups.

ghost use Rattle.std.specs.Prelude.{◌≡◌, ◌<◌, ◌≤◌, [], length, IfOk, IfSome, IfNone};
ghost use Rattle.std.specs.List.{before_first, after_first, position};
ghost use Rattle.vt_host.specs.Cutting.{is_byte};
ghost use Rattle.vt_host.specs.Owning.{NamesOwner};
ghost use Rattle.vt_host.specs.declared.owners.Owner.{Owner};

use std::alloc::{AllocError, Global};
use vt_base::Text;
use vt_conf::parse_number;

/// The name of a number.
#[derive(Drop)]
pub struct Owner {
    /// A user's number, or a group's.
    pub id: u32,
    pub name: Text,
}

/// What a file such as `/etc/passwd` or `/etc/group` says: in each line, parted by colons, a name,
/// what isn't looked at, a number, and more (passwd(5), group(5)).
#[derive(Drop)]
pub struct Owners {
    /// In the order of the lines; of two of one number, the first is meant.
    pub owners: Vec<Owner>,
}

impl Owners {
    ghost use Rattle.std.specs.Prelude.{◌≡◌, IfOk};
    ghost use Rattle.vt_host.specs.Owning.{OwnersIn, owner_name};

    /// What the lines of a file say. A line that is none of a number is skipped.
    pub fn from_lines(alloc: Global, lines: &[u8]) -> Result<Self, AllocError>
        ensures { IfOk result (λ owners. OwnersIn lines.now owners.owners.items) }
    {
        let mut owners = Vec::new(alloc);
        let mut rest = lines;
        while !rest.is_empty() {
            let (line, behind) = cut(rest, b'\n');
            if let Some((name, id)) = owner_in(line) {
                let name = Text::copy_of(alloc, name)?;
                owners.push(Owner { id, name })?;
            }
            rest = behind;
        }
        Ok(Owners { owners })
    }

    /// The name of a number, by the first line that has it; where none has, its digits.
    pub fn name_of(&self, alloc: Global, id: u32) -> Result<Text, AllocError>
        ensures { IfOk result (λ name. name ≡ owner_name self.now.owners.items id) }
    {
        for owner in &self.owners {
            if owner.id == id {
                return Text::copy_of(alloc, owner.name.as_slice());
            }
        }
        let digits = format!(in alloc; "{id}")?;
        Text::copy_of(alloc, digits.as_bytes())
    }
}

/// What a line says, if it is that of a name and a number.
fn owner_in(line: &[u8]) -> Option<(&[u8], u32)>
    ensures named { IfSome result (λ found. NamesOwner line.now
        (record { id = found.1; name = found.0.now })) }
    ensures none { IfNone result ((owner : Owner) → ¬ NamesOwner line.now owner) }
{
    let (name, behind) = cut(line, b':');
    let (_, behind) = cut(behind, b':');
    let (digits, _) = cut(behind, b':');
    let id = parse_number(digits, 0, u64::from(u32::MAX)).ok()?;
    Some((name, id as u32))
}

/// The bytes before the first one that is this byte, and those behind it; where there is none, all,
/// and none.
pub(crate) fn cut(bytes: &[u8], separator: u8) -> (&[u8], &[u8])
    ensures front { result.0.now ≡ before_first (is_byte separator) bytes.now }
    ensures rest { result.1.now ≡ after_first (is_byte separator) bytes.now }

    // (for loops, which end by it)
    ensures shorter { 0 < length bytes.now → length result.1.now < length bytes.now }
{
    match place_of(bytes, separator) {
        Some(place) => (&bytes[..place], &bytes[place + 1..]),
        None => (bytes, &[]),
    }
}

/// The place of the first byte that is this byte.
fn place_of(bytes: &[u8], separator: u8) -> Option<usize>
    ensures place { result ≡ position (is_byte separator) bytes.now }
    ensures within { IfSome result (λ place. place < length bytes.now) }
{
    bytes.iter().position(|byte| *byte == separator)
}
