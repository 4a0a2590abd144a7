//! The arenas of a list of partitions.

ghost use Rattle.std.specs.Prelude.{◌≡◌, ◌^◌, ◌<◌, ◌≤◌, ◌++◌, ℕ, length, IfOk, IfErr, OnOk, IfSome, IfNone};
ghost use Rattle.vt_part.specs.Layout.{arenas_of_table, layout_of, AreNamesakes, AreFirstNamesakes, AreDistinct, RefusesList};
ghost use Rattle.vt_part.specs.Parts.{table_of, tables_of, names_of};

use crate::error::PartBad;
use crate::layout::{ArenaRegion, Layout};
use crate::part::Part;
use std::alloc::Global;

/// The regions of all arenas of these partitions.
pub fn list<D>(alloc: Global, parts: &[Part<D>]) -> Result<Layout, PartBad>
    requires { length parts.now < 2 ^ 32 }
    ensures listed { IfOk result (λ layout. layout ≡ layout_of (tables_of parts.now)) }
    ensures distinct { OnOk result (AreDistinct (names_of parts.now)) }
    ensures refused { IfErr result (RefusesList (names_of parts.now)) }
{
    if let Some((first, second)) = first_namesakes(parts) {
        return Err(PartBad::DuplicateName { first, second });
    }
    let mut arenas = Vec::new(alloc);
    for (number, part) in parts.iter().enumerate() {
        push_arenas(&mut arenas, number as u32, part)?;
    }
    Ok(Layout::from_vec(arenas))
}

/// The first two partitions of one name.
fn first_namesakes<D>(parts: &[Part<D>]) -> Option<(u32, u32)>
    requires { length parts.now < 2 ^ 32 }
    ensures found { IfSome result (λ pair. AreFirstNamesakes (names_of parts.now) pair.0 pair.1) }
    ensures none { IfNone result (AreDistinct (names_of parts.now)) }
{
    for first in 0..parts.len() {
        if let Some(second) = namesake(parts, first) {
            return Some((first as u32, second as u32));
        }
    }
    None
}

/// The first partition behind this one that has its name.
fn namesake<D>(parts: &[Part<D>], first: usize) -> Option<usize>
    requires within { first < length parts.now }
    requires most { length parts.now < 2 ^ 32 }
    ensures found { IfSome result (AreNamesakes (names_of parts.now) first) }
    ensures least { IfSome result
        (λ second. (l : ℕ) → AreNamesakes (names_of parts.now) first l → second ≤ l) }
    ensures none { IfNone result ((l : ℕ) → ¬ AreNamesakes (names_of parts.now) first l) }
{
    for second in first + 1..parts.len() {
        if parts[second].name() == parts[first].name() {
            return Some(second);
        }
    }
    None
}

/// Puts the regions of a partition's arenas behind those that are there.
fn push_arenas<D>(arenas: &mut Vec<ArenaRegion>, number: u32, part: &Part<D>) -> Result<(), PartBad>
    ensures pushed { OnOk result
        (arenas.new.items ≡ arenas.old.items ++ arenas_of_table number (table_of part.now)) }
    ensures refused { IfErr result (λ bad. bad ≡ PartBad.NoMemory) }
{
    for arena in 0..part.count() {
        arenas.push(ArenaRegion {
            part: number,
            number: arena,
            region: part.region(arena),
        })?;
    }
    Ok(())
}
