//! Laws of partitions, each the contract of a function that does nothing: what the layers above lean on
//! where they work on the arenas, behind the block of the table. `t` is a table, `c` a file that a crash
//! may leave of the disk.

ghost use Rattle.std.specs.Prelude.{◌≤◌, ℕ, List};
ghost use Rattle.vt_disk.specs.Disk.{ChangesAt};
ghost use Rattle.vt_part.specs.Table.{Table, IsPartition};
ghost use Rattle.vt_part.specs.Laws.{IsUnambiguous, PassesPartitions, PassesPartitionsOnly, PartitionsStay, ArenasFollow, ArenasAreInside, ArenasAreAligned, LayoutsHaveArenas, LayoutsListArenas, LayoutsHaveLengths, LayoutsAreInOrder};

use vt_disk::{BLOCK_LEN, Disk};

/// Bytes are one partition at most, and are one exactly where no test fails. They stay so by
/// whatever is done behind the block.
pub fn partitions_are_told_apart()
    ensures one { IsUnambiguous }
    ensures passes { PassesPartitions }
    ensures only { PassesPartitionsOnly }
    ensures stay { PartitionsStay }
{}

/// A disk that leaves a partition in every image leaves it there by whatever is done behind the
/// block.
pub fn partitions_stay_on_disks<D: Disk>()
    ensures { (t : Table) (before after : D)
        → ChangesAt (λ i. BLOCK_LEN ≤ i) (D.images before) (D.images after)
        → ((c : List ℕ) → D.images before c → IsPartition t c)
        → (c : List ℕ) → D.images after c → IsPartition t c }
{}

/// The regions of a partition's arenas are one behind the other, behind the block and inside the
/// disk, and begin and end between two sectors.
pub fn arenas_are_apart()
    ensures follow { ArenasFollow }
    ensures inside { ArenasAreInside }
    ensures aligned { ArenasAreAligned }
{}

/// A layout has the regions of the partitions' arenas, all of them and nothing else, and no two of
/// them overlap.
pub fn layouts_are_in_order()
    ensures arenas { LayoutsHaveArenas }
    ensures listed { LayoutsListArenas }
    ensures lengths { LayoutsHaveLengths }
    ensures order { LayoutsAreInOrder }
{}
