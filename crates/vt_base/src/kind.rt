//! The types of blocks.

ghost use Rattle.std.specs.Prelude.{◌≡◌, IfSome, IfNone, is_some};
ghost use Rattle.vt_base.specs.Kind.{IsKind, is_kind};

use std::marker::Model;

/// The type of a block (venti(6)), which contracts see as its number: 1 a root, 2 a directory, 3 to
/// 9 pointer blocks of depth 1 to 7, 13 data.
#[derive(Clone, Copy, Debug, PartialEq, Eq, PartialOrd, Ord, Hash)]
pub struct Kind {
    number: u8,
}

impl Model for Kind {
    ghost use Rattle.std.specs.Prelude.{ℕ};
    ghost use Rattle.vt_base.specs.Kind.{IsKind};

    ghost Value = { ℕ };

    ghost view = { λ k. k.number };

    ghost invariant = { λ k. IsKind k.number };

    ghost inverse = { λ n. record { number = n } };
}

impl Kind {
    /// A root.
    pub const ROOT: Kind = Kind { number: 1 };

    /// A block of a directory stream.
    pub const DIRECTORY: Kind = Kind { number: 2 };

    /// A block of data.
    pub const DATA: Kind = Kind { number: 13 };

    /// The block type of this number; None exactly where it is not 1 to 9 or 13.
    pub fn from_wire(number: u8) -> Option<Self>
        ensures found { IfSome result (λ kind. kind ≡ number) }
        ensures variant { is_some result ≡ is_kind number }
    {
        match number {
            1..=9 | 13 => Some(Kind { number }),
            _ => None,
        }
    }

    /// The number of the block type, the same in messages and on disks.
    pub fn wire(self) -> u8
        ensures number { result ≡ self }
        ensures valid { IsKind result }
    {
        self.number
    }
}

const _: () = prove!(Kind::ROOT.number == 1);

const _: () = prove!(Kind::DIRECTORY.number == 2);

const _: () = prove!(Kind::DATA.number == 13);
