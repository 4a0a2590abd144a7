//! What a folder lists.

use std::alloc::{AllocError, Global};
use std::marker::Model;
use vt_base::Text;

/// What an item of a folder is.
#[derive(Clone, Copy, Debug, PartialEq, Eq)]
pub enum ItemKind {
    /// A regular file.
    File,
    Folder,
    /// Neither, as a link or a device.
    Other,
}

/// What a host says of an item of a folder (stat(5)).
#[derive(Drop)]
pub struct Item {
    pub name: Text,
    pub kind: ItemKind,
    /// Its permissions are the low nine bits.
    pub mode: u32,
    /// When it was changed last, in seconds since 1970.
    pub mtime: u32,
    /// The name of its owner or, where none is known, the digits of its number.
    pub uid: Text,
    /// The name of its group, or such digits.
    pub gid: Text,
}

/// What is known of an item, beside what it is.
#[derive(Drop)]
pub struct Facts {
    pub name: Text,
    /// Its permissions are the low nine bits.
    pub mode: u32,
    /// When it was changed last, in seconds since 1970.
    pub mtime: u32,
    /// The name of its owner.
    pub uid: Text,
    /// The name of its group.
    pub gid: Text,
}

impl Facts {
    ghost use Rattle.std.specs.Prelude.{◌≡◌, IfOk};
    ghost use Rattle.vt_out.specs.FolderItems.{listed_item};

    /// An item of this kind, as a folder lists it.
    pub fn listed(&self, alloc: Global, kind: ItemKind) -> Result<Item, AllocError>
        ensures { IfOk result (λ item. item ≡ listed_item self.now kind) }
    {
        Ok(Item {
            name: Text::copy_of(alloc, self.name.as_slice())?,
            kind,
            mode: self.mode,
            mtime: self.mtime,
            uid: Text::copy_of(alloc, self.uid.as_slice())?,
            gid: Text::copy_of(alloc, self.gid.as_slice())?,
        })
    }
}

/// The items of a folder, which contracts see as a list.
#[derive(Drop)]
pub struct Listing {
    /// In the host's order.
    items: Vec<Item>,
}

impl Model for Listing {
    ghost use Rattle.std.specs.Prelude.{List};
    ghost use Rattle.vt_out.specs.declared.folder_item.Item.{Item};

    ghost Value = { List Item };

    ghost view = { λ l. l.items.items };
}

impl Listing {
    ghost use Rattle.std.specs.Prelude.{◌≡◌};

    /// These items, with the memory that they are in.
    pub fn from_vec(items: Vec<Item>) -> Self
        ensures { result ≡ items.items }
    {
        Listing { items }
    }

    /// The items, given back with their memory.
    pub fn into_vec(self) -> Vec<Item>
        ensures { result.items ≡ self }
    {
        self.items
    }

    /// Lends the items, in the order in which the folder listed them.
    pub fn as_slice(&self) -> &[Item]
        ensures { result.now ≡ self.now }
    {
        &self.items
    }
}
