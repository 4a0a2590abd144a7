//! What stands at a path below items in memory.

ghost use Rattle.std.specs.Prelude.{◌≡◌, ◌∷◌, [], IfOk, drop, option_map};
ghost use Rattle.std.specs.Option.{option_copied};
ghost use Rattle.vt_out.specs.FolderItems.{listing_of, inside_of, bytes_of, folder_at, file_at};
ghost use Rattle.vt_out.specs.FolderMemory.{items_in_memory};

use crate::{Item, ItemKind, Listing, MemItem};
use std::alloc::{AllocError, Global};
use vt_base::Text;

impl MemItem {
    /// The item as its folder lists it.
    fn listed(&self, alloc: Global) -> Result<Item, AllocError>
        ensures { IfOk result (λ item. item ∷ [] ≡ listing_of (items_in_memory (self.now ∷ []))) }
    {
        match self {
            MemItem::File(about, _) => about.listed(alloc, ItemKind::File),
            MemItem::Folder(about, _) => about.listed(alloc, ItemKind::Folder),
            MemItem::Other(about) => about.listed(alloc, ItemKind::Other),
        }
    }

    /// The items of a folder, where this is a folder of this name; else None.
    fn inside_of(&self, name: &Text) -> Option<&[MemItem]>
        ensures { option_map (λ inside. items_in_memory inside.now) result
            ≡ inside_of name.now (items_in_memory (self.now ∷ [])) }
    {
        match self {
            MemItem::Folder(about, inside) if about.name.as_slice() == name.as_slice() => {
                Some(inside)
            }
            _ => None,
        }
    }

    /// The bytes of a file, where this is a file of this name; else None.
    fn bytes_of(&self, name: &Text) -> Option<&[u8]>
        ensures { option_copied result ≡ bytes_of name.now (items_in_memory (self.now ∷ [])) }
    {
        match self {
            MemItem::File(about, bytes) if about.name.as_slice() == name.as_slice() => {
                Some(bytes.as_slice())
            }
            _ => None,
        }
    }
}

/// The items as their folder lists them.
#[tactic(auto, using(crate::proofs::FolderHeads::last_listed))]
pub(crate) fn listing(alloc: Global, items: &[MemItem]) -> Result<Listing, AllocError>
    ensures { IfOk result (λ list. list ≡ listing_of (items_in_memory items.now)) }
{
    let mut listing = Vec::with_capacity(alloc, items.len())?;
    for item in items {
        listing.push(item.listed(alloc)?)?;
    }
    Ok(Listing::from_vec(listing))
}

/// The items of the first folder of this name.
#[tactic(auto, using(crate::proofs::FolderHeads::first_inside))]
fn inside_of<'a>(items: &'a [MemItem], name: &Text) -> Option<&'a [MemItem]>
    ensures { option_map (λ inside. items_in_memory inside.now) result
        ≡ inside_of name.now (items_in_memory items.now) }
{
    match items {
        [] => None,
        [first, rest @ ..] => match first.inside_of(name) {
            Some(inside) => Some(inside),
            None => inside_of(rest, name),
        },
    }
}

/// The bytes of the first file of this name.
#[tactic(auto, using(crate::proofs::FolderHeads::first_bytes))]
fn bytes_of<'a>(items: &'a [MemItem], name: &Text) -> Option<&'a [u8]>
    ensures { option_copied result ≡ bytes_of name.now (items_in_memory items.now) }
{
    match items {
        [] => None,
        [first, rest @ ..] => match first.bytes_of(name) {
            Some(bytes) => Some(bytes),
            None => bytes_of(rest, name),
        },
    }
}

/// The items of the folder at a path below these, or None where no folder stands there.
pub(crate) fn folder_at<'a>(items: &'a [MemItem], path: &[Text]) -> Option<&'a [MemItem]>
    ensures { option_map (λ inside. items_in_memory inside.now) result
        ≡ folder_at path.now (items_in_memory items.now) }
{
    match path {
        [] => Some(items),
        [name, rest @ ..] => folder_at(inside_of(items, name)?, rest),
    }
}

/// The bytes of the file at a path below these items, or None where no file stands there.
pub(crate) fn file_at<'a>(items: &'a [MemItem], path: &[Text]) -> Option<&'a [u8]>
    ensures { option_copied result ≡ file_at path.now (items_in_memory items.now) }
{
    match path {
        [] => None,
        [name] => bytes_of(items, name),
        [name, rest @ ..] => file_at(inside_of(items, name)?, rest),
    }
}

/// What stands behind so many bytes.
pub(crate) fn behind(bytes: &[u8], at: u64) -> &[u8]
    ensures { result.now ≡ drop at bytes.now }
{
    &bytes[bytes.len().min(at as usize)..]
}
