//! Items of folders that are archived.

use std::alloc::{AllocError, Global};
use vt_base::Text;
use vt_out::{Facts, MemContent, MemItem};

/// What is told of an item: its name, its mode, and its owner's name.
pub type About<'a> = (&'a [u8], u32, &'a [u8]);

/// What is told of an item of the group `g`.
fn facts(alloc: Global, about: About<'_>) -> Result<Facts, AllocError> {
    let (name, mode, owner) = about;
    let name = Text::copy_of(alloc, name)?;
    let uid = Text::copy_of(alloc, owner)?;
    let gid = Text::copy_of(alloc, b"g")?;
    Ok(Facts {
        name,
        mode,
        mtime: 7,
        uid,
        gid,
    })
}

/// A file of these bytes.
pub fn file(alloc: Global, about: About<'_>, content: Vec<u8>) -> Result<MemItem, AllocError> {
    let about = facts(alloc, about)?;
    Ok(MemItem::File(about, MemContent::from_vec(content)))
}

/// A folder with these items.
pub fn folder(alloc: Global, about: About<'_>, items: Vec<MemItem>) -> Result<MemItem, AllocError> {
    let about = facts(alloc, about)?;
    Ok(MemItem::Folder(about, items))
}

/// An item that is no file and no folder.
pub fn other(alloc: Global, about: About<'_>) -> Result<MemItem, AllocError> {
    Ok(MemItem::Other(facts(alloc, about)?))
}

/// Two items.
pub fn two(alloc: Global, first: MemItem, second: MemItem) -> Result<Vec<MemItem>, AllocError> {
    let mut items = Vec::new(alloc);
    items.push(first)?;
    items.push(second)?;
    Ok(items)
}

/// One item.
pub fn one(alloc: Global, item: MemItem) -> Result<Vec<MemItem>, AllocError> {
    let mut items = Vec::new(alloc);
    items.push(item)?;
    Ok(items)
}
