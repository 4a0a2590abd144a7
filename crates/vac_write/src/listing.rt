//! The items of a folder, in order and tested.

ghost use Rattle.std.specs.Prelude.{◌≡◌, ◌-◌, ◌^◌, min};
ghost use Rattle.std.specs.Prelude.{IfOk, IfErr, OnOk, IsTrue, None, position};
ghost use Rattle.std.specs.Cmp.Lexicographic.{slice_cmp};
ghost use Rattle.std.specs.Option.{option_copied};
ghost use Rattle.std.specs.Ordering.{nat_cmp};
ghost use Rattle.vt_base.specs.Faults.{CountsFault};
ghost use Rattle.vt_out.specs.declared.folder_item.Facts.{Facts};
ghost use Rattle.vt_out.specs.FolderItems.{Items, listing_of};
ghost use Rattle.vac_meta.specs.Records.{is_barred};
ghost use Rattle.vac_model.specs.Kept.{path_to};
ghost use Rattle.vac_model.specs.Limits.{first_bad_item, is_bad_name, is_bad_behind};
ghost use Rattle.vac_write.specs.Archiving.{is_folder_fault};
ghost use Rattle.vac_write.specs.Listing.{AreListed, joined_path, metadata_len, IsNotListed};
ghost use Rattle.vac_write.specs.Listing.{has_bad_owner, record_len};

use crate::VacErr;
use std::alloc::{AllocError, Global};
use std::cmp::Ordering;
use vac_meta::MAX_NAME;
use vac_model::MAX_METADATA;
use vt_base::Text;
use vt_out::{Folder, Item, ItemKind};
use vt_tree::TreeErr;

/// How many bytes a record has beside its texts.
const RECORD_LEN: usize = 27;

/// The items of the folder at this path, in the order of their names' bytes; or the first that
/// can't stand in an archive, or that their metadata is too long.
pub(crate) fn items_at<F: Folder>(
    alloc: Global,
    folder: &mut F,
    path: &[Text],
) -> Result<Vec<Item>, VacErr>
    ensures listed { IfOk result
        (λ items. AreListed F.tells (F.holds folder.old) path.now items.items) }
    ensures refused { IfErr result
        (IsNotListed F.tells (F.holds folder.old) (F.may_fail folder.old) path.now) }
    ensures cause { CountsFault is_folder_fault result
        (F.faults folder.old) (F.faults folder.new) }
    ensures stays { IsTrue F.tells → F.holds folder.new ≡ F.holds folder.old }
    ensures paths { IsTrue F.tells → F.may_fail folder.new ≡ F.may_fail folder.old }
{
    let mut items = folder.list(alloc, path)?.into_vec();
    items.sort_by(by_name)?;
    if let Some(name) = first_bad(&items) {
        return Err(VacErr::BadName(path_to(alloc, path, name)?));
    }
    if metadata_len(&items) > MAX_METADATA {
        return Err(VacErr::Tree(TreeErr::TooLong));
    }
    Ok(items)
}

/// The order of two items by the bytes of their names, in which an archive lists them.
fn by_name(a: &Item, b: &Item) -> Ordering
    ensures { result ≡ slice_cmp nat_cmp a.now.name b.now.name }
{
    a.name.as_slice().cmp(b.name.as_slice())
}

/// The name of the first item that can't stand in an archive.
fn first_bad(items: &[Item]) -> Option<&[u8]>
    ensures { (seen : Items Facts) → items.now ≡ listing_of seen
        → option_copied result ≡ first_bad_item None seen }
{
    let mut last: Option<&[u8]> = None;
    for item in items {
        let name = item.name.as_slice();
        if is_bad_behind(last, name) || has_bad_owner(item) {
            return Some(name);
        }
        last = Some(name);
    }
    None
}

/// Whether a name can't stand behind this one, if there is one.
fn is_bad_behind(last: Option<&[u8]>, name: &[u8]) -> bool
    ensures { result ≡ is_bad_behind (option_copied last.entry) name.now }
{
    match last {
        Some(last) => is_bad_name(name) || last == name,
        None => is_bad_name(name),
    }
}

/// Whether no item may have this name.
fn is_bad_name(name: &[u8]) -> bool
    ensures { result ≡ is_bad_name name.now }
{
    name.is_empty() || name.len() > MAX_NAME || first_barred(name).is_some()
}

/// The place of the first byte that no name has.
fn first_barred(name: &[u8]) -> Option<usize>
    ensures { result ≡ position is_barred name.now }
{
    name.iter().position(|b| *b == b'/' || *b == 0)
}

/// Whether a file or a folder has a uid or a gid that is too long.
fn has_bad_owner(item: &Item) -> bool
    ensures { result ≡ has_bad_owner item.now }
{
    match item.kind {
        ItemKind::File | ItemKind::Folder => {
            item.uid.len() > MAX_NAME || item.gid.len() > MAX_NAME
        }
        ItemKind::Other => false,
    }
}

/// How many bytes the metadata of these items has, or the most that can be counted.
fn metadata_len(items: &[Item]) -> usize
    ensures { (seen : Items Facts) → items.now ≡ listing_of seen
        → result ≡ min (metadata_len seen) (2 ^ 64 - 1) }
{
    let mut len = 0usize;
    for item in items {
        len = len.saturating_add(record_len(item));
    }
    len
}

/// How many bytes the record of an item has, none where it has no record, or the most that can be
/// counted.
fn record_len(item: &Item) -> usize
    ensures { result ≡ min (record_len item.now) (2 ^ 64 - 1) }
{
    match item.kind {
        ItemKind::File | ItemKind::Folder => RECORD_LEN
            .saturating_add(item.name.len())
            .saturating_add(item.uid.len())
            .saturating_add(item.gid.len()),
        ItemKind::Other => 0,
    }
}

/// The path of an item of this name in the folder at this path, with slashes between the names.
pub(crate) fn path_to(alloc: Global, path: &[Text], name: &[u8]) -> Result<Text, AllocError>
    ensures { IfOk result (λ text. text ≡ path_to (joined_path path.now) name.now) }
{
    let mut whole = Vec::new(alloc);
    for above in path {
        put_name(&mut whole, above.as_slice())?;
    }
    put_name(&mut whole, name)?;
    Ok(Text::from_vec(whole))
}

/// Puts a name behind a path.
fn put_name(path: &mut Vec<u8>, name: &[u8]) -> Result<(), AllocError>
    ensures { OnOk result (path.new.items ≡ path_to path.old.items name.now) }
{
    if !path.is_empty() {
        path.push(b'/')?;
    }
    path.extend_from_slice(name)?;
    Ok(())
}
