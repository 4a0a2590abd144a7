//! A folder of the system, with all that is in it.

ghost use Rattle.std.specs.Prelude.{◌≡◌, ◌≤◌, ◌++◌, ◌∷◌, [], List, IfOk, IsTrue, string_bytes};
ghost use Rattle.vt_host.specs.Listing.{is_dots, seconds_of, unknown_item};
ghost use Rattle.vt_host.specs.Owning.{owner_name};
ghost use Rattle.vt_host.specs.Paths.{path_in};

use crate::faults::Faults;
use crate::owners::{Owners, cut};
use crate::paths::{FolderCalls, Look, PieceCalls};
use std::alloc::Global;
use std::io::ErrorKind;
use std::marker::Model;
use std::{io, str};
use vt_base::{Failed, Text};
use vt_out::{Folder, Item, ItemKind, Listing, OutErr};

/// The file that was opened last, which contracts see as the file.
#[derive(Drop)]
struct Opened<F: PieceCalls> {
    /// The folder's path, and the names below it, as it was opened by.
    path: String,
    file: F,
}

impl<F: PieceCalls> Model for Opened<F> {
    ghost use Rattle.std.specs.Prelude.{◌≡◌, IsTrue, string_bytes};

    ghost Value = { F };

    ghost view = { λ opened. opened.file };

    ghost invariant = { λ opened. IsTrue F.still → F.path opened.file ≡ string_bytes opened.path };
}

/// A folder of the system. Links and special files are neither files nor folders, and nor is what
/// has a name that isn't UTF-8. What stands at a path is asked again right before it is opened, and
/// only a regular file is.
#[derive(Drop)]
pub struct StdFolder<C, F: PieceCalls> {
    /// What paths take their memory from.
    alloc: Global,
    /// What looks at the system.
    calls: C,
    // Its name, with `/.` behind it: a link to a folder is followed there.
    base: String,
    /// The names of users by their numbers, and below those of groups.
    users: Owners,
    groups: Owners,
    /// Kept open, so that a file is opened once for all of its pieces.
    opened: Option<Opened<F>>,
    /// Failed calls of `list` and `read`.
    pub(crate) faults: Faults,
}

/// Why a call on the folder isn't done: want of memory, or a failed call of the system.
fn out_err(error: io::Error) -> OutErr {
    match error.kind() {
        ErrorKind::OutOfMemory => OutErr::NoMemory,
        _ => OutErr::Failed,
    }
}

/// The path of what stands in a folder, by the names on the way, if these are UTF-8.
fn path_in(alloc: Global, folder: &str, names: &[Text]) -> Result<String, OutErr>
    ensures { IfOk result (λ path. string_bytes path ≡ path_in folder.now names.now) }
{
    let mut path = String::from_str(alloc, folder).map_err(|_| OutErr::NoMemory)?;
    for name in names {
        let name = str::from_utf8(name.as_slice()).map_err(|_| OutErr::Failed)?;
        path.push('/').map_err(|_| OutErr::NoMemory)?;
        path.push_str(name).map_err(|_| OutErr::NoMemory)?;
    }
    Ok(path)
}

/// Seconds since 1970, as far as 32 bits hold them.
fn seconds(time: i64) -> u32
    ensures { result ≡ seconds_of time }
{
    time.clamp(0, i64::from(u32::MAX)) as u32
}

/// An item of which nothing is known but its name.
// (its name isn't UTF-8: docs/DECISIONS.md, 205)
fn unknown(alloc: Global, name: &[u8]) -> Result<Item, OutErr>
    ensures { IfOk result (λ item. item ≡ unknown_item name.now) }
{
    Ok(Item {
        name: text_of(alloc, name)?,
        kind: ItemKind::Other,
        mode: 0,
        mtime: 0,
        uid: text_of(alloc, b"")?,
        gid: text_of(alloc, b"")?,
    })
}

/// A copy of these bytes.
pub(crate) fn text_of(alloc: Global, bytes: &[u8]) -> Result<Text, OutErr>
    ensures { IfOk result (λ text. text ≡ bytes.now) }
{
    Text::copy_of(alloc, bytes).map_err(|_| OutErr::NoMemory)
}

/// The name of a user's number, or a group's.
fn owner_of(alloc: Global, owners: &Owners, id: u32) -> Result<Text, OutErr>
    ensures { IfOk result (λ name. name ≡ owner_name owners.now.owners.items id) }
{
    owners.name_of(alloc, id).map_err(|_| OutErr::NoMemory)
}

/// Whether a name is that of the folder itself, or of the one that it is in.
fn is_dots(name: &[u8]) -> bool
    ensures { result ≡ is_dots name.now }
{
    matches!(name, b"." | b"..")
}

impl<C: FolderCalls + Drop> StdFolder<C, C::File>
where
    C::File: Drop,
{
    ghost use Rattle.std.specs.Prelude.{◌≡◌, ◌≤◌, ◌++◌, IfOk, IsSome, IsTrue, OnErr, codes};
    ghost use Rattle.std.specs.Prelude.{length, string_bytes};
    ghost use Rattle.vt_host.specs.Folders.{folder_base, folder_calls, folder_faults, folder_groups};
    ghost use Rattle.vt_host.specs.Folders.{folder_open, folder_users};
    ghost use Rattle.std.specs.Prelude.{IsSomeAnd, List, None, OnOk, is_some, ℕ};
    ghost use Rattle.vt_host.specs.FolderChanges.{ListsFolder, SameFolder, StandsAt, StaysFolder};
    ghost use Rattle.vt_host.specs.Listing.{item_of, items_of, names_listed, seen_item};
    ghost use Rattle.vt_host.specs.Paths.{AddsCalls, MovesPiece, OpenedFile, OpensFile, ReadsFirst};
    ghost use Rattle.vt_host.specs.Paths.{ReadsLast, path_in};

    /// The folder of this name, whose users and groups have these names.
    pub(crate) fn open(
        alloc: Global,
        calls: C,
        name: &Text,
        users: Owners,
        groups: Owners,
    ) -> Result<Self, OutErr>
        ensures fresh { IfOk result (λ folder. folder_faults folder ≡ 0) }
        ensures base { IfOk result (λ folder. folder_base folder ≡ name.now ++ codes "/.") }
        ensures found { IfOk result (λ folder. IsTrue C.still
            → StandsAt C.look_at (folder_base folder)) }
        ensures users { IfOk result (λ folder. folder_users folder ≡ users.owners.items) }
        ensures groups { IfOk result (λ folder. folder_groups folder ≡ groups.owners.items) }
    {
        let mut calls = calls;
        let name = str::from_utf8(name.as_slice()).map_err(|_| OutErr::Failed)?;
        if name.is_empty() {
            return Err(OutErr::Failed);
        }
        let base = format!(in alloc; "{name}/.").map_err(|_| OutErr::NoMemory)?;
        let found = calls.look(base.as_str()).map_err(out_err)?;
        if found.kind != ItemKind::Folder {
            return Err(OutErr::Failed);
        }
        Ok(StdFolder {
            alloc,
            calls,
            base,
            users,
            groups,
            opened: None,
            faults: Faults::new(),
        })
    }

    /// The item of this name in the folder at a path; none where what had the name is gone since.
    fn item(&mut self, alloc: Global, folder: &str, name: &[u8]) -> Result<Option<Item>, OutErr>
        ensures item { IfOk result (λ item. IsTrue C.still → item ≡ item_of C.look_at
            (folder_users self.old) (folder_groups self.old) folder.now name.now) }
        ensures stays { StaysFolder self.old self.new }
    {
        let Ok(text) = str::from_utf8(name) else {
            return Ok(Some(unknown(alloc, name)?));
        };
        let path = format!(in alloc; "{folder}/{text}").map_err(|_| OutErr::NoMemory)?;
        match self.calls.look(path.as_str()) {
            Ok(found) => Ok(Some(self.item_of(alloc, name, &found)?)),
            Err(why) if why.kind() == ErrorKind::NotFound => Ok(None),
            Err(why) => Err(out_err(why)),
        }
    }

    /// The item of this name of which the system said this; the numbers of its user and its group
    /// become names here.
    fn item_of(&self, alloc: Global, name: &[u8], found: &Look) -> Result<Item, OutErr>
        ensures { IfOk result (λ item. item ≡ seen_item (folder_users self.now)
            (folder_groups self.now) name.now found.now) }
    {
        Ok(Item {
            name: text_of(alloc, name)?,
            kind: found.kind,
            mode: found.mode,
            mtime: seconds(found.mtime),
            uid: owner_of(alloc, &self.users, found.uid)?,
            gid: owner_of(alloc, &self.groups, found.gid)?,
        })
    }

    /// The items of the folder at this path, if there is one.
    fn items(&mut self, alloc: Global, path: &[Text]) -> Result<Listing, OutErr>
        ensures listed { IfOk result (λ list. IsTrue C.still
            → ListsFolder C.look_at C.names_at (folder_users self.old) (folder_groups self.old)
            (path_in (folder_base self.old) path.now) list) }
        ensures stays { StaysFolder self.old self.new }
    {
        let path = path_in(alloc, self.base.as_str(), path)?;
        let found = self.calls.look(path.as_str()).map_err(out_err)?;
        if found.kind != ItemKind::Folder {
            return Err(OutErr::Failed);
        }
        let names = self.calls.names(alloc, path.as_str()).map_err(out_err)?;
        let items = self.items_in(alloc, path.as_str(), names.as_slice())?;
        // (where the folder itself is gone, each of its items was passed over)
        self.calls.look(path.as_str()).map_err(out_err)?;
        Ok(Listing::from_vec(items))
    }

    /// The items of these names, each with a zero behind it, in the folder at this path: what is gone
    /// since the names were listed is passed over, as a file is that was made since.
    fn items_in(&mut self, alloc: Global, path: &str, names: &[u8]) -> Result<Vec<Item>, OutErr>
        ensures items { IfOk result (λ items. IsTrue C.still
            → items.items ≡ items_of C.look_at (folder_users self.old) (folder_groups self.old)
            path.now (names_listed names.now)) }
        ensures stays { StaysFolder self.old self.new }
    {
        let mut items = Vec::new(alloc);
        let mut rest = names;
        while !rest.is_empty() {
            let (name, behind) = cut(rest, 0);
            if !is_dots(name) {
                if let Some(item) = self.item(alloc, path, name)? {
                    items.push(item).map_err(|_| OutErr::NoMemory)?;
                }
            }
            rest = behind;
        }
        Ok(items)
    }

    /// Opens the file at this path, if it is a regular file.
    fn reopen(&mut self, path: String) -> Result<(), Failed>
        ensures opens { IsTrue C.tells → AddsCalls (OpensFile (string_bytes path))
            (C.made (folder_calls self.old)) (C.made (folder_calls self.new)) }
        ensures quiet { folder_faults self.new ≡ folder_faults self.old }
        ensures path { OnOk result (IsSomeAnd (folder_open self.new)
            (λ file. IsTrue C.File.still → C.File.path file ≡ string_bytes path)) }
        ensures unread { OnOk result (IsSomeAnd (folder_open self.new)
            (λ file. IsTrue C.File.tells → C.File.made file ≡ [])) }
        ensures fresh { OnOk result (IsTrue C.tells → AddsCalls (OpenedFile (string_bytes path))
            (C.made (folder_calls self.old)) (C.made (folder_calls self.new))) }
        ensures kept { OnErr result (folder_open self.new ≡ folder_open self.old) }
        ensures same { SameFolder self.old self.new }
    {
        let found = self.calls.look(path.as_str()).map_err(|_| Failed)?;
        if found.kind != ItemKind::File {
            return Err(Failed);
        }
        let file = self.calls.open(path.as_str()).map_err(|_| Failed)?;
        self.opened = Some(Opened { path, file });
        Ok(())
    }

    /// Reads a piece of the file at this path, which is opened again where it is read from its
    /// front.
    fn piece(&mut self, path: &[Text], at: u64, buf: &mut [u8]) -> Result<usize, Failed>
        ensures fits { IfOk result (λ n. n ≤ length buf.old) }
        ensures opens { IsTrue C.tells
            → AddsCalls (OpensFile (path_in (folder_base self.old) path.now))
            (C.made (folder_calls self.old)) (C.made (folder_calls self.new)) }
        ensures reads { IfOk result (λ n. IsTrue C.File.tells
            → (file : C.File) × ReadsLast at n buf.new (C.File.made file)) }
        ensures first { IfOk result (λ n. IsTrue C.File.tells → at ≡ 0
            → (file : C.File) × ReadsFirst at n buf.new (C.File.made file)) }
        ensures bytes { IfOk result (λ n. IsTrue C.File.still → MovesPiece
            (C.File.bytes_at (path_in (folder_base self.old) path.now)) at n buf.old buf.new) }
        ensures untouched { OnErr result (IsTrue C.File.still → buf.new ≡ buf.old) }
        ensures fresh { IsTrue C.tells → at ≡ 0 → IsSome (folder_open self.new)
            → AddsCalls (OpenedFile (path_in (folder_base self.old) path.now))
            (C.made (folder_calls self.old)) (C.made (folder_calls self.new)) }
        ensures same { SameFolder self.old self.new }
        ensures quiet { folder_faults self.new ≡ folder_faults self.old }
    {
        if at == 0 {
            self.opened = None;
        }
        let path = path_in(self.alloc, self.base.as_str(), path).map_err(|_| Failed)?;
        self.open_at(path)?;
        self.read_open(at, buf)
    }

    /// Opens the file at this path, unless it is open.
    fn open_at(&mut self, path: String) -> Result<(), Failed>
        ensures opens { IsTrue C.tells → AddsCalls (OpensFile (string_bytes path))
            (C.made (folder_calls self.old)) (C.made (folder_calls self.new)) }
        ensures quiet { folder_faults self.new ≡ folder_faults self.old }
        ensures path { OnOk result (IsSomeAnd (folder_open self.new)
            (λ file. IsTrue C.File.still → C.File.path file ≡ string_bytes path)) }
        ensures unread { OnOk result (folder_open self.old ≡ None → IsSomeAnd (folder_open self.new)
            (λ file. IsTrue C.File.tells → C.File.made file ≡ [])) }
        ensures fresh { IsTrue C.tells → folder_open self.old ≡ None
            → IsSome (folder_open self.new) → AddsCalls (OpenedFile (string_bytes path))
            (C.made (folder_calls self.old)) (C.made (folder_calls self.new)) }
        ensures same { SameFolder self.old self.new }
    {
        if self.has_open(path.as_str()) {
            return Ok(());
        }
        self.reopen(path)
    }

    /// Reads a piece of the file that is open.
    fn read_open(&mut self, at: u64, buf: &mut [u8]) -> Result<usize, Failed>
        ensures fits { IfOk result (λ n. n ≤ length buf.old) }
        ensures reads { IfOk result (λ n. IsTrue C.File.tells
            → (file : C.File) × ReadsLast at n buf.new (C.File.made file)) }
        ensures first { IfOk result (λ n. IsTrue C.File.tells → IsSomeAnd (folder_open self.old)
            (λ file. IsTrue C.File.tells → C.File.made file ≡ [])
            → (file : C.File) × ReadsFirst at n buf.new (C.File.made file)) }
        ensures bytes { IfOk result (λ n. IsTrue C.File.still → (path : List ℕ)
            → IsSomeAnd (folder_open self.old)
            (λ file. IsTrue C.File.still → C.File.path file ≡ path)
            → MovesPiece (C.File.bytes_at path) at n buf.old buf.new) }
        ensures untouched { OnErr result (IsTrue C.File.still → buf.new ≡ buf.old) }
        ensures open { is_some (folder_open self.new) ≡ is_some (folder_open self.old) }
        ensures calls { folder_calls self.new ≡ folder_calls self.old }
        ensures same { SameFolder self.old self.new }
        ensures quiet { folder_faults self.new ≡ folder_faults self.old }
    {
        match &mut self.opened {
            Some(opened) => opened.file.read_piece(at, buf).map_err(|_| Failed),
            None => Err(Failed),
        }
    }

    /// Whether the file at this path is open.
    fn has_open(&self, path: &str) -> bool
        ensures { IsTrue result → IsSomeAnd (folder_open self.now)
            (λ file. IsTrue C.File.still → C.File.path file ≡ path.now) }
    {
        match &self.opened {
            Some(opened) => opened.path.as_str() == path,
            None => false,
        }
    }
}

impl<C: FolderCalls + Drop> Folder for StdFolder<C, C::File>
where
    C::File: Drop,
{
    ghost use Rattle.std.specs.Prelude.{◌≡◌, ◌≤◌, false, IfOk, IsSome, IsTrue, OnErr, length};
    ghost use Rattle.vt_base.specs.Faults.{CountsFault, HasCause};
    ghost use Rattle.vt_host.specs.Folders.{folder_base, folder_calls, folder_faults, folder_groups};
    ghost use Rattle.vt_host.specs.Folders.{folder_open, folder_users};
    ghost use Rattle.vt_host.specs.FolderChanges.{ListsFolder, SameFolder};
    ghost use Rattle.vt_host.specs.Paths.{AddsCalls, MovesPiece, OpenedFile, OpensFile, ReadsFirst};
    ghost use Rattle.vt_host.specs.Paths.{ReadsLast, path_in};
    ghost use Rattle.vt_out.specs.Files.{is_fault};
    ghost use Rattle.vt_out.specs.FolderItems.{all_paths, none};

    ghost tells = { false };

    ghost holds = { λ _. none };

    ghost may_fail = { λ _. all_paths };

    ghost faults = { folder_faults };

    ghost holds_bytes = { λ _. tt };

    ghost faults_fit = { λ folder. folder.faults.fits };

    /// Lists what stands at the path; a call that fails is counted.
    fn list(&mut self, alloc: Global, path: &[Text]) -> Result<Listing, OutErr>
        ensures listed { IfOk result (λ list. IsTrue C.still
            → ListsFolder C.look_at C.names_at (folder_users self.old) (folder_groups self.old)
            (path_in (folder_base self.old) path.now) list) }
        ensures same { SameFolder self.old self.new }
        ensures cause { CountsFault is_fault result
            (folder_faults self.old) (folder_faults self.new) }
    {
        let listed = self.items(alloc, path);
        if matches!(listed, Err(OutErr::Failed)) {
            self.faults.count_one();
        }
        listed
    }

    /// Want of memory for a path is a failed call.
    fn read(&mut self, path: &[Text], at: u64, buf: &mut [u8]) -> Result<usize, Failed>
        ensures fits { IfOk result (λ n. n ≤ length buf.old) }
        ensures opens { IsTrue C.tells
            → AddsCalls (OpensFile (path_in (folder_base self.old) path.now))
            (C.made (folder_calls self.old)) (C.made (folder_calls self.new)) }
        ensures reads { IfOk result (λ n. IsTrue C.File.tells
            → (file : C.File) × ReadsLast at n buf.new (C.File.made file)) }

        // Behind a read of a file's front, what is open was opened by this call, and read but once.
        ensures first { IfOk result (λ n. IsTrue C.File.tells → at ≡ 0
            → (file : C.File) × ReadsFirst at n buf.new (C.File.made file)) }
        ensures bytes { IfOk result (λ n. IsTrue C.File.still → MovesPiece
            (C.File.bytes_at (path_in (folder_base self.old) path.now)) at n buf.old buf.new) }
        ensures untouched { OnErr result (IsTrue C.File.still → buf.new ≡ buf.old) }
        ensures fresh { IsTrue C.tells → at ≡ 0 → IsSome (folder_open self.new)
            → AddsCalls (OpenedFile (path_in (folder_base self.old) path.now))
            (C.made (folder_calls self.old)) (C.made (folder_calls self.new)) }
        ensures same { SameFolder self.old self.new }
        ensures cause { HasCause result (folder_faults self.old) (folder_faults self.new) }
    {
        let piece = self.piece(path, at, buf);
        self.faults.counted(piece)
    }
}
