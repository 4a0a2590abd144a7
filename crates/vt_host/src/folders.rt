//! Folders by name.

ghost use Rattle.std.specs.Prelude.{IfOk};
ghost use Rattle.vt_host.specs.Owning.{OwnersIn};

use crate::faults::Faults;
use crate::files::StdFiles;
use crate::folder::{StdFolder, text_of};
use crate::owners::Owners;
use crate::paths::FolderCalls;
use crate::system::Opener;
use std::alloc::Global;
use vt_base::{Bytes, Text};
use vt_out::{Files, Folders, OutErr};

/// The file that names the users (passwd(5)).
const USERS: &[u8] = b"/etc/passwd";

/// The file that names the groups (group(5)).
const GROUPS: &[u8] = b"/etc/group";

/// The most bytes that are read of one of them.
const MOST_NAMES: u32 = 1 << 24;

/// Folders of the system. Names are taken as they are, from the working folder.
#[derive(Drop)]
pub struct StdFolders<C, O> {
    /// What each folder looks at the system by.
    calls: C,
    /// What reads the names of users and groups. Where it can't, that is no fault.
    files: StdFiles<O>,
    /// Failed calls of `folder`, and those of folders that are back.
    faults: Faults,
}

/// What lines say.
fn owners_in(alloc: Global, lines: &Bytes) -> Result<Owners, OutErr>
    ensures { IfOk result (λ owners. OwnersIn lines.now owners.owners.items) }
{
    Owners::from_lines(alloc, lines.as_slice()).map_err(|_| OutErr::NoMemory)
}

impl<C: FolderCalls + Drop, O: Opener> StdFolders<C, O>
where
    O::File: Drop,
{
    ghost use Rattle.std.specs.Prelude.{◌≡◌, ◌^◌, ◌++◌, IfOk, IsTrue, codes};
    ghost use Rattle.vt_host.specs.Folders.{folder_base, folder_faults, folder_groups, folder_users};
    ghost use Rattle.vt_host.specs.Folders.{folders_faults, folders_opener};
    ghost use Rattle.vt_host.specs.FolderChanges.{StandsAt};
    ghost use Rattle.vt_host.specs.Owning.{LinesOf, NamesOf, OwnersOf};

    /// Folders by these calls. The names of users and groups are in files that this opens.
    pub fn new(calls: C, files: O) -> Self
        ensures opener { folders_opener result ≡ files }
        ensures faults { folders_faults result ≡ 0 }
    {
        StdFolders {
            calls,
            files: StdFiles::new(files),
            faults: Faults::new(),
        }
    }

    /// The names in a file of users or groups; none, if it can't be read.
    fn owners(&mut self, alloc: Global, file: &[u8]) -> Result<Owners, OutErr>
        ensures owners { IfOk result (λ owners. IsTrue O.File.tells
            → OwnersOf O.File.made (IsTrue O.still) (O.holds file.now) file.now MOST_NAMES
            (O.opened (folders_opener self.old)) (O.opened (folders_opener self.new))
            owners.owners.items) }
        ensures quiet { folders_faults self.new ≡ folders_faults self.old }
    {
        let file = text_of(alloc, file)?;
        let lines = self.lines(alloc, &file)?;
        let owners = owners_in(alloc, &lines)?;
        Ok(owners)
    }

    /// What such a file has; nothing, if it can't be read.
    fn lines(&mut self, alloc: Global, file: &Text) -> Result<Bytes, OutErr>
        ensures lines { IfOk result (λ lines. IsTrue O.File.tells
            → LinesOf O.File.made (IsTrue O.still) (O.holds file.now) file.now MOST_NAMES
            (O.opened (folders_opener self.old)) (O.opened (folders_opener self.new)) lines) }
        ensures quiet { folders_faults self.new ≡ folders_faults self.old }
    {
        match self.files.read(alloc, file, MOST_NAMES) {
            Ok(lines) => Ok(lines),
            Err(OutErr::Failed) => Ok(Bytes::from_vec(Vec::new(alloc))),
            Err(OutErr::NoMemory) => Err(OutErr::NoMemory),
        }
    }

    /// Opens the folder of this name, with the names of users and groups as they are now.
    fn open(&mut self, alloc: Global, name: &Text) -> Result<StdFolder<C, C::File>, OutErr>
    where
        C::File: Drop,
        ensures fresh { IfOk result (λ folder. folder_faults folder ≡ 0) }
        ensures base { IfOk result (λ folder. folder_base folder ≡ name.now ++ codes "/.") }
        ensures found { IfOk result (λ folder. IsTrue C.still
            → StandsAt C.look_at (folder_base folder)) }
        ensures owners { IfOk result (λ folder. IsTrue O.File.tells
            → NamesOf O.File.made (IsTrue O.still) O.holds (codes "/etc/passwd")
            (codes "/etc/group") (2 ^ 24)
            (O.opened (folders_opener self.old)) (O.opened (folders_opener self.new))
            (folder_users folder) (folder_groups folder)) }
        ensures quiet { folders_faults self.new ≡ folders_faults self.old }
    {
        let users = self.owners(alloc, USERS)?;
        let groups = self.owners(alloc, GROUPS)?;
        let folder = StdFolder::open(alloc, self.calls.another(), name, users, groups)?;
        Ok(folder)
    }
}

impl<C: FolderCalls + Drop, O: Opener> Folders for StdFolders<C, O>
where
    C::File: Drop,
    O::File: Drop,
{
    ghost use Rattle.std.specs.Prelude.{◌≡◌, ◌+◌, ◌-◌, ◌^◌, ◌++◌, false, IfOk, IsTrue, codes, min};
    ghost use Rattle.vt_base.specs.Faults.{CountsFault};
    ghost use Rattle.vt_host.specs.FolderChanges.{StandsAt};
    ghost use Rattle.vt_host.specs.Folders.{folder_base, folder_faults, folder_groups, folder_users};
    ghost use Rattle.vt_host.specs.Folders.{folders_faults, folders_opener};
    ghost use Rattle.vt_host.specs.Owning.{NamesOf};
    ghost use Rattle.vt_out.specs.Files.{is_fault};
    ghost use Rattle.vt_out.specs.FolderStanding.{nothing};

    type Folder = StdFolder<C, C::File>;

    ghost tells = { false };

    ghost standing = { λ _ _. nothing };

    ghost faults = { folders_faults };

    ghost faults_fit = { λ folders. folders.faults.fits };

    /// Hands out the folder of this name; a call that fails is counted.
    fn folder(&mut self, alloc: Global, name: &Text) -> Result<StdFolder<C, C::File>, OutErr>
        ensures fresh { IfOk result (λ folder. folder_faults folder ≡ 0) }
        ensures base { IfOk result (λ folder. folder_base folder ≡ name.now ++ codes "/.") }
        ensures found { IfOk result (λ folder. IsTrue C.still
            → StandsAt C.look_at (folder_base folder)) }
        ensures owners { IfOk result (λ folder. IsTrue O.File.tells
            → NamesOf O.File.made (IsTrue O.still) O.holds (codes "/etc/passwd")
            (codes "/etc/group") (2 ^ 24)
            (O.opened (folders_opener self.old)) (O.opened (folders_opener self.new))
            (folder_users folder) (folder_groups folder)) }
        ensures cause { CountsFault is_fault result
            (folders_faults self.old) (folders_faults self.new) }
    {
        let folder = self.open(alloc, name);
        if matches!(folder, Err(OutErr::Failed)) {
            self.faults.count_one();
        }
        folder
    }

    /// Takes back a folder, whose failed calls count from now on.
    fn done(&mut self, _name: &Text, folder: StdFolder<C, C::File>)
        ensures faults { folders_faults self.new
            ≡ min (folders_faults self.old + folder_faults folder) (2 ^ 64 - 1) }
    {
        self.faults.count_all(folder.faults.count);
    }
}
