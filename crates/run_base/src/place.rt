//! Where a store is: in memory, at a server's address, or in the partitions of a configuration.

ghost use Rattle.std.specs.Prelude.{◌≡◌, ℕ, List, IfErr, IfOk};
ghost use Rattle.std.specs.Str.{bytes_eq};
ghost use Rattle.vt_use.specs.Places.{CanBeOpened};
ghost use Rattle.run_base.specs.Change.{files_change};
ghost use Rattle.run_base.specs.Places.{CanBeUsed, FindsAt, FindsNoneAt, FindsNoPlace, FindsPlace};
ghost use Rattle.run_base.specs.Places.{in_memory};

use crate::configuration::read_conf;
use crate::error::CommandError;
use std::alloc::{AllocError, Global};
use vt_base::Text;
use vt_conf::parse_address;
use vt_open::configurations_can_be_opened;
use vt_out::Files;
use vt_use::StoreAt;

/// Where the store is that a word of the command line names.
#[derive(Drop)]
pub enum Place {
    /// In memory, and empty.
    Memory,
    /// In the partitions of a configuration, which was read, or at a server.
    At(StoreAt),
}

/// Finds the store that a word names; of a configuration's the file is read.
pub fn find_store<I: Files>(
    alloc: Global,
    files: &mut I,
    word: &Text,
) -> Result<Place, CommandError>
    ensures found { IfOk result
        (FindsPlace word.now (files_change I.Files files.old files.new)) }
    ensures none { IfErr result
        (FindsNoPlace word.now (files_change I.Files files.old files.new)) }
    ensures usable { IfOk result CanBeUsed }
{
    if is_in_memory(word) {
        return Ok(Place::Memory);
    }
    let at = store_at(alloc, files, word)?;
    Ok(Place::At(at))
}

/// The same, where no store in memory is meant.
pub fn store_at<I: Files>(
    alloc: Global,
    files: &mut I,
    word: &Text,
) -> Result<StoreAt, CommandError>
    ensures found { IfOk result (FindsAt word.now (files_change I.Files files.old files.new)) }
    ensures none { IfErr result
        (FindsNoneAt word.now (files_change I.Files files.old files.new)) }
    ensures usable { IfOk result CanBeOpened }
{
    configurations_can_be_opened();
    match parse_address(alloc, word.as_slice()) {
        Ok(Some(address)) => Ok(StoreAt::Server(address)),
        Ok(None) => {
            let conf = read_conf(alloc, files, word)?;
            Ok(StoreAt::Conf(conf))
        }
        Err(AllocError) => Err(CommandError::NoMemory),
    }
}

/// It is the name of a store in memory.
pub fn is_in_memory(store: &Text) -> bool
    ensures { result ≡ bytes_eq store.now in_memory }
{
    store.as_slice() == b":memory:".as_slice()
}
