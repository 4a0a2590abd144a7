//! Where a store is, and what comes of its use.

use vt_base::Why;
use vt_conf::{Address, Conf};
use vt_open::OpenError;
use vt_remote::RemoteError;

/// Where a store is.
#[derive(Drop)]
pub enum StoreAt {
    /// In the partitions of this configuration.
    Conf(Conf),
    /// A server at this address has it.
    Server(Address),
}

/// Why a store at a place wasn't used, or said no.
#[derive(Drop)]
pub enum StoreError {
    /// The store of a configuration isn't opened.
    Unopened(OpenError),
    /// The store of a configuration said no, or failed; or memory was wanting for what was to be done
    /// with a store.
    Refused(Why),
    /// A server wasn't reached, it said no, or something other than what was asked, or the link to it
    /// failed.
    Server(RemoteError),
}

/// What came of the use of a store at a place.
#[derive(Drop)]
pub struct UsedAt<O> {
    /// What the job came to, also where the end of the store's use failed.
    pub output: O,
    /// Why the store said no first, in its own words, if it did.
    pub refusal: Option<StoreError>,
    /// How many blocks are new in the store of a configuration; or how many were sent to a server, and
    /// taken in.
    pub blocks: u64,
    /// What failed first at the end of the store's use, if anything did. With a server nothing is done
    /// there.
    pub closed: Result<(), StoreError>,
}
