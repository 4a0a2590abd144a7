//! Why an index isn't rebuilt, or arenas aren't checked.

use vt_open::OpenError;

/// Why work on the store that a configuration names isn't done.
#[derive(Clone, Copy, Debug, PartialEq, Eq)]
pub enum MaintainError<E> {
    /// The store's partitions aren't handed out, or its log and its sections aren't found on them.
    Unopened(OpenError),
    /// The log and the sections were found, and this ended the work on them.
    Ended(E),
}
