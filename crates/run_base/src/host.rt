//! What the program stands on: all that it reads from and writes to is handed in.

use vt_handler::Streams;

/// All that the program is lent. A command is lent those of it that it touches, and no more.
#[derive(Drop)]
pub struct Outside<S, K, F, I, P, N, G, C, T> {
    /// The stream that is read, and that where results go.
    pub streams: Streams<S, K>,
    /// Where a line goes that says what went wrong.
    pub fault_sink: F,
    /// The files that are read whole.
    pub files: I,
    /// The partitions.
    pub parts: P,
    /// What makes links.
    pub dialer: N,
    /// The folders.
    pub folders: G,
    /// Tells the second at which a command begins, the time of the clumps that it adds.
    pub clock: C,
    /// Where a long call tells meanwhile how far it is, if there is a terminal. No clause speaks of
    /// what goes there.
    pub terminal: Option<T>,
}
