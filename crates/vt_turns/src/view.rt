//! What a pass knows. No value of these types but a pass is made: they are read by contracts.

use atomic_table::Seat;
use std::collections::LinkedList;

/// With what a store was opened.
pub struct Opening<P, B> {
    /// The log, and then the shards.
    pub parts: LinkedList<P>,
    /// The blocks that were accepted by then, in order.
    pub history: LinkedList<B>,
    /// The words of the Bloom bits.
    pub bits: LinkedList<u64>,
    /// Whether it was known what the devices held. Where it wasn't, nothing is said of content.
    pub kept: bool,
}

/// What one worker has seen, added and learnt. A list for each part is 0, or nothing, past its end.
pub struct View<P, B> {
    /// With what its store was opened, which is the same for each pass that has a share.
    pub opening: Opening<P, B>,
    /// How many of the 65,536 shares it has.
    pub share: u64,
    /// The history as far as it was seen.
    pub seen: LinkedList<B>,
    /// What joined passes had seen, until the next load of the front.
    pub olds: LinkedList<LinkedList<B>>,
    /// The numbers of the blocks that were added.
    pub own: LinkedList<u64>,
    /// So many blocks are durable.
    pub stable: u64,
    /// For each part, a mark that it reached.
    pub marks: LinkedList<u64>,
    /// For each part, the device call that stopped it.
    pub stops: LinkedList<Option<u64>>,
    /// For each part, by how much the counts of its devices rose while this pass held it.
    pub faults: LinkedList<u64>,
    /// The places of Bloom bits that are set.
    pub bits: LinkedList<u64>,
    /// For each part that this pass holds, what it was when it was taken, raised or booked last.
    pub turns: LinkedList<Option<P>>,
    /// The number above that of the part whose slot is out with the pass, or 0.
    pub away: u64,
}

/// The token with which one worker uses a store. It takes no bytes.
pub type Pass<P, B> = Seat<Option<P>, View<P, B>>;
