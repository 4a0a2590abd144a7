//! The devices that a store stands on, and how they are had back of it.

ghost use Rattle.std.specs.Prelude.{◌≡◌, ◌+◌, ◌≤◌, ◌++◌, length, map, reverse, vec_capacity};
ghost use Rattle.std.specs.Option.{option_map};

use vt_bloom::Bloom;
use vt_disk::Disk;
use vt_part::Part;
use vt_shard::Shard;

/// The devices of a store: the mounted partitions of arenas, the devices of the index sections, and
/// that of the Bloom filter, if there is one.
#[derive(Drop)]
pub struct Devices<D> {
    /// The parts of the store from 0 on, in the order of the configuration.
    pub parts: Vec<Part<D>>,
    /// The parts behind these, in the same order.
    pub sections: Vec<D>,
    /// The last part.
    pub filter: Option<D>,
}

/// The devices of shards, in order, and behind them those that wait, the last of which comes first.
pub fn close_shards<D: Disk>(mut shards: Vec<Shard<D>>, mut waiting: Vec<D>) -> Vec<D>
    requires { length waiting.items + length shards.items ≤ vec_capacity waiting }
    ensures { result.items ≡ map (λ s. s.section.disk) shards.items ++ reverse waiting.items }
{
    while let Some(shard) = shards.pop() {
        waiting.push_reserved(shard.into_devices());
    }
    shards.destroy_empty();
    waiting.reverse();
    waiting
}

/// The device of a saved filter, if there is one.
pub fn device_of<D: Disk>(bloom: Option<Bloom<D>>) -> Option<D>
    ensures { result ≡ option_map (λ b. b.disk) bloom }
{
    match bloom {
        Some(bloom) => Some(bloom.into_devices()),
        None => None,
    }
}
