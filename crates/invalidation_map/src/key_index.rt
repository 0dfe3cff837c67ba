//! Keys in the order of their buckets.

ghost use Rattle.std.specs.Prelude.{◌≡◌, IfOk};
ghost use Rattle.std.specs.List.Sorted.{IsNonDecreasingBy};
ghost use Rattle.invalidation_map.specs.KeyBuckets.{AreBegun, BeginsAt, IsNear};
ghost use Rattle.invalidation_map.specs.KeyBuckets.{bucket_of as model_bucket_of, spread as model_spread};

use std::alloc::Global;
use stylo_base::NoMemory;

/// So many buckets there are.
const BUCKETS: usize = 256;

/// So many keys can be in a bucket.
const REST: u64 = 1 << 56;

/// So many keys of a bucket are looked through one by one. Among more a key is found by binary search.
const FEW: usize = 16;

/// Keys in the order of their buckets, each bucket in an order of its own, and where the buckets begin:
/// whatever is not in the bucket of a key is passed over without being looked at.
#[derive(Drop)]
pub(crate) struct KeyIndex {
    pub(crate) keys: Vec<u64>,
    /// By bucket: how many keys are in smaller ones. After the last one: how many there are.
    starts: Vec<usize>,
    ghost sorted: { IsNonDecreasingBy model_spread keys.items },
    ghost begun: { AreBegun keys.items starts.items },
}

impl KeyIndex {
    /// Of keys in the order of `spread`.
    pub(crate) fn of(alloc: Global, keys: Vec<u64>) -> Result<KeyIndex, NoMemory>
        requires { IsNonDecreasingBy model_spread keys.items }
        ensures { IfOk result (λ index. index.keys.items ≡ keys.items) }
    {
        let mut starts = Vec::with_capacity(alloc, BUCKETS + 1)?;
        for bucket in 0..BUCKETS + 1 {
            starts.push(start_of(&keys, bucket))?;
        }
        Ok(KeyIndex { keys, starts })
    }

    /// Places between which all that are this key are: the first, and the one after the last. Between them
    /// are a few others at most, or none.
    pub(crate) fn near(&self, key: u64) -> (usize, usize)
        ensures { IsNear key self.now.keys.items result.0 result.1 }
    {
        let bucket = bucket_of(key);
        let (first, past) = (self.starts[bucket], self.starts[bucket + 1]);
        if past.saturating_sub(first) <= FEW {
            return (first, past);
        }
        let place = spread(key);
        (
            self.keys.partition_point(|other| spread(*other) < place),
            self.keys.partition_point(|other| spread(*other) <= place),
        )
    }
}

/// The place of a key in the order of the buckets, and in its bucket.
#[inline]
pub(crate) fn spread(key: u64) -> u64
    ensures { result ≡ model_spread key }
{
    key % 256 * REST + key / 256 % REST
}

/// The bucket of a key: its last byte, where the keys of short names too are well spread.
#[inline]
pub(crate) fn bucket_of(key: u64) -> usize
    ensures { result ≡ model_bucket_of key }
{
    (key % 256) as usize
}

/// How many keys are in smaller buckets. It is found by binary search.
fn start_of(keys: &[u64], bucket: usize) -> usize
    requires { IsNonDecreasingBy model_bucket_of keys.now }
    ensures { BeginsAt keys.now bucket result }
{
    keys.partition_point(|key| bucket_of(*key) < bucket)
}
