//! The slots of names.

ghost use Rattle.std.specs.Prelude.{◌≡◌, ◌%◌};
ghost use Rattle.ancestor_model.specs.Counts.{slot_count};

/// The slot of the names with this key: one of 4,096.
#[inline]
pub fn slot_of_key(key: u64) -> u16
    ensures { result ≡ key % slot_count }
{
    (key % 4_096) as u16
}
