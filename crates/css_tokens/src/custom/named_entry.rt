//! Entries under the names of custom properties.

ghost use Rattle.std.specs.Prelude.{◌≡◌, ◌<◌, IfSome, length, map};
ghost use Rattle.std.specs.Cmp.Lexicographic.{slice_cmp};
ghost use Rattle.std.specs.List.Sorted.{IsStrictlySortedBy};
ghost use Rattle.std.specs.Ordering.{nat_cmp};
ghost use Rattle.std.specs.Str.{chars};
ghost use Rattle.base_model.specs.Text.{Characters};
ghost use Rattle.css_tokens.specs.Place.{place_among};

use super::name::CustomName;

/// What stands under the name of a custom property.
pub trait NamedEntry {
    /// The characters of the name.
    ghost name_of: { Self → Characters };

    /// The name.
    fn name(&self) -> &CustomName
        ensures { result.now ≡ name_of self.now };
}

/// Where the entry of this name stands, among entries whose names rise.
pub fn place_by_name<T: NamedEntry>(entries: &[T], name: &str) -> Option<usize>
    requires { IsStrictlySortedBy (slice_cmp nat_cmp) (map T.name_of entries.now) }
    ensures place { result ≡ place_among (map T.name_of entries.now) (chars name.now) }
    ensures within { IfSome result (λ place. place < length entries.now) }
{
    match entries.binary_search_by(|entry| entry.name().compare_str(name)) {
        Ok(place) => Some(place),
        Err(_) => None,
    }
}
