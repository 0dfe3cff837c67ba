//! Where the values of custom properties are looked up.

ghost use Rattle.std.specs.Prelude.{◌≡◌, option_copied};
ghost use Rattle.std.specs.FinMap as finmap;
ghost use Rattle.custom_model.specs.Expand.{Lookup};

use css_tokens::{CustomMap, CustomValue};
use stylo_base::Text;

/// The values of custom properties, by their names.
pub(crate) trait Values {
    /// The value of each name that has one.
    ghost lookup: { Self → Lookup };

    /// The value of the custom property of this name, if it has one.
    fn value(&self, name: &Text) -> Option<&CustomValue>
        ensures { option_copied result ≡ lookup self.now name.now };
}

impl Values for CustomMap {
    ghost lookup = { λ m name. finmap.get m name };

    fn value(&self, name: &Text) -> Option<&CustomValue> {
        self.get(name.as_str())
    }
}
