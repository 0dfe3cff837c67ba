//! The names of custom properties.

ghost use Rattle.std.specs.Prelude.{◌≡◌, ◌↔◌, IfOk, IsTrue};
ghost use Rattle.std.specs.Cmp.Lexicographic.{slice_cmp};
ghost use Rattle.std.specs.Ordering.{nat_cmp};
ghost use Rattle.std.specs.Str.{chars};
ghost use Rattle.custom_model.specs.Value.{is_custom_name};

use std::alloc::Global;
use std::cmp::Ordering;
use std::marker::Model;
use std::sync::Arc;
use stylo_base::{NoMemory, Text};

/// The name of a custom property (css-variables-1, section 2), which its copies share.
#[derive(Debug, Drop)]
pub struct CustomName {
    text: Arc<Text>,
}

impl Model for CustomName {
    ghost use Rattle.std.specs.Arc.{arc_value};
    ghost use Rattle.base_model.specs.Text.{Characters};

    ghost Value = { Characters };

    ghost view = { λ n. arc_value n.text };
}

impl CustomName {
    /// The name that is this text.
    pub fn of_text(alloc: Global, text: Text) -> Result<CustomName, NoMemory>
        ensures { IfOk result (λ n. n ≡ text) }
    {
        Ok(CustomName {
            text: Arc::new(alloc, text)?,
        })
    }

    /// The same name, whose text is shared.
    pub fn share(&self) -> Result<CustomName, NoMemory>
        ensures { IfOk result (λ n. n ≡ self.now) }
    {
        Ok(CustomName {
            text: Arc::try_clone(&self.text)?,
        })
    }

    /// The text.
    pub fn as_str(&self) -> &str
        ensures { chars result.now ≡ self.now }
    {
        self.text.as_str()
    }

    /// Whether both are one name.
    pub fn is_same(&self, other: &CustomName) -> bool
        ensures { IsTrue result ↔ (self.now ≡ other.now) }
    {
        self.text.is_same(&other.text)
    }

    /// Which of two names comes first, in the order of their characters.
    pub fn compare(&self, other: &CustomName) -> Ordering
        ensures { result ≡ slice_cmp nat_cmp self.now other.now }
    {
        self.compare_str(other.as_str())
    }

    /// Which comes first, the name or a text, in the order of their characters.
    pub fn compare_str(&self, other: &str) -> Ordering
        ensures { result ≡ slice_cmp nat_cmp self.now (chars other.now) }
    {
        self.as_str().cmp(other)
    }
}

/// How many bytes a name of a custom property has at least.
const SHORTEST_NAME: usize = 3;

/// Whether a name is one of a custom property: two hyphens, and something after them.
pub fn is_custom_name(name: &str) -> bool
    ensures { result ≡ is_custom_name (chars name.now) }
{
    let bytes = name.as_bytes();
    if bytes.len() < SHORTEST_NAME {
        return false;
    }
    bytes[0] == b'-' && bytes[1] == b'-'
}
