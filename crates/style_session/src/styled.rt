//! The elements that a restyle cascaded.

ghost use Rattle.std.specs.Prelude.{◌≡◌, map};

use std::sync::Arc;
use style_value::Style;

/// An element that a restyle cascaded, with its new style.
#[derive(Drop)]
pub(crate) struct Styled {
    /// Its number.
    pub number: u32,
    /// Its new style.
    pub style: Arc<Style>,
    /// Whether its rules were matched.
    pub matched: bool,
}

/// All that a restyle makes.
#[derive(Drop)]
pub(crate) struct NewStyles {
    /// The elements that it cascaded, with their new styles.
    pub styled: Vec<Styled>,
    /// Their numbers.
    pub numbers: Vec<u32>,
    ghost numbered: { numbers.items ≡ map (λ one. one.number) styled.items },
}
