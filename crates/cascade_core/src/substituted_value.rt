//! A declared value once the `var()`s in it are substituted (css-variables-1, section 3).

use css_tokens::Wide;

/// A declared value once the `var()`s in it are substituted: a CSS-wide keyword, or a value.
#[derive(Clone, Copy)]
pub(crate) enum SubstitutedValue<V> {
    Keyword(Wide),
    Value(V),
}
