//! How many values a shorthand takes, and which of its properties each is for.

ghost use Rattle.std.specs.Prelude.{◌≡◌, option_map};
ghost use Rattle.sheet_model.specs.Shorthands.{four_sides, slices, split, two_axes};
ghost use Rattle.shorthands.specs.PartsView.{parts_seen};
ghost use Rattle.shorthands.specs.View.{short_of};

use crate::Short;
use crate::parts::Parts;
use crate::slices::Slices;
use css_tokens::Token;

/// The part of the tokens for each property that the shorthand stands for: None, where it takes not
/// so many values; `all` takes none.
pub fn split(short: Short, tokens: &[Token]) -> Option<Parts<'_>>
    ensures { option_map parts_seen result ≡ split (short_of short) tokens.now }
{
    match short {
        Short::All => None,
        Short::Overflow => two_axes(tokens),
        _ => four_sides(tokens),
    }
}

/// One or two values, for both axes (css-overflow-3, section 3.2).
fn two_axes(tokens: &[Token]) -> Option<Parts<'_>>
    ensures { option_map parts_seen result ≡ two_axes (slices tokens.now) }
{
    let mut slices = Slices::new(tokens);
    let x = slices.next()?;
    let Some(y) = slices.next() else {
        return Some(Parts::two(x, x));
    };
    match slices.next() {
        Some(_) => None,
        None => Some(Parts::two(x, y)),
    }
}

/// One to four values, for the four sides (CSS 2.2, section 8.3).
fn four_sides(tokens: &[Token]) -> Option<Parts<'_>>
    ensures { option_map parts_seen result ≡ four_sides (slices tokens.now) }
{
    let mut slices = Slices::new(tokens);
    let top = slices.next()?;
    let Some(right) = slices.next() else {
        return Some(Parts::four([top, top, top, top]));
    };
    let Some(bottom) = slices.next() else {
        return Some(Parts::four([top, right, top, right]));
    };
    let Some(left) = slices.next() else {
        return Some(Parts::four([top, right, bottom, right]));
    };
    match slices.next() {
        Some(_) => None,
        None => Some(Parts::four([top, right, bottom, left])),
    }
}
