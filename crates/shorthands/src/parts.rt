//! The parts of a shorthand's value.

ghost use Rattle.std.specs.Prelude.{◌≤◌};

use css_tokens::Token;

/// A part of a shorthand's value for each of its properties, in the order of the table.
#[derive(Clone, Copy, Debug)]
pub struct Parts<'a> {
    parts: [&'a [Token]; 4],
    /// How many there are; the others say nothing.
    len: usize,
    ghost few: { len ≤ 4 },
}

impl<'a> Parts<'a> {
    ghost use Rattle.std.specs.Prelude.{◌≡◌, ◌∷◌, [], map};
    ghost use Rattle.shorthands.specs.PartsView.{parts_seen};

    /// A part for each axis.
    pub(crate) fn two(x: &'a [Token], y: &'a [Token]) -> Parts<'a>
        ensures { parts_seen result ≡ x.now ∷ y.now ∷ [] }
    {
        Parts {
            parts: [x, y, y, y],
            len: 2,
        }
    }

    /// A part for each side: top, right, bottom and left.
    pub(crate) fn four(parts: [&'a [Token]; 4]) -> Parts<'a>
        ensures { parts_seen result ≡ map (λ part. part.now) parts.entry }
    {
        Parts { parts, len: 4 }
    }

    /// All of them.
    pub fn as_slice(&self) -> &[&'a [Token]]
        ensures { map (λ part. part.now) result.now ≡ parts_seen self.now }
    {
        &self.parts[..self.len]
    }
}
