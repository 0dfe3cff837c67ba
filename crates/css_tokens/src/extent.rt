//! Where the text of a token is, in 16 bytes.

ghost use Rattle.std.specs.Prelude.{◌≡◌, ◌+◌, ◌^◌, ◌<◌, None, Some};
ghost use Rattle.std.specs.Option.{option_map};
ghost use Rattle.css_tokens.specs.Extents.{extent_of, spanned};
ghost use Rattle.css_tokens.specs.View.{span_of};

use crate::Span;

/// Where the text of a token is. One that ends before it begins is of no text: an `Option<Span>` would take 24 bytes,
/// and the tokens of a long rule are all there at once.
#[derive(Clone, Copy, Debug)]
pub(crate) struct Extent {
    start: usize,
    end: usize,
}

impl Extent {
    /// That of no text.
    #[inline]
    pub(crate) fn nowhere() -> Extent
        ensures { extent_of result ≡ None }
    {
        Extent { start: 1, end: 0 }
    }

    /// That of so many characters.
    #[inline]
    pub(crate) fn new(start: usize, len: usize) -> Extent
        requires fits { start + len < 2 ^ 64 }
        ensures { extent_of result ≡ Some (spanned start (start + len)) }
    {
        Extent {
            start,
            end: start + len,
        }
    }

    /// The span, if it is of a text.
    pub(crate) fn get(self) -> Option<Span>
        ensures { option_map span_of result ≡ extent_of self }
    {
        if self.end < self.start {
            return None;
        }
        Some(Span {
            start: self.start,
            end: self.end,
        })
    }
}
