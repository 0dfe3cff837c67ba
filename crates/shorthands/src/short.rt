//! The shorthands, and the properties that each stands for.

ghost use Rattle.std.specs.Prelude.{◌≡◌, ◌<◌, ◌^◌, IsTrue, map, option_map, true};
ghost use Rattle.std.specs.Str.{chars};
ghost use Rattle.base_model.specs.Text.{ascii_lower, is_word, same_text};
ghost use Rattle.stylo_base.specs.Ascii.{is_all_ascii};
ghost use Rattle.value_model.specs.Shorthand.{longhands_of, short_named};
ghost use Rattle.property_table.specs.View.{property_of};
ghost use Rattle.shorthands.specs.View.{place_in, rows_before, rows_but, short_of};

use property_table::{PropId, property_rows};
use stylo_base::eq_ascii_case;

/// A shorthand.
#[derive(Clone, Copy, Debug, PartialEq, Eq)]
pub enum Short {
    Margin,
    Padding,
    BorderWidth,
    BorderStyle,
    BorderColor,
    Overflow,
    /// All properties but `direction` (css-cascade-5, section 3.2).
    All,
}

const MARGIN: &[PropId] = &[
    PropId::MarginTop,
    PropId::MarginRight,
    PropId::MarginBottom,
    PropId::MarginLeft,
];

const PADDING: &[PropId] = &[
    PropId::PaddingTop,
    PropId::PaddingRight,
    PropId::PaddingBottom,
    PropId::PaddingLeft,
];

const BORDER_WIDTH: &[PropId] = &[
    PropId::BorderTopWidth,
    PropId::BorderRightWidth,
    PropId::BorderBottomWidth,
    PropId::BorderLeftWidth,
];

const BORDER_STYLE: &[PropId] = &[
    PropId::BorderTopStyle,
    PropId::BorderRightStyle,
    PropId::BorderBottomStyle,
    PropId::BorderLeftStyle,
];

const BORDER_COLOR: &[PropId] = &[
    PropId::BorderTopColor,
    PropId::BorderRightColor,
    PropId::BorderBottomColor,
    PropId::BorderLeftColor,
];

const OVERFLOW: &[PropId] = &[PropId::OverflowX, PropId::OverflowY];

/// The properties of rows, but for `direction`, behind those that were found.
macro_rules! all_but_direction {
    ([$($id:ident)*]) => {
        &[$(PropId::$id),*]
    };
    ([$($found:ident)*] [$flow:ident $form:ident Direction $($row:tt)*] $($rows:tt)*) => {
        all_but_direction!([$($found)*] $($rows)*)
    };
    ([$($found:ident)*] [$flow:ident $form:ident $id:ident $($row:tt)*] $($rows:tt)*) => {
        all_but_direction!([$($found)* $id] $($rows)*)
    };
}

const ALL: &[PropId] = property_rows!(all_but_direction []);

impl Short {
    /// The shorthand of that name, ignoring ASCII case.
    pub fn named(name: &str) -> Option<Short>
        ensures { option_map short_of result ≡ short_named (chars name.now) }
    {
        if is_word(name, "margin") {
            Some(Short::Margin)
        } else if is_word(name, "padding") {
            Some(Short::Padding)
        } else if is_word(name, "border-width") {
            Some(Short::BorderWidth)
        } else if is_word(name, "border-style") {
            Some(Short::BorderStyle)
        } else if is_word(name, "border-color") {
            Some(Short::BorderColor)
        } else if is_word(name, "overflow") {
            Some(Short::Overflow)
        } else if is_word(name, "all") {
            Some(Short::All)
        } else {
            None
        }
    }

    /// The properties that it stands for, in the order of the table.
    pub fn longhands(self) -> &'static [PropId]
        ensures { map property_of result.now ≡ longhands_of (short_of self) }
    {
        match self {
            Short::Margin => MARGIN,
            Short::Padding => PADDING,
            Short::BorderWidth => BORDER_WIDTH,
            Short::BorderStyle => BORDER_STYLE,
            Short::BorderColor => BORDER_COLOR,
            Short::Overflow => OVERFLOW,
            Short::All => ALL,
        }
    }

    /// How many of its properties come before this one; 0 where it does not stand for it.
    pub(crate) fn offset(self, id: PropId) -> u64
        ensures { result ≡ place_in (longhands_of (short_of self)) (property_of id) }
    {
        match self {
            Short::Margin => offset_from(PropId::MarginTop, 4, id),
            Short::Padding => offset_from(PropId::PaddingTop, 4, id),
            Short::BorderWidth => offset_from(PropId::BorderTopWidth, 4, id),
            Short::BorderStyle => offset_from(PropId::BorderTopStyle, 4, id),
            Short::BorderColor => offset_from(PropId::BorderTopColor, 4, id),
            Short::Overflow => offset_from(PropId::OverflowX, 2, id),
            Short::All => offset_but(PropId::Direction, id),
        }
    }
}

/// How many properties come before this one, of so many that begin with the first; 0 where it is none
/// of them.
fn offset_from(first: PropId, count: u64, id: PropId) -> u64
    requires { count < 2 ^ 32 }
    ensures { result ≡ rows_before (property_of first) count (property_of id) }
{
    let first = first.row() as u64;
    let row = id.row() as u64;
    if row < first || first + count <= row {
        0
    } else {
        row - first
    }
}

/// How many properties but one come before this one; 0 where it is that one.
fn offset_but(other: PropId, id: PropId) -> u64
    ensures { result ≡ rows_but (property_of other) (property_of id) }
{
    let other = other.row() as u64;
    let row = id.row() as u64;
    if row < other {
        row
    } else if row == other {
        0
    } else {
        row - 1
    }
}

/// Whether a text is this word, which is in lower-case ASCII, ignoring ASCII case.
fn is_word(text: &str, word: &str) -> bool
    requires ascii { is_all_ascii word.now ≡ true }
    requires lower { IsTrue (same_text (ascii_lower word.now) word.now) }
    ensures { result ≡ is_word word.now (chars text.now) }
{
    eq_ascii_case(text, word)
}
