//! The words of values: first those of kinds of values that are no keywords, then a word for each keyword.

/// A colour.
pub const COLOR: u8 = 0;

/// A length in pixels.
pub const PIXELS: u8 = 1;

/// A percentage.
pub const PERCENT: u8 = 2;

/// A number without a unit.
pub const NUMBER: u8 = 3;

/// A length in the font size of the element.
pub const EM: u8 = 4;

/// A length in the font size of the root.
pub const REM: u8 = 5;

/// The first keyword; the others come after it, in the order of the variants.
pub const FIRST_KEYWORD: u8 = 6;
