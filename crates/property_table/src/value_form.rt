//! What a property takes as a value, and how it is computed.

use crate::{Constant, Keyword};

/// What a property takes, beside the keywords that every property takes.
#[derive(Clone, Copy, Debug)]
pub enum ValueForm {
    /// This keyword.
    Word(Keyword),
    /// This word, in lower case, which is read as a value.
    Named(&'static str, Constant),
    /// Any colour.
    AnyColor,
    /// A length (css-values-4, section 6).
    Length {
        /// Whether it may be negative.
        negative: bool,
        /// Whether a number that is 0 is one.
        zero: bool,
    },
    /// A percentage.
    Percentage {
        /// Whether it may be negative.
        negative: bool,
    },
    /// A number of at least and at most so many thousandths.
    Number {
        least: i64,
        most: i64,
    },
}

/// How a value of a property is computed.
#[derive(Clone, Copy, Debug, PartialEq, Eq)]
pub enum ComputeRule {
    /// Lengths become pixels.
    Plain,
    /// `currentcolor` is the inherited colour (css-color-4, section 9).
    Color,
    /// Percentages, `em`, `larger` and `smaller` are of the parent's font size (css-fonts-4, section 2.5).
    FontSize,
    /// `bolder` and `lighter` are by the parent's font weight (css-fonts-4, section 2.2.1).
    FontWeight,
    /// Percentages are of the element's own font size (CSS 2.2, section 10.8.1).
    LineHeight,
}
