//! Reads tokens as a value of a property (css-values-4, sections 2 and 5 to 6; css-color-4, sections
//! 4 to 6, and the property's own section), or as a CSS-wide keyword (css-cascade-5, section 7.3).
//!
//! A value is a word or a colour, or a length, a percentage or a number, which are read in
//! thousandths. Nothing here takes memory.
#![tactic(auto)]

mod color;
mod hex;
mod length;
mod length_unit;
mod named;
mod number;
mod one_token;
mod property_value;
mod rgb;
mod taken;
mod word;

pub use css_tokens::wide_keyword;
pub use property_value::value;
pub use taken::are_taken;
