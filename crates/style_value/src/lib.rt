//! The style of an element: a value for each property of the table, custom properties, and how the
//! values are printed.
//!
//! The cascade works on a `StyleDraft`, which shares the custom properties of the parent until it gets others, and
//! finishes it as a `Style`, which does not change. A `StyleTable` has each style once, most often, and gives it a
//! number: a draft that equals a style of the table takes its number, and its text is not made again.
#![tactic(auto)]

mod adjust;
mod custom;
mod draft;
mod style;
mod style_text;
mod table;
mod value_columns;

pub use custom::Custom;
pub use draft::StyleDraft;
pub use style::Style;
pub use table::StyleTable;
