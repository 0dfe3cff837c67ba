//! The style of every element, computed from nothing, from the root down.
//!
//! `plain_style` goes down the document in tree order and keeps the number of each element's style: each is styled
//! after its parent (`element_styler::Styler`).
#![tactic(auto)]

mod all_styles;

pub use all_styles::style_all;
