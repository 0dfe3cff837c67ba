//! Tokens as text: what is written reads back as tokens of the same kinds, names and spellings
//! (css-syntax-3, section 9; cssom-1, section 2.1). Custom properties are written so too.
#![tactic(auto)]

mod custom;
mod escape;
pub mod laws;
mod name;
mod output;
mod quoted;
mod token_text;
mod writer;

pub use custom::custom_declarations;
pub use writer::write;
