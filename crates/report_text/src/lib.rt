//! The printed lines.
#![tactic(auto)]

mod lengths;
mod lines;

pub use lengths::{batch_line_len, element_line_len, refused_line_len};
pub use lines::{
    Sums, batch_line, element_line, push_element_line, push_refused_line, refused_line,
    summary_line,
};
