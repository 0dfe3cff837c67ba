//! What the program does besides the engine: it reads the words of its command line, reads an input to its end, writes
//! whole pieces and lines, and keeps the lines that it wrote, or their lengths, for the elements whose style stays. Of
//! sessions and jobs nothing is known here.
//!
//! The input is read in pieces of 64 KiB straight into its vector. The lines are made in one text that is used again,
//! each written by one call of the sink; standard output gathers up to 64 KiB. Where a batch follows, the lines of the
//! elements are kept (`Lines`): their bytes one behind the other, and by number where each stands, so that a kept line
//! is one look and one call of the sink (`Lines::line`).
#![tactic(auto)]

mod commands;
mod input;
mod lengths;
mod lines;
mod words;
mod writing;

pub use input::{InputError, read_all};
pub use lengths::Lengths;
pub use lines::Lines;
pub use words::{Line, WordsError, read_line};
pub use writing::{write_all, write_line};
