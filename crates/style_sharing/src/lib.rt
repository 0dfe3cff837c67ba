//! Styles of elements that were styled, for their twins: siblings with the same tag, attributes and states.
//!
//! A `Share` keeps numbers of elements, each with its style, the last used first. Nothing of a document is copied:
//! whether an element is a twin is asked of the document that is handed in, parents first, which are numbers. So a look
//! compares at most as many elements as there may be entries, and most of them by one number.
//!
//! Twins have one style only where no selector asks for siblings (`lets_share`): which child an element is, whether it
//! has children, and what stands beside it are not compared. Else a share is empty to all who ask.
#![tactic(auto)]

pub mod laws;
mod rules;
mod share;
mod twins;

pub use rules::lets_share;
pub use share::Share;
