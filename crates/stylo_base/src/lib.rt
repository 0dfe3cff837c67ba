//! What every other crate of the style engine uses: out of memory, texts, names and their keys,
//! fixed-point numbers, specificities, states, devices, and the words of limits and refusals.
//!
//! `Names` keeps each text once, and beside it a 64-bit key. An `Atom` is a text with its key. A name is compared with
//! an atom by the keys first, and by the texts where the keys are equal; so a test of a selector hashes nothing, and a
//! miss, which is nearly every test, is one comparison of numbers.
//!
//! A `Text` of at most 16 bytes of UTF-8 has them in the value itself, in an `ArrayString` of `arrayvec`, and takes no
//! memory; a longer one, and one that has grown longer, is a `String` (`TextForm`). Either way the value is of 32
//! bytes. It has no room for more because a text is lent as `&str` far more often than it is made: an `ArrayString`
//! knows that its bytes are UTF-8 and lends them as they are, and its length is a `usize`.
#![tactic(auto)]

mod ascii_case;
mod atom;
mod device;
mod fixed;
pub mod laws;
pub mod limits;
mod memory;
mod name_key;
mod names;
mod number_text;
mod path_text;
mod refusal;
mod specificity;
mod state;
mod text;
mod text_form;

pub use ascii_case::eq_ascii_case;
pub use atom::Atom;
pub use device::Device;
pub use fixed::Fixed;
pub use memory::NoMemory;
pub use name_key::key_of_text;
pub use names::{Name, Names};
pub use number_text::NUMBER_ROOM;
pub use path_text::PathText;
pub use refusal::{EditRefused, Kind};
pub use specificity::Specificity;
pub use state::State;
pub use text::Text;
