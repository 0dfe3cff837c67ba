//! Custom properties (css-variables-1): their names, values and maps, and the reader of the parts of
//! a value. Nothing else in the crate stands on them.

mod map;
mod name;
mod named_entry;
mod parts;
mod unfit;
mod value;

pub use map::{CustomEntry, CustomMap};
pub use name::{CustomName, is_custom_name};
pub use named_entry::{NamedEntry, place_by_name};
pub use parts::{PartReader, PartStep};
pub use value::{CustomValue, TOKEN_LIMIT};
