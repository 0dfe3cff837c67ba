//! The origins of style sheets, a sheet as it is given, and the cascade layers: their full names and their order.
//!
//! A `LayerName` is a chain from its last part outwards: each link has its part, the name that it is in, how many parts
//! there are, and a 64-bit key. So a name that is made within another shares the whole of it, and two names are mostly
//! told apart by one comparison of numbers. `Layers` has, for each origin, the names in their order with their places
//! by name, so `rank` is one look-up.
#![tactic(auto)]

mod key;
mod known;
mod layers;
mod name;
mod nesting;
mod origin;
mod part;
mod sheet_input;

pub use layers::{Layers, same_relative_order};
pub use name::LayerName;
pub use origin::Origin;
pub use part::Part;
pub use sheet_input::SheetInput;
