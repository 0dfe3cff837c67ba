//! Calls for C: a document with its style sheets, which takes edits and keeps the styles of its elements.
//! `include/bokdrez.h` says what each takes and leaves.
#![tactic(auto)]

mod editing;
mod handle;
mod loose;
mod opening;
mod reading;
mod restyling;
mod told;

ghost use Rattle.std.specs.Prelude.{◌≡◌};

pub use editing::{bokdrez_edit, bokdrez_set, bokdrez_state, bokdrez_unset};
pub use handle::Handle;
pub use opening::{bokdrez_close, bokdrez_open};
pub use reading::{bokdrez_changed, bokdrez_style, bokdrez_text};
pub use restyling::{RestyleCounts, bokdrez_restyle};
pub use told::Why;

/// The number of the header that fits: it is another one where a call is.
#[unsafe(no_mangle)]
pub extern "C" fn bokdrez_version() -> u32
    ensures { result ≡ 1 }
{
    1
}
