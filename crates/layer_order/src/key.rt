//! The keys of names.

ghost use Rattle.std.specs.Prelude.{◌≡◌};
ghost use Rattle.layer_order.specs.Chain.{part_of};
ghost use Rattle.layer_order.specs.Key.{fed_more, key_after, part_input};

use crate::Part;
use std::hash::{DefaultHasher, Hash, Hasher};

/// The key of a name with one more part.
#[tactic(auto, unfolding(crate::specs::Key::key_after))]
pub(crate) fn key_after(outer: u64, part: &Part) -> u64
    ensures { result ≡ key_after outer (part_of part.now) }
{
    let mut state = DefaultHasher::new();
    state.write_u64(outer);
    feed(part, &mut state);
    state.finish()
}

/// What a step feeds to a hash.
fn feed(part: &Part, state: &mut DefaultHasher)
    ensures { state.new ≡ fed_more state.old (part_input (part_of part.now)) }
{
    match part {
        Part::Named(text) => text.as_str().hash(state),
        Part::Anonymous {
            sheet,
            edition,
            place,
        } => {
            state.write_u32(*sheet);
            state.write_u32(*edition);
            state.write_u32(*place);
        }
    }
}
