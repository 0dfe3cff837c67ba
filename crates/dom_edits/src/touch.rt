//! What an edit can touch at an element.

ghost use Rattle.std.specs.Prelude.{◌≡◌};
ghost use Rattle.stylo_base.specs.StateView.{state_seen};
ghost use Rattle.edit_model.specs.TouchedBy.{same_state, same_touch};
ghost use Rattle.dom_edits.specs.TouchView.{touch_key, touch_seen};

use crate::touch_name::TouchName;
use stylo_base::State;

/// What an edit can touch at an element: something that parts of selectors look at.
#[derive(Drop)]
pub enum Touch {
    /// The value of the attribute of this name, or whether the element has it.
    Attribute(TouchName),
    /// Whether the element has this id.
    Id(TouchName),
    /// Whether the element has this class.
    Class(TouchName),
    /// Whether the element is in this state.
    State(State),
    /// The place of the element among its siblings.
    Positional,
    /// The siblings before the element.
    Sibling,
    /// Whether the element has children.
    Empty,
}

impl Touch {
    /// A number by which two are told apart at first.
    #[inline]
    pub fn key(&self) -> u64
        ensures { result ≡ touch_key (touch_seen self.now) }
    {
        match self {
            Touch::Attribute(name) | Touch::Id(name) | Touch::Class(name) => name.key(),
            Touch::State(_) => 0,
            Touch::Positional => 1,
            Touch::Sibling => 2,
            Touch::Empty => 3,
        }
    }

    /// Whether two are the same.
    #[inline]
    pub fn is(&self, other: &Touch) -> bool
        ensures { result ≡ same_touch (touch_seen self.now) (touch_seen other.now) }
    {
        match (self, other) {
            (Touch::Attribute(name), Touch::Attribute(other)) => name.is(other),
            (Touch::Id(name), Touch::Id(other)) => name.is(other),
            (Touch::Class(name), Touch::Class(other)) => name.is(other),
            (Touch::State(state), Touch::State(other)) => is_same_state(*state, *other),
            (Touch::Positional, Touch::Positional) => true,
            (Touch::Sibling, Touch::Sibling) => true,
            (Touch::Empty, Touch::Empty) => true,
            _ => false,
        }
    }
}

/// Whether two states are the same.
fn is_same_state(one: State, other: State) -> bool
    ensures { result ≡ same_state (state_seen one) (state_seen other) }
{
    one == other
}
