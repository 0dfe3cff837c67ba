//! The declarations that a cascade is over.

ghost use Rattle.std.specs.Prelude.{◌≡◌, option_copied};
ghost use Rattle.cascade_core.specs.Declarations.{at_place, in_order};

use crate::LentMatched;

/// The declarations that apply to an element, in two lists. In their one order the second list
/// follows the first.
#[derive(Clone, Copy, Debug)]
pub struct Declarations<'a> {
    /// Those of the rules that match the element.
    pub matched: &'a [LentMatched<'a>],
    /// Those of its `style` attribute.
    pub attached: &'a [LentMatched<'a>],
}

impl<'a> Declarations<'a> {
    /// The declaration at a place, which is its number in the one order, from 1. There is none at 0.
    pub(crate) fn at_place(self, place: u32) -> Option<&'a LentMatched<'a>>
        ensures { option_copied result ≡ at_place (in_order self.entry) place }
    {
        if place == 0 {
            return None;
        }
        let index = place as usize - 1;
        if index < self.matched.len() {
            self.matched.get(index)
        } else {
            self.attached.get(index - self.matched.len())
        }
    }
}
