//! How specific a selector is, by its tests.

ghost use Rattle.std.specs.Prelude.{◌≡◌};
ghost use Rattle.selector_model.specs.SpecificityOf.{specificity_of};
ghost use Rattle.selector_types.specs.View.{selector_of};

use crate::{Selector, Specificity};

/// How specific a selector is. It takes no memory.
pub fn specificity(selector: &Selector) -> Specificity
    ensures { result ≡ specificity_of (selector_of selector.now) }
{
    selector.specificity()
}
