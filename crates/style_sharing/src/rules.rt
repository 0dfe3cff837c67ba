//! Whether rules let a share serve.

ghost use Rattle.std.specs.Prelude.{◌≡◌, not};
ghost use Rattle.std.specs.List.{list_any};
ghost use Rattle.selector_types.specs.View.{rules_seen, selectors_of};
ghost use Rattle.sharing_model.specs.Siblings.{ask_for_siblings, asks_for_siblings};

use selector_types::Selector;

/// Whether twins have one style under these rules, of each of which the selectors are given: none asks for siblings. It
/// is one look at each selector, and takes no memory.
pub fn lets_share(rules: &[Vec<Selector>]) -> bool
    ensures { result ≡ not (ask_for_siblings (rules_seen rules.now)) }
{
    for selectors in rules {
        if some_ask(selectors) {
            return false;
        }
    }
    true
}

/// Whether one of these selectors asks for siblings.
fn some_ask(selectors: &[Selector]) -> bool
    ensures { result ≡ list_any asks_for_siblings (selectors_of selectors.now) }
{
    for selector in selectors {
        if selector.asks_for_siblings() {
            return true;
        }
    }
    false
}
