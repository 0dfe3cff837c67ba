//! What is made ready of the sheets, once, before any element is styled.

ghost use Rattle.std.specs.Prelude.{◌≡◌, IfOk};
ghost use Rattle.std.specs.List.{list_any};
ghost use Rattle.sheet_set.specs.View.{sources_seen};
ghost use Rattle.selector_types.specs.View.{selectors_of};
ghost use Rattle.rule_maps.specs.RulesView.{rules_seen};
ghost use Rattle.element_styler.specs.Prepared.{IsPrepared, asks, some_asks};

use dom_tree::Doc;
use rule_maps::{RuleMap, asks_ancestors};
use selector_types::Selector;
use sheet_set::Sheets;
use std::alloc::Global;
use stylo_base::{Atom, NoMemory, Text};

/// What is made ready of style sheets. It does not change, so it can be lent to many.
#[derive(Drop)]
pub struct Prepared {
    /// The selectors of the rules, by the names that an element must have for them to hold there.
    pub(crate) map: RuleMap,
    /// The name of the `style` attribute.
    pub(crate) style_name: Atom,
    /// Whether some selector asks for names of ancestors.
    pub(crate) asks_ancestors: bool,
}

impl Prepared {
    /// What is made ready of these sheets.
    pub fn of(alloc: Global, sheets: &Sheets) -> Result<Prepared, NoMemory>
        ensures { IfOk result (λ prepared. IsPrepared (sources_seen sheets.now) prepared) }
    {
        let rules = sheets.selectors();
        Ok(Prepared {
            map: RuleMap::of(alloc, rules)?,
            style_name: Atom::of_text(Text::of_str(alloc, "style")?),
            asks_ancestors: any_asks(rules),
        })
    }

    /// Whether some selector of the rules asks for names of ancestors. Where none does, a filter of these refuses none.
    pub fn asks_ancestors(&self) -> bool
        ensures { result ≡ self.now.asks_ancestors }
    {
        self.asks_ancestors
    }
}

/// Whether some selector of these rules asks for names of ancestors.
fn any_asks(rules: &[Vec<Selector>]) -> bool
    ensures { result ≡ some_asks (rules_seen rules.now) }
{
    for list in rules {
        if one_asks(list) {
            return true;
        }
    }
    false
}

/// Whether one of these selectors does.
fn one_asks(list: &[Selector]) -> bool
    ensures { result ≡ list_any asks (selectors_of list.now) }
{
    for selector in list {
        if asks_ancestors(selector) {
            return true;
        }
    }
    false
}

/// What the styles of a document are computed from.
#[derive(Clone, Copy)]
pub struct Inputs<'a> {
    /// Where memory comes from.
    pub alloc: Global,
    /// The document.
    pub doc: &'a Doc,
    /// Its style sheets.
    pub sheets: &'a Sheets,
    /// What is made ready of them.
    pub prepared: &'a Prepared,
}
