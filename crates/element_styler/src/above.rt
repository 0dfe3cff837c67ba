//! The ancestors of the element that is matched, while the filter of their names serves.

ghost use Rattle.std.specs.Prelude.{◌≡◌, false};
ghost use Rattle.ancestor_model.specs.Counts.{full};
ghost use Rattle.ancestor_filter.specs.Paths.{nothing_pushed};

use ancestor_filter::{Ancestors, Filter};
use dom_tree::Doc;
use std::alloc::Global;
use stylo_base::NoMemory;

/// The ancestors of an element. While it doesn't filter, it has none, and its filter stands for any.
#[derive(Drop)]
pub(crate) struct Above {
    ancestors: Ancestors,
    /// Whether the filter counts names.
    filters: bool,
    ghost idle: { filters ≡ false → ancestors ≡ nothing_pushed full },
}

impl Above {
    ghost use Rattle.std.specs.Prelude.{[], IfOk, OnOk};
    ghost use Rattle.scene_model.specs.Document.{Document};
    ghost use Rattle.scene_model.specs.Lookups.{IsElement};
    ghost use Rattle.element_styler.specs.Follows.{Follows, IsAbove};

    /// No ancestors yet. The only error is that memory ran out.
    pub(crate) fn start(alloc: Global) -> Result<Above, NoMemory>
        ensures { IfOk result (λ above. (doc : Document) → Follows doc.elements above) }
    {
        Ok(Above {
            ancestors: Ancestors::start(alloc)?,
            filters: true,
        })
    }

    /// Takes all ancestors away, so that it is right for any document, and filters from here on or not. It takes no
    /// memory.
    pub(crate) fn begin(&mut self, filters: bool)
        ensures nothing { self.new.ancestors.elements ≡ [] }
        ensures follows { (doc : Document) → Follows doc.elements self.new }
    {
        if filters {
            self.ancestors.clear();
            self.filters = true;
        } else if self.filters {
            self.ancestors.saturate();
            self.filters = false;
        }
    }

    /// Makes it the ancestors of `x`, where it filters. The only error is that memory ran out.
    pub(crate) fn reach(&mut self, doc: &Doc, x: u32) -> Result<(), NoMemory>
        requires there { IsElement doc.now.elements x }
        requires follows { Follows doc.now.elements self.old }
        ensures above { OnOk result (IsAbove doc.now.elements x self.new) }
        ensures follows { Follows doc.now.elements self.new }
    {
        if self.filters {
            self.ancestors.reach(doc, x)?;
        }
        Ok(())
    }

    /// The filter of the names of the ancestors.
    pub(crate) fn filter(&self) -> &Filter
        ensures { result.now ≡ self.now.ancestors.filter }
    {
        self.ancestors.filter()
    }
}
