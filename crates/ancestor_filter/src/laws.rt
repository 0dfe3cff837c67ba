//! What the counters of a filter tell of selectors, as the contract of a function that does nothing.

ghost use Rattle.std.specs.Prelude.{◌≡◌, ℕ, List, false};
ghost use Rattle.scene_model.specs.Ancestors.{ancestors};
ghost use Rattle.scene_model.specs.Document.{Document};
ghost use Rattle.scene_model.specs.Valid.{IsValid};
ghost use Rattle.selector_model.specs.Holds.{holds};
ghost use Rattle.selector_model.specs.Selector.{Selector};
ghost use Rattle.ancestor_model.specs.Above.{all_counted, ancestor_slots};
ghost use Rattle.ancestor_filter.specs.Names.{StandsFor, slot};

/// A filter that stands for the ancestors of an element refuses no selector that holds there: where the counter of one
/// of the selector's ancestor names is 0, the selector does not hold.
pub fn refused()
    ensures { (doc : Document) (selector : Selector) (x : ℕ) (filter : List ℕ) → IsValid doc.elements
        → StandsFor doc.elements (ancestors doc.elements x) filter
        → all_counted filter (ancestor_slots slot selector) ≡ false → holds doc.elements selector x ≡ false }
{}
