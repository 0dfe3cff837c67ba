//! Why a share gives right styles, as the contracts of functions that do nothing.

ghost use Rattle.std.specs.Prelude.{◌≡◌, ℕ, Some, false, map, not};
ghost use Rattle.scene_model.specs.Document.{Document};
ghost use Rattle.scene_model.specs.Valid.{IsValid};
ghost use Rattle.value_model.specs.Style.{Style};
ghost use Rattle.sheet_model.specs.Sources.{Sources};
ghost use Rattle.cascade_model.specs.Matching.{matching};
ghost use Rattle.cascade_model.specs.StyleOf.{style_of};
ghost use Rattle.sharing_model.specs.Siblings.{ask_for_siblings};
ghost use Rattle.sharing_model.specs.Share.{Entry, IsShareOf, Share, emptied, found, placed, put_first, serving};
ghost use Rattle.sharing_model.specs.Twin.{IsTwin};

/// Where no selector asks for siblings, the same declarations apply to twins.
pub fn matching_twin()
    ensures { (doc : Document) (sources : Sources) (y x : ℕ) → IsValid doc.elements
        → ask_for_siblings (map (λ rule. rule.selectors) sources.rules) ≡ false → IsTwin doc.elements y x
        → matching doc.elements sources y ≡ matching doc.elements sources x }
{}

/// Where no selector asks for siblings, twins have one style.
pub fn style_twin()
    ensures { (doc : Document) (sources : Sources) (y x : ℕ) → IsValid doc.elements
        → ask_for_siblings (map (λ rule. rule.selectors) sources.rules) ≡ false → IsTwin doc.elements y x
        → style_of doc.elements sources y ≡ style_of doc.elements sources x }
{}

/// A share without entries that serves as the rules let it is right.
pub fn share_start()
    ensures { (doc : Document) (sources : Sources) (share : Share) → IsShareOf doc.elements sources
        (emptied (not (ask_for_siblings (map (λ rule. rule.selectors) sources.rules))) share) }
{}

/// What serves an element in a right share is its style.
pub fn found_right()
    ensures { (doc : Document) (sources : Sources) (x : ℕ) (share : Share) (e : Entry) → IsValid doc.elements
        → IsShareOf doc.elements sources share → serving doc.elements x share ≡ Some e
        → e.1 ≡ style_of doc.elements sources x }
{}

/// It is of a twin, which has that style.
pub fn found_twin()
    ensures { (doc : Document) (sources : Sources) (x : ℕ) (share : Share) (e : Entry) → IsValid doc.elements
        → IsShareOf doc.elements sources share → serving doc.elements x share ≡ Some e
        → IsTwin doc.elements e.0 x × (style_of doc.elements sources e.0 ≡ style_of doc.elements sources x) }
{}

/// A right share is right after a look.
pub fn share_found()
    ensures { (doc : Document) (sources : Sources) (x : ℕ) (share : Share)
        → IsShareOf doc.elements sources share → IsShareOf doc.elements sources (found doc.elements x share) }
{}

/// And after the style of an element was put.
pub fn share_placed()
    ensures { (doc : Document) (sources : Sources) (x : ℕ) (share : Share) (style : Style) → IsValid doc.elements
        → IsShareOf doc.elements sources share → style ≡ style_of doc.elements sources x
        → IsShareOf doc.elements sources (placed doc.elements x style share) }
{}

/// Also without a look for a twin.
pub fn share_put_first()
    ensures { (doc : Document) (sources : Sources) (x : ℕ) (share : Share) (style : Style)
        → IsShareOf doc.elements sources share → style ≡ style_of doc.elements sources x
        → IsShareOf doc.elements sources (put_first (x, style) share) }
{}
