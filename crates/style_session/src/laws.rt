//! What is true of edits and restyles, as the contracts of functions that do nothing.

ghost use Rattle.std.specs.Prelude.{◌≡◌, ℕ, ℤ, List, Bool, None, false, map, filter, length};
ghost use Rattle.scene_model.specs.Element.{Element};
ghost use Rattle.scene_model.specs.Lookups.{IsElement, numbers};
ghost use Rattle.std.specs.List.{AllByRecursion};
ghost use Rattle.scene_model.specs.Nodes.{IsNodeList, Node};
ghost use Rattle.scene_model.specs.Document.{Document, document_of};
ghost use Rattle.scene_model.specs.Scene.{Scene, elements_of};
ghost use Rattle.change_model.specs.Sound.{IsSound};
ghost use Rattle.selector_model.specs.Selector.{Selector};
ghost use Rattle.value_model.specs.Style.{Style};
ghost use Rattle.cascade_model.specs.Key.{Matched};
ghost use Rattle.cascade_model.specs.Cascade.{cascaded};
ghost use Rattle.edit_model.specs.Apply.{after, refusal};
ghost use Rattle.edit_model.specs.Edit.{DocEdit, Edit, IsShaped};
ghost use Rattle.edit_model.specs.Refusal.{Refusal, refused};
ghost use Rattle.edit_model.specs.Touched.{Touch, is_touched};
ghost use Rattle.edit_model.specs.TouchedBy.{AreTouched, is_listed, is_touched_by};
ghost use Rattle.edit_model.specs.TouchedPairs.{touched_pairs};
ghost use Rattle.edit_model.specs.Marked.{is_marked};
ghost use Rattle.edit_model.specs.MarkedAfter.{is_marked_after};
ghost use Rattle.edit_model.specs.Steady.{SameTags};
ghost use Rattle.session_model.specs.Agrees.{Agrees};
ghost use Rattle.session_model.specs.Standing.{
  Standing,
  cascaded_count,
  edit_freshens,
  edit_marks,
  edited,
  is_cascaded,
  is_matched,
  is_open,
  matched_count,
  matching_in,
  restyled,
  scene_applied,
  style_in,
};
ghost use Rattle.session_model.specs.StandingInvariant.{AllKeep, IsCalmFrom, IsReached, IsSince, IsStyleIn};
ghost use Rattle.session_model.specs.Walk.{committed, placed_styles, results};
ghost use Rattle.style_session.specs.Laws.{AreUnmarkedUp, IsEdit, IsUnmarked, KeepsStyle, styled_now};

/// Declarations that agree give one style.
pub fn agreeing_style()
    ensures { (is_root : Bool) (parent : Style) (size : ℤ) (before after : List Matched)
        → Agrees before after
        → cascaded is_root parent size before ≡ cascaded is_root parent size after }
{}

/// What an accepted edit of a document touches, told edit by edit.
pub fn touched_by_edit()
    ensures { (d : Document) → IsSound d → (edit : DocEdit) → IsShaped edit → refusal d edit ≡ None
        → (touch : Touch) (x : ℕ)
        → is_touched d.elements (after d edit).elements touch x ≡ is_touched_by d edit touch x }
{}

/// The list of the pairs that an accepted edit of a document touches has exactly those, each once.
pub fn touched_pairs()
    ensures { (d : Document) → IsSound d → (edit : DocEdit) → IsShaped edit → refusal d edit ≡ None
        → AreTouched d.elements (after d edit).elements (touched_pairs d edit) }
{}

/// Whom an edit of a document marks is told by what it touches and the document after it alone: of
/// any two documents in which what is in both has the same tag, so of an accepted edit.
pub fn marked_after()
    ensures documents { (before now : List Element) → SameTags before now
        → (selectors : List Selector) (x : ℕ)
        → is_marked before now selectors x ≡ is_marked_after (is_touched before now) now selectors x }
    ensures edits { (d : Document) → IsSound d → (edit : DocEdit) → IsShaped edit → refusal d edit ≡ None
        → (selectors : List Selector) (x : ℕ)
        → is_marked d.elements (after d edit).elements selectors x
        ≡ is_marked_after (is_touched d.elements (after d edit).elements) (after d edit).elements selectors x }
    // And so by the list of the pairs.
    ensures listed { (d : Document) → IsSound d → (edit : DocEdit) → IsShaped edit → refusal d edit ≡ None
        → (selectors : List Selector) (x : ℕ)
        → is_marked d.elements (after d edit).elements selectors x
        ≡ is_marked_after (is_listed (touched_pairs d edit)) (after d edit).elements selectors x }
{}

/// An accepted edit that leaves the scene as it is marks nothing.
pub fn unchanged_scene()
    ensures { (scene : Scene) (edit : Edit) (x : ℕ) → edit_marks scene edit scene x ≡ false }
{}

/// An element that an edit neither marks nor makes fresh has matchings that agree.
pub fn unmarked_matching()
    ensures { (old : Scene) (edit : Edit) (new : Scene) → IsEdit old edit new
        → (x : ℕ) → IsElement (elements_of new) x → IsUnmarked old edit new x
        → Agrees (matching_in old x) (matching_in new x) }
{}

/// If none from it up to the root is marked or fresh, it has the same style.
pub fn unmarked_style()
    ensures { (old : Scene) (edit : Edit) (new : Scene) → IsEdit old edit new
        → (x : ℕ) → IsElement (elements_of new) x → AreUnmarkedUp old edit new x
        → style_in old x ≡ style_in new x }
{}

/// Edits keep a document sound.
pub fn sound_document()
    ensures { (st : Standing) → IsReached st → IsSound st.scene.document }
{}

/// After any edits and restyles, an element that is not open keeps the style that it has.
pub fn not_open_style()
    ensures { (st : Standing) → IsReached st → (x : ℕ) → IsElement (elements_of st.scene) x
        → is_open st x ≡ false → KeepsStyle st x }
{}

/// And so does one that a restyle does not cascade.
pub fn not_cascaded_style()
    ensures { (st : Standing) → IsReached st → (x : ℕ) → IsElement (elements_of st.scene) x
        → is_cascaded st x ≡ false → KeepsStyle st x }
{}

/// A walk that cascades what is marked, fresh, or under another style than before commits what a
/// restyle keeps.
pub fn walked_styles()
    ensures { (st : Standing) → IsReached st
        → placed_styles (committed st) st.scene.document ≡ (restyled st).kept }
{}

/// Nor does it make anything fresh.
pub fn unchanged_fresh()
    ensures { (scene : Scene) (edit : Edit) → IsEdit scene edit scene
        → (x : ℕ) → IsElement (elements_of scene) x → edit_freshens scene edit x ≡ false }
{}

/// The document of a list of nodes is sound, so edits and restyles may start with it.
pub fn sound_start()
    ensures { (nodes : List Node) → IsNodeList nodes → IsSound (document_of nodes) }
{}

/// An element that is neither marked nor fresh is as at the last restyle: it has the parent that it
/// had, and its matchings agree.
pub fn calm_since()
    ensures { (was : Scene) (st : Standing) → IsSince was st
        → (x : ℕ) → IsElement (elements_of st.scene) x → is_matched st x ≡ false
        → IsCalmFrom was st.scene x }
{}

/// And its kept style is the cascade of what applies to it now over its parent's kept style.
pub fn kept_over_parent()
    ensures { (st : Standing) → IsReached st → AllKeep st }
{}

/// The walk hands on exactly what a restyle cascades: each once, in tree order, with the style that
/// it has and the sign of what is matched.
pub fn walked_results()
    ensures { (st : Standing) → IsReached st
        → results st ≡ map (styled_now st) (filter (is_cascaded st) (numbers (elements_of st.scene))) }
{}

/// The counts that are told of a restyle are those of what its walk hands on: how many elements, and
/// how many with the sign of what is matched.
pub fn report_counts()
    ensures cascaded { (st : Standing) → IsReached st → cascaded_count st ≡ length (results st) }
    ensures matched { (st : Standing) → IsReached st
        → matched_count st ≡ length (filter (λ one. one.matched) (results st)) }
{}

/// Each style that is kept is that of the scene of the last restyle.
pub fn kept_since()
    ensures { (was : Scene) (st : Standing) → IsSince was st → AllByRecursion (IsStyleIn was) st.kept }
{}

/// A refused edit changes nothing.
pub fn refused_edit()
    ensures { (st : Standing) (edit : Edit) (why : Refusal)
        → scene_applied st.scene edit ≡ refused why → edited st edit ≡ st }
{}
