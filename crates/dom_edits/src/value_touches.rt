//! What is touched where a value changes.

ghost use Rattle.std.specs.Prelude.{◌≡◌, ◌++◌, ◌∷◌, [], IfOk, OnOk, codes, filter, map, not, option_map};
ghost use Rattle.std.specs.Str.{chars};
ghost use Rattle.base_model.specs.Text.{is_empty_text};
ghost use Rattle.scene_model.specs.Lookups.{IsElement, attribute_of};
ghost use Rattle.stylo_base.specs.NameList.{is_among};
ghost use Rattle.stylo_base.specs.StateView.{state_seen};
ghost use Rattle.edit_model.specs.Touched.{class, id, same_optional};
ghost use Rattle.edit_model.specs.TouchedPairs.{classes_between, ids_among, state_touches as model_state_touches, value_touches as model_value_touches};
ghost use Rattle.dom_edits.specs.TouchView.{touch_seen};
ghost use Rattle.dom_edits.specs.WordSets.{IsWordSet, texts_of};

use crate::touch::Touch;
use crate::touch_name::TouchName;
use crate::word::is_same_text;
use crate::word_set::WordSet;
use dom_tree::Doc;
use std::alloc::Global;
use stylo_base::{NoMemory, State};

/// So many touches there is room for at once: the attribute, and a few classes before and after.
const ROOM: usize = 8;

/// What is touched where the attribute of this name of an element gets the value `now`. None: it is taken away.
pub(crate) fn value_touches(
    alloc: Global,
    doc: &Doc,
    x: u32,
    name: &str,
    now: Option<&str>,
) -> Result<Vec<Touch>, NoMemory>
    requires { IsElement doc.now.elements x }
    ensures { IfOk result (λ touches. map touch_seen touches.items ≡ model_value_touches (chars name.now)
        (attribute_of doc.now.elements x (chars name.now)) (option_map (λ text. chars text.now) now.entry)) }
{
    let before = doc.attribute(x, name);
    if is_same_value(before, now) {
        return Ok(Vec::new(alloc));
    }
    let mut touches = Vec::with_capacity(alloc, ROOM)?;
    touches.push(Touch::Attribute(TouchName::of(alloc, name)?))?;
    if name == "id" {
        push_ids(alloc, before, now, &mut touches)?;
    } else if name == "class" {
        push_classes(alloc, doc, x, now, &mut touches)?;
    }
    Ok(touches)
}

/// What is touched where a state that was `before` is `now`.
pub(crate) fn state_touches(
    alloc: Global,
    state: State,
    before: bool,
    now: bool,
) -> Result<Vec<Touch>, NoMemory>
    ensures { IfOk result (λ touches.
        map touch_seen touches.items ≡ model_state_touches (state_seen state) before now) }
{
    let mut touches = Vec::new(alloc);
    if before != now {
        touches.push(Touch::State(state))?;
    }
    Ok(touches)
}

/// Whether two values are the same.
fn is_same_value(one: Option<&str>, other: Option<&str>) -> bool
    ensures { result ≡ same_optional (option_map (λ text. chars text.now) one.entry)
        (option_map (λ text. chars text.now) other.entry) }
{
    match (one, other) {
        (None, None) => true,
        (Some(one), Some(other)) => is_same_text(one, other),
        _ => false,
    }
}

/// Appends the ids that two values are.
fn push_ids(
    alloc: Global,
    before: Option<&str>,
    now: Option<&str>,
    touches: &mut Vec<Touch>,
) -> Result<(), NoMemory>
    ensures { OnOk result (map touch_seen touches.new.items ≡ map touch_seen touches.old.items
        ++ map id (ids_among (option_map (λ text. chars text.now) before.entry)
        (option_map (λ text. chars text.now) now.entry))) }
{
    if let Some(value) = before {
        push_id(alloc, value, touches)?;
    }
    if let Some(value) = now {
        push_id(alloc, value, touches)?;
    }
    Ok(())
}

/// Appends the id that a value is. An empty one is none.
fn push_id(alloc: Global, value: &str, touches: &mut Vec<Touch>) -> Result<(), NoMemory>
    ensures { OnOk result (map touch_seen touches.new.items ≡ map touch_seen touches.old.items
        ++ map id (filter (λ text. not (is_empty_text text)) (chars value.now ∷ []))) }
{
    if !value.is_empty() {
        touches.push(Touch::Id(TouchName::of(alloc, value)?))?;
    }
    Ok(())
}

/// Appends the classes that an element has, or has once `now` is its value of `class`, but not both.
fn push_classes(
    alloc: Global,
    doc: &Doc,
    x: u32,
    now: Option<&str>,
    touches: &mut Vec<Touch>,
) -> Result<(), NoMemory>
    requires { IsElement doc.now.elements x }
    ensures { OnOk result (map touch_seen touches.new.items ≡ map touch_seen touches.old.items
        ++ map class (classes_between (attribute_of doc.now.elements x (codes "class"))
        (option_map (λ text. chars text.now) now.entry))) }
{
    let names = doc.names(x);
    let before = WordSet::of_classes(alloc, &names)?;
    let now = WordSet::of(alloc, now)?;
    push_missing(alloc, &before, &now, touches)?;
    push_missing(alloc, &now, &before, touches)?;
    Ok(())
}

/// Appends the classes of one set that another has not.
fn push_missing(
    alloc: Global,
    from: &WordSet,
    other: &WordSet,
    touches: &mut Vec<Touch>,
) -> Result<(), NoMemory>
    requires { IsWordSet other.now }
    ensures { OnOk result (map touch_seen touches.new.items ≡ map touch_seen touches.old.items
        ++ map class (filter (λ word. not (is_among word (texts_of other.now))) (texts_of from.now))) }
{
    for word in from.words.as_slice() {
        if !other.has(word) {
            touches.push(Touch::Class(TouchName::of_keyed(alloc, word.text, word.key)?))?;
        }
    }
    Ok(())
}
