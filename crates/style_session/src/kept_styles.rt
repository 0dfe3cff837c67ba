//! The styles that a session keeps from one restyle to the next.

ghost use Rattle.std.specs.Prelude.{◌≡◌, ◌<◌, ◌==◌, ℕ, OnErr, OnOk, None, Some, [], if◌then◌else◌, length, map, option_map};
ghost use Rattle.std.specs.Arc.{arc_value};
ghost use Rattle.std.specs.List.{AllByRecursion};
ghost use Rattle.std.specs.Option.{option_or};
ghost use Rattle.session_model.specs.Walk.{result_at};
ghost use Rattle.style_session.specs.Answers.{styled_seen};
ghost use Rattle.style_session.specs.KeptView.{Commits, DropsGone, HasPlaces, HasSlots, is_gone, no_styles, slot_at, style_at};

use crate::styled::{NewStyles, Styled};
use dom_tree::Doc;
use std::alloc::Global;
use std::marker::Model;
use std::sync::Arc;
use style_value::Style;
use stylo_base::NoMemory;

/// The styles that elements had at the last restyle, and which of them it cascaded. Contracts see the style at each
/// number, and the list.
#[derive(Drop)]
pub(crate) struct KeptStyles {
    /// By number: the style of the element, if it was there. Empty before the first restyle.
    pub by_number: Vec<Option<Arc<Style>>>,
    /// The elements that the last restyle cascaded, in tree order.
    pub recent: Vec<u32>,
}

impl Model for KeptStyles {
    ghost use Rattle.std.specs.Prelude.{map, option_map};
    ghost use Rattle.std.specs.Arc.{arc_value};
    ghost use Rattle.style_session.specs.KeptView.{KeptView, kept_code};

    ghost Value = { KeptView };

    ghost coded = { kept_code };

    ghost view = { λ k. record { styles = map (option_map arc_value) k.by_number.items; recent = k.recent.items } };
}

impl KeptStyles {
    /// None is kept yet. It takes no memory.
    pub(crate) fn start(alloc: Global) -> KeptStyles
        ensures { result ≡ no_styles }
    {
        KeptStyles {
            by_number: Vec::new(alloc),
            recent: Vec::new(alloc),
        }
    }

    /// The style of an element at the last restyle, if it was there.
    pub(crate) fn style(&self, x: u32) -> Option<&Arc<Style>>
        ensures { option_map (λ style. arc_value style.now) result ≡ style_at self.now x }
    {
        self.by_number.get(x as usize)?.as_ref()
    }

    /// The elements that the last restyle cascaded.
    pub(crate) fn recent(&self) -> &[u32]
        ensures { result.now ≡ self.now.recent }
    {
        self.recent.as_slice()
    }

    /// Makes so many places for styles, where there are fewer.
    pub(crate) fn reserve(&mut self, places: usize) -> Result<(), NoMemory>
        ensures ok { OnOk result (HasPlaces places self.old self.new) }
        ensures kept { OnErr result (self.new ≡ self.old) }
    {
        make_slots(&mut self.by_number, places)
    }

    /// Keeps the new style of each element that a restyle cascaded. It takes no memory.
    pub(crate) fn commit(&mut self, news: NewStyles)
        requires { AllByRecursion (λ one. one.number < length self.old.styles) news.styled.items }
        ensures { Commits (map styled_seen news.styled.items) self.old self.new }
    {
        let NewStyles { styled, numbers } = news;
        keep_all(styled, &mut self.by_number);
        self.recent = numbers;
    }

    /// The last restyle cascaded none. It takes no memory.
    pub(crate) fn commit_none(&mut self)
        ensures { self.new ≡ record self.old { recent = [] } }
    {
        self.recent.clear();
    }

    /// Drops the styles of those numbers of a list that no element has any more. It takes no memory.
    pub(crate) fn drop_gone(&mut self, doc: &Doc, gone: &[u32])
        ensures { DropsGone doc.now.elements gone.now self.old self.new }
    {
        drop_all(doc, gone, &mut self.by_number);
    }
}

/// Makes places for styles, where there are fewer than so many.
pub(crate) fn make_slots(slots: &mut Vec<Option<Arc<Style>>>, places: usize) -> Result<(), NoMemory>
    ensures ok { OnOk result
        (HasSlots places (length slots.new.items) (slot_at slots.old.items) (slot_at slots.new.items)) }
    ensures kept { OnErr result (slots.new.items ≡ slots.old.items) }
{
    let there = slots.len();
    if places <= there {
        return Ok(());
    }
    let more = places - there;
    slots.reserve(more)?;
    for _ in 0..more {
        slots.push_reserved(None);
    }
    Ok(())
}

/// Keeps the new style of each element of a list at its place. It takes no memory.
fn keep_all(list: Vec<Styled>, slots: &mut Vec<Option<Arc<Style>>>)
    requires { AllByRecursion (λ one. one.number < length slots.old.items) list.items }
    ensures { (x : ℕ) → slot_at slots.new.items x
        ≡ option_or (result_at (map styled_seen list.items) x) (slot_at slots.old.items x) }
{
    let mut left = list;
    while let Some(one) = left.pop() {
        let Styled { number, style, .. } = one;
        keep(&mut slots[number as usize], style);
    }
}

/// Puts a style at a place.
pub(crate) fn keep(slot: &mut Option<Arc<Style>>, style: Arc<Style>)
    ensures { slot.new ≡ Some style }
{
    *slot = Some(style);
}

/// Drops the styles of those numbers of a list that no element has any more. It takes no memory.
fn drop_all(doc: &Doc, gone: &[u32], slots: &mut Vec<Option<Arc<Style>>>)
    ensures { (x : ℕ) → slot_at slots.new.items x
        ≡ (if is_gone doc.now.elements gone.now x then None else slot_at slots.old.items x) }
{
    for x in gone {
        if !doc.contains(*x) {
            drop_style(slots, *x);
        }
    }
}

/// Drops the style at the place of a number, if one is there.
fn drop_style(slots: &mut Vec<Option<Arc<Style>>>, x: u32)
    ensures { (y : ℕ) → slot_at slots.new.items y ≡ (if x == y then None else slot_at slots.old.items y) }
{
    if (x as usize) < slots.len() {
        slots[x as usize] = None;
    }
}
