//! The walk of a restyle.

ghost use Rattle.std.specs.Prelude.{◌≡◌, ◌<◌, ◌∷◌, ℕ, [], IfOk, OnOk, Some, length, map, not, slice_get};
ghost use Rattle.scene_model.specs.Lookups.{IsElement};
ghost use Rattle.value_model.specs.Style.{Style as Computed};
ghost use Rattle.invalidation_map.specs.Members.{AreBelow};
ghost use Rattle.invalidation_map.specs.Steps.{HasRoom};
ghost use Rattle.session_model.specs.Standing.{is_style};
ghost use Rattle.session_model.specs.Walk.{results};
ghost use Rattle.style_session.specs.Answers.{styled_seen};
ghost use Rattle.style_session.specs.KeptView.{style_at};
ghost use Rattle.style_session.specs.Lent.{FitsInputs, ServesInputs, lent};
ghost use Rattle.style_session.specs.Walking.{AddsElements, GoesOn, HandsOn, HasPlaceOf, IsBare, IsBareAt, IsMet, IsNext, IsStyleOf};
ghost use Rattle.style_session.specs.Walking.{IsWalk, IsWalkTo, Learns, Meets, Widens, known_at};

use crate::derived::StyleCache;
use crate::first_restyle::UNKNOWN;
use crate::lists::Lists;
use crate::styled::Styled;
use dom_tree::Doc;
use invalidation_map::ElementSet;
use io_edges::Gate;
use std::sync::Arc;
use stylo_base::NoMemory;

/// A restyle filters by names of ancestors where one of so many elements is matched, or was styled.
const FEW: usize = 16;

/// What a walk in tree order has found out.
#[derive(Drop)]
struct Walk {
    /// By number: the number of the element's new style in the table. `UNKNOWN`: the element was not met, or
    /// it keeps its style, which was not asked for.
    known: Vec<u32>,
    /// The elements that are cascaded, as far as it is known: those that are matched, the children of those
    /// whose style has come out as another than the kept one, and all once the root's font size has.
    due: ElementSet,
    /// The elements that were cascaded.
    styled: Vec<Styled>,
}

/// The elements that a restyle cascades, each once, in tree order, with its new style. The gate has one
/// pass of hand 0 before the style of each is sought.
pub(crate) fn restyled<G: Gate>(
    lists: &Lists<'_>,
    cache: &mut StyleCache,
    gate: &G,
) -> Result<Vec<Styled>, NoMemory>
    requires { FitsInputs lists.now.inputs.now cache.old }
    ensures styled { IfOk result (λ list. map styled_seen list.items ≡ results (lent lists.now)) }
    ensures fits { FitsInputs lists.now.inputs.now cache.new }
{
    let order = lists.inputs.doc.in_tree_order();
    let few = order.len() / FEW;
    let filters = lists.pending.has_many(few);
    cache.begin(lists.inputs, filters);
    let Some((first, rest)) = order.split_first() else {
        return Ok(Vec::new(lists.inputs.alloc));
    };
    if lists.is_matched(*first) {
        gate.pass(0, *first);
    }
    let mut walk = Walk::start(lists)?;
    walk.begin(lists, cache, *first)?;
    for number in rest {
        if !walk.due.contains(*number) {
            continue;
        }
        gate.pass(0, *number);
        cache.filter_if(lists.inputs, !filters && walk.styled.len() == few);
        walk.cascade(lists, cache, *number)?;
    }
    Ok(walk.styled)
}

impl Walk {
    /// Nothing was met yet.
    fn start(lists: &Lists<'_>) -> Result<Walk, NoMemory>
        ensures { IfOk result (IsBare (lent lists.now)) }
    {
        let inputs = lists.inputs;
        let last = inputs.doc.last();
        let mut due = ElementSet::new(inputs.alloc, last as u32)?;
        add_elements(inputs.doc, lists.pending.marked(), &mut due);
        add_elements(inputs.doc, lists.pending.fresh(), &mut due);
        Ok(Walk {
            known: vec![in inputs.alloc; UNKNOWN; last + 1]?,
            due,
            styled: Vec::new(inputs.alloc),
        })
    }

    /// Meets the root, whose font size is what `rem` stands for, and hands it on if it is matched.
    fn begin(
        &mut self,
        lists: &Lists<'_>,
        cache: &mut StyleCache,
        root: u32,
    ) -> Result<(), NoMemory>
        requires bare { IsBareAt (lent lists.now) root self.old }
        requires serves { ServesInputs lists.now.inputs.now cache.old }
        ensures ok { OnOk result (IsWalkTo (lent lists.now) (root ∷ []) cache.new self.new) }
        ensures serves { ServesInputs lists.now.inputs.now cache.new }
    {
        if !lists.is_matched(root) {
            cache.fit(lists.kept.style(root).unwrap().font_size());
            return Ok(());
        }
        let inputs = lists.inputs;
        let style = cache.root(inputs, root)?;
        let differs = lists.is_other_size(root, cache.size);
        self.cascade_later(inputs.doc.in_tree_order(), differs);
        self.meet(lists, cache, root, style)?;
        self.hand_on(cache, root, style, true)
    }

    /// The number of the new style of an element, if it is known.
    fn known_of(&self, number: u32) -> Option<u32>
        ensures { result ≡ known_at self.now.known.items number }
    {
        match self.known.get(number as usize) {
            Some(style) if *style < UNKNOWN => Some(*style),
            _ => None,
        }
    }

    /// Styles an element over the new style of its parent, which was met, and hands it on.
    fn cascade(
        &mut self,
        lists: &Lists<'_>,
        cache: &mut StyleCache,
        number: u32,
    ) -> Result<(), NoMemory>
        requires next { IsNext (lent lists.now) number self.old }
        requires walk { IsWalk (lent lists.now) cache.old self.old }
        requires serves { ServesInputs lists.now.inputs.now cache.old }
        ensures ok { OnOk result (GoesOn (lent lists.now) number self.old cache.new self.new) }
        ensures serves { ServesInputs lists.now.inputs.now cache.new }
    {
        let inputs = lists.inputs;
        let parent = inputs.doc.parent(number).unwrap();
        let over = self.style_of(lists, cache, parent)?;
        let size = cache.size;
        let style = cache.styler.child(inputs, number, over, size)?;
        self.meet(lists, cache, number, style)?;
        self.hand_on(cache, number, style, lists.is_matched(number))
    }

    /// The number of the new style of an element that was met.
    fn style_of(
        &mut self,
        lists: &Lists<'_>,
        cache: &mut StyleCache,
        number: u32,
    ) -> Result<usize, NoMemory>
        requires met { IsMet (lent lists.now) self.old number }
        requires walk { IsWalk (lent lists.now) cache.old self.old }
        requires serves { ServesInputs lists.now.inputs.now cache.old }
        ensures ok { IfOk result (λ style. IsStyleOf (lent lists.now) number style self.old cache.new self.new) }
        ensures serves { ServesInputs lists.now.inputs.now cache.new }
    {
        if let Some(style) = self.known_of(number) {
            return Ok(style as usize);
        }
        let kept = lists.kept.style(number).unwrap();
        let style = cache.styler.adopt(kept)?;
        self.learn(number, style)?;
        Ok(style)
    }

    /// Meets an element that is cascaded, with its new style, by its number in the table. If that is another
    /// than the kept one, its children are cascaded.
    fn meet(
        &mut self,
        lists: &Lists<'_>,
        cache: &StyleCache,
        number: u32,
        style: usize,
    ) -> Result<(), NoMemory>
        requires place { HasPlaceOf (lent lists.now) number self.old }
        requires style { style < length cache.now.styler.table }
        ensures { (own : Computed) → slice_get cache.now.styler.table style ≡ Some own
            → OnOk result (Meets lists.now.inputs.now.doc.now.elements number style
            (not (is_style own (style_at lists.now.kept.now number))) self.old self.new) }
    {
        let differs = lists.is_other_style(number, cache.styler.style(style));
        self.cascade_later(lists.inputs.doc.children(number), differs);
        self.learn(number, style)
    }

    /// Adds elements to those that are cascaded, if a style differs.
    fn cascade_later(&mut self, numbers: &[u32], differs: bool)
        requires { AreBelow self.old.due.room numbers.now }
        ensures { Widens numbers.now differs self.old self.new }
    {
        if differs {
            self.due.add_all(numbers);
        }
    }

    /// Keeps the number of the new style of an element. Where it doesn't fit, no memory holds so many.
    fn learn(&mut self, number: u32, style: usize) -> Result<(), NoMemory>
        requires { number < length self.old.known.items }
        ensures { OnOk result (Learns number style self.old self.new) }
    {
        if style >= UNKNOWN as usize {
            return Err(NoMemory);
        }
        self.known[number as usize] = style as u32;
        Ok(())
    }

    /// Hands an element on with its new style, by its number in the table.
    fn hand_on(
        &mut self,
        cache: &StyleCache,
        number: u32,
        style: usize,
        matched: bool,
    ) -> Result<(), NoMemory>
        requires { style < length cache.now.styler.table }
        ensures { (own : Computed) → slice_get cache.now.styler.table style ≡ Some own
            → OnOk result (HandsOn (record { number = number; style = own; matched = matched }) self.old self.new) }
    {
        let style = Arc::try_clone(cache.styler.style(style))?;
        self.styled.push(Styled {
            number,
            style,
            matched,
        })?;
        Ok(())
    }
}

/// Adds those numbers of a list that are elements.
fn add_elements(doc: &Doc, numbers: &[u32], due: &mut ElementSet)
    requires { HasRoom doc.now.elements due.old.room }
    ensures { AddsElements doc.now.elements numbers.now due.old due.new }
{
    for x in numbers {
        if doc.contains(*x) {
            due.add(*x);
        }
    }
}
