//! The first restyle of a session: all elements are fresh, and no style is kept yet.

ghost use Rattle.std.specs.Prelude.{◌≡◌, ◌<◌, ◌∷◌, [], IfOk, IsSome, OnOk, Some, length, option_map, slice_get};
ghost use Rattle.std.specs.Arc.{arc_value};
ghost use Rattle.value_model.specs.Style.{Style as Computed};
ghost use Rattle.style_session.specs.FirstWalking.{AreAll, GoesOnFirst, HasPlaceKept, HasPlace, IsBareAtFirst, IsBareFirst, IsFirstWalkTo, IsNextFirst};
ghost use Rattle.style_session.specs.FirstWalking.{IsRight, Keeps, finished, place_of as model_place_of};
ghost use Rattle.style_session.specs.KeptView.{slot_at};
ghost use Rattle.style_session.specs.Lent.{FitsInputs, KnowsMore, ServesInputs, scene_lent};

use crate::derived::StyleCache;
use crate::kept_styles::{KeptStyles, keep, make_slots};
use element_styler::Inputs;
use io_edges::Gate;
use std::sync::Arc;
use style_value::Style;
use stylo_base::NoMemory;

/// In place of the number of a style that is not known.
pub(crate) const UNKNOWN: u32 = u32::MAX;

/// What a first walk in tree order has found out.
#[derive(Drop)]
struct FirstWalk {
    /// By number: the style of each element that was met.
    kept: Vec<Option<Arc<Style>>>,
    /// By number: the number of that style in the table, if it is known.
    known: Vec<u32>,
}

/// The styles of all elements. The gate has one pass of hand 0 before the style of each is sought.
pub(crate) fn restyle_first<G: Gate>(
    inputs: &Inputs<'_>,
    cache: &mut StyleCache,
    gate: &G,
) -> Result<KeptStyles, NoMemory>
    requires { FitsInputs inputs.now cache.old }
    ensures styles { IfOk result (AreAll (scene_lent inputs.now)) }
    ensures fits { FitsInputs inputs.now cache.new }
{
    cache.begin(inputs, true);
    let mut walk = FirstWalk::start(inputs)?;
    let order = inputs.doc.in_tree_order();
    let Some((first, rest)) = order.split_first() else {
        return walk.finish(order);
    };
    gate.pass(0, *first);
    walk.begin(inputs, cache, *first)?;
    for number in rest {
        gate.pass(0, *number);
        walk.style(inputs, cache, *number)?;
    }
    walk.finish(order)
}

impl FirstWalk {
    /// Nothing was met yet.
    fn start(inputs: &Inputs<'_>) -> Result<FirstWalk, NoMemory>
        ensures { IfOk result (IsBareFirst inputs.now.doc.now.elements) }
    {
        let places = inputs.doc.last() + 1;
        let mut kept = Vec::new(inputs.alloc);
        make_slots(&mut kept, places)?;
        Ok(FirstWalk {
            kept,
            known: vec![in inputs.alloc; UNKNOWN; places]?,
        })
    }

    /// Styles the root.
    fn begin(
        &mut self,
        inputs: &Inputs<'_>,
        cache: &mut StyleCache,
        root: u32,
    ) -> Result<(), NoMemory>
        requires bare { IsBareAtFirst inputs.now.doc.now root self.old }
        requires serves { ServesInputs inputs.now cache.old }
        ensures ok { OnOk result (IsFirstWalkTo (scene_lent inputs.now) (root ∷ []) cache.new self.new) }
        ensures serves { ServesInputs inputs.now cache.new }
    {
        let style = cache.root(inputs, root)?;
        self.keep(cache, root, style)
    }

    /// Styles an element over the style of its parent, which was met.
    fn style(
        &mut self,
        inputs: &Inputs<'_>,
        cache: &mut StyleCache,
        number: u32,
    ) -> Result<(), NoMemory>
        requires next { IsNextFirst inputs.now number cache.old self.old }
        requires serves { ServesInputs inputs.now cache.old }
        ensures ok { OnOk result (GoesOnFirst (scene_lent inputs.now) number self.old cache.new self.new) }
        ensures serves { ServesInputs inputs.now cache.new }
    {
        let parent = inputs.doc.parent(number).unwrap();
        let over = self.style_of(cache, parent)?;
        let size = cache.size;
        let style = cache.styler.child(inputs, number, over, size)?;
        self.keep(cache, number, style)
    }

    /// The style of an element that was met, by its number in the table.
    fn style_of(&self, cache: &mut StyleCache, number: u32) -> Result<usize, NoMemory>
        requires { HasPlaceKept self.now number }
        ensures style { (own : Computed) → slot_at self.now.kept.items number ≡ Some own
            → IsRight cache.old.styler.table self.now.known.items number own
            → IfOk result (λ style. slice_get cache.new.styler.table style ≡ Some own) }
        ensures more { KnowsMore cache.old cache.new }
    {
        let known = self.known[number as usize];
        if known < UNKNOWN {
            return Ok(known as usize);
        }
        let kept = style_at(&self.kept, number).unwrap();
        cache.styler.adopt(kept)
    }

    /// Puts the style of an element, by its number in the table, at the element's place.
    fn keep(&mut self, cache: &StyleCache, number: u32, style: usize) -> Result<(), NoMemory>
        requires place { HasPlace self.old number }
        requires style { style < length cache.now.styler.table }
        ensures { (own : Computed) → slice_get cache.now.styler.table style ≡ Some own
            → OnOk result (Keeps number style own self.old self.new) }
    {
        let own = Arc::try_clone(cache.styler.style(style))?;
        keep(&mut self.kept[number as usize], own);
        self.known[number as usize] = place_of(style);
        Ok(())
    }

    /// What it has made, once all elements were met. The numbers come into memory that is there.
    fn finish(self, order: &[u32]) -> Result<KeptStyles, NoMemory>
        ensures { IfOk result (λ made. made ≡ finished self order.now) }
    {
        let FirstWalk { kept, known } = self;
        let mut recent = known;
        recent.clear();
        recent.extend_from_slice(order)?;
        Ok(KeptStyles {
            by_number: kept,
            recent,
        })
    }
}

/// The style at the place of a number.
fn style_at(slots: &[Option<Arc<Style>>], x: u32) -> Option<&Arc<Style>>
    ensures { option_map (λ style. arc_value style.now) result ≡ slot_at slots.now x }
{
    slots.get(x as usize)?.as_ref()
}

/// The number of a style in 32 bits, if it has so few.
fn place_of(style: usize) -> u32
    ensures { result ≡ model_place_of style }
{
    style.min(UNKNOWN as usize) as u32
}
