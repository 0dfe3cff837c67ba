//! Documents and sheets by chance: what applies to an element is what a look at each rule finds.

ghost use Rattle.std.specs.Prelude.{◌<◌};
ghost use Rattle.scene_model.specs.Ancestors.{ancestors};
ghost use Rattle.scene_model.specs.Lookups.{IsElement};
ghost use Rattle.ancestor_filter.specs.Names.{StandsFor};
ghost use Rattle.rule_maps.specs.RulesView.{rules_seen};
ghost use Rattle.element_styler.specs.Prepared.{IsMapOf};

use crate::styles::{Place, rules};
use ancestor_filter::{Ancestors, Filter};
use cascade_core::Matched;
use dom_tree::{Attr, Doc, NodeInput, NodeList, States};
use element_styler::match_element;
use rule_maps::RuleMap;
use selector_match::matches;
use selector_types::{Selector, weight};
use sheet_set::Sheets;
use std::alloc::Global;
use std::test::Fail;
use stylo_base::{NoMemory, Specificity, Text};

/// So many documents are drawn.
const DOCUMENTS: u32 = 300;

/// What numbers are drawn from.
#[derive(Clone, Copy)]
struct Draws {
    state: u64,
}

impl Draws {
    /// A number from 0 to `most`.
    fn up_to(&mut self, most: u32) -> u32
        requires { most < 256 }
    {
        self.state = self
            .state
            .wrapping_mul(6_364_136_223_846_793_005)
            .wrapping_add(1_442_695_040_888_963_407);
        (self.state >> 33) as u32 % (most + 1)
    }
}

/// A tag.
fn tag(number: u32) -> &'static str {
    match number {
        0 => "p",
        1 => "i",
        _ => "b",
    }
}

/// A `class` attribute.
fn class(number: u32) -> Attr<'static> {
    let value = match number {
        0 => "a",
        1 => "b a",
        _ => "c",
    };
    Attr {
        name: "class",
        value,
    }
}

/// Another attribute.
fn attribute(number: u32) -> Attr<'static> {
    let (name, value) = match number {
        0 => ("id", "a"),
        1 => ("x", ""),
        _ => ("style", "color:red"),
    };
    Attr { name, value }
}

/// A rule of one declaration.
fn rule(number: u32) -> &'static str {
    match number {
        0 => "p,.a{color:red}",
        1 => ".b.a,i,.a{color:red}",
        2 => "#a{color:red}",
        3 => "[x],i[style]{color:red}",
        4 => ".a > p, .c i{color:red}",
        5 => "p .a,.b i b{color:red}",
        6 => ":is(.a,#a){color:red}",
        7 => "*{color:red}",
        8 => ".a + i, b ~ .c{color:red}",
        9 => ":not(.a) p{color:red}",
        10 => "html .a .b,.c .c{color:red}",
        _ => "#a p,[x] i,:is(p .a) ~ i{color:red}",
    }
}

/// Up to twelve rules.
fn drawn_sheet(alloc: Global, draws: &mut Draws) -> Result<Box<Sheets>, NoMemory> {
    let mut text = Text::new(alloc);
    for _ in 0..draws.up_to(12) {
        text.push_str(rule(draws.up_to(11)))?;
    }
    rules(alloc, text.as_str())
}

/// Appends an element below a parent. Where that is not there none is appended.
fn push_element(list: &mut NodeList, parent: u32, draws: &mut Draws) -> Result<(), NoMemory> {
    let attrs = [class(draws.up_to(2)), attribute(draws.up_to(2))];
    let node = NodeInput {
        tag: tag(draws.up_to(2)),
        attrs: &attrs,
        states: States::default(),
    };
    if (parent as usize) < list.len() {
        list.push(parent, node)?;
    }
    Ok(())
}

/// A document of up to twenty elements, each below one of the last three before it.
fn drawn_document(alloc: Global, draws: &mut Draws) -> Result<Box<Doc>, NoMemory> {
    let root = NodeInput {
        tag: "html",
        attrs: &[],
        states: States::default(),
    };
    let mut list = NodeList::of_root(alloc, root)?;
    for last in 0..draws.up_to(19) {
        let parent = last.saturating_sub(draws.up_to(2));
        push_element(&mut list, parent, draws)?;
    }
    if list.len() > 65_536 {
        return Err(NoMemory);
    }
    Ok(Box::new(alloc, Doc::of_list(alloc, list)?)?)
}

/// A document and its sheets.
#[derive(Clone, Copy)]
struct Scene<'a> {
    doc: &'a Doc,
    sheets: &'a Sheets,
}

/// The greatest specificity of the selectors that hold at an element.
fn greatest(doc: &Doc, selectors: &[Selector], x: u32) -> Option<Specificity>
    requires { IsElement doc.now.elements x }
{
    let mut best: Option<Specificity> = None;
    for selector in selectors {
        if matches(doc, selector, x) {
            let found = weight::specificity(selector);
            best = Some(match best {
                Some(other) => other.greater(found),
                None => found,
            });
        }
    }
    best
}

/// What applies to an element, by a look at each rule.
fn plain_places(alloc: Global, scene: Scene<'_>, x: u32) -> Result<Vec<Place>, NoMemory>
    requires { IsElement scene.doc.now.elements x }
{
    let mut places = Vec::new(alloc);
    let mut rule: u64 = 0;
    for selectors in scene.sheets.selectors() {
        if let Some(specificity) = greatest(scene.doc, selectors, x) {
            places.push((rule, false, specificity))?;
        }
        rule = rule.saturating_add(1);
    }
    if scene.doc.attribute(x, "style").is_some() {
        places.push((0, true, Specificity::new(0, 0, 0)))?;
    }
    Ok(places)
}

/// The places of declarations that apply to an element.
fn places_of(alloc: Global, list: &[Matched<'_>]) -> Result<Vec<Place>, NoMemory> {
    let mut places = Vec::new(alloc);
    for one in list {
        let priority = one.priority;
        places.push((priority.index, priority.attached, priority.specificity))?;
    }
    Ok(places)
}

/// Whether by a filter of its ancestors the same applies to an element.
fn is_alike_by(
    alloc: Global,
    scene: Scene<'_>,
    map: &RuleMap,
    filter: &Filter,
    x: u32,
) -> Result<bool, NoMemory>
    requires element { IsElement scene.doc.now.elements x }
    requires map { IsMapOf (rules_seen scene.sheets.now.selectors.items) map.now }
    requires above { StandsFor scene.doc.now.elements (ancestors scene.doc.now.elements x) filter.now }
{
    let plain = plain_places(alloc, scene, x)?;
    let found = match_element(alloc, scene.doc, scene.sheets, map, filter, x)?;
    let places = places_of(alloc, &found)?;
    Ok(places.as_slice() == plain.as_slice())
}

/// Whether it does by a filter that stands for any elements.
fn is_alike_anywhere(
    alloc: Global,
    scene: Scene<'_>,
    map: &RuleMap,
    x: u32,
) -> Result<bool, NoMemory>
    requires element { IsElement scene.doc.now.elements x }
    requires map { IsMapOf (rules_seen scene.sheets.now.selectors.items) map.now }
{
    let mut any = Filter::start(alloc)?;
    any.saturate();
    is_alike_by(alloc, scene, map, &any, x)
}

/// Whether it does by a filter that counts the names of its ancestors.
fn is_alike_below(
    alloc: Global,
    scene: Scene<'_>,
    map: &RuleMap,
    above: &mut Ancestors,
    x: u32,
) -> Result<bool, NoMemory>
    requires element { IsElement scene.doc.now.elements x }
    requires map { IsMapOf (rules_seen scene.sheets.now.selectors.items) map.now }
{
    above.clear();
    above.reach(scene.doc, x)?;
    is_alike_by(alloc, scene, map, above.filter(), x)
}

/// One more, where that is so.
fn count_if(count: u32, is: bool) -> u32 {
    if is { count.saturating_add(1) } else { count }
}

/// To how many elements something else applies, by a filter of their ancestors or by one that stands for any.
fn count_unlike(alloc: Global, scene: Scene<'_>, above: &mut Ancestors) -> Result<u32, NoMemory> {
    let map = RuleMap::of(alloc, scene.sheets.selectors())?;
    let mut unlike = 0;
    for x in scene.doc.in_tree_order() {
        if scene.doc.contains(*x) {
            let anywhere = is_alike_anywhere(alloc, scene, &map, *x)?;
            let below = is_alike_below(alloc, scene, &map, above, *x)?;
            unlike = count_if(unlike, !(anywhere && below));
        }
    }
    Ok(unlike)
}

/// The same of a document and a sheet that are drawn.
fn drawn_unlike(alloc: Global, above: &mut Ancestors, draws: &mut Draws) -> Result<u32, NoMemory> {
    let sheets = drawn_sheet(alloc, draws)?;
    let doc = drawn_document(alloc, draws)?;
    let scene = Scene {
        doc: &doc,
        sheets: &sheets,
    };
    count_unlike(alloc, scene, above)
}

/// The same of many.
fn all_unlike(alloc: Global) -> Result<u32, NoMemory> {
    let mut draws = Draws { state: 1 };
    let mut above = Ancestors::start(alloc)?;
    let mut unlike: u32 = 0;
    for _ in 0..DOCUMENTS {
        unlike = unlike.saturating_add(drawn_unlike(alloc, &mut above, &mut draws)?);
    }
    Ok(unlike)
}

#[test]
fn elements_match_as_by_a_look_at_each_rule(rt: HostRuntime) -> Result<(), Fail> {
    let unlike = all_unlike(rt.alloc())?;
    assert_eq!(rt; unlike, 0);
    Ok(())
}
