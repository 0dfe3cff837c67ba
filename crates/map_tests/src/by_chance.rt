//! Rules and documents by chance: a map finds what a plain look at each selector finds.

ghost use Rattle.std.specs.Prelude.{◌<◌};
ghost use Rattle.scene_model.specs.Lookups.{IsElement};

use crate::documents::{Names, document, push_element, root};
use crate::rules::selectors_of;
use ancestor_filter::{Ancestors, Filter};
use dom_tree::Doc;
use rule_maps::{Pair, RuleMap};
use selector_match::{holds, matches};
use selector_types::{Key, Selector, key_of};
use std::alloc::Global;
use std::test::Fail;
use stylo_base::NoMemory;

/// So many documents are drawn.
const DOCUMENTS: u32 = 300;

/// What numbers are drawn from.
#[derive(Clone, Copy)]
struct Draws {
    state: u64,
}

impl Draws {
    /// A number from 0 to `most`.
    fn up_to(&mut self, most: u32) -> u32
        requires { most < 256 }
    {
        self.state = self
            .state
            .wrapping_mul(6_364_136_223_846_793_005)
            .wrapping_add(1_442_695_040_888_963_407);
        (self.state >> 33) as u32 % (most + 1)
    }
}

/// A tag, an id or the name of an attribute. The last one is empty.
fn name(number: u32) -> &'static str {
    match number {
        0 => "p",
        1 => "i",
        2 => "Aa",
        3 => "BB",
        _ => "",
    }
}

/// A few classes, or none.
fn classes(number: u32) -> &'static str {
    match number {
        0 => "",
        1 => "p",
        2 => "BB Aa",
        3 => "i p\tBB  p",
        _ => "AaBB BBAa i",
    }
}

/// A list of selectors.
fn selectors(number: u32) -> &'static str {
    match number {
        0 => "p",
        1 => ".p",
        2 => "#p",
        3 => "[p]",
        4 => "i.BB[Aa], .p",
        5 => ".Aa > p",
        6 => "#BB i",
        7 => ":is(.p, [i])",
        8 => "*",
        9 => "p + .i, i ~ [BB]",
        10 => ":not(.Aa)",
        11 => ":is()",
        12 => ".BBAa, .AaBB, #Aa",
        13 => ".BB .Aa p i .p",
        14 => "p#i.BB",
        15 => "[i] [p], :is(p .Aa) ~ i",
        _ => ".p .p, html i, i, .p",
    }
}

/// Up to sixteen rules.
fn drawn_rules(alloc: Global, draws: &mut Draws) -> Result<Vec<Vec<Selector>>, NoMemory> {
    let mut rules = Vec::new(alloc);
    for _ in 0..draws.up_to(16) {
        rules.push(selectors_of(alloc, selectors(draws.up_to(16)))?)?;
    }
    Ok(rules)
}

/// A document of up to thirty elements, each below one of the last four before it.
fn drawn_document(alloc: Global, draws: &mut Draws) -> Result<Box<Doc>, NoMemory> {
    let mut list = root(alloc)?;
    for last in 0..draws.up_to(29) {
        let parent = last.saturating_sub(draws.up_to(3));
        let names = Names {
            tag: name(draws.up_to(3)),
            id: name(draws.up_to(4)),
            class: classes(draws.up_to(4)),
            attribute: name(draws.up_to(3)),
        };
        push_element(&mut list, parent, names)?;
    }
    document(alloc, list)
}

/// A document, rules, and the map of these.
#[derive(Clone, Copy)]
struct Scene<'a> {
    doc: &'a Doc,
    rules: &'a [Vec<Selector>],
    map: &'a RuleMap,
}

/// Whether an element has what the key of a selector asks for.
fn has_key(doc: &Doc, selector: &Selector, x: u32) -> bool
    requires { IsElement doc.now.elements x }
{
    match key_of(selector) {
        Key::Id(id) => doc.has_id_atom(x, id),
        Key::Class(class) => doc.has_class_atom(x, class),
        Key::Type(tag) => doc.has_tag_atom(x, tag),
        Key::Any => true,
    }
}

/// Whether an element has the key of some selector.
fn has_some_key(doc: &Doc, selectors: &[Selector], x: u32) -> bool
    requires { IsElement doc.now.elements x }
{
    for selector in selectors {
        if has_key(doc, selector, x) {
            return true;
        }
    }
    false
}

/// The rules with some key that an element has, one after another.
fn plain_candidates(alloc: Global, scene: Scene<'_>, x: u32) -> Result<Vec<u32>, NoMemory>
    requires { IsElement scene.doc.now.elements x }
{
    let mut found = Vec::new(alloc);
    let mut rule: u32 = 0;
    for selectors in scene.rules {
        if has_some_key(scene.doc, selectors, x) {
            found.push(rule)?;
        }
        rule = rule.saturating_add(1);
    }
    Ok(found)
}

/// The number of a selector of a rule among all.
fn place_of(rule: u32, selector: u32) -> u32 {
    rule.saturating_mul(16).saturating_add(selector)
}

/// Appends the places of those selectors of a rule that hold at an element.
fn push_holding(
    found: &mut Vec<u32>,
    doc: &Doc,
    rule: u32,
    selectors: &[Selector],
    x: u32,
) -> Result<(), NoMemory>
    requires { IsElement doc.now.elements x }
{
    let mut number: u32 = 0;
    for selector in selectors {
        if matches(doc, selector, x) {
            found.push(place_of(rule, number))?;
        }
        number = number.saturating_add(1);
    }
    Ok(())
}

/// The places of all selectors that hold at an element.
fn plain_holding(alloc: Global, scene: Scene<'_>, x: u32) -> Result<Vec<u32>, NoMemory>
    requires { IsElement scene.doc.now.elements x }
{
    let mut found = Vec::new(alloc);
    let mut rule: u32 = 0;
    for selectors in scene.rules {
        push_holding(&mut found, scene.doc, rule, selectors, x)?;
        rule = rule.saturating_add(1);
    }
    Ok(found)
}

/// Whether the selector of a pair is there, and holds at an element.
fn pair_holds(scene: Scene<'_>, pair: &Pair, x: u32) -> bool
    requires { IsElement scene.doc.now.elements x }
{
    let Some(selectors) = scene.rules.get(pair.rule as usize) else {
        return false;
    };
    match selectors.get(pair.selector as usize) {
        Some(selector) => holds(scene.doc, selector, x),
        None => false,
    }
}

/// Appends the places of the selectors of a bucket that the filter lets through, and that hold at an element.
fn push_tested(
    found: &mut Vec<u32>,
    scene: Scene<'_>,
    pairs: &[Pair],
    filter: &Filter,
    x: u32,
) -> Result<(), NoMemory>
    requires { IsElement scene.doc.now.elements x }
{
    for pair in pairs {
        if pair.passes(filter) && pair_holds(scene, pair, x) {
            found.push(place_of(pair.rule, pair.selector))?;
        }
    }
    Ok(())
}

/// The places of the selectors that hold at an element, of those that it looks at and that the filter lets through.
fn found_holding(
    alloc: Global,
    scene: Scene<'_>,
    filter: &Filter,
    x: u32,
) -> Result<Vec<u32>, NoMemory>
    requires { IsElement scene.doc.now.elements x }
{
    let mut found = Vec::new(alloc);
    let mut buckets = scene.map.buckets(scene.doc, x);
    while let Some(pairs) = buckets.next() {
        push_tested(&mut found, scene, pairs, filter, x)?;
    }
    found.sort_unstable();
    Ok(found)
}

/// Whether the same selectors hold at an element by its ancestors' filter, and by a look at each.
fn are_found(
    alloc: Global,
    scene: Scene<'_>,
    ancestors: &mut Ancestors,
    x: u32,
) -> Result<bool, NoMemory>
    requires { IsElement scene.doc.now.elements x }
{
    ancestors.clear();
    ancestors.reach(scene.doc, x)?;
    let found = found_holding(alloc, scene, ancestors.filter(), x)?;
    let plain = plain_holding(alloc, scene, x)?;
    Ok(found.as_slice() == plain.as_slice())
}

/// Whether an element has the candidates of a look at each key.
fn are_candidates(alloc: Global, scene: Scene<'_>, x: u32) -> Result<bool, NoMemory>
    requires { IsElement scene.doc.now.elements x }
{
    let found = scene.map.candidates(alloc, scene.doc, x)?;
    let plain = plain_candidates(alloc, scene, x)?;
    Ok(found.as_slice() == plain.as_slice())
}

/// Whether both is so.
fn is_alike(
    alloc: Global,
    scene: Scene<'_>,
    ancestors: &mut Ancestors,
    x: u32,
) -> Result<bool, NoMemory> {
    if !scene.doc.contains(x) {
        return Ok(false);
    }
    let candidates = are_candidates(alloc, scene, x)?;
    let found = are_found(alloc, scene, ancestors, x)?;
    Ok(candidates && found)
}

/// One more, where that is so.
fn count_if(count: u32, is: bool) -> u32 {
    if is { count.saturating_add(1) } else { count }
}

/// At how many elements of a document something else is found.
fn count_unlike(
    alloc: Global,
    scene: Scene<'_>,
    ancestors: &mut Ancestors,
) -> Result<u32, NoMemory> {
    let mut unlike = 0;
    for x in scene.doc.in_tree_order() {
        let alike = is_alike(alloc, scene, ancestors, *x)?;
        unlike = count_if(unlike, !alike);
    }
    Ok(unlike)
}

/// The same of a document and rules that are drawn.
fn drawn_unlike(
    alloc: Global,
    ancestors: &mut Ancestors,
    draws: &mut Draws,
) -> Result<u32, NoMemory> {
    let rules = drawn_rules(alloc, draws)?;
    let map = RuleMap::of(alloc, &rules)?;
    let doc = drawn_document(alloc, draws)?;
    let scene = Scene {
        doc: &doc,
        rules: &rules,
        map: &map,
    };
    count_unlike(alloc, scene, ancestors)
}

/// The same of many.
fn all_unlike(alloc: Global) -> Result<u32, NoMemory> {
    let mut draws = Draws { state: 1 };
    let mut ancestors = Ancestors::start(alloc)?;
    let mut unlike: u32 = 0;
    for _ in 0..DOCUMENTS {
        unlike = unlike.saturating_add(drawn_unlike(alloc, &mut ancestors, &mut draws)?);
    }
    Ok(unlike)
}

#[test]
fn maps_find_as_a_look_at_each(rt: HostRuntime) -> Result<(), Fail> {
    let unlike = all_unlike(rt.alloc())?;
    assert_eq!(rt; unlike, 0);
    Ok(())
}
