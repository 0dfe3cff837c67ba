//! The declarations that apply to an element.

use ancestor_filter::Filter;
use dom_tree::{Attr, Doc, NodeInput, NodeList, States};
use element_styler::match_element;
use layer_order::Origin;
use property_table::COUNT;
use rule_maps::RuleMap;
use sheet_set::{SheetInput, Sheets};
use std::alloc::Global;
use std::test::Fail;
use stylo_base::{NoMemory, Specificity, Text};

/// A node with these attributes.
fn node<'a>(tag: &'a str, attrs: &'a [Attr<'a>]) -> NodeInput<'a> {
    NodeInput {
        tag,
        attrs,
        states: States::default(),
    }
}

/// An attribute.
fn attr<'a>(name: &'a str, value: &'a str) -> Attr<'a> {
    Attr { name, value }
}

/// `html` over an element with these attributes.
fn pair(alloc: Global, tag: &str, attrs: &[Attr<'_>]) -> Result<Box<Doc>, NoMemory> {
    let mut list = NodeList::of_root(alloc, node("html", &[]))?;
    list.push(0, node(tag, attrs))?;
    Ok(Box::new(alloc, Doc::of_list(alloc, list)?)?)
}

/// The rules of one author sheet.
pub(crate) fn rules(alloc: Global, text: &str) -> Result<Box<Sheets>, NoMemory> {
    let sheet = SheetInput {
        origin: Origin::Author,
        enabled: true,
        text: Text::of_str(alloc, text)?,
    };
    Ok(Box::new(alloc, Sheets::start(alloc, &[sheet])?)?)
}

/// A declaration: its place among those of its sheet or its attribute, whether it is the attribute's, and its
/// specificity.
pub(crate) type Place = (u64, bool, Specificity);

/// What applies to an element, where there is one with this number.
fn places(alloc: Global, doc: &Doc, sheets: &Sheets, x: u32) -> Result<Vec<Place>, NoMemory> {
    let mut places = Vec::new(alloc);
    let map = RuleMap::of(alloc, sheets.selectors())?;
    let mut filter = Filter::start(alloc)?;
    filter.saturate();
    if doc.contains(x) {
        for one in &match_element(alloc, doc, sheets, &map, &filter, x)? {
            let priority = one.priority;
            places.push((priority.index, priority.attached, priority.specificity))?;
        }
    }
    Ok(places)
}

/// The same by one author sheet.
fn places_by(alloc: Global, doc: &Doc, sheet: &str, x: u32) -> Result<Vec<Place>, NoMemory> {
    let sheets = rules(alloc, sheet)?;
    places(alloc, doc, &sheets, x)
}

/// A declaration of a rule.
fn of_rule(index: u64, classes: u64, types: u64) -> Place {
    (index, false, Specificity::new(0, classes, types))
}

#[test]
fn what_matches(rt: HostRuntime) -> Result<(), Fail> {
    let doc = pair(rt.alloc(), "p", &[])?;
    let sheet = "p{clear:left}html{all:unset;color:red}";
    let places = places_by(rt.alloc(), &doc, sheet, 1)?;
    // `all` sets each property but one, from 1 on
    let wanted = [of_rule(1, 0, 1), of_rule(COUNT as u64, 0, 1)];
    assert_eq!(rt; places.as_slice(), wanted.as_slice());
    Ok(())
}

/// Of the selectors of a rule that hold the greatest counts, and rules stand in their order, whatever they are found
/// by.
#[test]
fn greatest_of_each_rule(rt: HostRuntime) -> Result<(), Fail> {
    let attrs = [
        attr("class", "a b"),
        attr("x", ""),
        attr("style", "color:red"),
    ];
    let doc = pair(rt.alloc(), "i", &attrs)?;
    let sheet = "i,.b.a,.a{color:red}[x],.b{color:red}:is([x]) i{color:red}[y],i{color:red}";
    let places = places_by(rt.alloc(), &doc, sheet, 2)?;
    let wanted = [
        of_rule(0, 2, 0),
        of_rule(1, 1, 0),
        of_rule(3, 0, 1),
        (0, true, Specificity::new(0, 0, 0)),
    ];
    assert_eq!(rt; places.as_slice(), wanted.as_slice());
    Ok(())
}
