//! The style of every element, from the root down.

ghost use Rattle.std.specs.Prelude.{◌≡◌, IfOk, Some, length, map, slice_get, take};
ghost use Rattle.sheet_set.specs.View.{sources_seen};
ghost use Rattle.std.specs.Arc.{arc_value};
ghost use Rattle.cascade_model.specs.StyleOf.{style_of};
ghost use Rattle.scene_model.specs.Lookups.{IsElement, numbers};
ghost use Rattle.element_styler.specs.Follows.{Serves};
ghost use Rattle.plain_style.specs.Known.{KnowsParent, KnowsRoot, style_at};

use dom_tree::Doc;
use element_styler::{Inputs, Prepared, RootStyle, Styler};
use sheet_set::Sheets;
use std::alloc::Global;
use std::sync::Arc;
use style_value::Style;
use stylo_base::NoMemory;

/// So many styles are found again.
const SLOTS: usize = 4_096;

/// The styles of all elements, in tree order.
pub fn style_all(alloc: Global, doc: &Doc, sheets: &Sheets) -> Result<Vec<Arc<Style>>, NoMemory>
    ensures { IfOk result (λ styles. map arc_value styles.items
        ≡ map (style_of doc.now.elements (sources_seen sheets.now)) (numbers doc.now.elements)) }
{
    let prepared = Prepared::of(alloc, sheets)?;
    let inputs = Inputs {
        alloc,
        doc,
        sheets,
        prepared: &prepared,
    };
    let Some(first) = doc.in_tree_order().first() else {
        return Ok(Vec::new(alloc));
    };
    let mut styler = Styler::start(alloc, SLOTS)?;
    styler.begin(prepared.asks_ancestors());
    let root = styler.root(&inputs, *first)?;
    styles_in_order(&inputs, &mut styler, root)
}

/// The styles of all elements, in tree order, where that of the root is known.
fn styles_in_order(
    inputs: &Inputs<'_>,
    styler: &mut Styler,
    root: RootStyle,
) -> Result<Vec<Arc<Style>>, NoMemory>
    requires serves { Serves inputs.now root.size styler.old }
    requires root { KnowsRoot inputs.now.doc.now.elements (sources_seen inputs.now.sheets.now)
        styler.old.table root }
    ensures { IfOk result (λ styles. map arc_value styles.items
        ≡ map (style_of inputs.now.doc.now.elements (sources_seen inputs.now.sheets.now))
        (numbers inputs.now.doc.now.elements)) }
{
    let order = inputs.doc.in_tree_order();
    let mut styles = Vec::with_capacity(inputs.alloc, order.len())?;
    // The number of the style of each element that was met, by the element's number.
    let mut known = vec![in inputs.alloc; 0; inputs.doc.last().saturating_add(1)]?;
    for number in order {
        let style = style_number(inputs, styler, *number, &known, root)?;
        known[*number as usize] = style;
        styles.push(Arc::try_clone(styler.style(style))?)?;
    }
    Ok(styles)
}

/// The number of the style of an element whose parent was met, or which is the root.
fn style_number(
    inputs: &Inputs<'_>,
    styler: &mut Styler,
    number: u32,
    known: &[usize],
    root: RootStyle,
) -> Result<usize, NoMemory>
    requires element { IsElement inputs.now.doc.now.elements number }
    requires parent { KnowsParent inputs.now.doc.now.elements (sources_seen inputs.now.sheets.now)
        (style_at styler.old.table known.now) number }
    requires serves { Serves inputs.now root.size styler.old }
    requires root { KnowsRoot inputs.now.doc.now.elements (sources_seen inputs.now.sheets.now)
        styler.old.table root }
    ensures style { IfOk result (λ style. slice_get styler.new.table style
        ≡ Some (style_of inputs.now.doc.now.elements (sources_seen inputs.now.sheets.now) number)) }
    ensures kept { take (length styler.old.table) styler.new.table ≡ styler.old.table }
    ensures serves { Serves inputs.now root.size styler.new }
{
    match inputs.doc.parent(number) {
        Some(parent) => styler.child(inputs, number, known[parent as usize], root.size),
        None => Ok(root.style),
    }
}
