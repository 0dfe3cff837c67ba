//! The declarations of `style` attributes.

ghost use Rattle.std.specs.Prelude.{◌≡◌, ◌++◌, [], IfOk, OnOk, flat_map, option_map};
ghost use Rattle.cascade_core.specs.View.{lent_of, matched_of};
ghost use Rattle.sheet_model.specs.Declared.{style_declared};
ghost use Rattle.std.specs.Option.{option_map_or};
ghost use Rattle.std.specs.Str.{chars};
ghost use Rattle.cascade_model.specs.Matching.{all_attached};
ghost use Rattle.shorthands.specs.View.{declared_of};
ghost use Rattle.element_styler.specs.Attached.{attached_at};

use cascade_core::{CascadePriority, HeldDeclaration, LentMatched, Matched};
use layer_order::{LayerName, Layers, Origin};
use sheet_set::{Declared, parse_style};
use std::alloc::Global;
use stylo_base::{NoMemory, Specificity};

/// What a `style` attribute with this text declares. None: the element has none.
pub(crate) fn declared_in(alloc: Global, text: Option<&str>) -> Result<Vec<Declared>, NoMemory>
    ensures { IfOk result (λ list. flat_map declared_of list.items
        ≡ option_map_or style_declared (option_map (λ t. chars t.now) text.entry) []) }
{
    match text {
        Some(text) => parse_style(alloc, text),
        None => Ok(Vec::new(alloc)),
    }
}

/// How declarations of a `style` attribute apply to its element (css-cascade-5, section 6.3): they are
/// the author's, and in no layer. No memory holds 2^64 of them, which a few shorthands might stand for.
pub(crate) fn attach<'a>(
    alloc: Global,
    layers: &Layers,
    list: &'a [Declared],
) -> Result<Vec<LentMatched<'a>>, NoMemory>
    ensures { IfOk result (λ attached. flat_map lent_of attached.items
        ≡ all_attached layers.now 0 (flat_map declared_of list.now)) }
{
    let mut attached = Vec::with_capacity(alloc, list.len())?;
    if list.is_empty() {
        return Ok(attached);
    }
    let rank = layers.rank(Origin::Author, &LayerName::none());
    let mut index: u64 = 0;
    for declared in list {
        let one = LentMatched {
            declared,
            priority: attached_priority(rank, index),
        };
        attached.extend_from_slice(&[one])?;
        let Some(next) = index.checked_add(declared.count()) else {
            return Err(NoMemory);
        };
        index = next;
    }
    Ok(attached)
}

/// Appends the same declarations, each of which is owned.
pub(crate) fn attach_owned(
    attached: &mut Vec<Matched<'_>>,
    layers: &Layers,
    list: Vec<Declared>,
) -> Result<(), NoMemory>
    ensures { OnOk result (flat_map matched_of attached.new.items ≡ flat_map matched_of attached.old.items
        ++ all_attached layers.now 0 (flat_map declared_of list.items)) }
{
    let rank = layers.rank(Origin::Author, &LayerName::none());
    let mut index: u64 = 0;
    for declared in list {
        let count = declared.count();
        attached.push(Matched {
            declared: HeldDeclaration::Owned(declared),
            priority: attached_priority(rank, index),
        })?;
        let Some(next) = index.checked_add(count) else {
            return Err(NoMemory);
        };
        index = next;
    }
    Ok(())
}

/// What the cascade compares of a declaration with so many before it, where this is the rank of no layer.
fn attached_priority(rank: u32, index: u64) -> CascadePriority
    ensures { result ≡ attached_at rank index }
{
    CascadePriority {
        origin: Origin::Author,
        attached: true,
        layer: rank,
        specificity: Specificity::new(0, 0, 0),
        sheet: 0,
        position: 0,
        index,
    }
}
