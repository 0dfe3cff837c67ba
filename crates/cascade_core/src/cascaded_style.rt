//! The style of an element over its parent's, and whether it takes.

ghost use Rattle.std.specs.Prelude.{◌≡◌, ◌++◌, IfOk, IsTrue, OnOk, flat_map, length};
ghost use Rattle.std.specs.FinMap as finmap;
ghost use Rattle.std.specs.Option.{unwrap_or};
ghost use Rattle.cascade_model.specs.Cascade.{sizes, value_at, values_over};
ghost use Rattle.cascade_model.specs.Custom.{custom_values};
ghost use Rattle.cascade_model.specs.Ending.{ending};
ghost use Rattle.value_model.specs.Style.{font_size_of, font_weight_of, inherited_part, size_in};
ghost use Rattle.value_model.specs.Table.{font_size_property, font_size_row, table};
ghost use Rattle.value_model.specs.Value.{pixels};
ghost use Rattle.cascade_core.specs.Declarations.{IsCascaded, all_matched};
ghost use Rattle.cascade_core.specs.View.{matched_of};
ghost use Rattle.takes_model.specs.Takes.{takes};

use crate::computed::{ParentFont, ParentValues, Sizes, is_taken, own_size, value_at};
use crate::custom::changed_custom;
use crate::held::all_lent;
use crate::longhands::Longhands;
use crate::winners::Winners;
use crate::{Declarations, Matched};
use css_tokens::CustomMap;
use property_table::{PropId, PropertyRow, PropertySet, Value};
use std::alloc::Global;
use style_value::{Custom, Style, StyleDraft};
use stylo_base::{Fixed, NoMemory};

/// What the cascade gives an element, before its style is finished.
#[derive(Debug, Drop)]
pub struct CascadedDraft {
    /// The style: the text of it is not yet made.
    pub draft: StyleDraft,
    /// Whether the element takes: some property that is not inherited comes to `inherit`, after
    /// rollback and substitution (css-cascade-5, section 7.3). Where it does not, its style depends on
    /// what is inherited of the parent's alone.
    pub takes: bool,
    /// Whether its custom properties are those of the parent, which it shares. Where it is not so, they
    /// may be the same.
    pub keeps_custom: bool,
}

/// The style of an element, from the declarations of the rules that match it, those of its `style`
/// attribute, and the style of its parent (css-cascade-5, sections 6 and 7): the custom properties
/// first, then the font size, then for each other property its cascaded value, with `var()`
/// substituted, computed over the parent's value, and then the adjustments. At the root `parent` is
/// the style of all initial values. `root_size` is the root's font size; at the root it is the
/// initial one, and `rem` is the root's own font size in all properties but `font-size`.
pub fn cascade(
    alloc: Global,
    matched: &[Matched<'_>],
    attached: &[Matched<'_>],
    parent: &Style,
    root_size: Fixed,
    is_root: bool,
) -> Result<Style, NoMemory>
    ensures { IfOk result (IsCascaded is_root parent.now root_size
        (flat_map matched_of (matched.now ++ attached.now))) }
{
    let matched = all_lent(alloc, matched)?;
    let attached = all_lent(alloc, attached)?;
    let declarations = Declarations {
        matched: &matched,
        attached: &attached,
    };
    let cascaded = cascade_draft(alloc, declarations, parent, root_size, is_root)?;
    cascaded.draft.finish(alloc)
}

/// The same style before it is finished, for a caller that keeps equal styles once, and whether the
/// element takes.
pub fn cascade_draft(
    alloc: Global,
    declarations: Declarations<'_>,
    parent: &Style,
    root_size: Fixed,
    is_root: bool,
) -> Result<CascadedDraft, NoMemory>
    ensures style { IfOk result (λ cascaded.
        IsCascaded is_root parent.now root_size (all_matched declarations.entry) cascaded.draft) }
    ensures takes { let ds = all_matched declarations.entry in
        IfOk result (λ cascaded. cascaded.takes ≡ takes (finmap.get (custom_values parent.now.custom ds)) ds) }
    ensures custom { IfOk result (λ cascaded. IsTrue cascaded.keeps_custom
        → cascaded.draft.custom ≡ parent.now.custom) }
{
    let winners = Winners::of(declarations)?;
    let mut draft = StyleDraft::inheriting(alloc, parent)?;
    let filled = fill(alloc, &mut draft, &winners, parent, root_size, is_root)?;
    draft.adjust(is_root);
    Ok(CascadedDraft {
        draft,
        takes: filled.takes,
        keeps_custom: filled.keeps_custom,
    })
}

/// What is told of a draft that is filled.
#[derive(Clone, Copy)]
struct Filled {
    /// Whether the element takes.
    takes: bool,
    /// Whether its custom properties are those of the parent.
    keeps_custom: bool,
}

/// Turns what an element inherits from its parent into its style before the adjustments, and tells
/// whether the element takes and whether it keeps the custom properties.
fn fill(
    alloc: Global,
    draft: &mut StyleDraft,
    winners: &Winners<'_>,
    parent: &Style,
    root_size: Fixed,
    is_root: bool,
) -> Result<Filled, NoMemory>
    requires { draft.old ≡ inherited_part parent.now }
    ensures style { let custom = custom_values parent.now.custom winners.now in
        OnOk result (draft.new ≡ record {
          values = values_over (finmap.get custom) is_root parent.now.values root_size winners.now;
          custom = custom;
        }) }
    ensures takes { let custom = custom_values parent.now.custom winners.now in
        IfOk result (λ told. told.takes ≡ takes (finmap.get custom) winners.now) }
    ensures custom { IfOk result (λ told. IsTrue told.keeps_custom
        → custom_values parent.now.custom winners.now ≡ parent.now.custom) }
{
    let Some(custom) = custom_of(alloc, winners, parent)? else {
        let inherited = parent.custom().map();
        let takes = set_values(alloc, draft, winners, parent, inherited, root_size, is_root)?;
        return Ok(Filled {
            takes,
            keeps_custom: true,
        });
    };
    let takes = set_values(
        alloc,
        draft,
        winners,
        parent,
        custom.map(),
        root_size,
        is_root,
    )?;
    draft.set_custom(custom);
    Ok(Filled {
        takes,
        keeps_custom: false,
    })
}

/// The custom properties. None: they are the parent's.
fn custom_of(
    alloc: Global,
    winners: &Winners<'_>,
    parent: &Style,
) -> Result<Option<Custom>, NoMemory>
    ensures { IfOk result (λ custom. unwrap_or custom parent.now.custom
        ≡ custom_values parent.now.custom winners.now) }
{
    if winners.have_custom() {
        changed_custom(alloc, winners.declarations(), parent.custom())
    } else {
        Ok(None)
    }
}

/// Sets the values of the declared properties in what an element inherits from its parent, and tells
/// whether one of them takes. `custom` are the element's own custom properties.
fn set_values(
    alloc: Global,
    draft: &mut StyleDraft,
    winners: &Winners<'_>,
    parent: &Style,
    custom: &CustomMap,
    root_size: Fixed,
    is_root: bool,
) -> Result<bool, NoMemory>
    requires { draft.old ≡ inherited_part parent.now }
    ensures style { OnOk result (draft.new ≡ record {
      values = values_over (finmap.get custom.now) is_root parent.now.values root_size winners.now;
      custom = parent.now.custom;
    }) }
    ensures takes { IfOk result (λ told. told ≡ takes (finmap.get custom.now) winners.now) }
{
    let font = font_of(parent);
    let own = size_of(alloc, winners, custom, font, root_size)?;
    let sizes = Sizes {
        element: own,
        root: if is_root { own } else { root_size },
    };
    draft.set(PropId::FontSize, Value::Pixels(own));
    let mut longhands = Longhands::over(custom, PropId::FontSize);
    let mut rest: PropertySet = winners.declared().iter();
    rest.remove(PropId::FontSize);
    let mut takes = false;
    for id in rest {
        longhands.read_as(id);
        let cascaded = winners.cascaded_value(alloc, &mut longhands)?;
        let row = PropertyRow::of(id);
        let value = parent.value(id);
        let parents = ParentValues { value, font };
        draft.set(id, value_at(row, parents, &sizes, cascaded));
        takes |= is_taken(row, cascaded);
    }
    Ok(takes)
}

/// The font size, which is the parent's where none is declared.
fn size_of(
    alloc: Global,
    winners: &Winners<'_>,
    custom: &CustomMap,
    font: ParentFont,
    root_size: Fixed,
) -> Result<Fixed, NoMemory>
    ensures { let ends = ending (finmap.get custom.now) font_size_property winners.now in
        let sizes = sizes font.size root_size in
        IfOk result (λ size. size
        ≡ size_in (value_at font_size_row (pixels font.size) font.size font.weight sizes ends)) }
{
    if !winners.declared().contains(PropId::FontSize) {
        return Ok(font.size);
    }
    let mut longhands = Longhands::over(custom, PropId::FontSize);
    let cascaded = winners.cascaded_value(alloc, &mut longhands)?;
    Ok(own_size(font, root_size, cascaded))
}

/// The parent's font size and font weight.
fn font_of(parent: &Style) -> ParentFont
    ensures size { result.size ≡ font_size_of parent.now.values }
    ensures weight { result.weight ≡ font_weight_of parent.now.values }
    ensures all { length parent.now.values ≡ length table }
{
    let size = parent.value(PropId::FontSize).font_size();
    ParentFont {
        size,
        weight: parent.font_weight(),
    }
}
