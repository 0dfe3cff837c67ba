//! How values are computed from those that are declared (css-cascade-5, section 4.4).

ghost use Rattle.std.specs.Prelude.{◌≡◌, ◌&&◌, not};
ghost use Rattle.cascade_model.specs.Cascade as model;
ghost use Rattle.cascade_model.specs.Cascade.{absolute, bolder_than, computed_by, computed_color, computed_height, computed_size, computed_weight, lighter_than, percent_of, sizes, value_at};
ghost use Rattle.property_table.specs.View.{row_seen, compute_rule_of, value_seen, word_of};
ghost use Rattle.value_model.specs.Style.{is_keyword, size_in};
ghost use Rattle.value_model.specs.Table.{font_size_row};
ghost use Rattle.value_model.specs.Value.{keyword, pixels};
ghost use Rattle.cascade_core.specs.CascadedValue.{cascaded_seen};
ghost use Rattle.cascade_core.specs.Sizes.{sizes_seen};
ghost use Rattle.takes_model.specs.Takes.{is_inherits};

use crate::cascaded_value::CascadedValue;
use property_table::{ComputeRule, Keyword, PropId, PropertyRow, Value};
use stylo_base::Fixed;

/// The font sizes that `em` and `rem` stand for (css-values-4, section 6.1).
#[derive(Clone, Copy)]
pub(crate) struct Sizes {
    pub(crate) element: Fixed,
    pub(crate) root: Fixed,
}

/// The parent's font size and font weight.
#[derive(Clone, Copy)]
pub(crate) struct ParentFont {
    pub(crate) size: Fixed,
    pub(crate) weight: Fixed,
}

/// The values of the parent that a value is computed from: its value of the same property, and its
/// font.
#[derive(Clone, Copy)]
pub(crate) struct ParentValues {
    pub(crate) value: Value,
    pub(crate) font: ParentFont,
}

/// The font size of an element, from its cascaded value: in it `em` and percentages are of the
/// parent's font size.
pub(crate) fn own_size(font: ParentFont, root_size: Fixed, cascaded: CascadedValue<Value>) -> Fixed
    ensures { result ≡ size_in (value_at
        font_size_row
        (pixels font.size)
        font.size
        font.weight
        (sizes font.size root_size)
        (cascaded_seen value_seen cascaded)) }
{
    let sizes = Sizes {
        element: font.size,
        root: root_size,
    };
    let parents = ParentValues {
        value: Value::Pixels(font.size),
        font,
    };
    value_at(PropertyRow::of(PropId::FontSize), parents, &sizes, cascaded).font_size()
}

/// The value of a property before the adjustments, from its cascaded value (css-cascade-5, section
/// 7.3).
pub(crate) fn value_at(
    row: &PropertyRow,
    parents: ParentValues,
    sizes: &Sizes,
    cascaded: CascadedValue<Value>,
) -> Value
    ensures { value_seen result ≡ value_at
        (row_seen row.now)
        (value_seen parents.value)
        parents.font.size
        parents.font.weight
        (sizes_seen sizes.now)
        (cascaded_seen value_seen cascaded) }
{
    match cascaded {
        CascadedValue::Inherit => parents.value,
        CascadedValue::Initial => row.initial.value(),
        CascadedValue::Unset => unset(row, parents.value),
        CascadedValue::Value(value) => computed(row.rule, parents, sizes, value),
    }
}

/// Whether a property that is not inherited has its value from the parent.
pub(crate) fn is_taken(row: &PropertyRow, cascaded: CascadedValue<Value>) -> bool
    ensures { let ends = cascaded_seen value_seen cascaded in
        result ≡ not (row_seen row.now).inherited && is_inherits ends }
{
    !row.inherited && matches!(cascaded, CascadedValue::Inherit)
}

/// The value of a property that is not declared.
fn unset(row: &PropertyRow, parents: Value) -> Value
    ensures { value_seen result ≡ model.unset (row_seen row.now) (value_seen parents) }
{
    if row.inherited {
        parents
    } else {
        row.initial.value()
    }
}

/// The computed value of a property, from a value that is declared.
fn computed(rule: ComputeRule, parents: ParentValues, sizes: &Sizes, value: Value) -> Value
    ensures { value_seen result ≡ computed_by
        (compute_rule_of rule)
        (value_seen parents.value)
        parents.font.size
        parents.font.weight
        (sizes_seen sizes.now)
        (value_seen value) }
{
    match rule {
        ComputeRule::Plain => absolute(sizes, value),
        ComputeRule::Color => computed_color(parents.value, value),
        ComputeRule::FontSize => computed_size(parents.font.size, sizes, value),
        ComputeRule::FontWeight => computed_weight(parents.font.weight, value),
        ComputeRule::LineHeight => computed_height(sizes, value),
    }
}

/// A length in pixels (css-values-4, section 6.1); any other value stays.
fn absolute(sizes: &Sizes, value: Value) -> Value
    ensures { value_seen result ≡ absolute (sizes_seen sizes.now) (value_seen value) }
{
    match value {
        Value::Em(number) => Value::Pixels(number.scale(sizes.element.thousandths(), 1_000)),
        Value::Rem(number) => Value::Pixels(number.scale(sizes.root.thousandths(), 1_000)),
        _ => value,
    }
}

/// In `color` the keyword `currentcolor` acts as `inherit` (css-color-4, section 9).
fn computed_color(parents: Value, value: Value) -> Value
    ensures { value_seen result ≡ computed_color (value_seen parents) (value_seen value) }
{
    if is_keyword(Keyword::CurrentColor, &value) {
        parents
    } else {
        value
    }
}

/// `font-size`, over the parent's (css-fonts-4, section 2.5).
fn computed_size(size: Fixed, sizes: &Sizes, value: Value) -> Value
    ensures { value_seen result ≡ computed_size size (sizes_seen sizes.now) (value_seen value) }
{
    match value {
        Value::Percent(number) => percent_of(size, number),
        Value::Keyword(word) => size_by_word(size, sizes, word),
        _ => absolute(sizes, value),
    }
}

/// `larger` and `smaller` than a size.
fn size_by_word(size: Fixed, sizes: &Sizes, word: Keyword) -> Value
    ensures { value_seen result ≡ computed_size size (sizes_seen sizes.now) (keyword (word_of word)) }
{
    let value = Value::Keyword(word);
    if is_keyword(Keyword::Larger, &value) {
        Value::Pixels(size.scale(6, 5))
    } else if is_keyword(Keyword::Smaller, &value) {
        Value::Pixels(size.scale(5, 6))
    } else {
        value
    }
}

/// `bolder` and `lighter` are by the parent's weight (css-fonts-4, section 2.2.1).
fn computed_weight(weight: Fixed, value: Value) -> Value
    ensures { value_seen result ≡ computed_weight weight (value_seen value) }
{
    if is_keyword(Keyword::Bolder, &value) {
        Value::Number(bolder_than(weight))
    } else if is_keyword(Keyword::Lighter, &value) {
        Value::Number(lighter_than(weight))
    } else {
        value
    }
}

/// The weight that `bolder` stands for, over the parent's weight.
fn bolder_than(weight: Fixed) -> Fixed
    ensures { result ≡ bolder_than weight }
{
    let thousandths = weight.thousandths();
    if thousandths < 350_000 {
        Fixed::clamp(400_000)
    } else if thousandths < 550_000 {
        Fixed::clamp(700_000)
    } else if thousandths < 900_000 {
        Fixed::clamp(900_000)
    } else {
        weight
    }
}

/// The weight that `lighter` stands for, over the parent's weight.
fn lighter_than(weight: Fixed) -> Fixed
    ensures { result ≡ lighter_than weight }
{
    let thousandths = weight.thousandths();
    if thousandths < 100_000 {
        weight
    } else if thousandths < 550_000 {
        Fixed::clamp(100_000)
    } else if thousandths < 750_000 {
        Fixed::clamp(400_000)
    } else {
        Fixed::clamp(700_000)
    }
}

/// `line-height`: a percentage is of the element's own font size (CSS 2.2, section 10.8.1).
fn computed_height(sizes: &Sizes, value: Value) -> Value
    ensures { value_seen result ≡ computed_height (sizes_seen sizes.now) (value_seen value) }
{
    match value {
        Value::Percent(number) => percent_of(sizes.element, number),
        _ => absolute(sizes, value),
    }
}

/// So many percent of a size.
fn percent_of(size: Fixed, percent: Fixed) -> Value
    ensures { value_seen result ≡ percent_of size percent }
{
    Value::Pixels(percent.scale(size.thousandths(), 100_000))
}

/// Whether a value is this keyword.
fn is_keyword(word: Keyword, value: &Value) -> bool
    ensures { result ≡ is_keyword (word_of word) (value_seen value.now) }
{
    value.is_same(Value::Keyword(word))
}
