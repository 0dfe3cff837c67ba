//! The table of properties, in the order in which they are printed.

ghost use Rattle.std.specs.Prelude.{◌≡◌, ◌<◌, ◌++◌, Some, codes, length, map, option_map, slice_get};
ghost use Rattle.std.specs.List.{range_with_len};
ghost use Rattle.std.specs.Str.{chars};
ghost use Rattle.value_model.specs.Table.{property_named, table};
ghost use Rattle.property_table.specs.View.{inherited_properties, value_seen, property_of, row_of, row_seen};

use crate::rows::{INHERITED, ROWS};
use crate::{ComputeRule, Constant, Value, ValueForm};
use stylo_base::eq_ascii_case;

/// A property.
#[derive(Clone, Copy, Debug, PartialEq, Eq)]
pub enum PropId {
    Color,
    Direction,
    Display,
    Position,
    Float,
    Clear,
    Visibility,
    OverflowX,
    OverflowY,
    Width,
    Height,
    MinWidth,
    MinHeight,
    MaxWidth,
    MaxHeight,
    MarginTop,
    MarginRight,
    MarginBottom,
    MarginLeft,
    PaddingTop,
    PaddingRight,
    PaddingBottom,
    PaddingLeft,
    BorderTopWidth,
    BorderRightWidth,
    BorderBottomWidth,
    BorderLeftWidth,
    BorderTopStyle,
    BorderRightStyle,
    BorderBottomStyle,
    BorderLeftStyle,
    BorderTopColor,
    BorderRightColor,
    BorderBottomColor,
    BorderLeftColor,
    BackgroundColor,
    FontSize,
    FontWeight,
    FontStyle,
    LineHeight,
}

/// What is known of one property.
#[derive(Clone, Copy, Debug)]
pub struct PropertyRow {
    /// The property.
    pub id: PropId,
    /// Its name, in lower-case ASCII.
    pub name: &'static str,
    /// What is printed before a value of it: its name, a colon and a blank.
    pub label: &'static str,
    /// Whether an element takes it from its parent where nothing sets it.
    pub inherited: bool,
    /// What it is where nothing sets it.
    pub initial: Constant,
    /// What is not printed.
    pub standing: Constant,
    /// What it takes.
    pub forms: &'static [ValueForm],
    /// How a value of it is computed.
    pub rule: ComputeRule,
}

/// The number of properties.
pub const COUNT: usize = ROWS.len();

impl PropId {
    /// Its row in the table, from 0.
    pub fn row(self) -> usize
        ensures row { result ≡ property_of self }
        ensures within { result < COUNT }
    {
        self as usize
    }
}

impl PropertyRow {
    /// All rows, in the order of the table.
    pub fn all() -> &'static [PropertyRow]
        ensures rows { map row_seen result.now ≡ table }
        ensures order { map (λ row. property_of row.id) result.now
            ≡ range_with_len 0 (length table) }
    {
        rows()
    }

    /// The properties that are inherited, in the order of the table.
    pub fn inherited() -> &'static [PropId]
        ensures { map property_of result.now ≡ inherited_properties }
    {
        INHERITED
    }

    /// The row of a property.
    pub fn of(id: PropId) -> &'static PropertyRow
        ensures found { slice_get table (property_of id) ≡ Some (row_of id) }
        ensures row { row_seen result.now ≡ row_of id }
        ensures id { result.now.id ≡ id }
    {
        &PropertyRow::all()[id.row()]
    }
}

/// The property of that name, ignoring ASCII case. It takes no memory.
pub fn by_name(name: &str) -> Option<PropId>
    ensures { option_map property_of result ≡ property_named (chars name.now) }
{
    for row in PropertyRow::all() {
        if eq_ascii_case(name, row.name) {
            return Some(row.id);
        }
    }
    None
}

/// What the property is where nothing sets it.
pub fn initial(id: PropId) -> Value
    ensures { value_seen result ≡ (row_of id).initial }
{
    PropertyRow::of(id).initial.value()
}

/// The value of the property that is not printed.
pub fn standing(id: PropId) -> Value
    ensures { value_seen result ≡ (row_of id).standing }
{
    PropertyRow::of(id).standing.value()
}

/// Whether an element takes the property from its parent where nothing sets it.
pub fn inherited(id: PropId) -> bool
    ensures { result ≡ (row_of id).inherited }
{
    PropertyRow::of(id).inherited
}

/// What is printed before a value of the property: its name, a colon and a blank.
pub fn label(id: PropId) -> &'static str
    ensures { chars result.now ≡ (row_of id).name ++ codes ": " }
{
    rows()[id.row()].label
}

/// All rows, with all that is said of them: the table is read here alone.
fn rows() -> &'static [PropertyRow]
    ensures rows { map row_seen result.now ≡ table }
    ensures order { map (λ row. property_of row.id) result.now
        ≡ range_with_len 0 (length table) }
    ensures labels { map (λ row. chars row.label.now) result.now ≡ map (λ row. row.name ++ codes ": ") table }
{
    ROWS
}
