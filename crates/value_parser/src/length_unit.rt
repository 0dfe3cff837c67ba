//! Units of length (css-values-4, sections 6.1 and 6.2).

ghost use Rattle.std.specs.Prelude.{◌≡◌, map, option_map, true};
ghost use Rattle.std.specs.List.{list_all};
ghost use Rattle.std.specs.Str.{chars};
ghost use Rattle.property_table.specs.View.{value_seen};
ghost use Rattle.sheet_model.specs.ValueIn.{in_unit, measured, units};
ghost use Rattle.value_parser.specs.View.{has_divisor, measure_seen, unit_seen};

use property_table::Value;
use stylo_base::{Fixed, eq_ascii_case};

/// What one of a unit is.
#[derive(Clone, Copy)]
pub(crate) enum Measure {
    /// So many parts of so many of a pixel.
    Pixel { parts: i64, of: i64 },
    /// The font size of the element.
    Element,
    /// The font size of the root.
    Root,
}

/// A unit and its name, in lower-case ASCII.
#[derive(Clone, Copy)]
pub(crate) struct LengthUnit {
    pub name: &'static str,
    pub measure: Measure,
}

macro_rules! unit {
    ($name:literal, $parts:literal, $of:literal) => {
        LengthUnit {
            name: $name,
            measure: Measure::Pixel {
                parts: $parts,
                of: $of,
            },
        }
    };
    ($name:literal, $measure:ident) => {
        LengthUnit {
            name: $name,
            measure: Measure::$measure,
        }
    };
}

/// The units of length.
static UNITS: [LengthUnit; 9] = [
    unit!("px", 1, 1),
    unit!("in", 96, 1),
    unit!("cm", 4_800, 127),
    unit!("mm", 480, 127),
    unit!("q", 120, 127),
    unit!("pt", 4, 3),
    unit!("pc", 16, 1),
    unit!("em", Element),
    unit!("rem", Root),
];

/// So much of the unit of that name, ignoring ASCII case.
pub(crate) fn in_unit(name: &str, amount: Fixed) -> Option<Value>
    ensures { option_map value_seen result ≡ in_unit (chars name.now) amount }
{
    for unit in all_units() {
        if eq_ascii_case(name, unit.name) {
            return Some(measured(unit.measure, amount));
        }
    }
    None
}

/// All of them.
fn all_units() -> &'static [LengthUnit]
    ensures units { map unit_seen result.now ≡ units }
    ensures divisors { list_all (λ unit. has_divisor unit.measure) result.now ≡ true }
{
    &UNITS
}

/// So much of what one of a unit is.
fn measured(measure: Measure, amount: Fixed) -> Value
    requires { has_divisor measure ≡ true }
    ensures { value_seen result ≡ measured (measure_seen measure) amount }
{
    match measure {
        Measure::Pixel { parts, of } => Value::Pixels(amount.scale(parts, of)),
        Measure::Element => Value::Em(amount),
        Measure::Root => Value::Rem(amount),
    }
}
