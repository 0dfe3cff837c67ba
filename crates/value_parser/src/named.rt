//! Colours by name (css-color-4, sections 6.1 and 6.3).

ghost use Rattle.std.specs.Prelude.{◌≡◌, find, map, option_map};
ghost use Rattle.std.specs.Str.{chars};
ghost use Rattle.base_model.specs.Text.{is_word};
ghost use Rattle.value_model.specs.Color.{named_colors};
ghost use Rattle.property_table.specs.View.{color_of};
ghost use Rattle.value_parser.specs.View.{named_seen};

use property_table::Color;
use stylo_base::eq_ascii_case;

/// A colour and its name, in lower-case ASCII.
#[derive(Clone, Copy)]
pub(crate) struct Named {
    pub name: &'static str,
    pub color: Color,
}

macro_rules! named {
    ($name:literal, $red:literal, $green:literal, $blue:literal, $alpha:literal) => {
        Named {
            name: $name,
            color: Color {
                red: $red,
                green: $green,
                blue: $blue,
                alpha: $alpha,
            },
        }
    };
}

/// The colours that have a name.
static NAMED: [Named; 18] = [
    named!("aqua", 0, 255, 255, 255),
    named!("black", 0, 0, 0, 255),
    named!("blue", 0, 0, 255, 255),
    named!("fuchsia", 255, 0, 255, 255),
    named!("gray", 128, 128, 128, 255),
    named!("green", 0, 128, 0, 255),
    named!("lime", 0, 255, 0, 255),
    named!("maroon", 128, 0, 0, 255),
    named!("navy", 0, 0, 128, 255),
    named!("olive", 128, 128, 0, 255),
    named!("orange", 255, 165, 0, 255),
    named!("purple", 128, 0, 128, 255),
    named!("red", 255, 0, 0, 255),
    named!("silver", 192, 192, 192, 255),
    named!("teal", 0, 128, 128, 255),
    named!("transparent", 0, 0, 0, 0),
    named!("white", 255, 255, 255, 255),
    named!("yellow", 255, 255, 0, 255),
];

/// The colour of that name, ignoring ASCII case.
pub(crate) fn named_color(text: &str) -> Option<Color>
    ensures { option_map color_of result ≡ option_map (λ row. row.color)
        (find (λ row. is_word row.name (chars text.now)) named_colors) }
{
    for row in all_named() {
        if eq_ascii_case(text, row.name) {
            return Some(row.color);
        }
    }
    None
}

/// All of them.
fn all_named() -> &'static [Named]
    ensures { map named_seen result.now ≡ named_colors }
{
    &NAMED
}
