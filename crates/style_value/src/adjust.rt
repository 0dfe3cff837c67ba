//! The adjustments that come after the cascade, in their order.

ghost use Rattle.std.specs.Prelude.{◌≡◌, codes, not};
ghost use Rattle.value_model.specs.Style.{adjusted, blockified, floats, is_absolute, is_keyword, is_no_border, is_positioned, with_border, with_display, with_float};
ghost use Rattle.property_table.specs.View.{property_of, value_seen};

use crate::value_columns::ValueColumns;
use property_table::{Keyword, PropId, Value};
use stylo_base::Fixed;

impl ValueColumns {
    /// Adjusts the values: `float`, then `display`, then the widths of borders.
    pub fn adjust(&mut self, is_root: bool)
        ensures { self.new ≡ adjusted is_root self.old }
    {
        self.adjust_float();
        self.adjust_display(is_root);
        self.adjust_border(PropId::BorderTopWidth, PropId::BorderTopStyle);
        self.adjust_border(PropId::BorderRightWidth, PropId::BorderRightStyle);
        self.adjust_border(PropId::BorderBottomWidth, PropId::BorderBottomStyle);
        self.adjust_border(PropId::BorderLeftWidth, PropId::BorderLeftStyle);
    }

    /// An absolutely positioned box does not float (CSS 2.2, section 9.7).
    fn adjust_float(&mut self)
        ensures { self.new ≡ with_float self.old }
    {
        if self.is_positioned() {
            self.set(PropId::Float, Value::Keyword(Keyword::None));
        }
    }

    /// An absolutely positioned box, one that floats, and the root are blocks on the outside
    /// (css-display-3, sections 2.7 and 2.8).
    fn adjust_display(&mut self, is_root: bool)
        ensures { self.new ≡ with_display is_root self.old }
    {
        if is_root || self.is_positioned() || self.floats() {
            let display = self.value(PropId::Display);
            self.set(PropId::Display, blockified(display));
        }
    }

    /// There is no border where its style is `none` or `hidden` (css-backgrounds-3, section 3.3).
    fn adjust_border(&mut self, width: PropId, style: PropId)
        ensures { self.new ≡ with_border (property_of width, property_of style) self.old }
    {
        if is_no_border(self.value(style)) {
            self.set(width, Value::Pixels(Fixed::zero()));
        }
    }

    /// Whether the box is absolutely positioned.
    fn is_positioned(&self) -> bool
        ensures { result ≡ is_positioned self.now }
    {
        is_absolute(self.value(PropId::Position))
    }

    /// Whether the box floats.
    fn floats(&self) -> bool
        ensures { result ≡ floats self.now }
    {
        is_float(self.value(PropId::Float))
    }
}

/// Whether a value of `position` takes the box out of the flow (css-position-3, section 2).
fn is_absolute(position: Value) -> bool
    ensures { result ≡ is_absolute (value_seen position) }
{
    matches!(position, Value::Keyword(Keyword::Absolute | Keyword::Fixed))
}

/// Whether a value of `float` is other than `none`.
fn is_float(float: Value) -> bool
    ensures { result ≡ not (is_keyword (codes "none") (value_seen float)) }
{
    !matches!(float, Value::Keyword(Keyword::None))
}

/// Whether a border of this style is none.
fn is_no_border(style: Value) -> bool
    ensures { result ≡ is_no_border (value_seen style) }
{
    matches!(style, Value::Keyword(Keyword::None | Keyword::Hidden))
}

/// The value of `display` with a block on the outside: what is inside stays (css-display-3,
/// section 2.7).
fn blockified(display: Value) -> Value
    ensures { value_seen result ≡ blockified (value_seen display) }
{
    match display {
        Value::Keyword(Keyword::Inline | Keyword::InlineBlock) => Value::Keyword(Keyword::Block),
        Value::Keyword(Keyword::InlineFlex) => Value::Keyword(Keyword::Flex),
        _ => display,
    }
}
