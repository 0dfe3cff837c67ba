//! A style, which contracts see as the list of its values in the order of the table, and the map of
//! its custom properties.

ghost use Rattle.std.specs.Prelude.{◌≡◌, ◌↔◌, Some, IfOk, IsTrue, length, slice_get};
ghost use Rattle.std.specs.Str.{chars};
ghost use Rattle.value_model.specs.Table.{table};
ghost use Rattle.value_model.specs.Style.{font_size_of, font_weight_of, inherited_part, initial_style};
ghost use Rattle.property_table.specs.View.{property_of, value_seen};
ghost use Rattle.style_value.specs.StyleText.{longhands_text, values_text};

use crate::value_columns::ValueColumns;
use crate::{Custom, StyleDraft, draft};
use property_table::{PropId, Value};
use std::alloc::Global;
use std::marker::Model;
use stylo_base::{Fixed, NoMemory, Text};

/// A value for each property of the table, custom properties, and the text of the values that are
/// printed. It does not change: a `StyleDraft` does, and is finished as a style.
#[derive(Debug, Drop)]
pub struct Style {
    columns: ValueColumns,
    custom: Custom,
    body: Text,
}

impl Model for Style {
    ghost use Rattle.std.specs.Prelude.{◌≡◌};
    ghost use Rattle.value_model.specs.Style as model;
    ghost use Rattle.style_value.specs.StyleText.{values_text};

    ghost Value = { model.Style };

    ghost coded = { model.style_code };

    ghost view = { λ s. record { values = s.columns; custom = s.custom } };

    ghost invariant = { λ s. s.body ≡ values_text s.columns };
}

impl Style {
    /// The style in which each property has its initial value, and no custom property has one.
    pub fn initial(alloc: Global) -> Result<Style, NoMemory>
        ensures { IfOk result (λ s. s ≡ initial_style) }
    {
        StyleDraft::initial().finish(alloc)
    }

    /// The style with these values, which are printed as `body`.
    #[inline]
    pub(crate) fn of_parts(columns: ValueColumns, custom: Custom, body: Text) -> Style
        requires { body ≡ values_text columns }
        ensures { result ≡ record { values = columns; custom = custom } }
    {
        Style {
            columns,
            custom,
            body,
        }
    }

    /// The style in which each inherited property keeps its value, and each other one has its
    /// initial value. Custom properties are inherited.
    pub fn inherited_part(&self, alloc: Global) -> Result<Style, NoMemory>
        ensures { IfOk result (λ s. s ≡ inherited_part self.now) }
    {
        StyleDraft::inheriting(alloc, self)?.finish(alloc)
    }

    /// The value of a property.
    pub fn value(&self, id: PropId) -> Value
        ensures value { slice_get self.now.values (property_of id) ≡ Some (value_seen result) }
        ensures all { length self.now.values ≡ length table }
    {
        self.columns.value(id)
    }

    /// The values.
    pub(crate) fn columns(&self) -> &ValueColumns
        ensures { result.now ≡ self.now.values }
    {
        &self.columns
    }

    /// The custom properties.
    pub fn custom(&self) -> &Custom
        ensures { result.now ≡ self.now.custom }
    {
        &self.custom
    }

    /// The declarations of the properties whose value is not the standing one, as they are printed:
    /// `name: value`, in the order of the table, with `; ` between.
    pub fn text(&self) -> &str
        ensures { chars result.now ≡ longhands_text self.now }
    {
        self.body.as_str()
    }

    /// The font size, in pixels.
    pub fn font_size(&self) -> Fixed
        ensures { result ≡ font_size_of self.now.values }
    {
        self.value(PropId::FontSize).font_size()
    }

    /// The font weight.
    pub fn font_weight(&self) -> Fixed
        ensures { result ≡ font_weight_of self.now.values }
    {
        match self.value(PropId::FontWeight) {
            Value::Number(weight) => weight,
            _ => Fixed::clamp(400_000),
        }
    }

    /// A number that equal styles share.
    pub(crate) fn slot(&self) -> usize {
        draft::slot(&self.columns, &self.custom)
    }

    /// A number that styles with equal inherited parts share.
    pub(crate) fn part_slot(&self) -> usize {
        self.columns.part_slot() ^ self.custom.slot()
    }

    /// Whether the two have equal inherited parts: the same values of inherited properties, and the
    /// same custom properties (css-cascade-5, section 7.2).
    pub fn same_inherited(&self, other: &Style) -> bool
        ensures { IsTrue result ↔ (inherited_part self.now ≡ inherited_part other.now) }
    {
        self.columns.same_inherited(&other.columns) && self.custom.is_same(&other.custom)
    }

    /// Whether the two have equal inherited parts, where the custom properties are not compared if it is
    /// known that they are the same.
    pub(crate) fn is_same_part(&self, other: &Style, shares: bool) -> bool
        requires { IsTrue shares → self.now.custom ≡ other.now.custom }
        ensures { IsTrue result → inherited_part self.now ≡ inherited_part other.now }
    {
        self.columns.same_inherited(&other.columns)
            && (shares || self.custom.is_same(&other.custom))
    }

    /// Whether the two have the same values, those of custom properties too.
    pub fn is_same(&self, other: &Style) -> bool
        ensures { IsTrue result ↔ (self.now ≡ other.now) }
    {
        self.columns.is_same(&other.columns) && self.custom.is_same(&other.custom)
    }
}
