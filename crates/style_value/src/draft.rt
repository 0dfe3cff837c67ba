//! A style that is being made.

ghost use Rattle.std.specs.Prelude.{◌≡◌, Some, IfOk, IsTrue, length, slice_get, slice_set};
ghost use Rattle.value_model.specs.Table.{table};
ghost use Rattle.value_model.specs.Style.{adjusted, inherited_part, initial_style};
ghost use Rattle.property_table.specs.View.{property_of, value_seen};

use crate::style_text::values_text;
use crate::value_columns::ValueColumns;
use crate::{Custom, Style};
use property_table::{PropId, Value};
use std::alloc::Global;
use std::marker::Model;
use stylo_base::NoMemory;

/// A value for each property, and custom properties, on the way to a style: the cascade begins with
/// what an element takes from its parent, sets the values, adjusts them, and finishes the draft as a
/// style.
#[derive(Debug, Drop)]
pub struct StyleDraft {
    columns: ValueColumns,
    custom: Custom,
}

impl Model for StyleDraft {
    ghost use Rattle.value_model.specs.Style as model;

    ghost Value = { model.Style };

    ghost coded = { model.style_code };

    ghost view = { λ s. record { values = s.columns; custom = s.custom } };
}

impl StyleDraft {
    /// The draft in which each property has its initial value, and no custom property has one.
    pub(crate) fn initial() -> StyleDraft
        ensures { result ≡ initial_style }
    {
        StyleDraft {
            columns: ValueColumns::initial(),
            custom: Custom::none(),
        }
    }

    /// The draft in which each inherited property has its value in `parent`, and each other one its
    /// initial value. It shares the custom properties of `parent`.
    #[inline]
    pub fn inheriting(_alloc: Global, parent: &Style) -> Result<StyleDraft, NoMemory>
        ensures { IfOk result (λ draft. draft ≡ inherited_part parent.now) }
    {
        let custom = parent.custom().share()?;
        Ok(StyleDraft {
            columns: ValueColumns::inheriting(parent.columns()),
            custom,
        })
    }

    /// The value of a property.
    pub fn value(&self, id: PropId) -> Value
        ensures value { slice_get self.now.values (property_of id) ≡ Some (value_seen result) }
        ensures all { length self.now.values ≡ length table }
    {
        self.columns.value(id)
    }

    /// Gives a property a value.
    pub fn set(&mut self, id: PropId, value: Value)
        ensures { let values = slice_set self.old.values (property_of id) (value_seen value) in
            self.new ≡ record self.old { values = values } }
    {
        self.columns.set(id, value);
    }

    /// Replaces the custom properties.
    pub fn set_custom(&mut self, custom: Custom)
        ensures { self.new ≡ record self.old { custom = custom } }
    {
        self.custom = custom;
    }

    /// Adjusts the values: an absolutely positioned box does not float, it, a floating one and the
    /// root are blocks on the outside, and a border of the style `none` or `hidden` has no width.
    pub fn adjust(&mut self, is_root: bool)
        ensures { self.new ≡ record self.old { values = adjusted is_root self.old.values } }
    {
        self.columns.adjust(is_root);
    }

    /// Whether a style has these values, those of custom properties too, which are not compared where it
    /// is known that it shares them.
    pub(crate) fn is_same(&self, style: &Style, shares: bool) -> bool
        requires { IsTrue shares → style.now.custom ≡ self.now.custom }
        ensures { IsTrue result → style.now ≡ self.now }
    {
        self.columns.is_same(style.columns()) && (shares || self.custom.is_same(style.custom()))
    }

    /// A number that equal drafts share, and the style that is finished of them.
    pub(crate) fn slot(&self) -> usize {
        slot(&self.columns, &self.custom)
    }

    /// The style with these values. It takes memory only for the text of those that are printed.
    #[inline]
    pub fn finish(self, alloc: Global) -> Result<Style, NoMemory>
        ensures { IfOk result (λ s. s ≡ self) }
    {
        let text = values_text(alloc, &self.columns)?;
        Ok(Style::of_parts(self.columns, self.custom, text))
    }
}

/// A number that equal values share.
pub(crate) fn slot(columns: &ValueColumns, custom: &Custom) -> usize {
    columns.slot() ^ custom.slot()
}
