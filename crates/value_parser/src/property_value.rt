//! The value of a property.

ghost use Rattle.std.specs.Prelude.{◌≡◌, map, option_map, true};
ghost use Rattle.std.specs.List.{list_all};
ghost use Rattle.base_model.specs.Lists.{first_some};
ghost use Rattle.property_table.specs.View.{form_of, property_of, value_seen};
ghost use Rattle.sheet_model.specs.ValueIn.{value_by, value_in};
ghost use Rattle.value_parser.specs.View.{is_lower};

use crate::color::color_of;
use crate::length::length_of;
use crate::number::{number_of, percentage_of};
use crate::word::{keyword_of, named_of};
use css_tokens::Token;
use property_table::{PropId, PropertyRow, Value, ValueForm};

/// Reads the tokens as a value of the property, if it takes one that they are. Whitespace at an end
/// is of no value. It takes no memory.
pub fn value(id: PropId, tokens: &[Token]) -> Option<Value>
    ensures { option_map value_seen result ≡ value_in (property_of id) tokens.now }
{
    first_value(PropertyRow::of(id).forms, tokens)
}

/// The value that the tokens are in the first of the forms that takes them.
fn first_value(forms: &[ValueForm], tokens: &[Token]) -> Option<Value>
    requires { list_all is_lower (map form_of forms.now) ≡ true }
    ensures { option_map value_seen result
        ≡ first_some (λ form. value_by form tokens.now) (map form_of forms.now) }
{
    for form in forms {
        if let Some(value) = value_by(*form, tokens) {
            return Some(value);
        }
    }
    None
}

/// The value that the tokens are in the form.
fn value_by(form: ValueForm, tokens: &[Token]) -> Option<Value>
    requires { is_lower (form_of form) ≡ true }
    ensures { option_map value_seen result ≡ value_by (form_of form) tokens.now }
{
    match form {
        ValueForm::Word(word) => keyword_of(word, tokens),
        ValueForm::Named(word, read) => named_of(word, read, tokens),
        ValueForm::AnyColor => color_of(tokens),
        ValueForm::Length { negative, zero } => length_of(negative, zero, tokens),
        ValueForm::Percentage { negative } => percentage_of(negative, tokens),
        ValueForm::Number { least, most } => number_of(least, most, tokens),
    }
}
