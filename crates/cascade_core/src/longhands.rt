//! The declared values of the properties of the table.

ghost use Rattle.std.specs.Prelude.{◌≡◌, IfOk, option_map};
ghost use Rattle.std.specs.FinMap as finmap;
ghost use Rattle.cascade_model.specs.Ending.{referring_meaning};
ghost use Rattle.custom_model.specs.Expand.{expansion};
ghost use Rattle.property_table.specs.View.{property_of, value_seen};
ghost use Rattle.sheet_model.specs.Shorthands.{shorthand, single, value_for};
ghost use Rattle.shorthands.specs.View.{short_of, taker_of};
ghost use Rattle.cascade_core.specs.SubstitutedShorthand.{IsSubstituted};
ghost use Rattle.cascade_core.specs.SubstitutedValue.{substituted_seen};
ghost use Rattle.cascade_core.specs.Tokens.{token_meaning};

use crate::substituted_shorthand::SubstitutedShorthand;
use crate::substituted_value::SubstitutedValue;
use crate::substitution::Substitution;
use css_tokens::{CustomMap, CustomValue, Token, Wide};
use custom_properties::substitute;
use property_table::{PropId, Value};
use shorthands::{Declared, Given, Short, Target};
use std::alloc::Global;
use std::marker::Model;
use stylo_base::NoMemory;
use value_parser::{value, wide_keyword};

/// Reads declared values as values of a property of the table, over the values of custom properties.
/// It keeps the shorthand that was substituted last, since the longhands of one stand beside each
/// other in the table.
#[derive(Drop)]
pub(crate) struct Longhands<'a, 'm> {
    custom: &'m CustomMap,
    id: PropId,
    last: Option<LastShorthand<'a>>,
}

/// The shorthand that was substituted last: its declared value, and the values of its longhands.
#[derive(Drop)]
struct LastShorthand<'a> {
    short: Short,
    value: &'a CustomValue,
    substituted: SubstitutedShorthand,
}

impl<'a, 'm> Model for Longhands<'a, 'm> {
    ghost use Rattle.std.specs.Prelude.{IfSome};
    ghost use Rattle.property_table.specs.View.{property_of};
    ghost use Rattle.cascade_core.specs.SubstitutedShorthand as model;
    ghost use Rattle.cascade_core.specs.SubstitutedShorthand.{IsSubstituted};

    ghost Value = { model.Reading };

    ghost coded = { model.reading_code };

    ghost view = { λ l. record { custom = l.custom.now; property = property_of l.id } };

    ghost invariant = { λ l. IfSome l.last (λ e. IsSubstituted e.substituted e.short e.value.now l.custom.now) };
}

impl<'a, 'm> Longhands<'a, 'm> {
    /// Over these custom properties, as of this property.
    pub(crate) fn over(custom: &'m CustomMap, id: PropId) -> Longhands<'a, 'm>
        ensures { result ≡ record { custom = custom.now; property = property_of id } }
    {
        Longhands {
            custom,
            id,
            last: None,
        }
    }

    /// From now on as of this property.
    pub(crate) fn read_as(&mut self, id: PropId)
        ensures { self.new ≡ record self.old { property = property_of id } }
    {
        self.id = id;
    }

    /// The property.
    pub(crate) fn id(&self) -> PropId
        ensures { property_of result ≡ self.now.property }
    {
        self.id
    }

    /// The substituted value of the property, where `value`, which has `var()`, is declared for
    /// `target`. A custom property never has such a value: for one the answer is that of `color`, the
    /// first property of the table, as in the definitions.
    fn referring(
        &mut self,
        alloc: Global,
        target: &Target,
        value: &'a CustomValue,
    ) -> Result<SubstitutedValue<Value>, NoMemory>
        ensures same { self.new ≡ self.old }
        ensures value { IfOk result (λ substituted. substituted_seen value_seen substituted
            ≡ referring_meaning
            self.old.property
            (taker_of target.now)
            (expansion (finmap.get self.old.custom) value.now)) }
    {
        match target {
            Target::Longhand(other) => {
                substituted_longhand(alloc, self.id, *other, value, self.custom)
            }
            Target::Shorthand(short) => self.of_shorthand(alloc, *short, value),
            Target::Custom(_) => {
                substituted_longhand(alloc, self.id, PropId::Color, value, self.custom)
            }
        }
    }

    /// The substituted value of the property, where `value` is declared for a shorthand.
    fn of_shorthand(
        &mut self,
        alloc: Global,
        short: Short,
        value: &'a CustomValue,
    ) -> Result<SubstitutedValue<Value>, NoMemory>
        ensures same { self.new ≡ self.old }
        ensures value { IfOk result (λ substituted. substituted_seen value_seen substituted
            ≡ referring_meaning
            self.old.property
            (shorthand (short_of short))
            (expansion (finmap.get self.old.custom) value.now)) }
    {
        if let Some(last) = &self.last {
            if last.short == short && last.value.is_same(value) {
                return Ok(last.substituted.value(short, self.id));
            }
        }
        let substituted = substituted_shorthand(alloc, short, value, self.custom)?;
        let of_longhand = substituted.value(short, self.id);
        self.last = Some(LastShorthand {
            short,
            value,
            substituted,
        });
        Ok(of_longhand)
    }
}

impl<'a, 'm> Substitution<'a> for Longhands<'a, 'm> {
    ghost use Rattle.std.specs.FinMap as finmap;
    ghost use Rattle.value_model.specs.Value as model;
    ghost use Rattle.cascade_model.specs.Ending.{meaning_of};
    ghost use Rattle.property_table.specs.View.{value_seen};

    type Value = Value;

    ghost Seen = { model.Value };

    ghost seen = { value_seen };

    ghost substituted = { λ l. meaning_of (finmap.get l.custom) l.property };

    fn substituted(
        &mut self,
        alloc: Global,
        declared: &'a Declared,
    ) -> Result<SubstitutedValue<Value>, NoMemory> {
        match &declared.given {
            Given::Exactly(value) => Ok(SubstitutedValue::Value(*value)),
            Given::Wide(word) => Ok(SubstitutedValue::Keyword(*word)),
            Given::Referring(value) => self.referring(alloc, &declared.target, value),
            Given::Holding(_) => Ok(SubstitutedValue::Keyword(Wide::Unset)),
        }
    }
}

/// The values of a shorthand's longhands, where this value is declared for the shorthand. If it is
/// invalid once it is substituted, it behaves as `unset` (css-variables-1, section 3).
fn substituted_shorthand(
    alloc: Global,
    short: Short,
    value: &CustomValue,
    custom: &CustomMap,
) -> Result<SubstitutedShorthand, NoMemory>
    ensures { IfOk result (λ substituted. IsSubstituted substituted short value.now custom.now) }
{
    match substitute(alloc, value.tokens(), custom)? {
        None => Ok(SubstitutedShorthand::Keyword(Wide::Unset)),
        Some(tokens) => Ok(SubstitutedShorthand::of(short, &tokens)),
    }
}

/// The substituted value of a property, where `value`, which has `var()`, is declared for the longhand
/// `declared`.
fn substituted_longhand(
    alloc: Global,
    id: PropId,
    declared: PropId,
    value: &CustomValue,
    custom: &CustomMap,
) -> Result<SubstitutedValue<Value>, NoMemory>
    ensures { IfOk result (λ substituted. substituted_seen value_seen substituted
        ≡ referring_meaning
        (property_of id)
        (single (property_of declared))
        (expansion (finmap.get custom.now) value.now)) }
{
    match substitute(alloc, value.tokens(), custom)? {
        None => Ok(SubstitutedValue::Keyword(Wide::Unset)),
        Some(tokens) => Ok(longhand_of_tokens(id, declared, &tokens)),
    }
}

/// The value of a property, where these tokens are declared for a longhand and have no `var()`. If
/// they are a CSS-wide keyword, it is that keyword; if the property does not take them, they behave
/// as `unset`.
fn longhand_of_tokens(id: PropId, declared: PropId, tokens: &[Token]) -> SubstitutedValue<Value>
    ensures { substituted_seen value_seen result
        ≡ token_meaning (property_of id) (single (property_of declared)) tokens.now }
{
    if let Some(word) = wide_keyword(tokens) {
        return SubstitutedValue::Keyword(word);
    }
    match value_of_one(id, declared, tokens) {
        Some(value) => SubstitutedValue::Value(value),
        None => SubstitutedValue::Keyword(Wide::Unset),
    }
}

/// The value of a property, where it is the one that is declared.
fn value_of_one(id: PropId, declared: PropId, tokens: &[Token]) -> Option<Value>
    ensures { option_map value_seen result ≡ value_for (single (property_of declared)) (property_of id) tokens.now }
{
    if declared == id {
        value(id, tokens)
    } else {
        None
    }
}
