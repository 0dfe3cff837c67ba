//! What a declaration of a property or of a shorthand declares (css-cascade-5, section 3).

ghost use Rattle.std.specs.Prelude.{◌≡◌, ◌++◌, IfOk, OnOk, flat_map, map, option_map};
ghost use Rattle.css_rules.specs.View.{declaration_of};
ghost use Rattle.property_table.specs.View.{property_of};
ghost use Rattle.sheet_model.specs.Shorthands as model;
ghost use Rattle.shorthands.specs.View.{declared_of, given_of, property_name_of};
ghost use Rattle.sheet_set.specs.Parts.{common_given_in, each_declared, part_declared, parts_declared, declared_for, values_declared};
ghost use Rattle.sheet_set.specs.View.{target_of};

use crate::keep::keep;
use crate::referring::referring_value;
use css_rules::RawDecl;
use css_tokens::Token;
use property_table::PropId;
use shorthands::{Declared, Given, PropertyName, Target, split};
use std::alloc::Global;
use stylo_base::NoMemory;
use value_parser::{are_taken, value, wide_keyword};

/// Adds what a declaration of the property or shorthand declares: a declaration of each of the
/// properties, or nothing where the value is not taken. What every property takes is kept once.
pub(crate) fn add_property_name(
    alloc: Global,
    kept: &mut Vec<Declared>,
    declaration: &RawDecl,
    property_name: PropertyName,
) -> Result<(), NoMemory>
    ensures { OnOk result (flat_map declared_of kept.new.items ≡ flat_map declared_of kept.old.items
        ++ declared_for (declaration_of declaration.now) (property_name_of property_name)) }
{
    match common_given(alloc, declaration.value.as_slice())? {
        Some(given) => keep(kept, declaration, target_of(property_name), given),
        None => add_values(kept, declaration, property_name),
    }
}

/// What the tokens give any property: a CSS-wide keyword, or a value that refers to custom properties.
fn common_given(alloc: Global, tokens: &[Token]) -> Result<Option<Given>, NoMemory>
    ensures { IfOk result (λ given. (property_name : model.PropertyName)
        → option_map (given_of property_name) given ≡ common_given_in property_name tokens.now) }
{
    if let Some(wide) = wide_keyword(tokens) {
        return Ok(Some(Given::Wide(wide)));
    }
    match referring_value(alloc, tokens)? {
        Some(value) => Ok(Some(Given::Referring(value))),
        None => Ok(None),
    }
}

/// The target that it is.
fn target_of(property_name: PropertyName) -> Target
    ensures { result ≡ target_of property_name }
{
    match property_name {
        PropertyName::Longhand(id) => Target::Longhand(id),
        PropertyName::Shorthand(short) => Target::Shorthand(short),
    }
}

/// Adds a value for each property that a name names, where all are taken.
fn add_values(
    kept: &mut Vec<Declared>,
    declaration: &RawDecl,
    property_name: PropertyName,
) -> Result<(), NoMemory>
    ensures { OnOk result (flat_map declared_of kept.new.items ≡ flat_map declared_of kept.old.items
        ++ values_declared (declaration_of declaration.now) (property_name_of property_name)) }
{
    match property_name {
        PropertyName::Longhand(id) => add_value(
            kept,
            declaration,
            id,
            declaration.value.as_slice(),
        ),
        PropertyName::Shorthand(short) => match split(short, declaration.value.as_slice()) {
            Some(parts) => add_parts(kept, declaration, short.longhands(), parts.as_slice()),
            None => Ok(()),
        },
    }
}

/// Adds the value of each property in its part, where all are taken.
fn add_parts(
    kept: &mut Vec<Declared>,
    declaration: &RawDecl,
    ids: &[PropId],
    parts: &[&[Token]],
) -> Result<(), NoMemory>
    ensures { OnOk result (flat_map declared_of kept.new.items ≡ flat_map declared_of kept.old.items
        ++ parts_declared (declaration_of declaration.now) (map property_of ids.now)
        (map (λ part. part.now) parts.now)) }
{
    if are_taken(ids, parts) {
        add_each(kept, declaration, ids, parts)
    } else {
        Ok(())
    }
}

/// Adds the value of each property in its part.
fn add_each(
    kept: &mut Vec<Declared>,
    declaration: &RawDecl,
    ids: &[PropId],
    parts: &[&[Token]],
) -> Result<(), NoMemory>
    ensures { OnOk result (flat_map declared_of kept.new.items ≡ flat_map declared_of kept.old.items
        ++ each_declared (declaration_of declaration.now) (map property_of ids.now)
        (map (λ part. part.now) parts.now)) }
{
    for (id, part) in ids.iter().zip(parts) {
        add_value(kept, declaration, *id, part)?;
    }
    Ok(())
}

/// Adds the value of the property, where it is taken.
fn add_value(
    kept: &mut Vec<Declared>,
    declaration: &RawDecl,
    id: PropId,
    tokens: &[Token],
) -> Result<(), NoMemory>
    ensures { OnOk result (flat_map declared_of kept.new.items ≡ flat_map declared_of kept.old.items
        ++ part_declared (declaration_of declaration.now) (property_of id) tokens.now) }
{
    match value(id, tokens) {
        Some(value) => keep(
            kept,
            declaration,
            Target::Longhand(id),
            Given::Exactly(value),
        ),
        None => Ok(()),
    }
}
