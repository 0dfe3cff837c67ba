//! The computed value of a custom property (css-variables-1, sections 2 and 3).

ghost use Rattle.std.specs.Prelude.{◌≡◌, IfOk, Some, option_copied};
ghost use Rattle.std.specs.FinMap as finmap;
ghost use Rattle.css_tokens.specs.View.{wide_of as keyword_of};
ghost use Rattle.custom_model.specs.Computed.{by_keyword};
ghost use Rattle.custom_properties.specs.Entries.{declared_entry};
ghost use Rattle.custom_properties.specs.Off.{off_cycles, off_cycles_at};
ghost use Rattle.custom_model.specs.Value.{CustomValue};

use crate::DeclaredEntry;
use crate::expansion::expand;
use crate::values::Values;
use css_tokens::{CustomMap, CustomName, CustomValue, Wide, wide_keyword};
use std::alloc::Global;
use stylo_base::NoMemory;

/// The value of a declared custom property that is on no cycle, by the values that are known.
pub(crate) fn computed<V: Values>(
    alloc: Global,
    entry: &DeclaredEntry<'_>,
    known: &V,
    inherited: &CustomMap,
) -> Result<Option<CustomValue>, NoMemory>
    ensures { IfOk result (λ v. v
        ≡ off_cycles_at (V.lookup known.now) inherited.now (declared_entry entry.now)) }
{
    match entry.value {
        None => Ok(None),
        Some(value) => expanded(alloc, entry.name, value, known, inherited),
    }
}

/// What a value expands to. A CSS-wide keyword that arises by this takes what is inherited, or no
/// value if it is `initial`.
fn expanded<V: Values>(
    alloc: Global,
    name: &CustomName,
    value: &CustomValue,
    known: &V,
    inherited: &CustomMap,
) -> Result<Option<CustomValue>, NoMemory>
    ensures { IfOk result (λ v. v
        ≡ off_cycles (V.lookup known.now) (finmap.get inherited.now name.now) value.now) }
{
    if value.is_plain() {
        return match wide_keyword(value.tokens()) {
            None => shared(Some(value)),
            Some(wide) => by_keyword(wide, name, inherited),
        };
    }
    let Some(tokens) = expand(alloc, value.tokens(), known)? else {
        return Ok(None);
    };
    match wide_keyword(&tokens) {
        None => {
            let value = CustomValue::of_tokens(alloc, tokens)?;
            Ok(Some(value))
        }
        Some(wide) => by_keyword(wide, name, inherited),
    }
}

/// What a keyword takes.
fn by_keyword(
    wide: Wide,
    name: &CustomName,
    inherited: &CustomMap,
) -> Result<Option<CustomValue>, NoMemory>
    ensures { (tokens : CustomValue) → IfOk result (λ v.
        v ≡ by_keyword (finmap.get inherited.now name.now) tokens (Some (keyword_of wide))) }
{
    match wide {
        Wide::Initial => Ok(None),
        _ => shared(inherited.get(name.as_str())),
    }
}

/// The same value, if there is one.
pub(crate) fn shared(value: Option<&CustomValue>) -> Result<Option<CustomValue>, NoMemory>
    ensures { IfOk result (λ v. v ≡ option_copied value.entry) }
{
    match value {
        None => Ok(None),
        Some(value) => Ok(Some(value.share()?)),
    }
}
