//! A rule that is kept, but for its selectors.

ghost use Rattle.std.specs.Prelude.{◌≡◌, ◌+◌, ◌<◌, ◌^◌, IfOk, sum_by};
ghost use Rattle.shorthands.specs.View.{declared_count};

use crate::Declared;
use crate::count::count_all;
use layer_order::{LayerName, Origin};
use std::alloc::Global;
use stylo_base::NoMemory;

/// A rule of a sheet: its declarations, its cascade layer, where its sheet comes from, and how many
/// declarations are kept before it in the sheet's text. A declaration of a shorthand counts as one of
/// each of its properties. All of it stands in a place of its own, so that little is moved with a rule.
#[derive(Drop)]
pub struct SheetRule {
    body: Box<RuleBody>,
}

/// What a rule holds.
#[derive(Drop)]
struct RuleBody {
    declarations: Vec<Declared>,
    origin: Origin,
    layer: LayerName,
    sheet: u32,
    first_index: u64,
    count: u64,
    ghost counted: { count ≡ sum_by declared_count declarations.items },
    ghost within: { first_index + count < 2 ^ 64 },
}

impl SheetRule {
    /// A rule of a sheet. Where 2^64 declarations or more come before its end, it is as if memory ran out.
    pub(crate) fn new(
        alloc: Global,
        declarations: Vec<Declared>,
        origin: Origin,
        layer: LayerName,
        sheet: u32,
        first_index: u64,
    ) -> Result<SheetRule, NoMemory>
        ensures { IfOk result (λ rule. (rule.body.value.declarations ≡ declarations)
            × ((rule.body.value.origin ≡ origin) × ((rule.body.value.layer ≡ layer)
            × ((rule.body.value.sheet ≡ sheet) × (rule.body.value.first_index ≡ first_index))))) }
    {
        let count = count_all(declarations.as_slice())?;
        if first_index.checked_add(count).is_none() {
            return Err(NoMemory);
        }
        let body = RuleBody {
            declarations,
            origin,
            layer,
            sheet,
            first_index,
            count,
        };
        Ok(SheetRule {
            body: Box::new(alloc, body)?,
        })
    }

    /// The index after its last declaration.
    pub(crate) fn end(&self) -> u64
        ensures { result ≡ self.now.body.value.first_index
            + sum_by declared_count self.now.body.value.declarations.items }
    {
        self.body.first_index + self.body.count
    }

    /// Its declarations, in order: of a shorthand one entry, or one for each property.
    pub fn declarations(&self) -> &[Declared]
        ensures list { result.now ≡ self.now.body.value.declarations.items }
        ensures counted { self.now.body.value.first_index + sum_by declared_count result.now < 2 ^ 64 }
    {
        &self.body.declarations
    }

    /// Where its sheet comes from.
    pub fn origin(&self) -> Origin
        ensures { result ≡ self.now.body.value.origin }
    {
        self.body.origin
    }

    /// The full name of its cascade layer.
    pub fn layer(&self) -> &LayerName
        ensures { result.now ≡ self.now.body.value.layer }
    {
        &self.body.layer
    }

    /// The number of its sheet.
    pub fn sheet(&self) -> u32
        ensures { result ≡ self.now.body.value.sheet }
    {
        self.body.sheet
    }

    /// How many declarations are kept before it in its sheet's text.
    pub fn first_index(&self) -> u64
        ensures { result ≡ self.now.body.value.first_index }
    {
        self.body.first_index
    }
}
