//! A declaration that applies to an element, which may be kept for longer than what it was read into.

ghost use Rattle.std.specs.Prelude.{◌≡◌, IfOk, flat_map};
ghost use Rattle.cascade_core.specs.View.{held_of, lent_of, matched_of};

use crate::matched::{CascadePriority, LentMatched};
use shorthands::Declared;
use std::alloc::Global;
use stylo_base::NoMemory;

/// A declaration that is lent or owned. One of a rule is lent by its sheet. One of a `style` attribute is
/// owned where it outlives the list that was read from the attribute.
#[derive(Debug, Drop)]
pub enum HeldDeclaration<'a> {
    Lent(&'a Declared),
    Owned(Declared),
}

impl<'a> HeldDeclaration<'a> {
    /// The declaration.
    pub fn get(&self) -> &Declared
        ensures { result.now ≡ held_of self.now }
    {
        match self {
            HeldDeclaration::Lent(declared) => declared,
            HeldDeclaration::Owned(declared) => declared,
        }
    }
}

/// One declaration that applies to an element, with what the cascade compares: a `LentMatched` that may
/// own its declaration. A declaration of a shorthand stands for one of each of its longhands
/// (css-cascade-5, section 3).
#[derive(Debug, Drop)]
pub struct Matched<'a> {
    /// The property or the custom property, its declared value, and whether it is `!important`.
    pub declared: HeldDeclaration<'a>,
    /// What else the cascade compares.
    pub priority: CascadePriority,
}

impl<'a> Matched<'a> {
    /// The same, with a declaration that is lent.
    pub fn lent(&self) -> LentMatched<'_>
        ensures { lent_of result ≡ matched_of self.now }
    {
        LentMatched {
            declared: self.declared.get(),
            priority: self.priority,
        }
    }
}

impl<'a> LentMatched<'a> {
    /// The same, to be kept beside others that own their declarations.
    pub fn held(self) -> Matched<'a>
        ensures { matched_of result ≡ lent_of self.entry }
    {
        Matched {
            declared: HeldDeclaration::Lent(self.declared),
            priority: self.priority,
        }
    }
}

/// The same declarations, each lent.
pub(crate) fn all_lent<'a>(
    alloc: Global,
    list: &'a [Matched<'_>],
) -> Result<Vec<LentMatched<'a>>, NoMemory>
    ensures { IfOk result (λ lent. flat_map lent_of lent.items ≡ flat_map matched_of list.now) }
{
    let mut lent = Vec::with_capacity(alloc, list.len())?;
    for one in list {
        let one = one.lent();
        lent.extend_from_slice(&[one])?;
    }
    Ok(lent)
}
