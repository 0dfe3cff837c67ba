//! A selector with what is asked of it most: its key, how specific it is, and whether it asks for siblings.

ghost use Rattle.std.specs.Prelude.{◌≡◌};
ghost use Rattle.selector_model.specs.Key.{key_of};
ghost use Rattle.selector_model.specs.Parts.{has_part, is_of_place, is_of_siblings};
ghost use Rattle.selector_model.specs.SpecificityOf.{specificity_of};
ghost use Rattle.selector_types.specs.ComplexView.{complex_of};
ghost use Rattle.selector_types.specs.SimpleView.{key_seen};

use crate::{Complex, Key, Specificity, measure};
use std::alloc::Global;
use stylo_base::NoMemory;

/// A selector of a rule.
#[derive(Drop)]
pub struct Selector {
    complex: Complex,
    key: Key,
    specificity: Specificity,
    asks_for_siblings: bool,
    ghost keyed: { key_seen key ≡ key_of (complex_of complex) },
    ghost weighed: { specificity ≡ specificity_of (complex_of complex) },
    ghost placed: { asks_for_siblings ≡ has_part is_of_place is_of_siblings (complex_of complex) },
}

impl Selector {
    ghost use Rattle.std.specs.Prelude.{IfOk};
    ghost use Rattle.selector_types.specs.View.{selector_of};

    /// The selector of these compounds. One of 2^64 - 1 tests or more is refused: no memory holds it.
    pub fn new(alloc: Global, complex: Complex) -> Result<Selector, NoMemory>
        ensures { IfOk result (λ selector. selector_of selector ≡ complex_of complex) }
    {
        let measure = measure::of_complex(&complex);
        if measure.tests == u64::MAX {
            return Err(NoMemory);
        }
        let key = Key::of_compound(alloc, &complex.subject)?;
        Ok(Selector {
            complex,
            key,
            specificity: measure.weight,
            asks_for_siblings: measure.by_place,
        })
    }

    /// Its compounds.
    pub fn complex(&self) -> &Complex
        ensures { complex_of result.now ≡ selector_of self.now }
    {
        &self.complex
    }

    /// Whether it has, at any depth, a test of an element's index among its siblings, `:empty` or a sibling combinator
    /// (selectors-4, sections 14 and 15). It was found when the selector was made.
    pub fn asks_for_siblings(&self) -> bool
        ensures { result ≡ has_part is_of_place is_of_siblings (selector_of self.now) }
    {
        self.asks_for_siblings
    }

    pub(crate) fn key(&self) -> &Key
        ensures { key_seen result.now ≡ key_of (selector_of self.now) }
    {
        &self.key
    }

    pub(crate) fn specificity(&self) -> Specificity
        ensures { result ≡ specificity_of (selector_of self.now) }
    {
        self.specificity
    }
}
