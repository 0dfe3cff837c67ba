//! Selectors by compounds and combinators.

ghost use Rattle.std.specs.Prelude.{◌≡◌, IfOk, map};
ghost use Rattle.selector_model.specs.Selector as model;
ghost use Rattle.selector_types.specs.ComplexView.{combinator_of, complex_of, test_of, tested};

use crate::Simple;
use std::alloc::Global;
use stylo_base::NoMemory;

/// How an element is related to the one on its left.
#[derive(Clone, Copy, Debug, PartialEq, Eq)]
pub enum Combinator {
    Descendant,
    Child,
    NextSibling,
    LaterSibling,
}

/// A compound, and what is to the left of it.
#[cycle(selector)]
#[derive(Drop)]
pub struct Complex {
    pub subject: Compound,
    pub left: Option<Box<Left>>,
}

/// A combinator, and what is to the left of it.
#[cycle(selector)]
#[derive(Drop)]
pub struct Left {
    pub combinator: Combinator,
    pub rest: Complex,
}

/// The tests that one element passes. The universal selector has none.
#[cycle(selector)]
#[derive(Drop)]
pub struct Compound {
    pub tests: Vec<Test>,
}

/// A test of one element.
#[cycle(selector)]
#[derive(Drop)]
pub enum Test {
    Simple(Simple),
    /// `:is(..)`
    Is(Vec<Complex>),
    /// `:where(..)`
    Where(Vec<Complex>),
    /// `:not(..)`
    Not(Vec<Complex>),
}

impl Complex {
    /// A compound alone. It takes no memory.
    pub fn alone(tests: Vec<Test>) -> Complex
        ensures { complex_of result ≡ model.subject (tested (map test_of tests.items)) }
    {
        Complex {
            subject: Compound { tests },
            left: None,
        }
    }

    /// A compound with `rest` to the left of it.
    pub fn combined(
        alloc: Global,
        tests: Vec<Test>,
        combinator: Combinator,
        rest: Complex,
    ) -> Result<Complex, NoMemory>
        ensures { IfOk result (λ c. complex_of c
            ≡ model.combined (tested (map test_of tests.items)) (combinator_of combinator) (complex_of rest)) }
    {
        let left = Box::new(alloc, Left { combinator, rest })?;
        Ok(Complex {
            subject: Compound { tests },
            left: Some(left),
        })
    }
}
