//! What there is in a selector, the lists in it among it, found in one walk. It takes no memory.

ghost use Rattle.std.specs.Prelude.{◌≡◌, ◌+◌, ◌||◌, false, map};
ghost use Rattle.base_model.specs.Specificity.{nothing};
ghost use Rattle.selector_model.specs.Parts.{is_of_place, is_of_siblings};
ghost use Rattle.selector_model.specs.SpecificityOf.{specificity_of_simple};
ghost use Rattle.selector_types.specs.ComplexView.{combinator_of, complex_of, complexes_of, compound_of, test_of, tested};
ghost use Rattle.selector_types.specs.Measured.{IsOfCompound, IsOfList, IsOfSelector, IsOfTest, both, capped, capped_plus};
ghost use Rattle.selector_types.specs.SimpleView.{simple_of};

use crate::{Combinator, Complex, Compound, Simple, Specificity, Test};

/// How many tests and compounds there are, or `u64::MAX` where they are more; how specific they are; and
/// whether the place of an element among its siblings, or whether it has children, matters.
#[derive(Clone, Copy, Debug)]
pub struct Measure {
    pub tests: u64,
    pub compounds: u64,
    pub weight: Specificity,
    pub by_place: bool,
}

impl Measure {
    /// That of no test.
    fn empty() -> Measure
        ensures { result ≡ record { tests = 0; compounds = 0; weight = nothing; by_place = false } }
    {
        Measure {
            tests: 0,
            compounds: 0,
            weight: Specificity::new(0, 0, 0),
            by_place: false,
        }
    }

    /// Both together.
    fn plus(self, other: Measure) -> Measure
        ensures { result ≡ both self other }
    {
        Measure {
            tests: self.tests.saturating_add(other.tests),
            compounds: self.compounds.saturating_add(other.compounds),
            weight: plus(self.weight, other.weight),
            by_place: self.by_place || other.by_place,
        }
    }

    /// With one compound more.
    fn with_compound(self) -> Measure
        ensures { result ≡ record self { compounds = capped (self.compounds + 1) } }
    {
        Measure {
            compounds: self.compounds.saturating_add(1),
            ..self
        }
    }

    /// With a combinator more.
    fn with_combinator(self, combinator: Combinator) -> Measure
        ensures { result ≡ record self { by_place = self.by_place || is_of_siblings (combinator_of combinator) } }
    {
        Measure {
            by_place: self.by_place || is_of_siblings(combinator),
            ..self
        }
    }

    /// With this weight.
    fn weighing(self, weight: Specificity) -> Measure
        ensures { result ≡ record self { weight = weight } }
    {
        Measure { weight, ..self }
    }
}

/// The sum of two.
fn plus(a: Specificity, b: Specificity) -> Specificity
    ensures { result ≡ capped_plus a b }
{
    Specificity::new(
        a.ids().saturating_add(b.ids()),
        a.classes().saturating_add(b.classes()),
        a.types().saturating_add(b.types()),
    )
}

/// Whether it relates siblings.
fn is_of_siblings(combinator: Combinator) -> bool
    ensures { result ≡ is_of_siblings (combinator_of combinator) }
{
    matches!(
        combinator,
        Combinator::NextSibling | Combinator::LaterSibling
    )
}

/// Whether it tests an element's index among its siblings, or whether it has children.
fn is_of_place(test: &Simple) -> bool
    ensures { result ≡ is_of_place (simple_of test.now) }
{
    matches!(test, Simple::Empty | Simple::Nth(_) | Simple::Only { .. })
}

/// How specific a simple test is.
fn weight_of(test: &Simple) -> Specificity
    ensures { result ≡ specificity_of_simple (simple_of test.now) }
{
    match test {
        Simple::Type(_) => Specificity::new(0, 0, 1),
        Simple::Id(_) => Specificity::new(1, 0, 0),
        _ => Specificity::new(0, 1, 0),
    }
}

/// That of a simple test.
fn of_simple(test: &Simple) -> Measure
    ensures { result ≡ record {
      tests = 1;
      compounds = 0;
      weight = specificity_of_simple (simple_of test.now);
      by_place = is_of_place (simple_of test.now);
    } }
{
    Measure {
        tests: 1,
        compounds: 0,
        weight: weight_of(test),
        by_place: is_of_place(test),
    }
}

/// That of a selector.
#[cycle(measure)]
pub fn of_complex(complex: &Complex) -> Measure
    ensures { IsOfSelector result (complex_of complex.now) }
{
    let subject = of_compound(&complex.subject).with_compound();
    match &complex.left {
        None => subject,
        Some(left) => subject
            .plus(of_complex(&left.rest))
            .with_combinator(left.combinator),
    }
}

#[cycle(measure)]
fn of_compound(compound: &Compound) -> Measure
    ensures { IsOfCompound result (compound_of compound.now) }
{
    of_tests(&compound.tests)
}

/// That of the tests of a compound.
#[cycle(measure)]
pub fn of_tests(tests: &[Test]) -> Measure
    ensures { IsOfCompound result (tested (map test_of tests.now)) }
{
    let mut sum = Measure::empty();
    for test in tests {
        sum = sum.plus(of_test(test));
    }
    sum
}

#[cycle(measure)]
fn of_test(test: &Test) -> Measure
    ensures { IsOfTest result (test_of test.now) }
{
    match test {
        Test::Simple(simple) => of_simple(simple),
        Test::Is(list) | Test::Not(list) => of_list(list),
        Test::Where(list) => of_list(list).weighing(Specificity::new(0, 0, 0)),
    }
}

/// That of a list, of which the most specific member alone weighs.
#[cycle(measure)]
fn of_list(list: &[Complex]) -> Measure
    ensures { IsOfList result (complexes_of list.now) }
{
    let mut sum = Measure::empty();
    for complex in list {
        let member = of_complex(complex);
        let weight = sum.weight.greater(member.weight);
        sum = sum.plus(member).weighing(weight);
    }
    sum
}
