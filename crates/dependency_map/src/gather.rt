//! The dependencies of a selector, from its subject to the left, out through nested lists (selectors-4,
//! sections 4 and 16: `:is`, `:not` and `:where` are no simple tests here, what stands in them is).

ghost use Rattle.std.specs.Prelude.{◌≡◌, ◌++◌, ◌∷◌, [], IfOk, OnOk};
ghost use Rattle.edit_model.specs.Dependencies.{dependencies, dependencies_of, forwards, of_combinator, of_compound as model_of_compound, of_selectors, of_test as model_of_test};
ghost use Rattle.selector_types.specs.ComplexView.{combinator_of, complex_of, complexes_of, compound_of, test_of};
ghost use Rattle.selector_types.specs.View.{selector_of};
ghost use Rattle.dependency_map.specs.DepView.{deps_of, part_of, path_of};

use crate::dep::{Dep, Part, PathStep};
use selector_types::{Combinator, Complex, Compound, Selector, Test};
use std::alloc::Global;
use stylo_base::NoMemory;

/// The dependencies of a selector: those of its subject first, each compound's before what stands to
/// its left.
pub fn deps<'a>(alloc: Global, selector: &'a Selector) -> Result<Vec<Dep<'a>>, NoMemory>
    ensures { IfOk result (λ deps. deps_of deps.items ≡ dependencies (selector_of selector.now)) }
{
    let mut deps = Vec::new(alloc);
    of_complex(alloc, selector.complex(), &[], &mut deps)?;
    Ok(deps)
}

/// Appends those of a complex selector that leads on by `path`.
#[cycle(deps)]
fn of_complex<'a>(
    alloc: Global,
    complex: &'a Complex,
    path: &[PathStep],
    deps: &mut Vec<Dep<'a>>,
) -> Result<(), NoMemory>
    ensures { OnOk result (deps_of deps.new.items
        ≡ deps_of deps.old.items ++ dependencies_of (complex_of complex.now) (path_of path.now)) }
{
    of_compound(alloc, &complex.subject, path, deps)?;
    let Some(left) = &complex.left else {
        return Ok(());
    };
    push_combinator(alloc, left.combinator, path, deps)?;
    let longer = lengthened(alloc, left.combinator, path)?;
    of_complex(alloc, &left.rest, &longer, deps)
}

/// Appends those of the tests of a compound.
#[cycle(deps)]
fn of_compound<'a>(
    alloc: Global,
    compound: &'a Compound,
    path: &[PathStep],
    deps: &mut Vec<Dep<'a>>,
) -> Result<(), NoMemory>
    ensures { OnOk result (deps_of deps.new.items
        ≡ deps_of deps.old.items ++ model_of_compound (compound_of compound.now) (path_of path.now)) }
{
    for test in &compound.tests {
        of_test(alloc, test, path, deps)?;
    }
    Ok(())
}

/// Appends that of a simple test, or those of the list in `:is`, `:where` or `:not`.
#[cycle(deps)]
fn of_test<'a>(
    alloc: Global,
    test: &'a Test,
    path: &[PathStep],
    deps: &mut Vec<Dep<'a>>,
) -> Result<(), NoMemory>
    ensures { OnOk result (deps_of deps.new.items
        ≡ deps_of deps.old.items ++ model_of_test (test_of test.now) (path_of path.now)) }
{
    match test {
        Test::Simple(simple) => push(alloc, Part::Tested(simple), path, deps),
        Test::Is(list) | Test::Where(list) | Test::Not(list) => of_list(alloc, list, path, deps),
    }
}

/// Appends those of each selector of a list.
#[cycle(deps)]
fn of_list<'a>(
    alloc: Global,
    list: &'a [Complex],
    path: &[PathStep],
    deps: &mut Vec<Dep<'a>>,
) -> Result<(), NoMemory>
    ensures { OnOk result (deps_of deps.new.items
        ≡ deps_of deps.old.items ++ of_selectors (complexes_of list.now) (path_of path.now)) }
{
    for complex in list {
        of_complex(alloc, complex, path, deps)?;
    }
    Ok(())
}

/// Appends that of a combinator, if it is one between siblings. Whether an element is a child or a
/// descendant of another changes with no edit that leaves both in place.
fn push_combinator<'a>(
    alloc: Global,
    combinator: Combinator,
    path: &[PathStep],
    deps: &mut Vec<Dep<'a>>,
) -> Result<(), NoMemory>
    ensures { OnOk result (deps_of deps.new.items
        ≡ deps_of deps.old.items ++ of_combinator (combinator_of combinator) (path_of path.now)) }
{
    match combinator {
        Combinator::Descendant | Combinator::Child => Ok(()),
        Combinator::NextSibling | Combinator::LaterSibling => push(alloc, Part::Beside, path, deps),
    }
}

/// Appends a dependency with a copy of the path.
fn push<'a>(
    alloc: Global,
    part: Part<'a>,
    path: &[PathStep],
    deps: &mut Vec<Dep<'a>>,
) -> Result<(), NoMemory>
    ensures { OnOk result (deps_of deps.new.items
        ≡ deps_of deps.old.items ++ record { part = part_of part.entry; path = path_of path.now } ∷ []) }
{
    let path = Vec::from_slice(alloc, path)?;
    deps.push(Dep { part, path })?;
    Ok(())
}

/// The path with the step over a combinator in front.
fn lengthened(
    alloc: Global,
    combinator: Combinator,
    path: &[PathStep],
) -> Result<Vec<PathStep>, NoMemory>
    ensures { IfOk result (λ longer. path_of longer.items ≡ forwards (combinator_of combinator) ∷ path_of path.now) }
{
    let mut longer = Vec::with_capacity(alloc, path.len())?;
    longer.push(PathStep::Forwards(combinator))?;
    longer.extend_from_slice(path)?;
    Ok(longer)
}
