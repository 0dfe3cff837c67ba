//! A restyle that is not the first.

ghost use Rattle.std.specs.Prelude.{◌≡◌, IfOk, map};
ghost use Rattle.session_model.specs.Walk.{results};
ghost use Rattle.style_session.specs.Answers.{styled_seen};
ghost use Rattle.style_session.specs.Lent.{FitsInputs, lent};

use crate::derived::StyleCache;
use crate::lists::Lists;
use crate::styled::{NewStyles, Styled};
use crate::walk::restyled;
use io_edges::Gate;
use std::alloc::Global;
use stylo_base::NoMemory;

/// All that a restyle makes: the elements that it cascades, with their new styles.
pub(crate) fn restyle<G: Gate>(
    lists: &Lists<'_>,
    cache: &mut StyleCache,
    gate: &G,
) -> Result<NewStyles, NoMemory>
    requires { FitsInputs lists.now.inputs.now cache.old }
    ensures styled { IfOk result (λ news. map styled_seen news.styled.items ≡ results (lent lists.now)) }
    ensures fits { FitsInputs lists.now.inputs.now cache.new }
{
    let styled = restyled(lists, cache, gate)?;
    let numbers = numbers_of(lists.inputs.alloc, &styled)?;
    Ok(NewStyles { styled, numbers })
}

/// The numbers of elements.
fn numbers_of(alloc: Global, list: &[Styled]) -> Result<Vec<u32>, NoMemory>
    ensures { IfOk result (λ numbers. numbers.items ≡ map (λ one. one.number) list.now) }
{
    let mut numbers = Vec::with_capacity(alloc, list.len())?;
    for one in list {
        numbers.push(one.number)?;
    }
    Ok(numbers)
}
