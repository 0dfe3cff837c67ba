//! Lists of selectors.

ghost use Rattle.std.specs.Prelude.{◌≡◌, IfOk, map, option_map};
ghost use Rattle.selector_types.specs.ComplexView.{complex_of};
ghost use Rattle.selector_types.specs.View.{selector_of};
ghost use Rattle.sheet_model.specs.SelectorsIn.{selectors_in};

use crate::nested::strict;
use css_tokens::Token;
use selector_types::{Complex, Selector};
use std::alloc::Global;
use stylo_base::NoMemory;

/// How deep lists may be nested.
const LIST_LIMIT: u32 = 16;

/// Reads the tokens as a list of selectors with commas between them. None: they are no such list.
pub fn selector_list(alloc: Global, tokens: &[Token]) -> Result<Option<Vec<Selector>>, NoMemory>
    ensures { IfOk result (λ found.
        option_map (λ list. map selector_of list.items) found ≡ selectors_in tokens.now) }
{
    let Some(members) = members(alloc, tokens)? else {
        return Ok(None);
    };
    Ok(Some(selectors(alloc, members)?))
}

/// The members of the list. None: one is no selector.
#[tactic(auto, unfolding(sheet_model::specs::SelectorsIn::selectors_in))]
fn members(alloc: Global, tokens: &[Token]) -> Result<Option<Vec<Complex>>, NoMemory>
    ensures { IfOk result (λ found.
        option_map (λ list. map complex_of list.items) found ≡ selectors_in tokens.now) }
{
    strict(alloc, LIST_LIMIT, tokens)
}

/// The members as selectors of a rule, each with its key and how specific it is.
fn selectors(alloc: Global, members: Vec<Complex>) -> Result<Vec<Selector>, NoMemory>
    ensures { IfOk result (λ list. map selector_of list.items ≡ map complex_of members.items) }
{
    let mut list = Vec::with_capacity(alloc, members.len())?;
    for member in members {
        list.push(Selector::new(alloc, member)?)?;
    }
    Ok(list)
}
