//! The lists in `:is`, `:where` and `:not`.

ghost use Rattle.std.specs.Prelude.{◌≡◌, ◌++◌, IfOk, OnOk, map, option_map, option_to_list};
ghost use Rattle.std.specs.List.{filter_map};
ghost use Rattle.selector_types.specs.ComplexView.{complex_of};
ghost use Rattle.sheet_model.specs.SelectorsIn.{complex_in, reader_of, strict};
ghost use Rattle.syntax_model.specs.TokenKinds.{is_comma};
ghost use Rattle.syntax_model.specs.Outside.{parts_between};

use crate::complex::complex;
use css_tokens::{CommaSeparated, Token};
use selector_types::Complex;
use std::alloc::Global;
use stylo_base::NoMemory;

/// The members that are selectors, in which lists may be nested so deep.
#[cycle(selector)]
pub(crate) fn forgiving(
    alloc: Global,
    depth: u32,
    tokens: &[Token],
) -> Result<Vec<Complex>, NoMemory>
    ensures { IfOk result (λ list. map complex_of list.items
        ≡ filter_map (complex_in (reader_of depth)) (parts_between is_comma tokens.now)) }
{
    let mut parts = CommaSeparated::new(tokens);
    let mut list = Vec::new(alloc);
    // The proof calls the loop by this label.
    'members: while let Some(part) = parts.next(alloc)? {
        let member = complex(alloc, depth, part)?;
        add(&mut list, member)?;
    }
    list.shrink_to_fit();
    Ok(list)
}

/// Adds a member, if there is one.
fn add(list: &mut Vec<Complex>, member: Option<Complex>) -> Result<(), NoMemory>
    ensures { OnOk result (list.new.items ≡ list.old.items ++ option_to_list member) }
{
    if let Some(member) = member {
        list.push(member)?;
    }
    Ok(())
}

/// The members, in which lists may be nested so deep. None: one is no selector.
#[cycle(selector)]
pub(crate) fn strict(
    alloc: Global,
    depth: u32,
    tokens: &[Token],
) -> Result<Option<Vec<Complex>>, NoMemory>
    ensures { IfOk result (λ found. option_map (λ list. map complex_of list.items) found
        ≡ strict (complex_in (reader_of depth)) tokens.now) }
{
    let mut parts = CommaSeparated::new(tokens);
    let mut list = Vec::new(alloc);
    // The proof calls the loop by this label.
    'members: while let Some(part) = parts.next(alloc)? {
        let Some(member) = complex(alloc, depth, part)? else {
            return Ok(None);
        };
        list.push(member)?;
    }
    Ok(Some(list))
}
