//! Rules to make maps of.

use css_tokens::{preprocess, tokens};
use selector_parser::selector_list;
use selector_types::Selector;
use std::alloc::Global;
use stylo_base::NoMemory;

/// Reads a list of selectors.
pub(crate) fn selectors_of(alloc: Global, text: &str) -> Result<Vec<Selector>, NoMemory> {
    let text = preprocess(alloc, text)?;
    let list = tokens(alloc, text.as_str())?;
    selector_list(alloc, list.as_slice())?.ok_or(NoMemory)
}

/// A rule by each of these lists.
pub(crate) fn rules_of(alloc: Global, texts: &[&str]) -> Result<Vec<Vec<Selector>>, NoMemory> {
    let mut rules = Vec::with_capacity(alloc, texts.len())?;
    for text in texts {
        rules.push(selectors_of(alloc, text)?)?;
    }
    Ok(rules)
}
