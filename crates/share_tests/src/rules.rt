//! Which rules let a share serve.

use css_tokens::{preprocess, tokens};
use selector_parser::selector_list;
use selector_types::Selector;
use std::alloc::Global;
use std::test::Fail;
use style_sharing::{Share, lets_share};
use stylo_base::NoMemory;

/// The selectors of a rule.
fn selectors_of(alloc: Global, text: &str) -> Result<Vec<Selector>, NoMemory> {
    let text = preprocess(alloc, text)?;
    let list = tokens(alloc, text.as_str())?;
    selector_list(alloc, list.as_slice())?.ok_or(NoMemory)
}

/// Whether a share serves where `b, c` and this are the rules.
fn serves(alloc: Global, text: &str) -> Result<bool, NoMemory> {
    let rules = vec![in alloc; selectors_of(alloc, "b, c")?, selectors_of(alloc, text)?]?;
    let share = Share::start(alloc, 1, &rules)?;
    Ok(lets_share(&rules) && share.may_serve())
}

#[test]
fn that_ask_for_siblings(rt: HostRuntime) -> Result<(), Fail> {
    for text in [
        "p + i",
        ":not(:empty)",
        "i:only-child",
        ":where(:not(a ~ b)) c",
    ] {
        let may = serves(rt.alloc(), text)?;
        assert!(rt; !may);
    }
    Ok(())
}

#[test]
fn that_ask_for_none(rt: HostRuntime) -> Result<(), Fail> {
    for text in [":root > p", "[k]", "p:hover", ":not(.a) b"] {
        let may = serves(rt.alloc(), text)?;
        assert!(rt; may);
    }
    Ok(())
}
