//! The cascade.

use cascade_core::{CascadePriority, HeldDeclaration, Matched, cascade};
use css_tokens::Wide;
use layer_order::Origin;
use property_table::{Keyword, PropId, Value, initial_size};
use shorthands::{Declared, Given, Short, Target};
use std::alloc::Global;
use std::test::Fail;
use style_value::Style;
use stylo_base::{NoMemory, Specificity};

fn declared(target: Target, given: Given) -> Declared {
    Declared {
        target,
        given,
        important: false,
    }
}

/// a declaration of `display`
fn display(keyword: Keyword) -> Declared {
    let given = Given::Exactly(Value::Keyword(keyword));
    declared(Target::Longhand(PropId::Display), given)
}

/// what a rule with the selector `*` in an author's sheet declares, in the layer of this rank
fn by_rule(declared: &Declared, layer: u32) -> Matched<'_> {
    Matched {
        declared: HeldDeclaration::Lent(declared),
        priority: CascadePriority {
            origin: Origin::Author,
            attached: false,
            layer,
            specificity: Specificity::new(0, 0, 0),
            sheet: 1,
            position: 0,
            index: 0,
        },
    }
}

/// the style by these declarations, over initial values
fn styled(alloc: Global, matched: &[Matched<'_>]) -> Result<Style, NoMemory> {
    let parent = Style::initial(alloc)?;
    cascade(alloc, matched, &[], &parent, initial_size(), true)
}

fn of_the_layer_below(alloc: Global) -> Result<Style, NoMemory> {
    let (none, flex) = (display(Keyword::None), display(Keyword::Flex));
    let back = declared(
        Target::Shorthand(Short::All),
        Given::Wide(Wide::RevertLayer),
    );
    styled(
        alloc,
        &[by_rule(&none, 0), by_rule(&flex, 1), by_rule(&back, 2)],
    )
}

#[test]
fn rolled_back(rt: HostRuntime) -> Result<(), Fail> {
    let style = of_the_layer_below(rt.alloc())?;
    assert_eq!(rt; style.text(), "display: flex");
    Ok(())
}
