//! What an `@layer` gives.

ghost use Rattle.std.specs.Prelude.{◌≡◌, ◌++◌, IfOk, OnOk};
ghost use Rattle.syntax_model.specs.SheetRules.{counted};
ghost use Rattle.css_rules.specs.Parser.{layers_of};
ghost use Rattle.css_rules.specs.View.{context_of};
ghost use Rattle.css_rules.specs.Walk.{ended_rules};

use crate::Context;
use crate::layer_names::{is_anonymous, layers_declared};
use crate::rule_parser::Head;
use css_tokens::Token;
use std::alloc::Global;
use std::collections::VecDeque;
use stylo_base::NoMemory;

/// Counts an `@layer` if it has no name.
pub(crate) fn counted(count: u32, prelude: &[Token]) -> Result<u32, NoMemory>
    ensures { IfOk result (λ more. more ≡ counted count prelude.now) }
{
    if is_anonymous(prelude) {
        count.checked_add(1).ok_or(NoMemory)
    } else {
        Ok(count)
    }
}

/// Appends the layers that an `@layer` without a block declares.
pub(crate) fn declare(
    alloc: Global,
    layers: &mut VecDeque<Context>,
    context: &Context,
    prelude: &[Token],
) -> Result<(), NoMemory>
    ensures { OnOk result (layers_of layers.new.items ≡ layers_of layers.old.items
        ++ ended_rules Head.Layer (context_of context.now) prelude.now) }
{
    if let Some(declared) = layers_declared(alloc, context, prelude)? {
        for layer in declared {
            layers.push_back(layer)?;
        }
    }
    Ok(())
}
