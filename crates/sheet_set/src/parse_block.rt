//! The declarations that are kept: of a rule's block, and of a `style` attribute.

ghost use Rattle.std.specs.Prelude.{◌≡◌, IfOk, flat_map};
ghost use Rattle.std.specs.Str.{chars};
ghost use Rattle.sheet_model.specs.Declared.{block_declared, style_declared};
ghost use Rattle.shorthands.specs.View.{declared_of};

use crate::declared::add_declared;
use css_rules::declaration_list;
use css_tokens::{Token, preprocess, tokens};
use shorthands::Declared;
use std::alloc::Global;
use stylo_base::NoMemory;

/// The declarations of a block that are kept, in its order. What a declaration gives alike to each
/// property of a shorthand is one entry: a CSS-wide keyword, or a value with `var()`.
pub(crate) fn parse_block(alloc: Global, block: &[Token]) -> Result<Vec<Declared>, NoMemory>
    ensures { IfOk result (λ kept. flat_map declared_of kept.items ≡ block_declared block.now) }
{
    let declarations = declaration_list(alloc, block)?;
    let mut kept = Vec::new(alloc);
    for declaration in &declarations {
        add_declared(alloc, &mut kept, declaration)?;
    }
    Ok(kept)
}

/// The declarations of the text of a `style` attribute that are kept, in its order
/// (css-style-attr, section 3). The text is as it is before it is preprocessed.
pub fn parse_style(alloc: Global, text: &str) -> Result<Vec<Declared>, NoMemory>
    ensures { IfOk result (λ kept. flat_map declared_of kept.items ≡ style_declared (chars text.now)) }
{
    let text = preprocess(alloc, text)?;
    let list = tokens(alloc, text.as_str())?;
    let kept = parse_block(alloc, list.as_slice())?;
    Ok(kept)
}
