//! The tokens of a text.

ghost use Rattle.std.specs.Prelude.{◌≡◌, IfOk, IsTrue};
ghost use Rattle.std.specs.Str.{chars};
ghost use Rattle.syntax_model.specs.Preprocess.{is_preprocessed};
ghost use Rattle.syntax_model.specs.TokensIn.{tokens_in};

use crate::{Token, TokenReader};
use std::alloc::Global;
use stylo_base::NoMemory;

/// The tokens of a text that `preprocess` gave (css-syntax-3, section 4).
pub fn tokens(alloc: Global, text: &str) -> Result<Vec<Token>, NoMemory>
    requires { IsTrue (is_preprocessed (chars text.now)) }
    ensures { IfOk result (λ list. list.items ≡ tokens_in (chars text.now)) }
{
    let mut reader = TokenReader::new(alloc, text)?;
    let mut list = Vec::new(alloc);
    while reader.append(alloc, &mut list)?.is_some() {}
    Ok(list)
}
