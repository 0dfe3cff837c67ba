//! At-rules among declarations.

ghost use Rattle.std.specs.Prelude.{◌≡◌, [], IfOk, OnOk};
ghost use Rattle.syntax_model.specs.Brackets.{open_past};
ghost use Rattle.syntax_model.specs.RulesIn.{after_at_rule, ends_at_rule};

use css_tokens::{Cursor, OpenBrackets, Token};
use std::alloc::Global;
use stylo_base::NoMemory;

/// Consumes an at-rule, of which the at-keyword was consumed.
pub(crate) fn skip_at_rule(alloc: Global, left: &mut Cursor) -> Result<(), NoMemory>
    ensures { OnOk result (left.new ≡ after_at_rule [] left.old) }
{
    let mut brackets = OpenBrackets::new(alloc);
    while let Some(token) = left.next() {
        if passes_end(&mut brackets, token)? {
            break;
        }
    }
    Ok(())
}

/// Goes past a token of an at-rule, and says whether the at-rule ends with it.
fn passes_end(brackets: &mut OpenBrackets, token: &Token) -> Result<bool, NoMemory>
    ensures ends { IfOk result (λ ends. ends ≡ ends_at_rule brackets.old token.now) }
    ensures brackets { OnOk result (brackets.new ≡ open_past brackets.old token.now) }
{
    let outside = brackets.is_empty();
    brackets.pass(token)?;
    if outside {
        Ok(token.is_semicolon())
    } else {
        Ok(token.is_close_curly() && brackets.is_empty())
    }
}
