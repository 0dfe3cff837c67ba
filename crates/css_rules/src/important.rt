//! `!important` at the end of a value.

ghost use Rattle.std.specs.Prelude.{◌≡◌, option_map, reverse};
ghost use Rattle.syntax_model.specs.RulesIn.{before_important, before_mark, is_important_word};

use css_tokens::{Token, name_of, without_white_end};
use stylo_base::eq_ascii_case;

/// The tokens before `!`, whitespace and `important` at the end, if they are there.
pub(crate) fn before_important(tokens: &[Token]) -> Option<&[Token]>
    ensures { option_map (λ before. reverse before.now) result ≡ before_important (reverse tokens.now) }
{
    let (last, rest) = tokens.split_last()?;
    if !is_important_word(last) {
        return None;
    }
    before_mark(without_white_end(rest))
}

/// The tokens before `!` at the end, if it is there.
fn before_mark(tokens: &[Token]) -> Option<&[Token]>
    ensures { option_map (λ before. reverse before.now) result ≡ before_mark (reverse tokens.now) }
{
    let (last, rest) = tokens.split_last()?;
    if last.is_delim('!') { Some(rest) } else { None }
}

/// Whether it is `important`, ignoring ASCII case.
fn is_important_word(token: &Token) -> bool
    ensures { result ≡ is_important_word token.now }
{
    token.is_ident() && eq_ascii_case(name_of(token).as_str(), "important")
}
