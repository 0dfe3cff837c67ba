//! The productions of the grammar of tokens.

ghost use Rattle.std.specs.Prelude.{◌≡◌, ◌∷◌, ◌==◌, ◌||◌};
ghost use Rattle.base_model.specs.Ascii.{hyphen};
ghost use Rattle.syntax_model.specs.Letters.{begins, is_name_start};
ghost use Rattle.syntax_model.specs.Pieces as model;
ghost use Rattle.syntax_model.specs.TextUnits as units;
ghost use Rattle.css_tokens.specs.Scanned.{is_lone, production_of};

use crate::escape::starts_escape;
use crate::letters::{is_blank, is_name_char, is_name_start, is_quote};
use crate::number::starts_number;

/// A production of the grammar, in the order in which they are tried.
#[derive(Clone, Copy)]
pub enum Production {
    Comment,
    White,
    String,
    Hash,
    Number,
    Cdc,
    Cdo,
    At,
    /// An identifier, a function or a url.
    Ident,
    /// One character.
    Mark,
}

/// The production of the piece that a text begins with: the first that fits. Mostly the first
/// character tells.
pub fn production_at(first: char, rest: &[char], text: &[char]) -> Production
    requires { text.now ≡ first ∷ rest.now }
    ensures { production_of result ≡ model.production_at text.now }
{
    if is_name_start(first) {
        Production::Ident
    } else if is_blank(first) {
        Production::White
    } else if is_lone(first) {
        Production::Mark
    } else {
        first_fitting(first, rest, text)
    }
}

/// Whether the character is a token alone, whatever is after it.
fn is_lone(c: char) -> bool
    ensures { result ≡ is_lone c }
{
    matches!(c, ',' | ':' | ';' | '(' | ')' | '[' | ']' | '{' | '}')
}

/// The same, by each test in turn.
fn first_fitting(first: char, rest: &[char], text: &[char]) -> Production
    requires { text.now ≡ first ∷ rest.now }
    ensures { production_of result ≡ model.production_at text.now }
{
    if starts_comment(text) {
        Production::Comment
    } else if is_blank(first) {
        Production::White
    } else if is_quote(first) {
        Production::String
    } else if first == '#' && starts_name(rest) {
        Production::Hash
    } else if starts_number(text) {
        Production::Number
    } else if starts_cdc(text) {
        Production::Cdc
    } else if starts_cdo(text) {
        Production::Cdo
    } else if first == '@' && starts_ident(rest) {
        Production::At
    } else if starts_ident(text) {
        Production::Ident
    } else {
        Production::Mark
    }
}

/// Whether `/*` is next.
pub(crate) fn starts_comment(text: &[char]) -> bool
    ensures { result ≡ model.starts_comment text.now }
{
    matches!(text, ['/', '*', ..])
}

/// Whether `-->` is next.
fn starts_cdc(text: &[char]) -> bool
    ensures { result ≡ model.starts_cdc text.now }
{
    matches!(text, ['-', '-', '>', ..])
}

/// Whether `<!--` is next.
fn starts_cdo(text: &[char]) -> bool
    ensures { result ≡ model.starts_cdo text.now }
{
    matches!(text, ['<', '!', '-', '-', ..])
}

/// Whether a character of a name or an escape is next.
fn starts_name(text: &[char]) -> bool
    ensures { result ≡ model.starts_name text.now }
{
    match text {
        [first, ..] if is_name_char(*first) => true,
        _ => starts_escape(text),
    }
}

/// Whether an identifier starts here.
pub(crate) fn starts_ident(text: &[char]) -> bool
    ensures { result ≡ model.starts_ident text.now }
{
    match text.split_first() {
        Some(('-', rest)) => starts_after_hyphen(rest),
        Some((first, _)) => is_name_start(*first) || starts_escape(text),
        None => false,
    }
}

/// Whether an identifier that begins with `-` goes on here.
fn starts_after_hyphen(text: &[char]) -> bool
    ensures { result ≡ (begins (λ d. is_name_start d || (d == hyphen)) text.now || units.starts_escape text.now) }
{
    match text {
        [first, ..] if *first == '-' || is_name_start(*first) => true,
        _ => starts_escape(text),
    }
}
