//! Urls (css-syntax-3, sections 4.3.4, 4.3.6 and 4.3.14).

ghost use Rattle.std.specs.Prelude.{◌≡◌, ◌∷◌, MatchOption, ◌+◌, ◌<◌, ◌≤◌, ◌^◌, ◌&&◌, length, drop, false, not, codes};
ghost use Rattle.base_model.specs.Text.{Characters, is_word};
ghost use Rattle.syntax_model.specs.Pieces as model;
ghost use Rattle.syntax_model.specs.TextUnits.{len_of, one_if, remnant_unit};
ghost use Rattle.css_tokens.specs.Scanned.{piece_of};

use crate::TokenKind;
use crate::letters::is_quote;
use crate::pieces::{blank_len, next_is};
use crate::run::{run_len, scan_run};
use crate::scan::Scan;
use crate::text_unit::{Grammar, TextUnit};

/// Whether a url starts here: the name is `url`, ignoring ASCII case, and no quote follows the `(`.
pub(crate) fn is_url(text: &[char], rest: &[char]) -> bool
    ensures { result ≡ (is_word (codes "url") (model.name_in text.now) && not (model.quote_follows rest.now)) }
{
    is_named_url(text) && !quote_follows(rest)
}

/// Whether the name that the text begins with is `url`, ignoring ASCII case.
fn is_named_url(text: &[char]) -> bool
    ensures { result ≡ is_word (codes "url") (model.name_in text.now) }
{
    let Some(text) = after_letter('u', text) else {
        return false;
    };
    let Some(text) = after_letter('r', text) else {
        return false;
    };
    let Some(text) = after_letter('l', text) else {
        return false;
    };
    Grammar::Name.unit(text).taken == 0
}

/// What follows a letter, ignoring ASCII case, if the name begins with it.
fn after_letter(letter: char, text: &[char]) -> Option<&[char]>
    ensures { MatchOption result
        ((word : Characters) → is_word (letter ∷ word) (model.name_in text.now) ≡ false)
        (λ rest. (word : Characters)
        → is_word (letter ∷ word) (model.name_in text.now) ≡ is_word word (model.name_in rest.now)) }
{
    let TextUnit { taken, said } = Grammar::Name.unit(text);
    if said?.to_ascii_lowercase() != letter {
        return None;
    }
    let (_, rest) = text.split_at(taken);
    Some(rest)
}

/// Whether a quote follows, after whitespace.
fn quote_follows(text: &[char]) -> bool
    ensures { result ≡ model.quote_follows text.now }
{
    let (_, rest) = text.split_at(blank_len(text));
    match rest {
        [first, ..] => is_quote(*first),
        [] => false,
    }
}

/// A url or a bad url, by how many characters come before what follows the `(`.
pub(crate) fn scan_url(before: usize, text: &[char]) -> Scan
    requires fits { before + length text.now < 2 ^ 64 }
    ensures piece { piece_of result ≡ model.url_piece before text.now }
    ensures token { result.is_comment ≡ false }
{
    let blank = blank_len(text);
    let (_, body) = text.split_at(blank);
    let run = scan_run(Grammar::Url, body);
    let (_, after) = body.split_at(run.len);
    let white = blank_len(after);
    let (_, rest) = after.split_at(white);
    let read = before + blank + run.len + white;
    if rest.is_empty() || next_is(rest, ')') {
        let len = read + usize::from(next_is(rest, ')'));
        Scan::named(TokenKind::Url, run.said, len)
    } else {
        Scan::plain(TokenKind::BadUrl, read + bad_len(rest))
    }
}

/// How many characters what is left of a bad url has.
fn bad_len(text: &[char]) -> usize
    ensures value { let taken = len_of remnant_unit text.now in
        result ≡ taken + one_if model.is_closing (drop taken text.now) }
    ensures inside { result ≤ length text.now }
{
    let taken = run_len(Grammar::Remnants, text);
    let (_, rest) = text.split_at(taken);
    taken + usize::from(next_is(rest, ')'))
}
