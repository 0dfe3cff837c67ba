//! The piece that a text begins with, by the productions of the grammar (css-syntax-3, section 4.3).

ghost use Rattle.std.specs.Prelude.{◌≡◌, ◌+◌, ◌<◌, ◌≤◌, ◌==◌, ◌^◌, ℕ, length, drop, false};
ghost use Rattle.std.specs.List.{prefix_len};
ghost use Rattle.syntax_model.specs.Letters as letters;
ghost use Rattle.syntax_model.specs.Pieces as model;
ghost use Rattle.syntax_model.specs.TextUnits.{len_of, said_of};
ghost use Rattle.css_tokens.specs.Scanned.{first_len, first_tokens, found_tokens, piece_of};
ghost use Rattle.css_tokens.specs.View.{kind_of};

use crate::TokenKind;
use crate::letters::is_blank;
use crate::number::number;
use crate::production::{Production, production_at, starts_ident};
use crate::run::{Said, run_len, scan_run};
use crate::scan::Scan;
use crate::text_unit::Grammar;
use crate::url::{is_url, scan_url};

/// The piece that a text begins with.
pub(crate) fn scan(text: &[char]) -> Scan
    requires { 0 < length text.now }
    ensures tokens { (start : ℕ) → found_tokens start result ≡ first_tokens start text.now }
    ensures len { result.len ≡ first_len text.now }
    ensures some { 0 < result.len }
    ensures inside { result.len ≤ length text.now }
{
    scan_first(text)
}

/// The same, by the production that fits.
fn scan_first(text: &[char]) -> Scan
    requires { 0 < length text.now }
    ensures tokens { (start : ℕ) → found_tokens start result ≡ first_tokens start text.now }
    ensures len { result.len ≡ first_len text.now }
{
    let Some((first, rest)) = text.split_first() else {
        unreachable!()
    };
    match production_at(*first, rest, text) {
        Production::Comment => Scan::comment(comment_len(rest)),
        Production::White => Scan::plain(TokenKind::Whitespace, blank_len(text)),
        Production::String => scan_string(*first, rest),
        Production::Hash => scan_named(
            TokenKind::Hash {
                is_id: starts_ident(rest),
            },
            rest,
        ),
        Production::Number => scan_number(text),
        Production::Cdc => Scan::plain(TokenKind::Cdc, 3),
        Production::Cdo => Scan::plain(TokenKind::Cdo, 4),
        Production::At => scan_named(TokenKind::AtKeyword, rest),
        Production::Ident => scan_ident(text),
        Production::Mark => Scan::plain(mark_kind(*first), 1),
    }
}

/// The length of a comment, by what follows its `/`.
fn comment_len(rest: &[char]) -> usize
    requires { 0 < length rest.now }
    ensures { result ≡ 2 + model.comment_len (drop 1 rest.now) }
{
    let (_, text) = rest.split_at(1);
    let taken = run_len(Grammar::Comment, text);
    let (_, end) = text.split_at(taken);
    if end.is_empty() { 2 + taken } else { 4 + taken }
}

/// How many whitespace characters the text begins with.
pub(crate) fn blank_len(text: &[char]) -> usize
    ensures value { result ≡ prefix_len letters.is_blank text.now }
    ensures inside { result ≤ length text.now }
{
    text.iter().take_while(|c| is_blank(**c)).count()
}

/// `#` or `@`, and a name.
fn scan_named(kind: TokenKind, rest: &[char]) -> Scan
    requires fits { 1 + length rest.now < 2 ^ 64 }
    ensures piece { piece_of result
        ≡ model.named (kind_of kind) (model.name_in rest.now) (1 + model.name_len rest.now) }
    ensures token { result.is_comment ≡ false }
{
    let run = scan_run(Grammar::Name, rest);
    Scan::named(kind, run.said, 1 + run.len)
}

/// A string, by what follows its first quote.
fn scan_string(quote: char, text: &[char]) -> Scan
    requires fits { 2 + length text.now < 2 ^ 64 }
    ensures piece { piece_of result ≡ model.string_piece quote text.now }
    ensures token { result.is_comment ≡ false }
{
    let run = scan_run(Grammar::String { quote }, text);
    let (_, rest) = text.split_at(run.len);
    if next_is(rest, '\n') {
        Scan::plain(TokenKind::BadString, 1 + run.len)
    } else {
        let len = 1 + run.len + usize::from(next_is(rest, quote));
        Scan::named(TokenKind::String, run.said, len)
    }
}

/// Whether this character is next.
pub(crate) fn next_is(text: &[char], c: char) -> bool
    ensures { result ≡ letters.begins (λ d. d == c) text.now }
{
    match text {
        [first, ..] => *first == c,
        [] => false,
    }
}

/// A number, a percentage or a dimension.
fn scan_number(text: &[char]) -> Scan
    ensures piece { piece_of result ≡ model.number_piece text.now }
    ensures token { result.is_comment ≡ false }
{
    let number = number(text);
    let (spelling, rest) = text.split_at(number.len);
    let is_integer = number.is_integer;
    if next_is(rest, '%') {
        let none = Said::Plain(&[]);
        Scan::numeric(TokenKind::Percentage, spelling, none, number.len + 1)
    } else if starts_ident(rest) {
        let unit = scan_run(Grammar::Name, rest);
        let len = number.len + unit.len;
        Scan::numeric(
            TokenKind::Dimension { is_integer },
            spelling,
            unit.said,
            len,
        )
    } else {
        let none = Said::Plain(&[]);
        Scan::numeric(TokenKind::Number { is_integer }, spelling, none, number.len)
    }
}

/// An identifier, a function or a url.
fn scan_ident(text: &[char]) -> Scan
    ensures piece { piece_of result ≡ model.ident_piece text.now }
    ensures token { result.is_comment ≡ false }
{
    let run = scan_run(Grammar::Name, text);
    let (_, after) = text.split_at(run.len);
    match after.split_first() {
        Some(('(', rest)) if is_url(text, rest) => scan_url(run.len + 1, rest),
        Some(('(', _)) => Scan::named(TokenKind::Function, run.said, run.len + 1),
        _ => Scan::named(TokenKind::Ident, run.said, run.len),
    }
}

/// The kind of a character that is a token alone.
fn mark_kind(c: char) -> TokenKind
    ensures { kind_of result ≡ model.mark_kind c }
{
    match c {
        ',' => TokenKind::Comma,
        ':' => TokenKind::Colon,
        ';' => TokenKind::Semicolon,
        '(' => TokenKind::OpenRound,
        ')' => TokenKind::CloseRound,
        '[' => TokenKind::OpenSquare,
        ']' => TokenKind::CloseSquare,
        '{' => TokenKind::OpenCurly,
        '}' => TokenKind::CloseCurly,
        _ => TokenKind::Delim(c),
    }
}
