//! The units of which names, strings, urls and comments are made (css-syntax-3, section 4.3).

ghost use Rattle.std.specs.Prelude.{◌≡◌, ◌∷◌, ◌≤◌, Some, length};
ghost use Rattle.std.specs.List.{prefix_len};
ghost use Rattle.syntax_model.specs.TextUnits as model;
ghost use Rattle.css_tokens.specs.declared.text_unit.Grammar.TheVariants as variant;
ghost use Rattle.css_tokens.specs.Scanned.{is_plain, may_go_on, unit_by, unit_of};

use crate::escape::{escape, starts_escape};
use crate::letters::{is_blank, is_name_char, is_non_printable, is_quote};

/// How many characters a unit has, and the character that it says, if any.
#[derive(Clone, Copy)]
pub(crate) struct TextUnit {
    pub taken: usize,
    pub said: Option<char>,
}

/// What a run of units is a part of.
#[derive(Clone, Copy)]
pub(crate) enum Grammar {
    Name,
    /// A string in these quotes.
    String { quote: char },
    Url,
    /// What is left of a bad url.
    Remnants,
    Comment,
}

impl TextUnit {
    /// No unit: the run ends here.
    pub(crate) fn none() -> TextUnit
        ensures { unit_of result ≡ model.no_unit }
    {
        TextUnit {
            taken: 0,
            said: None,
        }
    }

    /// A unit that says a character.
    pub(crate) fn saying(taken: usize, said: char) -> TextUnit
        ensures { unit_of result ≡ record { taken = taken; said = Some said } }
    {
        TextUnit {
            taken,
            said: Some(said),
        }
    }

    /// A unit that says nothing.
    fn silent(taken: usize) -> TextUnit
        ensures { unit_of result ≡ model.silent taken }
    {
        TextUnit { taken, said: None }
    }
}

impl Grammar {
    /// The unit that the text begins with.
    pub(crate) fn unit(self, text: &[char]) -> TextUnit
        ensures value { unit_of result ≡ unit_by self text.now }
        ensures inside { result.taken ≤ length text.now }
    {
        let Some((first, rest)) = text.split_first() else {
            return TextUnit::none();
        };
        match self {
            Grammar::Name => name_unit(*first, rest, text),
            Grammar::String { quote } => string_unit(quote, *first, rest),
            Grammar::Url => url_unit(*first, rest, text),
            Grammar::Remnants => remnant_unit(*first, rest, text),
            Grammar::Comment => comment_unit(*first, rest),
        }
    }

    /// Whether the text may begin with a unit, though it begins with no character that is one alone.
    pub(crate) fn may_go_on(self, text: &[char]) -> bool
        ensures { result ≡ may_go_on self text.now }
    {
        match self {
            Grammar::Comment => matches!(text, ['*', ..]),
            _ => matches!(text, ['\\', ..]),
        }
    }

    /// How many characters the text begins with that are units alone, and say themselves, whatever
    /// is after them.
    pub(crate) fn plain_len(self, text: &[char]) -> usize
        ensures value { result ≡ prefix_len (is_plain self) text.now }
        ensures inside { result ≤ length text.now }
    {
        match self {
            Grammar::Name => text.iter().take_while(|c| is_name_char(**c)).count(),
            Grammar::String { quote } => plain_string_len(quote, text),
            Grammar::Url => text.iter().take_while(|c| !ends_url(**c)).count(),
            Grammar::Remnants => text
                .iter()
                .take_while(|c| !matches!(**c, ')' | '\\'))
                .count(),
            Grammar::Comment => text.iter().take_while(|c| **c != '*').count(),
        }
    }
}

/// The same in a string in these quotes.
fn plain_string_len(quote: char, text: &[char]) -> usize
    ensures value { result ≡ prefix_len (is_plain (variant.String quote)) text.now }
    ensures inside { result ≤ length text.now }
{
    text.iter()
        .take_while(|c| **c != quote && **c != '\n' && **c != '\\')
        .count()
}

/// A unit of a name.
fn name_unit(first: char, rest: &[char], text: &[char]) -> TextUnit
    requires { text.now ≡ first ∷ rest.now }
    ensures { unit_of result ≡ model.name_unit text.now }
{
    if is_name_char(first) {
        TextUnit::saying(1, first)
    } else if starts_escape(text) {
        escape(rest)
    } else {
        TextUnit::none()
    }
}

/// A unit of a string in these quotes.
fn string_unit(quote: char, first: char, rest: &[char]) -> TextUnit
    ensures { unit_of result ≡ model.string_unit quote (first ∷ rest.now) }
{
    if first == quote || first == '\n' {
        TextUnit::none()
    } else if first == '\\' {
        string_escape(rest)
    } else {
        TextUnit::saying(1, first)
    }
}

/// What follows a `\` in a string: a line feed or the end of input is dropped with it.
fn string_escape(text: &[char]) -> TextUnit
    ensures { unit_of result ≡ model.string_escape text.now }
{
    match text {
        [] => TextUnit::silent(1),
        ['\n', ..] => TextUnit::silent(2),
        _ => escape(text),
    }
}

/// A unit of a url.
fn url_unit(first: char, rest: &[char], text: &[char]) -> TextUnit
    requires { text.now ≡ first ∷ rest.now }
    ensures { unit_of result ≡ model.url_unit text.now }
{
    if starts_escape(text) {
        escape(rest)
    } else if ends_url(first) {
        TextUnit::none()
    } else {
        TextUnit::saying(1, first)
    }
}

/// Whether no url holds the character as it is.
fn ends_url(c: char) -> bool
    ensures { result ≡ model.ends_url c }
{
    c == ')' || is_blank(c) || is_quote(c) || c == '(' || is_non_printable(c) || c == '\\'
}

/// A unit of what is left of a bad url.
fn remnant_unit(first: char, rest: &[char], text: &[char]) -> TextUnit
    requires { text.now ≡ first ∷ rest.now }
    ensures { unit_of result ≡ model.remnant_unit text.now }
{
    if starts_escape(text) {
        escape(rest)
    } else if first == ')' {
        TextUnit::none()
    } else {
        TextUnit::saying(1, first)
    }
}

/// A unit of a comment.
fn comment_unit(first: char, rest: &[char]) -> TextUnit
    ensures { unit_of result ≡ model.comment_unit (first ∷ rest.now) }
{
    match rest {
        ['/', ..] if first == '*' => TextUnit::none(),
        _ => TextUnit::saying(1, first),
    }
}
