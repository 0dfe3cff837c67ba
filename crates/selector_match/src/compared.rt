//! How the values of attributes are compared (selectors-4, section 6).
//!
//! Texts are compared by their bytes in UTF-8, in place.

ghost use Rattle.std.specs.Prelude.{◌≡◌, ◌∷◌, ◌++◌, ◌||◌, []};
ghost use Rattle.std.specs.Str.{chars};
ghost use Rattle.base_model.specs.Ascii.{hyphen};
ghost use Rattle.base_model.specs.Text.{ascii_lower, same_text};
ghost use Rattle.scene_model.specs.Words.{has_word as model_has_word};
ghost use Rattle.selector_model.specs.Comparisons as model;
ghost use Rattle.selector_model.specs.Comparisons.{folded};
ghost use Rattle.selector_types.specs.SimpleView.{operator_of};

use crate::two_way::find_ignoring_case;
use memchr::memmem;
use selector_types::AttributeOperator;
use stylo_base::eq_ascii_case;

/// Whether the value of an attribute compares with `part`, ignoring ASCII case unless it counts.
pub(crate) fn compared(
    value: &str,
    operator: AttributeOperator,
    part: &str,
    case_counts: bool,
) -> bool
    ensures { result
        ≡ model.compared (operator_of operator)
        (folded case_counts (chars value.now)) (folded case_counts (chars part.now)) }
{
    let (text, bytes) = (value.as_bytes(), part.as_bytes());
    match operator {
        AttributeOperator::Equals => is_same(text, bytes, case_counts),
        AttributeOperator::Includes => has_word(value, part, case_counts),
        AttributeOperator::DashMatch => dash_matches(text, bytes, case_counts),
        AttributeOperator::Prefix => !bytes.is_empty() && begins_with(text, bytes, case_counts),
        AttributeOperator::Suffix => !bytes.is_empty() && ends_with(text, bytes, case_counts),
        AttributeOperator::Substring => !bytes.is_empty() && has_part(text, bytes, case_counts),
    }
}

fn is_same(text: &[u8], other: &[u8], case_counts: bool) -> bool
    ensures { result ≡ same_text (folded case_counts text.now) (folded case_counts other.now) }
{
    if case_counts {
        text == other
    } else {
        text.eq_ignore_ascii_case(other)
    }
}

fn begins_with(text: &[u8], part: &[u8], case_counts: bool) -> bool
    ensures { result ≡ model.begins_with (folded case_counts text.now) (folded case_counts part.now) }
{
    part.len() <= text.len() && is_same(&text[..part.len()], part, case_counts)
}

fn ends_with(text: &[u8], part: &[u8], case_counts: bool) -> bool
    ensures { result ≡ model.ends_with (folded case_counts text.now) (folded case_counts part.now) }
{
    part.len() <= text.len() && is_same(&text[text.len() - part.len()..], part, case_counts)
}

fn has_part(text: &[u8], part: &[u8], case_counts: bool) -> bool
    ensures { result ≡ model.has_part (folded case_counts text.now) (folded case_counts part.now) }
{
    if case_counts {
        memmem::find(text, part).is_some()
    } else {
        find_ignoring_case(text, part).is_some()
    }
}

/// Whether the text is the part, or begins with it and `-`.
fn dash_matches(text: &[u8], part: &[u8], case_counts: bool) -> bool
    ensures { let whole = folded case_counts text.now in let front = folded case_counts part.now in
        result ≡ (same_text whole front || model.begins_with whole (front ++ hyphen ∷ [])) }
{
    begins_with(text, part, case_counts) && (text.len() == part.len() || text[part.len()] == b'-')
}

fn has_word(text: &str, word: &str, case_counts: bool) -> bool
    ensures { result ≡ model_has_word (folded case_counts (chars word.now)) (folded case_counts (chars text.now)) }
{
    if case_counts {
        dom_tree::has_word(word, text)
    } else {
        has_word_ignoring_case(text, word)
    }
}

/// Whether `word` is one of the words of `text`, ignoring ASCII case.
fn has_word_ignoring_case(text: &str, word: &str) -> bool
    ensures { result ≡ model_has_word (ascii_lower (chars word.now)) (ascii_lower (chars text.now)) }
{
    for piece in text.split_ascii_whitespace() {
        if eq_ascii_case(word, piece) {
            return true;
        }
    }
    false
}
