//! The classes of characters (css-syntax-3, section 4.2).

ghost use Rattle.std.specs.Prelude.{◌≡◌};
ghost use Rattle.syntax_model.specs.Letters as model;
ghost use Rattle.syntax_model.specs.Numbers.{is_minus};

/// Line feed, tab or space.
pub fn is_blank(c: char) -> bool
    ensures { result ≡ model.is_blank c }
{
    matches!(c, '\n' | '\t' | ' ')
}

/// A character that a name may begin with: a letter, `_`, or any from U+0080.
pub fn is_name_start(c: char) -> bool
    ensures { result ≡ model.is_name_start c }
{
    c.is_ascii_alphabetic() || c == '_' || c >= '\u{80}'
}

/// A character that may be in a name: one of these, a digit or `-`.
pub fn is_name_char(c: char) -> bool
    ensures { result ≡ model.is_name_char c }
{
    is_name_start(c) || c.is_ascii_digit() || c == '-'
}

/// `0` to `9`.
pub fn is_digit(c: char) -> bool
    ensures { result ≡ model.is_digit c }
{
    c.is_ascii_digit()
}

/// `0` to `9`, `a` to `f` or `A` to `F`.
pub fn is_hex_digit(c: char) -> bool
    ensures { result ≡ model.is_hex_digit c }
{
    c.is_ascii_hexdigit()
}

/// `"` or `'`.
pub fn is_quote(c: char) -> bool
    ensures { result ≡ model.is_quote c }
{
    matches!(c, '"' | '\'')
}

/// `+` or `-`.
pub fn is_sign(c: char) -> bool
    ensures { result ≡ model.is_sign c }
{
    matches!(c, '+' | '-')
}

/// Whether `-` is first.
pub fn is_minus(text: &[char]) -> bool
    ensures { result ≡ is_minus text.now }
{
    matches!(text, ['-', ..])
}

/// `e` or `E`.
pub fn is_e(c: char) -> bool
    ensures { result ≡ model.is_e c }
{
    matches!(c, 'e' | 'E')
}

/// A control character that no url may hold.
pub fn is_non_printable(c: char) -> bool
    ensures { result ≡ model.is_non_printable c }
{
    matches!(c, '\u{1}'..='\u{8}' | '\u{b}' | '\u{e}'..='\u{1f}' | '\u{7f}')
}
