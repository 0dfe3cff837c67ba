//! Equality of texts, ignoring ASCII case.

ghost use Rattle.std.specs.Prelude.{◌≡◌, ◌↔◌, IsTrue};
ghost use Rattle.std.specs.Str.{chars};
ghost use Rattle.base_model.specs.Text.{ascii_lower, same_text};

/// Whether two texts have the same characters, where an ASCII letter is the same in either case.
/// It takes no memory.
pub fn eq_ascii_case(a: &str, b: &str) -> bool
    ensures value { result ≡ same_text (ascii_lower (chars a.now)) (ascii_lower (chars b.now)) }
    ensures same { IsTrue result ↔ (ascii_lower (chars a.now) ≡ ascii_lower (chars b.now)) }
{
    a.eq_ignore_ascii_case(b)
}
