//! The words of an attribute's value, as the class attribute and `[a~=v]` ask for them.

ghost use Rattle.std.specs.Prelude.{◌≡◌};
ghost use Rattle.std.specs.Str.{chars};
ghost use Rattle.scene_model.specs.Words.{has_word as is_word};

/// Whether `word` is one of the words of `text`: the pieces between ASCII whitespace characters that
/// are not empty. It takes no memory.
pub fn has_word(word: &str, text: &str) -> bool
    ensures { result ≡ is_word (chars word.now) (chars text.now) }
{
    for piece in text.split_ascii_whitespace() {
        if word == piece {
            return true;
        }
    }
    false
}
