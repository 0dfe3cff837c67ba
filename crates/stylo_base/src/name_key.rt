//! The keys of names.

ghost use Rattle.std.specs.Prelude.{◌≡◌, encode_utf8_all};
ghost use Rattle.std.specs.Str.{chars};
ghost use Rattle.stylo_base.specs.NameKey.{key_of, with_byte};

/// The key once a byte is read.
fn with_byte(key: u64, byte: u8) -> u64
    ensures { result ≡ with_byte key byte }
{
    key.wrapping_mul(31).wrapping_add(u64::from(byte))
}

/// The key of a text: the number by which names are compared first. Two texts with one key are mostly
/// one text, and two texts with two keys never are.
#[tactic(auto, unfolding(crate::specs::NameKey::key_of))]
pub fn key_of_text(text: &str) -> u64
    ensures bytes { result ≡ key_of text.now }
    ensures characters { result ≡ key_of (encode_utf8_all (chars text.now)) }
{
    text.as_bytes()
        .iter()
        .fold(0, |key, byte| with_byte(key, *byte))
}
