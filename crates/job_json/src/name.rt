//! Names: tags and the keys of attributes.

ghost use Rattle.std.specs.Prelude.{◌≡◌, option_map, option_and_then};
ghost use Rattle.std.specs.List.{list_all};
ghost use Rattle.std.specs.Str.{chars};
ghost use Rattle.job_json.specs.Words.{is_visible, is_name, name_said};

use stylo_base::limits::NAME_LIMIT;

/// The text where it is a name.
pub(crate) fn name_in<'a>(text: Option<&'a str>) -> Option<&'a str>
    ensures { option_map (λ t. chars t.now) result
        ≡ option_and_then name_said (option_map (λ t. t.now) text.entry) }
{
    let text = text?;
    if is_name(text) { Some(text) } else { None }
}

/// Whether the text is a name, as of a tag or of an attribute: of 1 to 256 bytes, without characters up to U+0020 and
/// without U+007F. It takes no memory.
pub fn is_name(text: &str) -> bool
    ensures { result ≡ is_name text.now }
{
    let bytes = text.as_bytes();
    !bytes.is_empty() && bytes.len() <= NAME_LIMIT && are_all_visible(bytes)
}

fn are_all_visible(bytes: &[u8]) -> bool
    ensures { result ≡ list_all is_visible bytes.now }
{
    bytes.iter().all(|byte| is_visible(*byte))
}

/// Whether the byte is neither a control character nor a space.
fn is_visible(byte: u8) -> bool
    ensures { result ≡ is_visible byte }
{
    byte > b' ' && byte != 127
}
