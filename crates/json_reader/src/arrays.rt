//! Arrays.

ghost use Rattle.std.specs.Prelude.{◌≡◌, ◌++◌, ◌∷◌, [], ◌<◌, List, length, true, Some, None, IfOk, OnOk, OnErr};
ghost use Rattle.json.specs.Reads.{token_of};
ghost use Rattle.serde_json.specs.Data.{Data};
ghost use Rattle.serde_json.specs.Find.{as_array};
ghost use Rattle.serde_json.specs.View.{items_of};
ghost use Rattle.json_reader.specs.Taken.{taken, items_taken};
ghost use Rattle.json_reader.specs.Kept.{KeepsItems};
ghost use Rattle.json_reader.specs.Parts.{opens_array};

use crate::passing::pass_after;
use crate::stop::Stop;
use json::{Invalid, Reader, Token};

/// What is kept of the items of an array.
pub trait KeepItems<'a> {
    /// That this is kept of these items.
    ghost keeps: { Self → List Data → Type 0 };

    /// Takes the value of the next item.
    fn item(&mut self, reader: &mut Reader<'a>, depth: usize) -> Result<(), Stop>
        ensures ok { OnOk result ((d : Data) × (taken depth reader.old ≡ Some (d, reader.new))
            × ((ds : List Data) → keeps self.old ds → keeps self.new (ds ++ d ∷ []))) }
        ensures shorter { OnOk result (length reader.new < length reader.old) }
        ensures err { result ≡ Err Stop.NotJson → taken depth reader.old ≡ None };
}

/// Takes a value: whether it is an array. Then its items were kept, one after another.
pub fn array<'a, K: KeepItems<'a>>(
    reader: &mut Reader<'a>,
    depth: usize,
    kept: &mut K,
) -> Result<bool, Stop>
    requires { K.keeps kept.old [] }
    ensures ok { IfOk result (λ is. (d : Data) × (taken depth reader.old ≡ Some (d, reader.new))
        × KeepsItems K.keeps kept.new (as_array d) is) }
    ensures shorter { OnOk result (length reader.new < length reader.old) }
    ensures err { result ≡ Err Stop.NotJson → taken depth reader.old ≡ None }
{
    let token = reader.next().ok_or(Invalid)?;
    if !opens(token, depth) {
        pass_after(token, reader, depth)?;
        return Ok(false);
    }
    items(reader, depth - 1, kept)?;
    Ok(true)
}

/// Whether the token begins an array that may be there.
#[inline(always)]
fn opens(token: Token<'_>, depth: usize) -> bool
    ensures { result ≡ opens_array depth (token_of token.entry) }
{
    matches!(token, Token::BeginArray) && depth > 0
}

/// Takes the items of an array, up to its end.
fn items<'a, K: KeepItems<'a>>(
    reader: &mut Reader<'a>,
    depth: usize,
    kept: &mut K,
) -> Result<(), Stop>
    requires { K.keeps kept.old [] }
    ensures ok { OnOk result ((ds : List Data)
        × (items_taken depth (length reader.old) reader.old ≡ Some (items_of ds, reader.new))
        × K.keeps kept.new ds) }
    ensures shorter { OnOk result (length reader.new < length reader.old) }
    ensures err { result ≡ Err Stop.NotJson
        → items_taken depth (length reader.old) reader.old ≡ None }
{
    // The proof calls the loop by this label.
    'items: while !reader.take_end_array() {
        kept.item(reader, depth)?;
    }
    Ok(())
}
