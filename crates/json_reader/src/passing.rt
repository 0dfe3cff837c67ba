//! Passing over a value of any shape.

ghost use Rattle.std.specs.Prelude.{◌≡◌, ◌∷◌, ◌<◌, ◌≤◌, length, None, OnOk, OnErr};
ghost use Rattle.json.specs.Reads.{token_of};
ghost use Rattle.serde_json.specs.Data.{no_members};
ghost use Rattle.json_reader.specs.Taken.{taken, items_taken, members_taken, IsTaken, AreTaken};

use crate::number::is_number_in_range;
use json::{Invalid, Reader, Token};

/// Passes over a value. Arrays and objects may nest `depth` deep in it.
#[cycle(pass)]
#[inline(always)]
pub fn pass(reader: &mut Reader<'_>, depth: usize) -> Result<(), Invalid>
    ensures ok { OnOk result (IsTaken (taken depth reader.old) reader.new) }
    ensures shorter { OnOk result (length reader.new < length reader.old) }
    ensures err { OnErr result (taken depth reader.old ≡ None) }
{
    let token = reader.next().ok_or(Invalid)?;
    pass_after(token, reader, depth)
}

/// Passes over the rest of the value that begins with a token.
#[cycle(pass)]
#[inline(always)]
#[tactic(auto, using(crate::proofs::First::no_values))]
pub(crate) fn pass_after(
    token: Token<'_>,
    reader: &mut Reader<'_>,
    depth: usize,
) -> Result<(), Invalid>
    ensures ok { OnOk result (IsTaken (taken depth (token_of token.entry ∷ reader.old)) reader.new) }
    ensures shorter { OnOk result (length reader.new ≤ length reader.old) }
    ensures err { OnErr result (taken depth (token_of token.entry ∷ reader.old) ≡ None) }
{
    match token {
        Token::String(_) | Token::Bool(_) | Token::Null => Ok(()),
        Token::Number(text) => {
            if !is_number_in_range(text) {
                return Err(Invalid);
            }
            Ok(())
        }
        Token::EndObject | Token::EndArray | Token::Key(_) | Token::Bad => Err(Invalid),
        Token::BeginArray => {
            if depth == 0 {
                return Err(Invalid);
            }
            pass_items(reader, depth - 1)
        }
        Token::BeginObject => {
            if depth == 0 {
                return Err(Invalid);
            }
            pass_members(reader, depth - 1)
        }
    }
}

#[cycle(pass)]
#[inline(never)]
fn pass_items(reader: &mut Reader<'_>, depth: usize) -> Result<(), Invalid>
    ensures ok { OnOk result (AreTaken (items_taken depth (length reader.old) reader.old) reader.new) }
    ensures shorter { OnOk result (length reader.new < length reader.old) }
    ensures err { OnErr result (items_taken depth (length reader.old) reader.old ≡ None) }
{
    // The proof calls the loop by this label.
    'items: while !reader.take_end_array() {
        pass(reader, depth)?;
    }
    Ok(())
}

#[cycle(pass)]
#[inline(never)]
fn pass_members(reader: &mut Reader<'_>, depth: usize) -> Result<(), Invalid>
    ensures ok { OnOk result
        (AreTaken (members_taken depth no_members (length reader.old) reader.old) reader.new) }
    ensures shorter { OnOk result (length reader.new < length reader.old) }
    ensures err { OnErr result
        (members_taken depth no_members (length reader.old) reader.old ≡ None) }
{
    // The proof calls the loop by this label.
    'members: while let Some(_key) = reader.next_key()? {
        pass(reader, depth)?;
    }
    Ok(())
}
