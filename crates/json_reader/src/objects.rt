//! Objects.

ghost use Rattle.std.specs.Prelude.{◌≡◌, ◌∷◌, ◌<◌, length, true, Some, None, IfOk, OnOk, OnErr};
ghost use Rattle.json.specs.Reads.{token_of};
ghost use Rattle.serde_json.specs.Data.{Data, Members, no_members, put};
ghost use Rattle.serde_json.specs.Find.{as_object};
ghost use Rattle.json_reader.specs.Taken.{taken, members_taken};
ghost use Rattle.json_reader.specs.Kept.{KeepsMembers};
ghost use Rattle.json_reader.specs.Parts.{opens_object};

use crate::passing::pass_after;
use crate::stop::Stop;
use json::{Invalid, Reader, Token};

/// What is kept of the members of an object.
pub trait KeepMembers<'a> {
    /// That this is kept of these members.
    ghost keeps: { Self → Members → Type 0 };

    /// Takes the value of a member with this key. It counts in place of an earlier one.
    fn member(&mut self, key: &'a str, reader: &mut Reader<'a>, depth: usize) -> Result<(), Stop>
        ensures ok { OnOk result ((d : Data) × (taken depth reader.old ≡ Some (d, reader.new))
            × ((ms : Members) → keeps self.old ms → keeps self.new (put key.now d ms))) }
        ensures shorter { OnOk result (length reader.new < length reader.old) }
        ensures err { result ≡ Err Stop.NotJson → taken depth reader.old ≡ None };
}

/// Takes a value: whether it is an object. Then its members were kept, one after another.
pub fn object<'a, K: KeepMembers<'a>>(
    reader: &mut Reader<'a>,
    depth: usize,
    kept: &mut K,
) -> Result<bool, Stop>
    requires { K.keeps kept.old no_members }
    ensures ok { IfOk result (λ is. (d : Data) × (taken depth reader.old ≡ Some (d, reader.new))
        × KeepsMembers K.keeps kept.new (as_object d) is) }
    ensures shorter { OnOk result (length reader.new < length reader.old) }
    ensures err { result ≡ Err Stop.NotJson → taken depth reader.old ≡ None }
{
    let token = reader.next().ok_or(Invalid)?;
    if !opens(token, depth) {
        pass_after(token, reader, depth)?;
        return Ok(false);
    }
    members(reader, depth - 1, kept)?;
    Ok(true)
}

/// Whether the token begins an object that may be there.
#[inline(always)]
fn opens(token: Token<'_>, depth: usize) -> bool
    ensures { result ≡ opens_object depth (token_of token.entry) }
{
    matches!(token, Token::BeginObject) && depth > 0
}

/// Takes the members of an object, up to its end.
fn members<'a, K: KeepMembers<'a>>(
    reader: &mut Reader<'a>,
    depth: usize,
    kept: &mut K,
) -> Result<(), Stop>
    requires { K.keeps kept.old no_members }
    ensures ok { OnOk result ((ms : Members)
        × (members_taken depth no_members (length reader.old) reader.old ≡ Some (ms, reader.new))
        × K.keeps kept.new ms) }
    ensures shorter { OnOk result (length reader.new < length reader.old) }
    ensures err { result ≡ Err Stop.NotJson
        → members_taken depth no_members (length reader.old) reader.old ≡ None }
{
    // The proof calls the loop by this label.
    'members: while let Some(key) = reader.next_key()? {
        kept.member(key, reader, depth)?;
    }
    Ok(())
}
