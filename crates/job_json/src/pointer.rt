//! JSON pointers, made from their ends: only where a job is at fault.

ghost use Rattle.std.specs.Prelude.{◌≡◌, ◌++◌, [], IfOk, OnOk, decimal};
ghost use Rattle.std.specs.Str.{chars};
ghost use Rattle.job_json.specs.Checked.{below, escaped, escaped_one};

use std::alloc::Global;
use stylo_base::{NoMemory, Text};

/// The pointer to the member `key`, from its object.
pub(crate) fn to_member(alloc: Global, key: &str) -> Result<Text, NoMemory>
    ensures { IfOk result (λ path. path ≡ below (escaped (chars key.now)) []) }
{
    in_member(alloc, key, &Text::new(alloc))
}

/// The pointer to a place in the member `key`, from its object.
pub(crate) fn in_member(alloc: Global, key: &str, place: &Text) -> Result<Text, NoMemory>
    ensures { IfOk result (λ path. path ≡ below (escaped (chars key.now)) place.now) }
{
    let mut path = Text::of_str(alloc, "/")?;
    push_escaped(&mut path, key)?;
    path.push_text(place)?;
    Ok(path)
}

/// The pointer to a place in the item `index`, from its array.
pub(crate) fn in_item(alloc: Global, index: usize, place: &Text) -> Result<Text, NoMemory>
    ensures { IfOk result (λ path. path ≡ below (decimal index) place.now) }
{
    let mut path = Text::of_str(alloc, "/")?;
    path.push_number(index as u64)?;
    path.push_text(place)?;
    Ok(path)
}

/// Appends the key of a step, in which `~0` stands for `~` and `~1` for `/`.
fn push_escaped(text: &mut Text, key: &str) -> Result<(), NoMemory>
    ensures { OnOk result (text.new ≡ text.old ++ escaped (chars key.now)) }
{
    for c in key.chars() {
        push_one(text, c)?;
    }
    Ok(())
}

fn push_one(text: &mut Text, c: char) -> Result<(), NoMemory>
    ensures { OnOk result (text.new ≡ text.old ++ escaped_one c) }
{
    match c {
        '~' => text.push_str("~0"),
        '/' => text.push_str("~1"),
        _ => text.push_char(c),
    }
}
