//! The attributes of a node, with names in place of texts.

ghost use Rattle.std.specs.Prelude.{◌≡◌, ◌<◌, ◌≤◌, IfOk, OnErr, OnOk, length, nat_lt};
ghost use Rattle.std.specs.List.{AllByRecursion, prefix_len};
ghost use Rattle.dom_tree.specs.View.{attributes_of};
ghost use Rattle.stylo_base.specs.NameList.{StandOnce};
ghost use Rattle.dom_tree.specs.Kept.{AreAttrs, IsNamed, KeepsTexts, named_attributes, put_row, without_row};

use crate::node_columns::AttrRow;
use crate::nodes::Attr;
use stylo_base::{Name, Names, NoMemory};

/// Puts the attributes of a node into `run`, sorted by name. Of attributes with the same name the
/// first counts.
pub(crate) fn name_attrs(
    names: &mut Names,
    run: &mut Vec<AttrRow>,
    attrs: &[Attr],
) -> Result<(), NoMemory>
    ensures map { OnOk result (named_attributes names.new run.new.items ≡ attributes_of attrs.now) }
    ensures rows { OnOk result (AreAttrs names.new run.new.items) }
    ensures kept { KeepsTexts names.old names.new }
    ensures once { OnErr result (StandOnce names.new) }
{
    run.clear();
    for attr in attrs.iter().rev() {
        let name = names.intern(attr.name)?;
        let value = names.intern(attr.value)?;
        put(run, name, value)?;
    }
    Ok(())
}

/// Puts the attributes of these rows, which name texts of `from`, into `run`, sorted by name.
pub(crate) fn rename_attrs(
    names: &mut Names,
    run: &mut Vec<AttrRow>,
    from: &Names,
    rows: &[AttrRow],
) -> Result<(), NoMemory>
    requires named { AllByRecursion (IsNamed from.now) rows.now }
    requires once { StandOnce names.old }
    ensures map { OnOk result (named_attributes names.new run.new.items ≡ named_attributes from.now rows.now) }
    ensures rows { OnOk result (AreAttrs names.new run.new.items) }
    ensures kept { KeepsTexts names.old names.new }
    ensures once { StandOnce names.new }
{
    run.clear();
    for row in rows.iter().rev() {
        let name = names.intern(from.text(row.name))?;
        let value = names.intern(from.text(row.value))?;
        put(run, name, value)?;
    }
    Ok(())
}

/// Leaves out the row of a name, if there is one.
pub(crate) fn take_out(rows: &mut Vec<AttrRow>, name: Name)
    ensures { rows.new.items ≡ without_row name rows.old.items }
{
    rows.retain(|row| row.name != name);
}

/// Gives a name a value among rows that are sorted by name.
pub(crate) fn put(rows: &mut Vec<AttrRow>, name: Name, value: Name) -> Result<(), NoMemory>
    ensures ok { OnOk result (rows.new.items ≡ put_row name value rows.old.items) }
{
    let place = place_of(rows, name);
    if place < rows.len() && rows[place].name == name {
        rows[place].value = value;
    } else {
        rows.insert(place, AttrRow { name, value })?;
    }
    Ok(())
}

/// How many rows are before those with this name or a later one.
fn place_of(rows: &[AttrRow], name: Name) -> usize
    ensures place { result ≡ prefix_len (λ row. nat_lt row.name name) rows.now }
    ensures bound { result ≤ length rows.now }
{
    let mut place = 0;
    while place < rows.len() && rows[place].name < name {
        place += 1;
    }
    place
}
