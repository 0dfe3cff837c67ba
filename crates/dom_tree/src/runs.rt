//! The flat list of the attributes of nodes: another part for a node, and the list made anew.

ghost use Rattle.std.specs.Prelude.{◌≡◌, ◌<◌, ◌++◌, IfOk, OnErr, OnOk, length, vec_len};
ghost use Rattle.dom_tree.specs.Kept.{AreSameNodes, HaveParts, put_part};

use crate::node_columns::{AttrRow, NodeRow};
use crate::span::Span;
use std::alloc::Global;
use stylo_base::NoMemory;

/// Puts the attributes of a node into `run`.
pub(crate) fn read_run(run: &mut Vec<AttrRow>, part: &[AttrRow]) -> Result<(), NoMemory>
    ensures { OnOk result (run.new.items ≡ part.now) }
{
    run.clear();
    run.extend_from_slice(part)?;
    Ok(())
}

/// Appends the attributes of a node to the flat list, and gives its row that part.
pub(crate) fn give_run(
    rows: &mut Vec<NodeRow>,
    attrs: &mut Vec<AttrRow>,
    run: &[AttrRow],
    index: usize,
) -> Result<(), NoMemory>
    requires { index < vec_len rows.old }
    ensures list { OnOk result (attrs.new.items ≡ attrs.old.items ++ run.now) }
    ensures rows { OnOk result (rows.new.items
        ≡ put_part index (record { first = length attrs.old.items; count = length run.now }) rows.old.items) }
    ensures same_list { OnErr result (attrs.new.items ≡ attrs.old.items) }
    ensures same_rows { OnErr result (rows.new.items ≡ rows.old.items) }
{
    let span = Span::new(attrs.len(), run.len())?;
    attrs.extend_from_slice(run)?;
    rows[index].attrs = span;
    Ok(())
}

/// The rows of the same nodes, and a flat list of their attributes alone. There is room for `room`
/// attributes from the start.
pub(crate) fn packed(
    alloc: Global,
    rows: &[NodeRow],
    attrs: &[AttrRow],
    room: usize,
) -> Result<(Vec<NodeRow>, Vec<AttrRow>), NoMemory>
    requires { HaveParts attrs.now rows.now }
    ensures { IfOk result (λ made. AreSameNodes attrs.now rows.now made.1.items made.0.items) }
{
    let mut placed = Vec::with_capacity(alloc, rows.len())?;
    let mut list = Vec::with_capacity(alloc, room)?;
    for row in rows {
        let part = row.attrs.of(attrs);
        let span = Span::new(list.len(), part.len())?;
        list.extend_from_slice(part)?;
        placed.push(NodeRow {
            attrs: span,
            ..*row
        })?;
    }
    Ok((placed, list))
}
