//! The batches of a generated job.

ghost use Rattle.std.specs.Prelude.{◌≡◌, ◌<◌, ◌≤◌, IfOk, OnOk};
ghost use Rattle.job_json.specs.Gen.{drawn_insert, drawn_by, drawn_edit, drawn_batch, drawn_batches};

use crate::batch_list::BatchList;
use crate::drawn_insertions::{Insertions, class_text};
use crate::draws::draw;
use dom_edits::{DocEdit, Edit, NewNodes};
use rand_xoshiro::SplitMix64;
use std::alloc::Global;
use stylo_base::{NoMemory, State, Text};

/// How many edits a batch has.
const EDITS: u32 = 4;

/// Draws so many batches of edits, for a document that has so many nodes at first.
pub(crate) fn draw_batches(
    alloc: Global,
    rng: &mut SplitMix64,
    nodes: u32,
    batches: u32,
) -> Result<BatchList, NoMemory>
    requires { 1 ≤ nodes }
    ensures { IfOk result (λ list. list ≡ (drawn_batches nodes batches rng.old).0) }
{
    let mut insertions = Insertions::new(alloc)?;
    let mut list = Vec::with_capacity(alloc, batches as usize)?;
    for _place in 0..batches {
        list.push(draw_batch(alloc, rng, &mut insertions, nodes)?)?;
    }
    Ok(BatchList::of_vec(list))
}

/// Draws a batch.
pub(crate) fn draw_batch(
    alloc: Global,
    rng: &mut SplitMix64,
    insertions: &mut Insertions,
    nodes: u32,
) -> Result<Vec<Edit>, NoMemory>
    requires { 1 ≤ nodes }
    ensures batch { IfOk result (λ batch. batch.items ≡ (drawn_batch nodes rng.old).0) }
    ensures state { OnOk result (rng.new ≡ (drawn_batch nodes rng.old).1) }
{
    let mut batch = Vec::with_capacity(alloc, EDITS as usize)?;
    for _place in 0..EDITS {
        batch.push(draw_edit(alloc, rng, insertions, nodes)?)?;
    }
    Ok(batch)
}

/// Draws an edit.
fn draw_edit(
    alloc: Global,
    rng: &mut SplitMix64,
    insertions: &mut Insertions,
    nodes: u32,
) -> Result<Edit, NoMemory>
    requires { 1 ≤ nodes }
    ensures edit { IfOk result (λ edit. edit ≡ (drawn_edit nodes rng.old).0) }
    ensures state { OnOk result (rng.new ≡ (drawn_edit nodes rng.old).1) }
{
    let which = draw(rng, 4);
    let node = 1 + draw(rng, u64::from(nodes));
    let edit = draw_by(alloc, rng, insertions, which, node)?;
    Ok(Edit::Document(edit))
}

/// Draws what the edit of an element needs that a number below 4 chooses.
fn draw_by(
    alloc: Global,
    rng: &mut SplitMix64,
    insertions: &mut Insertions,
    which: u64,
    node: u64,
) -> Result<DocEdit, NoMemory>
    ensures edit { IfOk result (λ edit. edit ≡ (drawn_by which node rng.old).0) }
    ensures state { OnOk result (rng.new ≡ (drawn_by which node rng.old).1) }
{
    match which {
        0 => Ok(DocEdit::Set {
            node,
            name: Text::of_str(alloc, "class")?,
            value: class_text(alloc, draw(rng, 16))?,
        }),
        1 => Ok(DocEdit::State {
            node,
            state: State::Hover,
            on: draw(rng, 2) == 1,
        }),
        2 => draw_insert(alloc, rng, insertions, node),
        _ => Ok(DocEdit::Remove { node }),
    }
}

/// Draws the insertion of one node in an element.
fn draw_insert(
    alloc: Global,
    rng: &mut SplitMix64,
    insertions: &mut Insertions,
    parent: u64,
) -> Result<DocEdit, NoMemory>
    ensures edit { IfOk result (λ edit. edit ≡ (drawn_insert parent rng.old).0) }
    ensures state { OnOk result (rng.new ≡ (drawn_insert parent rng.old).1) }
{
    let tag = draw(rng, 4);
    let class = draw(rng, 16);
    Ok(DocEdit::Insert {
        parent,
        index: 0,
        nodes: NewNodes::Kept(insertions.of(alloc, tag, class)?),
    })
}
