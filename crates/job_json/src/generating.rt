//! The job that a number makes.

ghost use Rattle.std.specs.Prelude.{◌≡◌, ◌≤◌, ◌∷◌, [], length, IfOk, OnOk};
ghost use Rattle.base_model.specs.Limits.{element_limit, sheet_limit, batch_limit};
ghost use Rattle.job_json.specs.Gen.{drawn_batch, drawn_nodes, generated, the_sheet};

use crate::Job;
use crate::drawn_edits::{draw_batch, draw_batches};
use crate::drawn_insertions::Insertions;
use crate::drawn_nodes::draw_nodes;
use crate::sheet_list::SheetList;
use dom_edits::Edit;
use dom_tree::NodeList;
use layer_order::{Origin, SheetInput};
use rand_core::SeedableRng;
use rand_xoshiro::SplitMix64;
use std::alloc::Global;
use std::marker::Model;
use stylo_base::{NoMemory, Text};

/// The text of the one sheet.
const SHEET: &str = "p{color:red}.c1 .c2{color:blue}.c3>.c4{width:1em}.c5+.c6{height:2em}\
    .c7~.c8 i{margin:1px}:nth-child(3n+1){padding:2px}.c9:hover b{color:lime}\
    #n8{font-size:larger}u:empty{--k:1px}";

/// The job that a number makes: a document of so many nodes, one sheet, and so many batches of four edits each, all
/// drawn from the SplitMix64 generator that begins with that number.
#[tactic(auto, unfolding(crate::specs::Gen::generated))]
pub fn generate(alloc: Global, seed: u64, nodes: u32, batches: u32) -> Result<Job, NoMemory>
    requires nodes { 1 ≤ nodes }
    requires most { nodes ≤ element_limit }
    requires batches { batches ≤ batch_limit }
    ensures job { IfOk result (λ job. job ≡ generated seed nodes batches) }
    ensures fits { IfOk result (λ job. length job.nodes ≤ element_limit) }
    ensures few { IfOk result (λ job. length job.sheets ≤ sheet_limit) }
{
    let mut rng = SplitMix64::seed_from_u64(seed);
    let list = draw_nodes(alloc, &mut rng, nodes)?;
    let batches = draw_batches(alloc, &mut rng, nodes, batches)?;
    Ok(Job {
        nodes: list,
        sheets: one_sheet(alloc)?,
        batches,
    })
}

/// What the job that a number makes begins with. Its batches are drawn one by one.
#[derive(Drop)]
pub struct BegunJob {
    /// The document before any edit.
    pub nodes: NodeList,
    /// Its one style sheet.
    pub sheets: SheetList,
    /// Its batches, which are to be drawn.
    pub batches: BatchDraws,
}

/// What draws the batches of a generated job, one after another. Contracts see how many nodes the document has at
/// first, and the state of the generator.
#[derive(Drop)]
pub struct BatchDraws {
    nodes: u32,
    rng: SplitMix64,
    insertions: Insertions,
}

impl Model for BatchDraws {
    ghost use Rattle.std.specs.Prelude.{◌≤◌, ℕ};

    ghost Value = { ℕ × ℕ };

    ghost view = { λ b. (b.nodes, b.rng) };

    ghost invariant = { λ b. 1 ≤ b.nodes };
}

impl BatchDraws {
    /// Draws the next batch: four edits.
    pub fn next(&mut self, alloc: Global) -> Result<Vec<Edit>, NoMemory>
        ensures batch { IfOk result (λ batch. batch.items ≡ (drawn_batch self.old.0 self.old.1).0) }
        ensures state { OnOk result (self.new ≡ (self.old.0, (drawn_batch self.old.0 self.old.1).1)) }
    {
        draw_batch(alloc, &mut self.rng, &mut self.insertions, self.nodes)
    }
}

/// Begins the job that a number makes, as `generate` does. Its batches are drawn later, so that one is held at a time.
pub fn begin_generated(alloc: Global, seed: u64, nodes: u32) -> Result<BegunJob, NoMemory>
    requires nodes { 1 ≤ nodes }
    requires most { nodes ≤ element_limit }
    ensures nodes { IfOk result (λ begun. begun.nodes ≡ (drawn_nodes nodes seed).0) }
    ensures sheets { IfOk result (λ begun. begun.sheets ≡ the_sheet ∷ []) }
    ensures batches { IfOk result (λ begun. begun.batches ≡ (nodes, (drawn_nodes nodes seed).1)) }
    ensures fits { IfOk result (λ begun. length begun.nodes ≤ element_limit) }
    ensures few { IfOk result (λ begun. length begun.sheets ≤ sheet_limit) }
{
    let mut rng = SplitMix64::seed_from_u64(seed);
    let list = draw_nodes(alloc, &mut rng, nodes)?;
    Ok(BegunJob {
        nodes: list,
        sheets: one_sheet(alloc)?,
        batches: BatchDraws {
            nodes,
            rng,
            insertions: Insertions::new(alloc)?,
        },
    })
}

/// The list of the one sheet.
fn one_sheet(alloc: Global) -> Result<SheetList, NoMemory>
    ensures { IfOk result (λ sheets. sheets ≡ the_sheet ∷ []) }
{
    let sheet = SheetInput {
        origin: Origin::Author,
        enabled: true,
        text: Text::of_str(alloc, SHEET)?,
    };
    let mut list = Vec::new(alloc);
    list.push(sheet)?;
    Ok(SheetList::of_vec(list))
}
