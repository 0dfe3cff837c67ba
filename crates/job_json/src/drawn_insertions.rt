//! The insertions of a generated job: each puts in one of a few lists of one node, which is made once.

ghost use Rattle.std.specs.Prelude.{◌≡◌, ◌<◌, ◌∷◌, [], IfOk};
ghost use Rattle.job_json.specs.Gen.{class_text, inserted_node};

use crate::draws::{tag_text, write_class};
use dom_edits::SharedNodes;
use dom_tree::{Attr, NodeInput, NodeList, States};
use std::alloc::Global;
use std::marker::Model;
use stylo_base::{NoMemory, Text};

/// How many tags and classes there are to choose from.
const TAGS: usize = 4;

const CLASSES: usize = 16;

/// The lists of one node that insertions put in, by tag and class. Contracts see nothing of it.
#[derive(Drop)]
pub(crate) struct Insertions {
    /// By the number of the tag and that of the class. None: it was not asked for yet.
    made: Vec<Option<SharedNodes>>,
}

impl Model for Insertions {
    ghost use Rattle.job_json.specs.Insertions.{AreInsertions};

    ghost Value = { Unit {0} };

    ghost view = { λ n. tt };

    ghost invariant = { λ n. AreInsertions n.made.items };
}

impl Insertions {
    /// None was made yet.
    pub(crate) fn new(alloc: Global) -> Result<Insertions, NoMemory> {
        let mut made = Vec::with_capacity(alloc, TAGS * CLASSES)?;
        for _place in 0..TAGS * CLASSES {
            made.push(None)?;
        }
        Ok(Insertions { made })
    }

    /// The list of one node with the tag and the class that two numbers choose.
    pub(crate) fn of(
        &mut self,
        alloc: Global,
        tag: u64,
        class: u64,
    ) -> Result<SharedNodes, NoMemory>
        requires tag { tag < 4 }
        requires class { class < 16 }
        ensures { IfOk result (λ nodes. nodes ≡ inserted_node tag class ∷ []) }
    {
        let place = tag as usize * CLASSES + class as usize;
        if let Some(nodes) = &self.made[place] {
            return nodes.share();
        }
        let nodes = one_node(alloc, tag, class)?;
        let shared = nodes.share()?;
        self.made[place] = Some(nodes);
        Ok(shared)
    }
}

/// Makes the list of one node with the tag and the class that two numbers choose.
fn one_node(alloc: Global, tag: u64, class: u64) -> Result<SharedNodes, NoMemory>
    ensures { IfOk result (λ nodes. nodes ≡ inserted_node tag class ∷ []) }
{
    let class = class_text(alloc, class)?;
    let attrs = [Attr {
        name: "class",
        value: class.as_str(),
    }];
    let node = NodeInput {
        tag: tag_text(tag),
        attrs: &attrs,
        states: States::default(),
    };
    SharedNodes::of(alloc, NodeList::of_root(alloc, node)?)
}

/// The class that a number below 16 chooses.
pub(crate) fn class_text(alloc: Global, k: u64) -> Result<Text, NoMemory>
    ensures { IfOk result (λ text. text ≡ class_text k) }
{
    let mut text = Text::new(alloc);
    write_class(&mut text, k)?;
    Ok(text)
}
