//! A list of batches of edits.

ghost use Rattle.std.specs.Prelude.{◌≡◌, [], map};

use dom_edits::Edit;
use std::alloc::Global;
use std::marker::Model;

/// The batches of a job, in their order. Contracts see a list of lists of edits.
#[derive(Drop)]
pub struct BatchList {
    list: Vec<Vec<Edit>>,
}

impl Model for BatchList {
    ghost use Rattle.std.specs.Prelude.{List, map};
    ghost use Rattle.std.specs.Coded.{codes};
    ghost use Rattle.scene_model.specs.Element.{attributes_code};
    ghost use Rattle.dom_edits.specs.declared.edits.Edit.{Edit};

    ghost Value = { List (List Edit) };

    ghost coded = { Prim.hlevel (codes, attributes_code) };

    ghost view = { λ s. map (λ batch. batch.items) s.list.items };
}

impl BatchList {
    /// No batches. It takes no memory.
    pub fn new(alloc: Global) -> BatchList
        ensures { result ≡ [] }
    {
        BatchList {
            list: Vec::new(alloc),
        }
    }

    /// The batches of `list`. It takes no memory.
    pub fn of_vec(list: Vec<Vec<Edit>>) -> BatchList
        ensures { result ≡ map (λ batch. batch.items) list.items }
    {
        BatchList { list }
    }

    /// The batches.
    pub fn as_slice(&self) -> &[Vec<Edit>]
        ensures { map (λ batch. batch.items) result.now ≡ self.now }
    {
        self.list.as_slice()
    }
}
