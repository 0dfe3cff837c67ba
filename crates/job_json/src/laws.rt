//! What is true of edits that are read, as the contracts of functions that do nothing.

ghost use Rattle.std.specs.Prelude.{◌≡◌, ℕ, List, None};
ghost use Rattle.scene_model.specs.Document.{Document};
ghost use Rattle.scene_model.specs.Nodes.{IsNodeList, Node};
ghost use Rattle.dom_edits.specs.EditView.{nodes_seen};
ghost use Rattle.dom_edits.specs.declared.edits.NewNodes.TheVariants.{Kept};
ghost use Rattle.edit_model.specs.Apply.{nodes_past, refusal};
ghost use Rattle.edit_model.specs.Edit.{insert};
ghost use Rattle.job_json.specs.NewNodes.{new_nodes};

/// What is kept of the nodes of an insertion stands for all of them: nodes of which none passes a limit by itself are
/// kept, and where one does, every document refuses what stands for them as it refuses them.
pub fn insertions_stand()
    ensures kept { (nodes : List Node) → nodes_past nodes ≡ None → new_nodes nodes ≡ Kept nodes }
    ensures refused { (d : Document) (parent index : ℕ) (nodes : List Node) → IsNodeList nodes
        → refusal d (insert parent index nodes) ≡ refusal d (insert parent index (nodes_seen (new_nodes nodes))) }
{}
