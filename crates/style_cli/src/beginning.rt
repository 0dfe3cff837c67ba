//! The session in which a job begins.

ghost use Rattle.std.specs.Prelude.{◌≡◌, ◌≤◌, IfOk, length};
ghost use Rattle.base_model.specs.Limits.{element_limit, sheet_limit};
ghost use Rattle.layer_order.specs.View.{sheets_of};
ghost use Rattle.scene_model.specs.Document.{document_of};
ghost use Rattle.session_model.specs.Standing.{started};
ghost use Rattle.session_model.specs.StandingInvariant.{IsReached};
ghost use Rattle.sheet_set.specs.View.{listed_seen};
ghost use Rattle.style_session.specs.SessionView.{scene_from};

use dom_tree::{Doc, NodeList};
use job_json::SheetList;
use sheet_set::Sheets;
use std::alloc::Global;
use style_session::Session;
use stylo_base::NoMemory;

/// A session over the document of these nodes and over these sheets. The document takes the nodes over, what is kept of
/// the sheets takes them over, and the session takes both over: no text is copied.
pub(crate) fn session_of(
    alloc: Global,
    nodes: NodeList,
    sheets: SheetList,
    workers: u32,
    share: u32,
) -> Result<Session, NoMemory>
    requires nodes { length nodes ≤ element_limit }
    requires sheets { length sheets ≤ sheet_limit }
    requires workers { (1 ≤ workers) × (workers ≤ 64) }
    requires share { share ≤ 64 }
    ensures session { IfOk result (λ session. session ≡ started (scene_from nodes sheets)) }
    ensures reached { IfOk result IsReached }
{
    let rules = rules_of(alloc, sheets)?;
    let doc = grown(alloc, nodes)?;
    Session::of_parts(alloc, doc, rules, workers, share)
}

// The parts of a run are not inlined, so that bench/profile can tell what each costs.

/// The document made of these nodes. Their list is moved into it, not copied.
#[inline(never)]
fn grown(alloc: Global, nodes: NodeList) -> Result<Doc, NoMemory>
    requires { length nodes ≤ element_limit }
    ensures { IfOk result (λ doc. doc ≡ document_of nodes) }
{
    Doc::of_list(alloc, nodes)
}

/// The rules that the sheets hold. The list of the sheets is moved into them, not copied.
#[inline(never)]
fn rules_of(alloc: Global, sheets: SheetList) -> Result<Sheets, NoMemory>
    requires { length sheets ≤ sheet_limit }
    ensures { IfOk result (λ rules. listed_seen rules ≡ record { listed = sheets_of sheets; last = length sheets }) }
{
    Sheets::of_list(alloc, sheets.into_vec())
}
