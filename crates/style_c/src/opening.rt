//! Opening a session and closing it.

ghost use Rattle.std.specs.Prelude.{◌≡◌, ◌≤◌, IfOk, None, length};
ghost use Rattle.base_model.specs.Limits.{element_limit, sheet_limit};
ghost use Rattle.session_model.specs.Standing.{started};
ghost use Rattle.style_session.specs.SessionView.{scene_from};
ghost use Rattle.style_c.specs.Told.{Gives, open_told};

use crate::handle::{Handle, put, take};
use crate::told::{DONE, NO_MEMORY, Why, tell, tell_fault};
use dom_tree::{Doc, NodeList};
use job_json::{JobFault, SheetList, read};
use sheet_set::Sheets;
use std::alloc::Global;
use style_session::Session;
use stylo_base::limits::INPUT_LIMIT;
use stylo_base::{Kind, NoMemory};

/// How many elements a session shares styles among.
const SHARE: u32 = 32;

/// Opens a session over the nodes and sheets of a job, in the place of the one that the handle had. The batches of the
/// job are read, and not applied.
#[unsafe(no_mangle)]
pub extern "C" fn bokdrez_open(
    alloc: Global,
    job: &[u8],
    session: &mut Handle,
    why: &mut Why,
    path: &mut [u8],
    needed: &mut u64,
) -> u32
    ensures { Gives (open_told job.now session.old.session) session.old.session result why.new path.new needed.new
        session.new.session }
{
    if job.len() > INPUT_LIMIT {
        let fault = JobFault::Limit(Kind::Input, INPUT_LIMIT as u64);
        return tell_fault(&fault, why, path, needed);
    }
    let job = match read(alloc, job) {
        Ok(job) => job,
        Err(fault) => return tell_fault(&fault, why, path, needed),
    };
    *needed = 0;
    match boxed_session(alloc, job.nodes, job.sheets) {
        Ok(opened) => {
            put(alloc, session, opened);
            tell(DONE, why)
        }
        Err(NoMemory) => tell(NO_MEMORY, why),
    }
}

/// A session over these nodes and sheets, which it takes over.
fn boxed_session(
    alloc: Global,
    nodes: NodeList,
    sheets: SheetList,
) -> Result<Box<Session>, NoMemory>
    requires nodes { length nodes ≤ element_limit }
    requires sheets { length sheets ≤ sheet_limit }
    ensures { IfOk result (λ session. session.value ≡ started (scene_from nodes sheets)) }
{
    let doc = Doc::of_list(alloc, nodes)?;
    let rules = Sheets::of_list(alloc, sheets.into_vec())?;
    let session = Session::of_parts(alloc, doc, rules, 1, SHARE)?;
    Ok(Box::new(alloc, session)?)
}

/// Gives all back that the session of the handle has.
#[unsafe(no_mangle)]
pub extern "C" fn bokdrez_close(alloc: Global, session: &mut Handle)
    ensures { session.new.session ≡ None }
{
    drop(take(alloc, session));
}
