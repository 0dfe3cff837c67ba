//! Restyling a session.

ghost use Rattle.std.specs.Prelude.{◌≡◌, ◌⊎◌, [], Some};
ghost use Rattle.style_session.specs.Answers.{counts_of};
ghost use Rattle.style_c.specs.Told.{Gives, IsCounted, no_why, restyle_told};

use crate::handle::{Handle, put, take};
use crate::told::{DONE, NO_MEMORY, NO_SESSION};
use io_edges::OpenGate;
use std::alloc::Global;
use style_session::Session;
use stylo_base::NoMemory;

/// How many elements a restyle went to, for C: those whose rules were matched, and those that were cascaded.
#[repr(C)]
#[derive(Clone, Copy, Drop)]
pub struct RestyleCounts {
    pub matched: u64,
    pub cascaded: u64,
}

/// Styles again what edits since the last restyle can have changed, on the calling thread.
#[unsafe(no_mangle)]
pub extern "C" fn bokdrez_restyle(
    alloc: Global,
    session: &mut Handle,
    counts: &mut RestyleCounts,
) -> u32
    ensures told { Gives (restyle_told session.old.session) session.old.session result no_why [] 0 session.new.session }
    ensures counts { IsCounted session.old.session result counts.new }
{
    *counts = RestyleCounts {
        matched: 0,
        cascaded: 0,
    };
    let Some(mut held) = take(alloc, session) else {
        return NO_SESSION;
    };
    let status = restyle(alloc, &mut held, counts);
    put(alloc, session, held);
    status
}

/// Styles again, and tells the counts.
fn restyle(alloc: Global, session: &mut Session, counts: &mut RestyleCounts) -> u32
    requires matched { counts.old.matched ≡ 0 }
    requires cascaded { counts.old.cascaded ≡ 0 }
    ensures told { Gives (restyle_told (Some session.old)) (Some session.old) result no_why [] 0 (Some session.new) }
    ensures counts { IsCounted (Some session.old) result counts.new }
{
    match session.restyle_alone(alloc, &OpenGate) {
        Ok(counted) => {
            *counts = RestyleCounts {
                matched: counted.matched,
                cascaded: counted.cascaded,
            };
            DONE
        }
        Err(NoMemory) => NO_MEMORY,
    }
}
