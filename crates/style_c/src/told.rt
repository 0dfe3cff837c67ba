//! What the calls tell C.

ghost use Rattle.std.specs.Prelude.{◌≡◌, ◌≤◌, List, Option, ℕ, length, nat_le, take};
ghost use Rattle.session_model.specs.Standing.{Standing};
ghost use Rattle.style_c.specs.Told.{IsTold, fault_told, kind_number, no_why, quiet, why_limit, why_refused};

use job_json::JobFault;
use stylo_base::{EditRefused, Kind};

/// The statuses: those of the program by its numbers, and others.
pub(crate) const DONE: u32 = 0;

pub(crate) const NOT_JSON: u32 = 3;

pub(crate) const NOT_A_JOB: u32 = 4;

pub(crate) const LIMIT: u32 = 5;

pub(crate) const NO_MEMORY: u32 = 7;

pub(crate) const REFUSED: u32 = 8;

pub(crate) const NO_SESSION: u32 = 9;

pub(crate) const NO_ROOM: u32 = 10;

pub(crate) const STALE: u32 = 11;

pub(crate) const NO_NODE: u32 = 12;

pub(crate) const BAD_ARGUMENT: u32 = 13;

/// Why a job or an edit was refused. All is 0 where there is nothing to tell.
#[repr(C)]
#[derive(Clone, Copy, Drop)]
pub struct Why {
    /// An unknown element is 1, an unknown sheet 2, a bad place 3, a limit 4.
    pub what: u32,
    /// Of a limit its kind, from 1, in the order of `stylo_base::Kind`.
    pub kind: u32,
    /// The number of the element, of the sheet or of the limit.
    pub number: u64,
}

impl Why {
    /// Nothing to tell.
    pub fn none() -> Why
        ensures { result ≡ no_why }
    {
        Why {
            what: 0,
            kind: 0,
            number: 0,
        }
    }

    /// The limit of this kind, with its number.
    pub fn limit(kind: Kind, number: u64) -> Why
        ensures { result ≡ why_limit kind number }
    {
        Why {
            what: 4,
            kind: kind_number(kind),
            number,
        }
    }

    /// Why an edit was refused.
    pub fn refused(why: EditRefused) -> Why
        ensures { result ≡ why_refused why }
    {
        match why {
            EditRefused::UnknownNode(number) => Why {
                what: 1,
                kind: 0,
                number,
            },
            EditRefused::UnknownSheet(number) => Why {
                what: 2,
                kind: 0,
                number,
            },
            EditRefused::BadPlace => Why {
                what: 3,
                kind: 0,
                number: 0,
            },
            EditRefused::Limit(kind, number) => Why::limit(kind, number),
            EditRefused::NoMemory => Why::none(),
        }
    }
}

/// The number of a kind.
fn kind_number(kind: Kind) -> u32
    ensures { result ≡ kind_number kind }
{
    match kind {
        Kind::Input => 1,
        Kind::Elements => 2,
        Kind::Numbers => 3,
        Kind::Depth => 4,
        Kind::Attributes => 5,
        Kind::Value => 6,
        Kind::Sheets => 7,
        Kind::Text => 8,
        Kind::Batches => 9,
        Kind::Device => 10,
    }
}

/// Copies bytes to the front of a buffer, where they fit, and says whether they do. Their number is told either way.
pub(crate) fn copy_out(bytes: &[u8], buffer: &mut [u8], needed: &mut u64) -> bool
    ensures fits { result ≡ nat_le (length bytes.now) (length buffer.old) }
    ensures room { length buffer.new ≡ length buffer.old }
    ensures needed { needed.new ≡ length bytes.now }
    ensures bytes { length bytes.now ≤ length buffer.old → take (length bytes.now) buffer.new ≡ bytes.now }
{
    *needed = bytes.len() as u64;
    if bytes.len() > buffer.len() {
        return false;
    }
    buffer[..bytes.len()].copy_from_slice(bytes);
    true
}

/// Tells a status alone.
pub(crate) fn tell(status: u32, why: &mut Why) -> u32
    ensures { (session : Option Standing) (buffer : List ℕ)
        → IsTold (quiet status session) result why.new buffer 0 session }
{
    *why = Why::none();
    status
}

/// Tells what is wrong with a job or an edit.
pub(crate) fn tell_fault(fault: &JobFault, why: &mut Why, path: &mut [u8], needed: &mut u64) -> u32
    ensures { (session : Option Standing)
        → IsTold (fault_told fault.now session) result why.new path.new needed.new session }
{
    *needed = 0;
    match fault {
        JobFault::NotJson => tell(NOT_JSON, why),
        JobFault::Shape(place) => {
            copy_out(place.as_str().as_bytes(), path, needed);
            tell(NOT_A_JOB, why)
        }
        JobFault::Limit(kind, number) => {
            *why = Why::limit(*kind, *number);
            LIMIT
        }
        JobFault::NoMemory => tell(NO_MEMORY, why),
    }
}
