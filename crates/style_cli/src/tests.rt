//! `run` over ends in memory.

use crate::run;
use io_edges::{MemorySink, MemorySource};
use std::test::Fail;
use std::thread::Threads;

/// Whether the words over an input, with the number of the write that fails, give this exit status, and leave this text
/// in the sink.
fn gives<R: Threads + Sync + AllocGlobal>(
    rt: &R,
    words: &[&str],
    input: &[u8],
    fails: u64,
    wanted: (u8, &str),
) -> Result<bool, Fail> {
    let alloc = rt.alloc();
    let mut owned = Vec::new(alloc);
    for word in words {
        owned.push(String::from_str(alloc, word)?)?;
    }
    let mut source = MemorySource::whole(alloc, input, &[])?;
    let mut sink = MemorySink::whole(alloc, &[fails])?;
    let status = run(rt, alloc, owned, &mut source, &mut sink);
    Ok(status.number() == wanted.0 && sink.held() == wanted.1.as_bytes())
}

const GEN_LINE: [&str; 8] = [
    "style",
    "gen",
    "--seed",
    "1",
    "--nodes",
    "5",
    "--batches",
    "2",
];

const SUMS: &str =
    "nodes 5, batches 2, accepted 7, refused 1, matched 10, cascaded 10, lines 20, bytes 1120\n";

/// It writes once, so that no write fails.
#[test]
fn a_generated_job(rt: HostRuntime) -> Result<(), Fail> {
    let done = gives(&rt, &GEN_LINE, b"", 2, (0, SUMS))?;
    assert!(rt; done);
    Ok(())
}

const LINE: [&str; 2] = ["style", "run"];

/// `html` over `p` over `i`, with a rule for what is in a hovered `p`.
const HOVERED: &[u8] = b"{\"version\":1,\"nodes\":[{\"tag\":\"html\"},{\"tag\":\"p\",\"parent\":0},\
    {\"tag\":\"i\",\"parent\":1}],\
    \"sheets\":[{\"origin\":\"author\",\"text\":\"p:hover i{color:red}\"}],\
    \"batches\":[[{\"op\":\"state\",\"node\":2,\"state\":\"hover\",\"on\":true}],\
    [{\"on\":true,\"state\":\"hover\",\"node\":2,\"op\":\"state\"},\
    {\"op\":\"set\",\"node\":7,\"name\":\"k\",\"value\":\"x\"}],\
    [{\"op\":\"state\",\"node\":2,\"state\":\"hover\",\"on\":false}],[]]}";

/// What each write takes: a line.
const HOVERED_WRITES: [&str; 21] = [
    "batch 0: 0 accepted, 0 refused, 3 matched, 3 cascaded\n",
    "1 html{display: block}\n",
    "2 p{}\n",
    "3 i{}\n",
    "batch 1: 1 accepted, 0 refused, 1 matched, 1 cascaded\n",
    "1 html{display: block}\n",
    "2 p{}\n",
    "3 i{color: #ff0000}\n",
    "batch 2: 1 accepted, 1 refused, 0 matched, 0 cascaded\n",
    "refused 2: unknown node 7\n",
    "1 html{display: block}\n",
    "2 p{}\n",
    "3 i{color: #ff0000}\n",
    "batch 3: 1 accepted, 0 refused, 1 matched, 1 cascaded\n",
    "1 html{display: block}\n",
    "2 p{}\n",
    "3 i{}\n",
    "batch 4: 0 accepted, 0 refused, 0 matched, 0 cascaded\n",
    "1 html{display: block}\n",
    "2 p{}\n",
    "3 i{}\n",
];

/// `html` over `p`, with two batches that change nothing: the lines that follow are all kept ones.
const STILL: &[u8] = b"{\"version\":1,\"nodes\":[{\"tag\":\"html\"},{\"tag\":\"p\",\"parent\":0}],\
    \"batches\":[[],[]]}";

const STILL_WRITES: [&str; 9] = [
    "batch 0: 0 accepted, 0 refused, 2 matched, 2 cascaded\n",
    "1 html{display: block}\n",
    "2 p{}\n",
    "batch 1: 0 accepted, 0 refused, 0 matched, 0 cascaded\n",
    "1 html{display: block}\n",
    "2 p{}\n",
    "batch 2: 0 accepted, 0 refused, 0 matched, 0 cascaded\n",
    "1 html{display: block}\n",
    "2 p{}\n",
];

/// Whether the sink holds what comes before each write of a job where that write fails, and all of it
/// where none does.
fn ends_before_each_write<R: Threads + Sync + AllocGlobal>(
    rt: &R,
    job: &[u8],
    writes: &[&str],
) -> Result<bool, Fail> {
    let mut front = String::new(rt.alloc());
    let mut write = 1u64;
    for piece in writes {
        if !gives(rt, &LINE, job, write, (6, front.as_str()))? {
            return Ok(false);
        }
        front.push_str(piece)?;
        write = write.wrapping_add(1);
    }
    gives(rt, &LINE, job, write, (0, front.as_str()))
}

#[test]
fn each_write_of_batches_fails(rt: HostRuntime) -> Result<(), Fail> {
    let hovered = ends_before_each_write(&rt, HOVERED, &HOVERED_WRITES)?;
    let still = ends_before_each_write(&rt, STILL, &STILL_WRITES)?;
    assert!(rt; hovered && still);
    Ok(())
}
