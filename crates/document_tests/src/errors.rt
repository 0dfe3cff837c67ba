//! What errors say.

use io_edges::{Failed, SinkRefused};
use job_json::read;
use std::alloc::Global;
use std::test::Fail;
use stylo_base::{EditRefused, Kind, NoMemory};

#[test]
fn of_the_base(rt: HostRuntime) -> Result<(), Fail> {
    let memory = NoMemory;
    let refused = EditRefused::Limit(Kind::Depth, 12);
    let said = format!(in rt.alloc(); "{memory}; {refused}")?;
    assert_eq!(rt;
        said.as_str(),
        "no memory; limit depth of 12 would be passed"
    );
    Ok(())
}

#[test]
fn of_the_edges(rt: HostRuntime) -> Result<(), Fail> {
    let source = Failed;
    let sink = SinkRefused::Failed;
    let said = format!(in rt.alloc(); "{source}; {sink}")?;
    assert_eq!(rt; said.as_str(), "the outside failed; the outside failed");
    Ok(())
}

/// What a short text that is no job gets said.
fn said_of(alloc: Global, text: &str) -> Result<String, Fail> {
    if text.len() > 1000 {
        return Err(Fail::from("the text is long"));
    }
    match read(alloc, text.as_bytes()) {
        Ok(_job) => Err(Fail::from("it is a job")),
        Err(fault) => Ok(format!(in alloc; "{fault}")?),
    }
}

#[test]
fn of_a_job(rt: HostRuntime) -> Result<(), Fail> {
    let said = said_of(rt.alloc(), r#"{"version":1,"nodes":[{"tag":7}]}"#)?;
    assert_eq!(rt; said.as_str(), "not a job at /nodes/0/tag");
    Ok(())
}
