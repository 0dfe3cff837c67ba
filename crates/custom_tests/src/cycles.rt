use cycle_search::{Edge, are_confirmed, search};
use std::test::Fail;

// A chain into a cycle, and a loop beside them.
#[test]
fn what_is_found_is_confirmed(rt: HostRuntime) -> Result<(), Fail> {
    let edges = [
        Edge { from: 0, to: 1 },
        Edge { from: 1, to: 2 },
        Edge { from: 2, to: 3 },
        Edge { from: 3, to: 2 },
        Edge { from: 4, to: 4 },
    ];
    let found = search(rt.alloc(), 5, &edges)?;
    assert!(rt; are_confirmed(&edges, &found.marks, &found.order));
    Ok(())
}
