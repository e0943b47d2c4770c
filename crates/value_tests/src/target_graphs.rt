use std::test::Fail;
use target_graph::{Graph, ranks};

#[test]
fn ranks_rise_along_targets(rt: HostRuntime) -> Result<(), Fail> {
    let alloc = rt.alloc();
    let mut targets = Vec::new(alloc);
    targets.push(vec![in alloc; 1, 2]?)?;
    targets.push(vec![in alloc; 2]?)?;
    targets.push(Vec::new(alloc))?;
    match ranks(alloc, &Graph::new(targets))? {
        Some(found) => assert!(rt; found.as_slice() == [0, 1, 2].as_slice()),
        None => assert!(rt; false),
    }
    Ok(())
}

#[test]
fn a_ring_is_a_cycle(rt: HostRuntime) -> Result<(), Fail> {
    let alloc = rt.alloc();
    let mut targets = Vec::new(alloc);
    targets.push(vec![in alloc; 1]?)?;
    targets.push(vec![in alloc; 0]?)?;
    assert!(rt; ranks(alloc, &Graph::new(targets))?.is_none());
    Ok(())
}
