//! A worker's rounds over a bench in memory.
use crate::benches::FakeBench;
use crate::calls::Call;
use rp_rounds::serve;
use std::test::Fail;

#[test]
fn whole_rounds_in_order(rt: HostRuntime) -> Result<(), Fail> {
    let mut bench = FakeBench::new(0, 2, 3, 100, 2);
    let done = serve(&rt, &mut bench, 0, 2, 3);
    assert!(rt; done.is_ok() && bench.trace == 1313 && bench.pulls == 8);
    Ok(())
}

#[test]
fn no_memory_ends_a_worker(rt: HostRuntime) -> Result<(), Fail> {
    let mut bench = FakeBench::new(0, 1, 2, 4, 9);
    let done = serve(&rt, &mut bench, 0, 1, 2);
    assert!(rt; done.is_err() && bench.trace == 12 && bench.due == Call::Nothing);
    Ok(())
}

#[test]
fn a_worker_without_nodes(rt: HostRuntime) -> Result<(), Fail> {
    let mut bench = FakeBench::new(3, 4, 3, 0, 5);
    let done = serve(&rt, &mut bench, 3, 4, 3);
    assert!(rt; done.is_ok() && bench.trace == 0 && bench.pulls == 0);
    Ok(())
}
