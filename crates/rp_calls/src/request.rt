//! Batches.
use crate::samples::{key, passed, text};
use rp_request::{Batch, Op};
use std::test::Fail;

#[test]
fn batches(rt: HostRuntime) -> Result<(), Fail> {
    let value = text("hi")?;
    let set = Op::Set {
        key: key("a")?,
        value,
    };
    let remove = Op::Remove { key: key("b")? };
    let mut batch = Batch::new(rt.alloc());
    batch.push(set)?;
    batch.push(remove)?;
    let copy = batch.copy()?;
    let batch = passed(&rt, batch);
    let again = Batch::from_vec(batch.into_vec());
    assert!(rt; copy.as_slice() == [set, remove].as_slice());
    assert!(rt; again.as_slice() == [set, remove].as_slice());
    Ok(())
}
