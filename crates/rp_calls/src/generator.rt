//! A script beside the one that a program of its own made.
use rp_gen::make;
use std::test::Fail;

const FIVE: &str = concat!(
    "cluster 5\nloss 10 7\n",
    "send 1 0 1 put k850 312\n",
    "settle 30\nsend 1 0 1 split k500\nsettle 30\n",
    "send 1 1 2 cput k631 none 691\n",
    "settle 30\nsend 1 0 1 split k250\nsettle 30\n",
    "send 1 1 3 move k567 k500 1\n",
    "settle 30\nsend 1 1 1 split k750\nsettle 30\n",
    "send 1 0 4 add k096 52\n",
    "send 1 1 5 add k556 100\n",
    "settle 100\nend\n",
);

#[test]
fn five_commands(rt: HostRuntime) -> Result<(), Fail> {
    let text = make(rt.alloc(), 7, 5)?;
    assert!(rt; text.as_str() == FIVE);
    Ok(())
}
