//! The room that a thread keeps beforehand.

use jk_queues::Spare;
use std::test::Fail;

/// A block is there once it is kept, and is let go once.
#[test]
fn block_let_go_once(rt: HostRuntime) -> Result<(), Fail> {
    let mut spare = Spare::new();
    let before = spare.let_go();
    let kept = spare.keep(rt.alloc());
    let first = spare.let_go();
    let second = spare.let_go();
    assert!(rt; !before && kept && first && !second);
    Ok(())
}
