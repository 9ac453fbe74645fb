// Which blocks are marked is in the contract; here memory suffices.
use crate::{Rows, reachable};
use std::test::Fail;

#[test]
fn a_loop_is_left_and_a_block_is_unreachable(rt: HostRuntime) -> Result<(), Fail> {
    let alloc = rt.alloc();
    let ends = vec![in alloc; 1, 4, 5, 6, 6]?;
    let targets = vec![in alloc; 1, 2, 4, 2, 1, 4]?;
    let rows = Rows::of(ends, targets);
    let marks = reachable(alloc, &rows)?;
    assert_eq!(rt;
        marks.as_slice(),
        [true, true, true, false, true].as_slice()
    );
    Ok(())
}
