// Which bits are left, and which use is named, is in the contracts; here memory suffices.
use crate::{Use, assigned, first_exposed};
use block_search::Rows;
use std::test::Fail;

// 0 goes to 1 and 2, these to 3; 3 goes back to 1. Block 1 gives bit 0, block 0 bit 1, block 3 bit 2.
#[test]
fn a_bit_of_one_branch_is_lost_where_they_meet(rt: HostRuntime) -> Result<(), Fail> {
    let alloc = rt.alloc();
    let ends = vec![in alloc; 2, 3, 4, 5]?;
    let targets = vec![in alloc; 1, 2, 3, 3, 1]?;
    let rows = Rows::of(ends, targets);
    let words = assigned(alloc, &rows, [2u64, 1, 0, 4].as_slice())?;
    assert_eq!(rt; words.as_slice(), [0, 2, 2, 2].as_slice());
    Ok(())
}

// 0 goes to 1, and 1 to itself.
#[test]
fn no_walk_avoids_the_entry(rt: HostRuntime) -> Result<(), Fail> {
    let alloc = rt.alloc();
    let rows = Rows::of(vec![in alloc; 1, 2]?, vec![in alloc; 1, 1]?);
    let uses: [Use; 0] = [];
    assert_eq!(rt; first_exposed(alloc, &rows, uses.as_slice())?, None);
    Ok(())
}
