use crate::Seq;
use std::test::Fail;

#[test]
fn elements_pushed_and_joined_stand_in_order(rt: HostRuntime) -> Result<(), Fail> {
    let mut list = Seq::new(rt.alloc());
    list.push(7)?;
    list.push(8)?;
    let joined = Seq::concat(rt.alloc(), list.as_slice(), [9].as_slice())?;
    assert_eq!(rt; joined.as_slice(), [7, 8, 9].as_slice());
    Ok(())
}
