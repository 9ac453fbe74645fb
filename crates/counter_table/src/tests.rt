use crate::CounterTable;
use std::test::Fail;

#[test]
fn sums_of_two_seats(rt: HostRuntime) -> Result<(), Fail> {
    let (table, mut seat) = CounterTable::new(rt.alloc(), 2, 2)?;
    table.add(&mut seat, 0, u64::MAX);
    let mut other = table.split(&mut seat, 1);
    table.add(&mut other, 0, 3);
    table.add(&mut other, 1, 5);
    table.join(&mut seat, other);
    assert_eq!(rt; table.read(&mut seat, 1), 5);
    match table.close(rt.alloc(), seat) {
        Ok(words) => assert_eq!(rt; words.as_slice(), [2, 5].as_slice()),
        Err(_) => assert!(rt; false, "out of memory"),
    }
    Ok(())
}
