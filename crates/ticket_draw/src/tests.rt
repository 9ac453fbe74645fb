use crate::TicketDraw;
use std::test::Fail;

#[test]
fn two_numbers_and_then_none(rt: HostRuntime) -> Result<(), Fail> {
    let (table, mut seat) = TicketDraw::new(rt.alloc(), 2, 1)?;
    let first = table.draw(&mut seat);
    assert_eq!(rt; first, Some(0));
    let second = table.draw(&mut seat);
    assert_eq!(rt; second, Some(1));
    let third = table.draw(&mut seat);
    assert_eq!(rt; third, None);
    table.close(seat);
    Ok(())
}

#[test]
fn two_seats_share_the_numbers(rt: HostRuntime) -> Result<(), Fail> {
    let (table, mut seat) = TicketDraw::new(rt.alloc(), 2, 65)?;
    let mut other = table.split(&mut seat, 64);
    let first = table.draw(&mut other);
    assert_eq!(rt; first, Some(0));
    let second = table.draw(&mut seat);
    assert_eq!(rt; second, Some(1));
    let third = table.draw(&mut other);
    assert_eq!(rt; third, None);
    table.join(&mut seat, other);
    table.close(seat);
    Ok(())
}
