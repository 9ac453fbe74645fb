ghost use Rattle.std.specs.Prelude.{◌<◌, ◌≤◌, IfOk, length, ◌≡◌};

use crate::{Row, ValueRows};
use pgo_base::NoMemory;
use std::alloc::Global;
use std::test::Fail;

// The row of a site that asks for the keys 1 to 9 in turn, twice.
fn asked_twice(alloc: Global, places: u32) -> Result<Vec<Row>, NoMemory>
    requires { (0 < places) × (places ≤ 24) }
    ensures { IfOk result (λ rows. length rows.items ≡ 1) }
{
    let (table, mut seat) = ValueRows::new(alloc, 1, places, 1)?;
    'rounds: for round in 0..2u64 {
        'keys: for key in 1..10u64 {
            let _ = round;
            table.note(&mut seat, 0, key);
        }
    }
    match table.close(alloc, seat) {
        Ok(rows) => Ok(rows),
        Err((error, _, _)) => Err(error),
    }
}

#[test]
fn eight_places_drop_the_ninth_key(rt: HostRuntime) -> Result<(), Fail> {
    let rows = asked_twice(rt.alloc(), 8)?;
    let kept = [
        (1, 2),
        (2, 2),
        (3, 2),
        (4, 2),
        (5, 2),
        (6, 2),
        (7, 2),
        (8, 2),
    ];
    assert_eq!(rt; rows[0].kept.as_slice(), kept.as_slice());
    assert_eq!(rt; rows[0].dropped, 2);
    Ok(())
}

#[test]
fn nine_places_keep_all(rt: HostRuntime) -> Result<(), Fail> {
    let rows = asked_twice(rt.alloc(), 9)?;
    let kept = [
        (1, 2),
        (2, 2),
        (3, 2),
        (4, 2),
        (5, 2),
        (6, 2),
        (7, 2),
        (8, 2),
        (9, 2),
    ];
    assert_eq!(rt; rows[0].kept.as_slice(), kept.as_slice());
    assert_eq!(rt; rows[0].dropped, 0);
    Ok(())
}

#[test]
fn one_place_keeps_the_first_key(rt: HostRuntime) -> Result<(), Fail> {
    let rows = asked_twice(rt.alloc(), 1)?;
    assert_eq!(rt; rows[0].kept.as_slice(), [(1, 2)].as_slice());
    assert_eq!(rt; rows[0].dropped, 16);
    Ok(())
}

#[test]
fn two_seats_fill_two_sites(rt: HostRuntime) -> Result<(), Fail> {
    let (table, mut seat) = ValueRows::new(rt.alloc(), 2, 3, 2)?;
    let mut other = table.split(&mut seat, 1);
    table.note(&mut seat, 0, 7);
    table.note(&mut other, 1, 5);
    table.note(&mut other, 0, 7);
    table.join(&mut seat, other);
    match table.close(rt.alloc(), seat) {
        Ok(rows) => {
            assert_eq!(rt; rows.len(), 2);
            assert_eq!(rt; rows[0].kept.as_slice(), [(7, 2)].as_slice());
            assert_eq!(rt; rows[1].kept.as_slice(), [(5, 1)].as_slice());
        }
        Err(_) => assert!(rt; false, "out of memory"),
    }
    Ok(())
}
