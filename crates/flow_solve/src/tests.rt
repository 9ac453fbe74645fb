// Branch weights, by hand.
use crate::weights;
use std::test::Fail;

#[test]
fn counts_past_the_greatest_weight_are_halved(rt: HostRuntime) -> Result<(), Fail> {
    let counts = [4294967295, 10];
    let mut out = [0, 0];
    weights(counts.as_slice(), out.as_mut_slice());
    assert_eq!(rt; out.as_slice(), [2147483647, 5].as_slice());
    Ok(())
}

#[test]
fn counts_below_it_stay_as_they_are(rt: HostRuntime) -> Result<(), Fail> {
    let counts = [4294967294, 10];
    let mut out = [0, 0];
    weights(counts.as_slice(), out.as_mut_slice());
    assert_eq!(rt; out.as_slice(), [4294967294, 10].as_slice());
    Ok(())
}
