use super::*;
use registers::{Move, OutsideLimits};

fn after_two_moves() -> Result<Option<i64>, OutsideLimits> {
    let mut counted = <MoveCount as Register>::empty();
    counted.take(Move::try_from(-50)?);
    counted.take(Move::try_from(0)?);
    Ok(counted.figure(0))
}

#[test]
fn each_move_counts(rt: HostRuntime) {
    assert_eq!(rt; after_two_moves(), Ok(Some(2)));
}

#[test]
fn the_kind_has_no_number(rt: HostRuntime) {
    assert_eq!(rt; <MoveCount as Register>::kind(), None);
}
