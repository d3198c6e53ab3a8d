// What the registers and the mean answer on examples, with the expected numbers worked out by hand.
ghost use Rattle.std.specs.Prelude.{◌≡◌};
ghost use Rattle.registers.specs.OfMove.{taken_of};

use super::*;

// The two moves in the given order, of which the contract speaks in the other: every kind's law lets it.
fn take_both<R: Register>(register: &mut R, first: Move, second: Move)
    ensures { R.figures register.new ≡ R.rule (R.rule (R.figures register.old) (taken_of second)) (taken_of first) }
{
    register.take(first);
    register.take(second);
}

// The figure at a place of a register that took the moves of these two numbers.
fn figure_after<R: Register>(
    first: i32,
    second: i32,
    place: usize,
) -> Result<Option<i64>, OutsideLimits> {
    let mut register = R::empty();
    take_both(
        &mut register,
        Move::try_from(first)?,
        Move::try_from(second)?,
    );
    Ok(register.figure(place))
}

#[test]
fn a_sum_adds_the_moves(rt: HostRuntime) {
    assert_eq!(rt; <Sum as Register>::kind(), Some(Kind::Sum));
    assert_eq!(rt; figure_after::<Sum>(120, -30, 0), Ok(Some(90)));
    assert_eq!(rt; figure_after::<Sum>(-9000, 7, 0), Ok(Some(-8993)));
}

#[test]
fn classes_count_by_size(rt: HostRuntime) {
    assert_eq!(rt; <Classes as Register>::kind(), Some(Kind::Classes));
    assert_eq!(rt; figure_after::<Classes>(49, -50, 0), Ok(Some(1)));
    assert_eq!(rt; figure_after::<Classes>(49, -50, 1), Ok(Some(1)));
    assert_eq!(rt; figure_after::<Classes>(-9000, 5000, 7), Ok(Some(2)));
    assert_eq!(rt; figure_after::<Classes>(-9000, 5000, 6), Ok(Some(0)));
}

#[test]
fn a_peak_keeps_the_largest_size(rt: HostRuntime) {
    assert_eq!(rt; <Peak as Register>::kind(), Some(Kind::Peak));
    assert_eq!(rt; figure_after::<Peak>(-300, 120, 0), Ok(Some(300)));
    assert_eq!(rt; figure_after::<Peak>(10, 0, 0), Ok(Some(10)));
    assert_eq!(rt; figure_after::<Peak>(10, 0, 1), Ok(None));
}

#[test]
fn a_move_keeps_to_the_limits(rt: HostRuntime) {
    assert!(rt; Move::try_from(9000).is_ok());
    assert!(rt; Move::try_from(-9000).is_ok());
    assert!(rt; Move::try_from(9001).is_err());
    assert!(rt; Move::try_from(-9001).is_err());
}

#[test]
fn a_half_goes_away_from_zero(rt: HostRuntime) {
    assert_eq!(rt; mean(25, 2), Some(13));
    assert_eq!(rt; mean(-25, 2), Some(-13));
    assert_eq!(rt; mean(-7, 3), Some(-2));
    assert_eq!(rt; mean(i64::MIN, 1), Some(i64::MIN));
    assert_eq!(rt; mean(5, 0), None);
    assert!(rt; is_mean(8, 3, 3));
    assert!(rt; !is_mean(8, 3, 2));
}

#[test]
fn a_kind_has_its_number_and_its_name(rt: HostRuntime) {
    assert_eq!(rt; Kind::Sum.number(), 1);
    assert_eq!(rt; Kind::Classes.number(), 2);
    assert_eq!(rt; Kind::Peak.number(), 3);
    assert_eq!(rt; Kind::Classes.name(), b"classes".as_slice());
}

#[test]
fn a_number_is_of_one_kind_or_of_none(rt: HostRuntime) {
    assert_eq!(rt; Kind::of_number(0), None);
    assert_eq!(rt; Kind::of_number(1), Some(Kind::Sum));
    assert_eq!(rt; Kind::of_number(2), Some(Kind::Classes));
    assert_eq!(rt; Kind::of_number(3), Some(Kind::Peak));
    assert_eq!(rt; Kind::of_number(4), None);
    assert_eq!(rt; Kind::of_number(255), None);
}

#[test]
fn the_mean_is_that_of_the_first_figure(rt: HostRuntime) {
    assert_eq!(rt; mean_of(Some(Kind::Sum), &Sum::empty(), 2), Some(0));
    assert_eq!(rt; mean_of(Some(Kind::Sum), &Sum::empty(), 0), None);
    assert_eq!(rt; mean_of(Some(Kind::Peak), &Peak::empty(), 2), None);
}
