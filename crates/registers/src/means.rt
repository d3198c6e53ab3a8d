// The mean of a sum of moves.
ghost use Rattle.std.specs.Prelude.{◌≡◌, ◌<◌, Decides, IfSome, Some};
ghost use Rattle.registers.specs.Kind.{Fits64};
ghost use Rattle.registers.specs.Numbers.{code_of};
ghost use Rattle.registers.specs.Mean.{ComputesMean, IsMean, mean_of, mean_of_sum, MeanIs, NoneNearer, OneMean};

use super::kind::Kind;
use super::register::Register;

/// The whole number nearest to the sum over the version; of two that are equally near, the one farther from zero.
/// Version 0 has no mean.
pub fn mean(sum: i64, version: u32) -> Option<i64>
    ensures value { result ≡ mean_of_sum sum version }
    ensures nearest { MeanIs sum version result }
{
    (version > 0).then(|| nearest(sum, version))
}

// The quotient without its fraction, or the number after it, away from zero, where a half or more is left.
fn nearest(sum: i64, version: u32) -> i64
    requires { 0 < version }
    ensures { Some result ≡ mean_of_sum sum version }
{
    let by = i64::from(version);
    let quotient = sum / by;
    let rest = sum % by;
    if 2 * rest.abs() < by {
        quotient
    } else {
        quotient + sum.signum()
    }
}

/// Whether a number is the mean of a sum over a version: there is no other, and none is nearer to the quotient.
pub fn is_mean(sum: i64, version: u32, candidate: i64) -> bool
    ensures decides { Decides result ((0 < version) × IsMean sum version candidate) }
    ensures computed { ComputesMean }
    ensures only { OneMean }
    ensures nearest { NoneNearer }
{
    mean(sum, version) == Some(candidate)
}

/// The mean of the moves that a register of this kind has taken: that of its first figure, over the version. Only a sum has a
/// mean.
pub fn mean_of<R: Register>(kind: Option<Kind>, register: &R, version: u32) -> Option<i64>
    ensures fits { IfSome result Fits64 }
    ensures value { result ≡ mean_of (code_of kind) (R.figures register.now) version }
{
    if kind == Some(Kind::Sum) {
        mean(register.figure(0)?, version)
    } else {
        None
    }
}
