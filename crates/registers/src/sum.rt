// The register that keeps the sum of the moves.
ghost use Rattle.std.specs.Prelude.{[], ◌∷◌, ◌+ℤ◌, refl, Some};
ghost use Rattle.registers.specs.Kind.{Fits64};
ghost use Rattle.registers.specs.declared.kind.Kind.TheVariants.{Sum as SumKind};
ghost use Rattle.registers.specs.Sum.{IsSum, sum_rule, sum_start};
ghost use Rattle.std.specs.Int.{w64};
ghost use Rattle.std.proofs.lemmas.Int.{SFits-int_wrap};
ghost use Rattle.std.proofs.Common.{ap, rules, arith};
ghost use Rattle.registers.specs.Sums.{wrapped_either_order};

use super::kind::Kind;
use super::moves::Move;
use super::register::Register;

/// The sum of the moves modulo 2^64, in hundredths of a degree.
#[derive(Clone, Copy, Debug, PartialEq, Eq)]
pub struct Sum {
    total: i64,
    ghost fits: { Fits64 total },
}

impl Register for Sum {
    ghost figures = { λ s. s.total ∷ [] };

    ghost start = { sum_start };

    ghost rule = { sum_rule };

    ghost ours = { IsSum };

    ghost size = { 1 };

    ghost kind = { Some SumKind };

    ghost own = { Prim.search rules };

    ghost begins = { Prim.search rules };

    ghost keeps = { elim [
      | [] ↦ λ t own range. own
      | s ∷ [] ↦ λ t own range. (SFits-int_wrap w64 (s +ℤ t)).sfits
      | s ∷ q ∷ rest ↦ λ t own range. own
    ] };

    ghost sized = { Prim.search rules };

    ghost small = { Prim.search rules };

    ghost fits = { Prim.search rules };

    ghost commutes = { elim [
      | [] ↦ λ a b own _ _. refl
      | s ∷ rest ↦ λ a b own _ _. ap (λ z. z ∷ rest) (wrapped_either_order s a b)
    ] };

    ghost named = { Prim.search rules };

    fn empty() -> Sum {
        Sum { total: 0 }
    }

    #[tactic(auto, using(std::proofs::lemmas::Int::wraps))]
    fn take(&mut self, m: Move) {
        self.total = self.total.wrapping_add(i64::from(m.hundredths()));
    }

    // A sum, a peak and a count of moves have one figure, and each writes these two itself: a trait's method that all three had
    // from one place would be the classes' too, and a trait of one-figure registers is longer than the two lines.
    fn count(&self) -> usize {
        1
    }

    fn figure(&self, place: usize) -> Option<i64> {
        (place == 0).then_some(self.total)
    }

    fn kind() -> Option<Kind> {
        Some(Kind::Sum)
    }
}
