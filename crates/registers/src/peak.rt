// The register that keeps the largest size of a move.
ghost use Rattle.std.specs.Prelude.{◌≤◌, [], ◌∷◌, pos, Some};
ghost use Rattle.registers.specs.Peak.{IsPeak, peak_rule, peak_start};
ghost use Rattle.registers.specs.declared.kind.Kind.TheVariants.{Peak as PeakKind};
ghost use Rattle.std.proofs.Common.{rules, arith};

use super::kind::Kind;
use super::moves::Move;
use super::register::Register;

/// The largest size of a move so far, in hundredths of a degree.
#[derive(Clone, Copy, Debug, PartialEq, Eq)]
pub struct Peak {
    largest: u32,
    ghost limited: { largest ≤ 9000 },
}

impl Register for Peak {
    ghost figures = { λ p. pos p.largest ∷ [] };

    ghost start = { peak_start };

    ghost rule = { peak_rule };

    ghost ours = { IsPeak };

    ghost size = { 1 };

    ghost kind = { Some PeakKind };

    ghost own = { Prim.search rules };

    ghost begins = { Prim.search rules };

    ghost keeps = { Prim.search rules };

    ghost sized = { Prim.search rules };

    ghost small = { Prim.search rules };

    ghost fits = { Prim.search rules };

    ghost commutes = { Prim.search rules };

    ghost named = { Prim.search rules };

    fn empty() -> Peak {
        Peak { largest: 0 }
    }

    fn take(&mut self, m: Move) {
        let size = m.hundredths().unsigned_abs();
        self.largest = self.largest.max(size);
    }

    fn count(&self) -> usize {
        1
    }

    fn figure(&self, place: usize) -> Option<i64> {
        (place == 0).then_some(i64::from(self.largest))
    }

    fn kind() -> Option<Kind> {
        Some(Kind::Peak)
    }
}
