// The register that counts the moves by their size.
ghost use Rattle.std.specs.Prelude.{◌≡◌, ℕ, ◌^◌, ◌<◌, map, length, pos, slice_index, slice_index_or, Some};
ghost use Rattle.std.proofs.Common.{◌∙◌, length-set, arith, rules};
ghost use Rattle.std.proofs.lemmas.List.{length-map};
ghost use Rattle.registers.specs.Classes.{class_of, classes_rule, classes_start, IsClasses, IsCount};
ghost use Rattle.std.proofs.ByRecursion.{All-map, All-from_get_or, All-get_or, All-set, All-weaker};
ghost use Rattle.registers.specs.Limits.{size_of};
ghost use Rattle.registers.specs.Counts.{class_below, count_fits, one_more_counts, counted_either_order};
ghost use Rattle.registers.specs.Kind.{Fits64};
ghost use Rattle.registers.specs.declared.kind.Kind.TheVariants.{Classes as ClassesKind};

use super::kind::Kind;
use super::moves::Move;
use super::register::Register;

/// How many classes of sizes there are.
const CLASSES: usize = 8;

/// How many moves there were in each class of sizes.
#[derive(Clone, Copy, Debug, PartialEq, Eq)]
pub struct Classes {
    counts: [u32; CLASSES],
    ghost eight: { length counts ≡ 8 },
    ghost fit: { (k : ℕ) → k < length counts → slice_index counts k < 2 ^ 32 },
}

/// The place of the class that a size, in hundredths of a degree, falls in.
pub(super) fn class_of(size: u32) -> usize
    ensures { result ≡ class_of size }
{
    match size {
        0..=49 => 0,
        50..=99 => 1,
        100..=249 => 2,
        250..=499 => 3,
        500..=999 => 4,
        1000..=2499 => 5,
        2500..=4999 => 6,
        _ => 7,
    }
}

impl Register for Classes {
    ghost figures = { λ c. map pos c.counts };

    ghost start = { classes_start };

    ghost rule = { classes_rule };

    ghost ours = { IsClasses };

    ghost size = { 8 };

    ghost kind = { Some ClassesKind };

    ghost own = { λ x. (length-map x.counts pos ∙ x.eight, All-map IsCount pos x.counts (All-from_get_or (λ n. n < 2 ^ 32) x.counts 0 x.fit)) };

    ghost begins = { Prim.search rules };

    ghost keeps = { λ f t own range.
        let k : ℕ = class_of (size_of t) in
        let within : k < length f = omega (arith, class_below (size_of t)) in
        let more = one_more_counts (slice_index_or f k (pos 0)) (All-get_or IsCount f k (pos 0) within own.1) in
        (length-set f k _ ∙ own.0, All-set IsCount f k _ more own.1) };

    ghost sized = { Prim.search rules };

    ghost small = { Prim.search rules };

    ghost fits = { λ f own. All-weaker IsCount Fits64 count_fits f own.1 };

    ghost commutes = { λ f s t own _ _. counted_either_order f _ _ };

    ghost named = { Prim.search rules };

    fn empty() -> Classes {
        Classes {
            counts: [0; CLASSES],
        }
    }

    #[tactic(auto, using(crate::specs::Counts::counted_map, crate::specs::Counts::class_below))]
    fn take(&mut self, m: Move) {
        let class = class_of(m.hundredths().unsigned_abs());
        self.counts[class] = self.counts[class].saturating_add(1);
    }

    fn count(&self) -> usize {
        CLASSES
    }

    fn figure(&self, place: usize) -> Option<i64> {
        self.counts.get(place).map(|count| i64::from(*count))
    }

    fn kind() -> Option<Kind> {
        Some(Kind::Classes)
    }
}
