// What every register offers, whatever its kind.
ghost use Rattle.std.specs.Prelude.{◌≡◌, ℕ, ◌≤◌, List, length, ℤ, Option};
ghost use Rattle.std.specs.List.{slice_get, AllByRecursion};
ghost use Rattle.registers.specs.Kind.{Fits64, Rule};
ghost use Rattle.registers.specs.Named.{Named};
ghost use Rattle.registers.specs.Numbers.{code_of};
ghost use Rattle.registers.specs.OfMove.{taken_of};
ghost use Rattle.registers.specs.declared.kind.Kind.{Kind};
ghost use Rattle.registers.specs.Taken.{Taken, InRange};

use super::kind::Kind;
use super::moves::Move;

/// A register of moves. Its value is its figures; a copy of a register is a plain assignment.
pub trait Register: Copy {
    /// The figures of a register, in order.
    ghost figures: { Self → List ℤ };

    /// The figures of a register that has taken no move.
    ghost start: { List ℤ };

    /// The figures after a move, from those before it.
    ghost rule: { Rule };

    /// Which lists can be the figures of a register of this kind.
    ghost ours: { List ℤ → Type 0 };

    /// How many figures a register of this kind has.
    ghost size: { ℕ };

    /// The kind among the named kinds, if it is one of them.
    ghost kind: { Option Kind };

    /// A register that has taken no move.
    fn empty() -> Self
        ensures { figures result ≡ start };

    /// Takes a move.
    fn take(&mut self, m: Move)
        ensures { figures self.new ≡ rule (figures self.old) (taken_of m) };

    /// How many figures there are.
    fn count(&self) -> usize
        ensures { result ≡ length (figures self.now) };

    /// The figure at a place, from 0.
    fn figure(&self, place: usize) -> Option<i64>
        ensures { result ≡ slice_get (figures self.now) place };

    /// The kind, if it has a name.
    fn kind() -> Option<Kind>
        ensures { result ≡ kind };

    // What a register holds are figures of its kind.
    ghost own: { (x : Self) → ours (figures x) };

    // So are the figures of a register that has taken no move.
    ghost begins: { ours start };

    // A move leads from figures of the kind to figures of the kind.
    ghost keeps: { (f : List ℤ) (t : Taken) → ours f → InRange t → ours (rule f t) };

    // All registers of the kind have the same number of figures.
    ghost sized: { (f : List ℤ) → ours f → length f ≡ size };

    // There are no more than 1,024 of them.
    ghost small: { size ≤ 1024 };

    // Each figure fits a signed number of 64 bits.
    ghost fits: { (f : List ℤ) → ours f → AllByRecursion Fits64 f };

    // Two moves in either order lead to the same figures.
    ghost commutes: { (f : List ℤ) (s t : Taken) → ours f → InRange s → InRange t → rule (rule f s) t ≡ rule (rule f t) s };

    // A register answers the kind of a named kind only if it is of that kind.
    ghost named: { Named (code_of kind) start rule ours size };
}
