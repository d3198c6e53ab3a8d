// A register that none of the named kinds is: it counts the moves, and answers no kind.
#![tactic(auto)]

ghost use Rattle.std.specs.Prelude.{◌^◌, ◌<◌, [], ◌∷◌, pos, None};
ghost use Rattle.move_count.specs.Count.{count_rule, count_start, IsMoveCount};
ghost use Rattle.std.proofs.Common.{rules, arith};

use registers::{Kind, Move, Register};

#[cfg(test)]
mod tests;

/// How many moves there were.
#[derive(Clone, Copy, Debug, PartialEq, Eq)]
pub struct MoveCount {
    moves: u32,
    ghost fits: { moves < 2 ^ 32 },
}

impl Register for MoveCount {
    ghost figures = { λ c. pos c.moves ∷ [] };

    ghost start = { count_start };

    ghost rule = { count_rule };

    ghost ours = { IsMoveCount };

    ghost size = { 1 };

    ghost kind = { None };

    ghost own = { Prim.search rules };

    ghost begins = { Prim.search rules };

    ghost keeps = { Prim.search rules };

    ghost sized = { Prim.search rules };

    ghost small = { Prim.search rules };

    ghost fits = { Prim.search rules };

    ghost commutes = { Prim.search rules };

    ghost named = { Prim.search rules };

    fn empty() -> MoveCount {
        MoveCount { moves: 0 }
    }

    fn take(&mut self, _m: Move) {
        self.moves = self.moves.saturating_add(1);
    }

    fn count(&self) -> usize {
        1
    }

    fn figure(&self, place: usize) -> Option<i64> {
        (place == 0).then_some(i64::from(self.moves))
    }

    fn kind() -> Option<Kind> {
        None
    }
}
