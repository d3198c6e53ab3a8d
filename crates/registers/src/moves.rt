// A pitch move, which cannot hold a number outside the limits.
ghost use Rattle.std.specs.Prelude.{◌≡◌, MatchResult};
ghost use Rattle.registers.specs.Limits.{InLimits};

/// A pitch move in whole hundredths of a degree, positive toward feather.
#[derive(Clone, Copy, Debug, PartialEq, Eq)]
pub struct Move {
    hundredths: i32,
    ghost limited: { InLimits hundredths },
}

/// A number of hundredths of a degree that no blade turns by.
#[derive(Clone, Copy, Debug, PartialEq, Eq)]
pub struct OutsideLimits;

impl Move {
    /// The largest size of a move, either way, in hundredths of a degree.
    pub const LIMIT: u32 = 9000;

    /// The move's hundredths of a degree.
    pub fn hundredths(self) -> i32
        ensures { result ≡ self.hundredths }
    {
        self.hundredths
    }
}

impl TryFrom<i32> for Move {
    type Error = OutsideLimits;

    // The move of so many hundredths of a degree, exactly where they lie within the limits.
    ghost try_from_gives = { λ z r. MatchResult r (λ m. InLimits z × (m.hundredths ≡ z)) (λ _. InLimits z → ⊥) };

    fn try_from(hundredths: i32) -> Result<Move, OutsideLimits> {
        if hundredths.unsigned_abs() <= Move::LIMIT {
            Ok(Move { hundredths })
        } else {
            Err(OutsideLimits)
        }
    }
}
