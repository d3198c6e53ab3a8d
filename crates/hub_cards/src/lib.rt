// Cards, and the numbers by which they are known.
#![tactic(auto)]

ghost use Rattle.std.specs.Prelude.{◌≡◌, ℕ};
ghost use Rattle.hub_cards.specs.Statuses.{is_active, is_lost, is_used};
ghost use Rattle.hub_cards.specs.Tables.{blank_card};

// The number of a master card, from 1; 0 means that none is known.
// It is a type of its own, so that a backup's number cannot be passed for it.
// 0 and no Option, here and below: by a rule of the project records hold plain numbers, and place 0 of a table reads as blank.
#[derive(Clone, Copy, Debug, PartialEq, Eq)]
pub struct MasterNumber(pub usize);

// The number of a backup card, from 1; 0 means that none is known.
#[derive(Clone, Copy, Debug, PartialEq, Eq)]
pub struct BackupNumber(pub usize);

#[derive(Clone, Copy, Debug, PartialEq, Eq)]
pub enum Status {
    Unused,
    Active,
    Lost,
}

// A card as the hub's table has it. `P` is the type of its partner's number, which is of the other role.
#[derive(Clone, Copy, Debug, PartialEq, Eq)]
pub struct Card<P> {
    pub status: Status,
    pub partner: P,
    // how many commands the card has taken
    pub version: u32,
}

impl<P> Card<P> {
    /// A card that was never in use, with this partner.
    pub fn unused(partner: P) -> Card<P>
        ensures { result ≡ blank_card partner }
    {
        Card {
            status: Status::Unused,
            partner,
            version: 0,
        }
    }
}

impl Status {
    /// Whether the card is active.
    pub fn is_active(self) -> bool
        ensures { result ≡ is_active self }
    {
        self == Status::Active
    }

    /// Whether the card has been lost.
    pub fn is_lost(self) -> bool
        ensures { result ≡ is_lost self }
    {
        self == Status::Lost
    }

    /// Whether the card is or was in use.
    pub fn is_used(self) -> bool
        ensures { result ≡ is_used self }
    {
        self != Status::Unused
    }
}

/// The number of a card of one role, by which that role's cards can be searched.
pub trait CardNumber: Copy {
    /// The number that cards of the other role have.
    type Partner: Copy;

    /// The plain number.
    ghost plain: { Self → ℕ };

    // `new` and `number`, and no `From` both ways: that takes an impl and a law more for each role, and lets `into()` make a
    // card's number of any count.
    fn new(number: usize) -> Self
        ensures { plain result ≡ number };

    fn number(self) -> usize
        ensures { result ≡ plain self };
}

// Each role's number is a struct of its own, so that neither is taken for the other, and so has an impl of its own.
impl CardNumber for MasterNumber {
    type Partner = BackupNumber;

    ghost plain = { λ m. m.0 };

    fn new(number: usize) -> MasterNumber {
        MasterNumber(number)
    }

    fn number(self) -> usize {
        self.0
    }
}

impl CardNumber for BackupNumber {
    type Partner = MasterNumber;

    ghost plain = { λ b. b.0 };

    fn new(number: usize) -> BackupNumber {
        BackupNumber(number)
    }

    fn number(self) -> usize {
        self.0
    }
}
