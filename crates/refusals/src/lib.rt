// Why a call is denied: one list of causes for every call of the library.
// specs/Refusals.antt gives each cause its number and what comes with it; docs/refusals.md explains them.
#![tactic(auto)]

ghost use Rattle.std.specs.Prelude.{◌≡◌};
ghost use Rattle.refusals.specs.Refusals.{number_of, line_of};

// The cases stand in the order in which calls test for them.
#[derive(Clone, Copy, Debug, PartialEq, Eq)]
pub enum Refusal {
    // making a hub
    CountOutsideLimits,
    WrongTableLength,
    MoveOutsideLimits { command: u32 },
    // a step, a look or a report on tables
    TablesMisfit,
    HubFinished,
    UnknownLetter,
    NoSuchCommand,
    LossesUsedUp,
    WrongPhaseOrMessage,
    WrongCardStatus,
    WrongCardNumber,
    NoPlaceLeft,
    // reading or replaying a journal
    JournalTooLong,
    LineNotDue { line: u32 },
    ValueNotAllowed { line: u32 },
    StepDenied { line: u32 },
    // writing text
    BufferTooShort { needed: usize },
}

impl Refusal {
    // The number under which a cause is known to users. A match, since `as` numbers only an enum whose cases hold nothing.
    pub fn number(self) -> u32
        ensures { result ≡ number_of self }
    {
        match self {
            Refusal::CountOutsideLimits => 1,
            Refusal::WrongTableLength => 2,
            Refusal::MoveOutsideLimits { command: _ } => 3,
            Refusal::TablesMisfit => 4,
            Refusal::HubFinished => 5,
            Refusal::UnknownLetter => 6,
            Refusal::NoSuchCommand => 7,
            Refusal::LossesUsedUp => 8,
            Refusal::WrongPhaseOrMessage => 9,
            Refusal::WrongCardStatus => 10,
            Refusal::WrongCardNumber => 11,
            Refusal::NoPlaceLeft => 12,
            Refusal::JournalTooLong => 13,
            Refusal::LineNotDue { line: _ } => 14,
            Refusal::ValueNotAllowed { line: _ } => 15,
            Refusal::StepDenied { line: _ } => 16,
            Refusal::BufferTooShort { needed: _ } => 17,
        }
    }

    // The journal line that a refusal speaks of, or 0 where it speaks of none: no Option, since a fault print says `line=0`.
    pub fn line(self) -> u32
        ensures { result ≡ line_of self }
    {
        match self {
            Refusal::LineNotDue { line }
            | Refusal::ValueNotAllowed { line }
            | Refusal::StepDenied { line } => line,
            _ => 0,
        }
    }
}
