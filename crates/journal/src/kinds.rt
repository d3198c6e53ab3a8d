// The registers that journals name.
ghost use Rattle.std.specs.Prelude.{◌≡◌};
ghost use Rattle.std.specs.Option.{option_map};
ghost use Rattle.journal.specs.Values.{kind_named, is_accepted};
ghost use Rattle.registers.specs.Numbers.{number_of};

use registers::Kind;

// Which registers a reader accepts: each that journals name, or the caller's own kind alone.
// A caller whose kind has no name accepts no journal. An Option of that Option would hold the same, and two Nones of it
// would mean the opposite of one another.
#[derive(Clone, Copy, Debug, PartialEq, Eq)]
pub enum Accepted {
    AnyNamed,
    Only(Option<Kind>),
}

impl Accepted {
    // Whether a register of this kind is accepted.
    pub fn includes(self, kind: Kind) -> bool
        ensures { result ≡ is_accepted self (number_of kind) }
    {
        match self {
            Accepted::AnyNamed => true,
            Accepted::Only(wanted) => wanted == Some(kind),
        }
    }

    // The same of a register whose kind comes as its number, which is 0 where the kind has no name.
    pub fn includes_number(self, number: u8) -> bool
        ensures { result ≡ is_accepted self number }
    {
        match self {
            Accepted::AnyNamed => true,
            Accepted::Only(wanted) => wanted.map_or(0, Kind::number) == number,
        }
    }
}

// The kind that a name stands for.
pub fn kind_named(text: &[u8]) -> Option<Kind>
    ensures { option_map number_of result ≡ kind_named text.now }
{
    [Kind::Sum, Kind::Classes, Kind::Peak]
        .into_iter()
        .find(|kind| kind.name() == text)
}
