// The kinds of register that have a name.
ghost use Rattle.std.specs.Prelude.{◌≡◌};
ghost use Rattle.registers.specs.Numbers.{kind_of, name_of, number_of};

/// A kind of register that has a name. A register of one's own has no kind here.
#[derive(Clone, Copy, Debug, PartialEq, Eq)]
pub enum Kind {
    Sum,
    Classes,
    Peak,
}

impl Kind {
    /// The number of the kind, from 1.
    pub fn number(self) -> u8
        ensures { result ≡ number_of self }
    {
        self as u8 + 1
    }

    /// The kind of this number, if a kind has it: so a number that was stored, or that another program gave, becomes a kind.
    pub fn of_number(number: u8) -> Option<Kind>
        ensures { result ≡ kind_of number }
    {
        match number {
            1 => Some(Kind::Sum),
            2 => Some(Kind::Classes),
            3 => Some(Kind::Peak),
            _ => None,
        }
    }

    /// The name of the kind, as journals and reports write it.
    pub fn name(self) -> &'static [u8]
        ensures { result.now ≡ name_of self }
    {
        match self {
            Kind::Sum => b"sum",
            Kind::Classes => b"classes",
            Kind::Peak => b"peak",
        }
    }
}
