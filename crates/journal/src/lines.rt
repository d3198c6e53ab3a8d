// A line of a journal as the reader hands it out: what it says, and the bytes that say it.
use actions::Action;
use registers::{Kind, Move};

// Bytes of the journal, and their place in it.
#[derive(Clone, Copy, Debug, PartialEq, Eq)]
pub struct Part<'a> {
    pub text: &'a [u8],
    pub at: usize,
}

// The cases stand in the order in which they are due. `value` is what follows the equals sign.
// Each case holds its value, since a caller matches the line and takes both from the case. The limits of a move stand in its
// type; those of the counts stand in clauses, as an enum has no ghost fields, and it would take a type for each of the counts.
#[derive(Clone, Copy, Debug, PartialEq, Eq)]
pub enum Line<'a> {
    Commands {
        value: Part<'a>,
        count: u32,
    },
    Kills {
        value: Part<'a>,
        count: u32,
    },
    Cards {
        value: Part<'a>,
        count: u32,
    },
    Register {
        value: Part<'a>,
        kind: Kind,
    },
    Move {
        value: Part<'a>,
        taken: Move,
    },
    // `number` is what follows the letter; the command is 0 where the action is of no command, as in a step of the hub.
    Step {
        value: Part<'a>,
        number: Part<'a>,
        action: Action,
        command: u32,
    },
}
