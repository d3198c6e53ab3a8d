// From the value of a line to what it says. The limits of the counts, 1 to 64, 0 to 7 and 1 to 8, are numbers here as in the
// form of a journal, each at its key: the hub has the same ones, but this crate does not stand on the hub's crates.
ghost use Rattle.std.specs.Prelude.{◌≡◌, ◌^◌, ◌<◌, IfSome};
ghost use Rattle.std.specs.Option.{option_map};
ghost use Rattle.journal.specs.Lines.{entry_of, value_of, Limited, Sound};
ghost use Rattle.registers.specs.Numbers.{number_of};
ghost use Rattle.journal.specs.Values.{entry_written, if_accepted, kind_named, move_written, step_written, command_written};

use super::keys::Key;
use super::kinds::{Accepted, kind_named};
use super::lines::{Line, Part};
use super::numbers::{number_between, number_up_to};
use actions::Action;
use registers::{Kind, Move};

// The kind that is named, if it is accepted.
fn read_kind(text: &[u8], accepts: Accepted) -> Option<Kind>
    ensures { option_map number_of result ≡ if_accepted accepts (kind_named text.now) }
{
    kind_named(text).filter(|kind| accepts.includes(*kind))
}

// A move, in hundredths of a degree.
fn read_move(text: &[u8]) -> Option<Move>
    ensures { option_map (λ taken. taken.hundredths) result ≡ move_written text.now }
{
    let hundredths = match text {
        [b'-', size @ ..] => -(number_between(size, 1, Move::LIMIT)? as i32),
        _ => number_up_to(text, Move::LIMIT)? as i32,
    };
    Move::try_from(hundredths).ok()
}

// The command of a step, 0 where the action is of none.
fn read_command(action: Action, text: &[u8]) -> Option<u32>
    ensures { result ≡ command_written action text.now }
{
    if action.is_of_command() {
        number_between(text, 1, 64)
    } else {
        text.is_empty().then_some(0)
    }
}

// A step: its letter, and then its command's number.
fn read_step<'a>(value: Part<'a>) -> Option<Line<'a>>
    requires { value.at < 2 ^ 32 }
    ensures says { option_map entry_of result ≡ step_written value.entry.text.now }
    ensures parts { IfSome result (λ l. (value_of l ≡ value.entry) × Sound l) }
    ensures limits { IfSome result Limited }
{
    // A step's letter and what is behind it are taken apart by one pattern: a rule of the project.
    let [letter, rest @ ..] = value.text else {
        return None;
    };
    let action = Action::try_from(char::from(*letter)).ok()?;
    let command = read_command(action, rest)?;
    let number = Part {
        text: rest,
        at: value.at + 1,
    };
    Some(Line::Step {
        value,
        number,
        action,
        command,
    })
}

// What the value under a key says, if it has the form that the key asks for and keeps its limits.
pub(crate) fn read_value<'a>(accepts: Accepted, key: Key, value: Part<'a>) -> Option<Line<'a>>
    requires { value.at < 2 ^ 32 }
    ensures says { option_map entry_of result ≡ entry_written accepts key value.entry.text.now }
    ensures parts { IfSome result (λ l. (value_of l ≡ value.entry) × Sound l) }
    ensures limits { IfSome result Limited }
{
    Some(match key {
        Key::Commands => Line::Commands {
            value,
            count: number_between(value.text, 1, 64)?,
        },
        Key::Kills => Line::Kills {
            value,
            count: number_up_to(value.text, 7)?,
        },
        Key::Cards => Line::Cards {
            value,
            count: number_between(value.text, 1, 8)?,
        },
        Key::Register => Line::Register {
            value,
            kind: read_kind(value.text, accepts)?,
        },
        Key::Move => Line::Move {
            value,
            taken: read_move(value.text)?,
        },
        Key::Step => read_step(value)?,
    })
}
