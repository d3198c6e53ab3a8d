// A reader over a lent journal, which hands out line after line.
ghost use Rattle.std.specs.Prelude.{IfOk, IfSome, ◌≡◌, ◌+◌, ◌≤◌, ◌&&◌, length, drop};
ghost use Rattle.journal.specs.Keys.{may_end};
ghost use Rattle.journal.specs.Lines.{entry_of, Limited};
ghost use Rattle.journal.specs.Outcomes.{Moves, commands_after, is_end, next_result, outcome_at};
ghost use Rattle.journal.specs.Rows.{rows_of};

use super::due::take_line;
use super::keys::Key;
use super::kinds::Accepted;
use super::lines::Line;
use super::place::Place;
use refusals::Refusal;

// The longest journal that is read, in bytes.
pub const LONGEST: usize = 65536;

// A journal, the place of its next line, and how many commands it has told of: 0 before that line, and no Option, as which
// line is due depends on it only from the fifth line on.
#[derive(Drop)]
pub struct Reader<'a> {
    text: &'a [u8],
    place: Place,
    commands: u32,
    accepts: Accepted,
    ghost inside: { place.at ≤ length text.now },
    ghost counted: { place.line ≤ place.at + 1 },
}

impl<'a> Reader<'a> {
    // A reader at the start of a journal. One that is too long is refused when its first line is asked for.
    pub fn new(text: &'a [u8], accepts: Accepted) -> Reader<'a>
        ensures { (result.text ≡ text.entry) × ((result.place ≡ record { at = 0; line = 1 }) × ((result.commands ≡ 0) × (result.accepts ≡ accepts))) }
    {
        let place = Place { at: 0, line: 1 };
        Reader {
            text,
            place,
            commands: 0,
            accepts,
        }
    }

    // The place of the line that comes next.
    pub fn place(&self) -> Place
        ensures { result ≡ self.now.place }
    {
        self.place
    }

    // The next line; none where the journal ends as it may. On a refusal the reader stays where it is.
    pub fn next_line(&mut self) -> Result<Option<Line<'a>>, Refusal>
        ensures says { next_result result ≡ outcome_at self.old.accepts self.old.commands self.old.place self.old.text.now }
        ensures moves { Moves result self.old.text.now self.old.place self.new.place self.old.commands self.new.commands }
        ensures same { (self.new.text ≡ self.old.text) × (self.new.accepts ≡ self.old.accepts) }
        ensures limits { IfOk result (λ answer. IfSome answer Limited) }
    {
        let text = self.text;
        if text.len() > LONGEST {
            return Err(Refusal::JournalTooLong);
        }
        let accepts = self.accepts;
        let key = Key::due(self.place.line, self.commands);
        if has_ended(text, self.place.at, key) {
            return Ok(None);
        }
        let line = take_line(text, &mut self.place, key, accepts)?;
        self.commands = commands_after(self.commands, line);
        Ok(Some(line))
    }
}

// How many commands the journal is known to have after this line.
fn commands_after(known: u32, line: Line<'_>) -> u32
    ensures { result ≡ commands_after known (entry_of line.entry) }
{
    match line {
        Line::Commands { value: _, count } => count,
        _ => known,
    }
}

// Whether the journal ends at this place, and may end there.
#[tactic(auto, using(crate::proofs::Outcomes::ends_from))]
fn has_ended(text: &[u8], at: usize, key: Key) -> bool
    ensures { result ≡ (may_end key && is_end (rows_of (drop at text.now))) }
{
    key.may_end() && at >= text.len()
}
