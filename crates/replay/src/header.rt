// Reading the header of a journal: the counts, the register and the moves.
ghost use Rattle.std.specs.Prelude.{◌≤◌};

use arrayvec::ArrayVec;
use hub_records::hub::Counts;
use journal::lines::Line;
use journal::reader::Reader;
use refusals::Refusal;
use registers::Register;

/// The counts of a journal, and the moves so far, of which no journal has more than 64.
// What was told so far stands in clauses, as `Heads`: it is about the journal, which no value here holds.
#[derive(Drop)]
pub(crate) struct Header {
    pub(crate) counts: Counts,
    pub(crate) moves: ArrayVec<i32, 64>,
    ghost few_commands: { counts.commands ≤ 64 },
}

impl Header {
    ghost use Rattle.std.specs.Prelude.{◌≡◌};
    ghost use Rattle.journal.specs.Lines.{entry_of, Limited};
    ghost use Rattle.replay.specs.Header.{HeadNoted, HeadRead, Heads};
    ghost use Rattle.replay.specs.Told.{Told, head_noted, is_made, nothing_told};

    // The counts before any line was read, and no Options: `is_complete` is false until the line of the commands, and no hub is
    // made before.
    fn new() -> Header
        ensures { Heads result nothing_told }
    {
        Header {
            counts: Counts {
                commands: 0,
                kills: 0,
                cards: 1,
            },
            moves: ArrayVec::new(),
        }
    }

    // Whether each command has its move.
    fn is_complete(&self) -> bool
        ensures { (t : Told) → Heads self.now t → result ≡ is_made t }
    {
        self.counts.commands >= 1 && self.moves.len() == self.counts.commands as usize
    }

    // Notes the line of this number. A step is not due yet, nor a move for which there is no command.
    fn note(&mut self, line: Line<'_>, number: u32) -> Result<(), Refusal>
        requires { Limited line }
        ensures { (t : Told) → Heads self.old t → HeadNoted (head_noted number t (entry_of line.entry)) result self.new }
    {
        match line {
            Line::Commands { count, .. } => self.counts.commands = count,
            Line::Kills { count, .. } => self.counts.kills = count,
            Line::Cards { count, .. } => self.counts.cards = count,
            Line::Register { .. } => {}
            Line::Move { taken, .. } if self.moves.len() < self.counts.commands as usize => {
                self.moves.push(taken.hundredths());
            }
            Line::Move { .. } | Line::Step { .. } => {
                return Err(Refusal::LineNotDue { line: number });
            }
        }
        Ok(())
    }

    // Reads the header with a reader that stands at the start of its journal. On a refusal the hub is not made.
    pub(crate) fn read<R: Register>(reader: &mut Reader<'_>) -> Result<Header, Refusal>
        requires place { reader.old.place ≡ record { at = 0; line = 1 } }
        requires commands { reader.old.commands ≡ 0 }
        ensures read { HeadRead reader.old.accepts R.start R.rule reader.old.text.now result reader.new.place reader.new.commands }
        ensures same { (reader.new.text ≡ reader.old.text) × (reader.new.accepts ≡ reader.old.accepts) }
    {
        let mut header = Header::new();
        // No `while let`: a line's number is asked before the line is taken.
        while !header.is_complete() {
            let number = reader.place().line;
            let line = reader
                .next_line()?
                .ok_or(Refusal::LineNotDue { line: number })?;
            header.note(line, number)?;
        }
        Ok(header)
    }
}
