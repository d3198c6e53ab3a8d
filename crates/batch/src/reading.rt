// Reading a whole journal into a batch.
ghost use Rattle.std.specs.Prelude.{◌≡◌, ℕ, ◌+◌, ◌<◌, slice_index};
ghost use Rattle.journal.specs.Values.{move, step};
ghost use Rattle.journal.specs.Lines.{entry_of};
ghost use Rattle.batch.specs.Holds.{Holds, Reads, AtMost};
ghost use Rattle.batch.specs.Reading.{told_by};
ghost use Rattle.batch.specs.Told.{Told, nothing_told, with_entry};

use super::batch::Batch;
use actions::Action;
use journal::kinds::Accepted;
use journal::lines::Line;
use journal::reader::Reader;
use refusals::Refusal;
use registers::{Move, Register};

// What a batch holds, and how often a letter was counted at most, stand in clauses and not in the type: both grow with each line.
impl<R: Register> Batch<R> {
    // A batch of which no line was read.
    fn empty() -> Batch<R>
        ensures holds { Holds R.figures R.start R.rule result nothing_told }
        ensures few { AtMost 0 result.letters }
    {
        Batch {
            commands: 0,
            kills: 0,
            cards: 0,
            kind: None,
            register: R::empty(),
            letters: [0; 18],
        }
    }

    // Takes the move of the next command.
    #[tactic(auto, using(std::proofs::lemmas::List::Sums::fold_push))]
    fn take_move(&mut self, taken: Move)
        ensures holds { (t : Told) → Holds R.figures R.start R.rule self.old t → Holds R.figures R.start R.rule self.new (with_entry t (move taken.hundredths)) }
        ensures few { self.new.letters ≡ self.old.letters }
    {
        self.register.take(taken);
    }

    // Counts a step under its letter.
    fn count_step(&mut self, action: Action)
        requires { (k : ℕ) → slice_index self.old.letters k < 65537 }
        ensures holds { (t : Told) → (c : ℕ) → Holds R.figures R.start R.rule self.old t → Holds R.figures R.start R.rule self.new (with_entry t (step action c)) }
        ensures few { (n : ℕ) → AtMost n self.old.letters → AtMost (n + 1) self.new.letters }
    {
        self.letters[action.place()] += 1;
    }

    // Notes what a line says.
    fn note(&mut self, line: Line<'_>)
        requires { AtMost 65536 self.old.letters }
        ensures holds { (t : Told) → Holds R.figures R.start R.rule self.old t → Holds R.figures R.start R.rule self.new (with_entry t (entry_of line.entry)) }
        ensures few { (n : ℕ) → AtMost n self.old.letters → AtMost (n + 1) self.new.letters }
    {
        match line {
            Line::Commands { count, .. } => self.commands = count,
            Line::Kills { count, .. } => self.kills = count,
            Line::Cards { count, .. } => self.cards = count,
            Line::Register { kind, .. } => self.kind = Some(kind),
            Line::Move { taken, .. } => self.take_move(taken),
            Line::Step { action, .. } => self.count_step(action),
        }
    }
}

// The batch that a journal tells of, with the moves in a register of the caller's choice.
pub fn read_batch<R: Register>(journal: &[u8]) -> Result<Batch<R>, Refusal>
    ensures { Reads R.figures R.start R.rule result (told_by journal.now) }
{
    let mut reader = Reader::new(journal, Accepted::AnyNamed);
    let mut batch = Batch::empty();
    while let Some(line) = reader.next_line()? {
        batch.note(line);
    }
    Ok(batch)
}
