// Carrying out the steps of a journal on a hub that was made.
ghost use Rattle.std.specs.Prelude.{◌≡◌};
ghost use Rattle.hub_runs.specs.States.{SameSlices, held};
ghost use Rattle.journal.specs.Lines.{entry_of};
ghost use Rattle.replay.specs.Standing.{Stands, StepNoted, StepsRead};
ghost use Rattle.replay.specs.Told.{Told, step_noted};

use hub::step;
use hub_records::hub::Hub;
use hub_tables::tables::Tables;
use journal::lines::Line;
use journal::reader::Reader;
use refusals::Refusal;
use registers::Register;

// Carries out the step of the line of this number. No other line is due once the hub is made. That hub and tables stand as
// the journal tells is in clauses, as `Stands`: no value here holds the journal.
fn note_step<R: Register>(
    hub: &mut Hub,
    tables: &mut Tables<'_, R>,
    line: Line<'_>,
    at: u32,
) -> Result<(), Refusal>
    ensures noted { (t : Told) → Stands R.figures R.start R.rule hub.old (held tables.old) t → StepNoted (step_noted R.start R.rule at t (entry_of line.entry)) result (Stands R.figures R.start R.rule hub.new (held tables.new)) t }
    ensures slices { SameSlices tables.old tables.new }
{
    let Line::Step {
        action,
        command,
        ..
    } = line
    else {
        return Err(Refusal::LineNotDue { line: at });
    };
    step(hub, tables, action.into(), command as usize).map_err(|_| Refusal::StepDenied { line: at })
}

// Carries out the steps from the reader's place on, until the journal ends or a line stops the replay.
pub(crate) fn replay_steps<R: Register>(
    hub: &mut Hub,
    tables: &mut Tables<'_, R>,
    reader: &mut Reader<'_>,
) -> Result<(), Refusal>
    ensures read { (t : Told) → Stands R.figures R.start R.rule hub.old (held tables.old) t → reader.old.commands ≡ t.commands → StepsRead reader.old.accepts R.start R.rule reader.old.text.now reader.old.place t result (Stands R.figures R.start R.rule hub.new (held tables.new)) }
    ensures slices { SameSlices tables.old tables.new }
{
    // No `while let`: a line's number is asked before the line is taken.
    loop {
        let at = reader.place().line;
        let Some(line) = reader.next_line()? else {
            return Ok(());
        };
        note_step(hub, tables, line, at)?;
    }
}
