// A hub made, and any list of steps and looks carried out on it.
ghost use Rattle.std.specs.Prelude.{◌≡◌, map, length};
ghost use Rattle.hub_runs.specs.GoingOn.{GoesOn};
ghost use Rattle.hub_runs.specs.States.{SameSlices, held, size_of, state_in};
ghost use Rattle.hub_making.specs.Making.{asked};
ghost use Rattle.hub.specs.Calls.{call_of, reply_of};
ghost use Rattle.hub.specs.Running.{CarryOn, Runs};

use super::calls::{Answer, Call};
use super::looking::look;
use hub_making::{counts_fit, make};
use hub_records::hub::{Counts, Hub};
use hub_steps::step;
use hub_tables::tables::Tables;
use refusals::Refusal;
use registers::Register;

// One call, and what it is answered.
fn carry_out<R: Register>(
    hub: &mut Hub,
    tables: &mut Tables<'_, R>,
    call: Call,
) -> Result<Answer, Refusal>
    ensures size { size_of hub.new ≡ size_of hub.old }
    ensures goes_on { GoesOn R.start R.rule (size_of hub.old) (state_in R.figures hub.old (held tables.old)) (call_of call) (reply_of result) (state_in R.figures hub.new (held tables.new)) }
    ensures slices { SameSlices tables.old tables.new }
{
    match call {
        Call::Step { letter, command } => {
            step(hub, tables, letter, command)?;
            Ok(Answer::Stepped)
        }
        Call::Look => Ok(Answer::Seen(look(hub, tables.view())?)),
    }
}

// All calls, in order, each answer in its place.
fn carry_out_all<R: Register>(
    hub: &mut Hub,
    tables: &mut Tables<'_, R>,
    calls: &[Call],
    answers: &mut [Result<Answer, Refusal>],
)
    requires { length answers.old ≡ length calls.now }
    ensures size { size_of hub.new ≡ size_of hub.old }
    ensures carried { CarryOn R.start R.rule (size_of hub.old) (state_in R.figures hub.old (held tables.old)) (map call_of calls.now) (map reply_of answers.new) (state_in R.figures hub.new (held tables.new)) }
    ensures slices { SameSlices tables.old tables.new }
{
    // By index: tried with `answers.iter_mut().zip(calls)`, of which a proof knows only that the length stays.
    for (i, call) in calls.iter().enumerate() {
        answers[i] = carry_out(hub, tables, *call);
    }
}

/// Makes a hub and carries out a list of steps and looks on it, each answer in its place. The hub, the tables, the figures of
/// the registers and the answers are then those of the run of these calls, and everything that is promised of runs holds.
/// Where making is refused, or there is not one place for each answer, nothing is changed.
#[tactic(auto, using(crate::proofs::RunDone::not_made))]
pub fn run<R: Register>(
    counts: Counts,
    moves: &[i32],
    tables: &mut Tables<'_, R>,
    calls: &[Call],
    answers: &mut [Result<Answer, Refusal>],
) -> Result<Hub, Refusal>
    ensures runs { Runs R.figures R.start R.rule (asked counts) moves.now calls.now (held tables.old) answers.old result (held tables.new) answers.new }
    ensures slices { SameSlices tables.old tables.new }
{
    if counts_fit(counts) && answers.len() != calls.len() {
        return Err(Refusal::WrongTableLength);
    }
    let mut hub = make(counts, moves, tables)?;
    carry_out_all(&mut hub, tables, calls, answers);
    Ok(hub)
}
