// The step of a hub, over the tables that the caller lends.
ghost use Rattle.std.specs.Prelude.{◌≡◌, true};
ghost use Rattle.actions.specs.Letters.{is_loss};
ghost use Rattle.hub_runs.specs.Judging.{is_numbered, is_running, judged, may_lose};
ghost use Rattle.hub_steps.specs.Answered.{Answered};
ghost use Rattle.hub_steps.specs.Counting.{in_order, once_counted};
ghost use Rattle.hub_steps.specs.Held.{state_held};
ghost use Rattle.hub_steps.specs.Replied.{RegistersUntouched, Replied, step_reply};
ghost use Rattle.hub_runs.specs.States.{SameSlices, held, size_of, state_in};
ghost use Rattle.hub_runs.specs.Fits.{step_answer};
ghost use Rattle.hub_steps.specs.Stepping.{Fitting};
ghost use Rattle.hub_steps.specs.Steps.{Steps};

use super::card_steps::{create, lose};
use super::command_steps::step_command;
use actions::Action;
use hub_cards::{BackupNumber, MasterNumber};
use hub_records::hub::{ExecState, Hub};
use hub_tables::tables::Tables;
use refusals::Refusal;
use registers::Register;

// Whether the number is one that the action asks for: of a command of the hub, or 0 for an action of the cards alone, which
// by a rule of the project goes under that number.
fn is_numbered(hub: &Hub, action: Action, command: usize) -> bool
    ensures { result ≡ is_numbered (size_of hub.now) action command }
{
    if action.is_of_command() {
        (1..=hub.commands as usize).contains(&command)
    } else {
        command == 0
    }
}

// Whether a loss, if the action is one, is still within what the hub is rated for.
fn may_lose(hub: &Hub, action: Action) -> bool
    ensures { result ≡ may_lose (size_of hub.now) action hub.now.losses }
{
    !action.is_loss() || hub.losses < hub.kills
}

fn is_running(hub: &Hub) -> bool
    ensures { result ≡ is_running hub.now.state }
{
    hub.state == ExecState::Running
}

// Does what the action asks for, on a hub that runs and whose tables fit. It is not counted yet.
// A match, and no closure for each action: the list is closed, and each takes other parts of the tables.
// That they fit is asked, as `Fitting`, of this function, its caller and `step_command`. No type can hold it as a ghost
// field: a step may take the last room that a count has.
fn carry_out<R: Register>(
    hub: &mut Hub,
    tables: &mut Tables<'_, R>,
    action: Action,
    command: usize,
) -> Result<(), Refusal>
    requires fitting { Fitting (size_of hub.old) (state_held R.figures hub.old tables.old) }
    requires numbered { is_numbered (size_of hub.old) action command ≡ true }
    ensures size { size_of hub.new ≡ size_of hub.old }
    ensures counts { (hub.new.losses ≡ hub.old.losses) × (hub.new.steps ≡ hub.old.steps) }
    ensures answered { let before = state_held R.figures hub.old tables.old in Replied (in_order (size_of hub.old) R.rule action command before) before result (once_counted (is_loss action) result (state_held R.figures hub.new tables.new)) }
    ensures registers { RegistersUntouched result tables.old tables.new }
    ensures slices { SameSlices tables.old tables.new }
{
    match action {
        Action::CreatingNewBackup => create::<MasterNumber, BackupNumber, R>(
            tables.masters,
            tables.master_registers,
            tables.backups,
            tables.backup_registers,
            hub.cards,
        ),
        Action::CreatingNewMaster => create::<BackupNumber, MasterNumber, R>(
            tables.backups,
            tables.backup_registers,
            tables.masters,
            tables.master_registers,
            hub.cards,
        ),
        Action::KillingMaster => lose::<MasterNumber>(tables.masters),
        Action::KillingBackup => lose::<BackupNumber>(tables.backups),
        _ => step_command(hub, tables, action, command),
    }
}

// The step under an action, on tables that fit, of a hub that runs.
fn step_under<R: Register>(
    hub: &mut Hub,
    tables: &mut Tables<'_, R>,
    action: Action,
    command: usize,
) -> Result<(), Refusal>
    requires fitting { Fitting (size_of hub.old) (state_held R.figures hub.old tables.old) }
    ensures size { size_of hub.new ≡ size_of hub.old }
    ensures answered { let before = state_held R.figures hub.old tables.old in Replied (judged (size_of hub.old) R.rule action command before) before result (state_held R.figures hub.new tables.new) }
    ensures registers { RegistersUntouched result tables.old tables.new }
    ensures slices { SameSlices tables.old tables.new }
{
    if !is_numbered(hub, action, command) {
        return Err(Refusal::NoSuchCommand);
    }
    if !may_lose(hub, action) {
        return Err(Refusal::LossesUsedUp);
    }
    carry_out(hub, tables, action, command)?;
    if action.is_loss() {
        hub.losses += 1;
    }
    hub.steps += 1;
    Ok(())
}

// The step, judged and carried out.
fn answer_step<R: Register>(
    hub: &mut Hub,
    tables: &mut Tables<'_, R>,
    letter: char,
    command: usize,
) -> Result<(), Refusal>
    ensures size { size_of hub.new ≡ size_of hub.old }
    ensures answered { let before = state_held R.figures hub.old tables.old in Replied (step_answer (size_of hub.old) R.rule letter command before) before result (state_held R.figures hub.new tables.new) }
    ensures registers { RegistersUntouched result tables.old tables.new }
    ensures slices { SameSlices tables.old tables.new }
{
    if !tables.view().fit(hub) {
        return Err(Refusal::TablesMisfit);
    }
    if !is_running(hub) {
        return Err(Refusal::HubFinished);
    }
    let action = Action::try_from(letter).map_err(|_| Refusal::UnknownLetter)?;
    step_under(hub, tables, action, command)
}

/// A step, by its letter and the number of its command, which is 0 for a step of the cards alone.
/// It is refused where the tables do not fit together, and else for the causes that the model gives, in rising order; a
/// refused step changes nothing. An accepted step is the module's action under the letter, and leads to its next state.
/// A run goes on as a run: what is promised of runs holds after the step as well.
pub fn step<R: Register>(
    hub: &mut Hub,
    tables: &mut Tables<'_, R>,
    letter: char,
    command: usize,
) -> Result<(), Refusal>
    ensures size { size_of hub.new ≡ size_of hub.old }
    ensures answered { let before = state_in R.figures hub.old (held tables.old) in Answered (step_answer (size_of hub.old) R.rule letter command before) before result (state_in R.figures hub.new (held tables.new)) }
    ensures steps { Steps R.start R.rule (size_of hub.old) letter command (state_in R.figures hub.old (held tables.old)) (step_reply result) (state_in R.figures hub.new (held tables.new)) }
    ensures registers { RegistersUntouched result tables.old tables.new }
    ensures slices { SameSlices tables.old tables.new }
{
    answer_step(hub, tables, letter, command)
}
