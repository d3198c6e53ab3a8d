// A step of one command, over the lent tables.
ghost use Rattle.std.specs.Prelude.{◌≡◌, suc, ◌<◌, ◌≤◌, ◌⊎◌, false, [], map, length, MatchOption};
ghost use Rattle.std.specs.List.{list_all};
ghost use Rattle.std.specs.Option.{option_map};
ghost use Rattle.hub_records.specs.Commands.{backup_in, is_done, master_in, the_backup, the_master};
ghost use Rattle.hub_cards.specs.Tables.{at, blank_card, put};
ghost use Rattle.hub_tables.specs.Search.{active_card};
ghost use Rattle.hub_runs.specs.Hubs.{has_taken};
ghost use Rattle.hub_steps.specs.Replied.{RegistersUntouched};
ghost use Rattle.hub_steps.specs.Applied.{HasRoom, applied, counted};
ghost use Rattle.hub_steps.specs.Seeing.{CommandSteps};
ghost use Rattle.hub_runs.specs.States.{SameSlices, size_of};
ghost use Rattle.hub_steps.specs.Counting.{once_counted};
ghost use Rattle.hub_steps.specs.Held.{state_held};
ghost use Rattle.hub_steps.specs.Stepping.{Fitting};

use actions::Action;
use hub_cards::{BackupNumber, Card, MasterNumber};
use hub_records::advance::{Effect, Seen};
use hub_records::commands::{Command, Message};
use hub_records::hub::{ExecState, Hub};
use hub_tables::search::active_card;
use hub_tables::tables::Tables;
use refusals::Refusal;
use registers::{Move, Register};

// The index of a number, where a table of this length has it.
fn index_of(number: usize, length: usize) -> Option<usize>
    ensures { MatchOption result ((number ≡ 0) ⊎ (length < number)) (λ i. (number ≡ suc i) × (i < length)) }
{
    number.checked_sub(1).filter(|&i| i < length)
}

// The card of this number; where there is none, a blank one.
fn card_at<P: Copy>(cards: &[Card<P>], number: usize, none: P) -> Card<P>
    ensures { result ≡ at (blank_card none) cards.now number }
{
    index_of(number, cards.len()).map_or(Card::unused(none), |i| cards[i])
}

// The numbers that a message carries; 0 where it carries none, since place 0 of a table reads as blank.
fn master_in(message: Option<Message>) -> usize
    ensures { result ≡ master_in message }
{
    message.map_or(0, |message| message.master().0)
}

fn backup_in(message: Option<Message>) -> usize
    ensures { result ≡ backup_in message }
{
    message
        .and_then(Message::backup)
        .map_or(0, |backup| backup.0)
}

// What a command with this message sees of the cards.
fn see<R>(message: Option<Message>, tables: &Tables<'_, R>) -> Seen
    ensures { result ≡ record { master = at (blank_card (the_backup 0)) tables.now.masters.now (master_in message); backup = at (blank_card (the_master 0)) tables.now.backups.now (backup_in message); active_master = option_map the_master (active_card tables.now.masters.now); active_backup = option_map the_backup (active_card tables.now.backups.now) } }
{
    Seen {
        master: card_at(tables.masters, master_in(message), BackupNumber(0)),
        backup: card_at(tables.backups, backup_in(message), MasterNumber(0)),
        active_master: active_card(tables.masters),
        active_backup: active_card(tables.backups),
    }
}

// The card of this number, if there is one, counts a command more.
fn count_command<P: Copy>(cards: &mut [Card<P>], number: usize)
    requires { (p : P) → (at (blank_card p) cards.old number).version < 4294967295 }
    ensures { (p : P) → cards.new ≡ put cards.old number (has_taken (at (blank_card p) cards.old number)) }
{
    if let Some(i) = index_of(number, cards.len()) {
        cards[i].version += 1;
    }
}

// The register of this number, if there is one, takes the move.
fn take_move<R: Register>(registers: &mut [R], number: usize, taken: Move)
    ensures { map R.figures registers.new ≡ put (map R.figures registers.old) number (R.rule (at [] (map R.figures registers.old) number) taken.hundredths) }
{
    if let Some(i) = index_of(number, registers.len()) {
        registers[i].take(taken);
    }
}

// Whether all commands are done.
fn are_all_done<R>(tables: &Tables<'_, R>) -> bool
    ensures { result ≡ list_all (λ command. is_done command.phase) tables.now.commands.now }
{
    tables
        .commands
        .iter()
        .all(|command| command.phase.is_done())
}

// What a command's step does besides moving the command on, over the commands as they then are. It is not counted yet.
// A hub and its tables come as two, here and above: the hub is the caller's own, and a struct of both would be two, as
// `Tables` and `View` are. `size`, `counts`, `registers` and `slices` stand in each contract: they speak of the values before
// and after the call, and no type holds that.
fn apply<R: Register>(effect: Effect, hub: &mut Hub, tables: &mut Tables<'_, R>, taken: Move)
    requires versions { HasRoom tables.old.masters.now tables.old.backups.now }
    ensures size { size_of hub.new ≡ size_of hub.old }
    ensures counts { (hub.new.losses ≡ hub.old.losses) × (hub.new.steps ≡ hub.old.steps) }
    ensures state { counted (state_held R.figures hub.new tables.new) ≡ applied R.rule effect taken.hundredths (state_held R.figures hub.old tables.old) }
    ensures slices { SameSlices tables.old tables.new }
{
    match effect {
        Effect::Nothing => {}
        Effect::MasterTakes(m) => {
            count_command(tables.masters, m.0);
            take_move(tables.master_registers, m.0, taken);
        }
        Effect::BackupTakes(b) => {
            count_command(tables.backups, b.0);
            take_move(tables.backup_registers, b.0, taken);
        }
        Effect::Completes => {
            if are_all_done(tables) {
                hub.state = ExecState::Success;
            }
        }
        Effect::GivesUp => hub.state = ExecState::Fatal,
    }
}

// The step of one command under an action: the command moves on in its place of the lent table. It is not counted yet.
pub(crate) fn step_command<R: Register>(
    hub: &mut Hub,
    tables: &mut Tables<'_, R>,
    action: Action,
    command: usize,
) -> Result<(), Refusal>
    requires fitting { Fitting (size_of hub.old) (state_held R.figures hub.old tables.old) }
    requires some { 1 ≤ command }
    requires inside { command ≤ hub.old.commands }
    ensures size { size_of hub.new ≡ size_of hub.old }
    ensures counts { (hub.new.losses ≡ hub.old.losses) × (hub.new.steps ≡ hub.old.steps) }
    ensures answered { CommandSteps R.rule action command (state_held R.figures hub.old tables.old) result (once_counted false result (state_held R.figures hub.new tables.new)) }
    ensures registers { RegistersUntouched result tables.old tables.new }
    ensures slices { SameSlices tables.old tables.new }
{
    let index = command - 1;
    let current = tables.commands[index];
    // Tables that fit hold no number that is not a move.
    let Ok(taken) = Move::try_from(current.hundredths) else {
        unreachable!();
    };
    let seen = see(current.message, tables);
    let effect = tables.commands[index].advance(action, &seen)?;
    apply(effect, hub, tables, taken);
    Ok(())
}
