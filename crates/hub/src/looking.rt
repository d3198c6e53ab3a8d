// A look at a hub.
ghost use Rattle.std.specs.Prelude.{◌≡◌};
ghost use Rattle.hub_runs.specs.Runs.{count_done};
ghost use Rattle.hub_runs.specs.States.{size_of, state_in, viewed};
ghost use Rattle.hub.specs.Looking.{LastCard, Looks};

use hub_cards::{BackupNumber, Card, CardNumber, MasterNumber};
use hub_records::commands::Command;
use hub_records::hub::Hub;
use hub_records::look::Look;
use hub_tables::search::last_card;
use hub_tables::tables::View;
use refusals::Refusal;
use registers::Register;

// How many commands are done.
fn count_done(commands: &[Command]) -> usize
    ensures { result ≡ count_done commands.now }
{
    commands
        .iter()
        .filter(|command| command.phase.is_done())
        .count()
}

// The number of the last card of a role, which is 0 for none, and its version.
#[tactic(auto, using(crate::proofs::Looked::last_within))]
fn last_of<N: CardNumber>(cards: &[Card<N::Partner>]) -> (N, u32)
    ensures { LastCard N.CardNumber.plain cards.now result }
{
    last_card::<N>(cards).map_or((N::new(0), 0), |last| {
        (last, cards[last.number() - 1].version)
    })
}

/// What is to be seen of a hub: how it stands, its steps and losses, how many commands are done, and the last card of each
/// role. It is refused where the tables do not fit together. In a run it is what the run sees, and changes nothing.
pub fn look<R: Register>(hub: &Hub, tables: View<'_, R>) -> Result<Look, Refusal>
    ensures { Looks R.start R.rule (size_of hub.now) (state_in R.figures hub.now (viewed tables.entry)) result }
{
    if !tables.fit(hub) {
        return Err(Refusal::TablesMisfit);
    }
    let (master, master_version) = last_of::<MasterNumber>(tables.masters);
    let (backup, backup_version) = last_of::<BackupNumber>(tables.backups);
    Ok(Look {
        state: hub.state,
        steps: hub.steps,
        losses: hub.losses,
        done: count_done(tables.commands),
        master,
        master_version,
        backup,
        backup_version,
    })
}
