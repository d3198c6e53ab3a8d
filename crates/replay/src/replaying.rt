// The replay of a whole journal.
ghost use Rattle.std.specs.Prelude.{◌≡◌, true};
ghost use Rattle.hub_runs.specs.States.{SameSlices, held, lent, viewed};
ghost use Rattle.replay.specs.Header.{Heads};
ghost use Rattle.replay.specs.Replayed.{Replays, are_full};
ghost use Rattle.replay.specs.Standing.{Fitted, Played};
ghost use Rattle.replay.specs.Told.{Told, is_made};

use super::header::Header;
use super::steps::replay_steps;
use hub::make;
use hub_cards::{BackupNumber, Card, MasterNumber};
use hub_records::commands::Command;
use hub_records::hub::Hub;
use hub_tables::tables::{Tables, View};
use journal::kinds::Accepted;
use journal::reader::Reader;
use refusals::Refusal;
use registers::Register;

// Whether the tables have room for the largest hub. Its limits are written out, as where a hub is made.
fn are_full<R>(tables: View<'_, R>) -> bool
    ensures { result ≡ are_full (viewed tables.entry) }
{
    tables.lengths_fit(64, 8)
}

// Makes the hub of a header on tables of its size, and carries out the steps that follow.
fn replay_made<R: Register>(
    header: &Header,
    tables: &mut Tables<'_, R>,
    reader: &mut Reader<'_>,
) -> Result<Hub, Refusal>
    ensures played { (t : Told) → Heads header.now t → is_made t ≡ true → Fitted (held tables.old) t → reader.old.commands ≡ t.commands → Played R.figures R.start R.rule reader.old.accepts reader.old.text.now reader.old.place t result (held tables.new) }
    ensures slices { SameSlices tables.old tables.new }
{
    let mut hub = make(header.counts, header.moves.as_slice(), tables)?;
    replay_steps(&mut hub, tables, reader)?;
    Ok(hub)
}

// The same on slices that come one by one: parts of the slices of other tables have a lifetime each, and the tables that
// are built of them have to be built behind a call.
fn replay_on<R: Register>(
    header: &Header,
    commands: &mut [Command],
    masters: &mut [Card<BackupNumber>],
    master_registers: &mut [R],
    backups: &mut [Card<MasterNumber>],
    backup_registers: &mut [R],
    reader: &mut Reader<'_>,
) -> Result<Hub, Refusal>
    ensures { (t : Told) → Heads header.now t → is_made t ≡ true → Fitted (lent commands.old masters.old master_registers.old backups.old backup_registers.old) t → reader.old.commands ≡ t.commands → Played R.figures R.start R.rule reader.old.accepts reader.old.text.now reader.old.place t result (lent commands.new masters.new master_registers.new backups.new backup_registers.new) }
{
    let mut tables = Tables {
        commands,
        masters,
        master_registers,
        backups,
        backup_registers,
    };
    replay_made(header, &mut tables, reader)
}

/// Replays a journal on tables that have room for the largest hub, with registers of the caller's kind, which the journal
/// must name. The hub uses the first places of the tables. It is answered where the journal is replayed to its end.
/// Where a line is refused, by its form or by the hub, the tables are left as the run until then has them, or untouched if
/// no hub was made yet.
pub fn replay<R: Register>(journal: &[u8], tables: &mut Tables<'_, R>) -> Result<Hub, Refusal>
    ensures replays { Replays R.figures R.start R.rule R.kind journal.now (held tables.old) result (held tables.new) }
    ensures full { are_full (held tables.new) ≡ are_full (held tables.old) }
    ensures slices { SameSlices tables.old tables.new }
{
    if !are_full(tables.view()) {
        return Err(Refusal::WrongTableLength);
    }
    let mut reader = Reader::new(journal, Accepted::Only(R::kind()));
    let header = Header::read::<R>(&mut reader)?;
    let commands = header.counts.commands as usize;
    let cards = header.counts.cards as usize;
    replay_on(
        &header,
        &mut tables.commands[..commands],
        &mut tables.masters[..cards],
        &mut tables.master_registers[..cards],
        &mut tables.backups[..cards],
        &mut tables.backup_registers[..cards],
        &mut reader,
    )
}
