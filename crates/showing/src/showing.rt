// A journal is replayed, and its hub is reported, or the fault for which the replay stops.
ghost use Rattle.std.specs.Prelude.{◌≡◌, ◌*◌, ◌<◌, ◌^◌, length, true};
ghost use Rattle.std.specs.Mem.{type_size};
ghost use Rattle.registers.specs.Numbers.{code_of};
ghost use Rattle.hub_runs.specs.States.{viewed};
ghost use Rattle.report.specs.Shown.{Shows};
ghost use Rattle.hub_report.specs.ReportText.{report_text};
ghost use Rattle.replay.specs.Replayed.{are_full, front};
ghost use Rattle.replay.specs.Standing.{Stands};
ghost use Rattle.replay.specs.Told.{Told, state_told};
ghost use Rattle.showing.specs.Showing.{TriedWith, is_of_another, number_shown, text_shown};

use hub_cards::{BackupNumber, Card, MasterNumber};
use hub_records::commands::Command;
use hub_records::hub::Hub;
use hub_report::report_text;
use hub_tables::tables::{Tables, View};
use refusals::Refusal;
use registers::{Classes, Peak, Register, Sum};
use replay::replay;
use report::{Shown, show_fault};

// Shows the report of a hub that uses the first places of these tables, which have room for the largest hub.
// Each slice is cut by itself, since each is of a type of its own.
fn show_report<R: Register>(
    hub: &Hub,
    tables: View<'_, R>,
    out: &mut [u8],
) -> Result<Shown, Refusal>
    requires { are_full (viewed tables) ≡ true }
    ensures { (told : Told) → Stands R.figures R.start R.rule hub.now (front told (viewed tables.entry)) told → Shows (report_text (code_of R.kind) (state_told R.start R.rule told)) 1 out.old result out.new }
{
    let commands = hub.commands as usize;
    let cards = hub.cards as usize;
    let used = View {
        commands: &tables.commands[..commands],
        masters: &tables.masters[..cards],
        master_registers: &tables.master_registers[..cards],
        backups: &tables.backups[..cards],
        backup_registers: &tables.backup_registers[..cards],
    };
    report_text(hub, used, out).map(Shown::Text)
}

// The refusal of a journal whose line 4 names a register that is not accepted.
const ANOTHER_REGISTER: Refusal = Refusal::ValueNotAllowed { line: 4 };

// Whether a replay is refused because the journal names another register.
fn is_of_another(refusal: Refusal) -> bool
    ensures { result ≡ is_of_another refusal }
{
    refusal == ANOTHER_REGISTER
}

// With registers of one kind, on tables that have room for the largest hub, 64 commands and 8 cards of a role; none where the
// journal names another register. Commands and cards come one by one: they are made once for all kinds, and the registers of a
// kind join them here, where a `Tables` over all of them can be built.
fn show_with<R: Register>(
    journal: &[u8],
    commands: &mut [Command],
    masters: &mut [Card<BackupNumber>],
    backups: &mut [Card<MasterNumber>],
    out: &mut [u8],
) -> Option<Result<Shown, Refusal>>
    requires room { (length commands.old ≡ 64) × ((length masters.old ≡ 8) × (length backups.old ≡ 8)) }
    requires size { 8 * type_size R.row < 2 ^ 63 }
    ensures { TriedWith R.kind R.start R.rule journal.now out.old result out.new }
{
    let mut tables = Tables {
        commands,
        masters,
        master_registers: &mut [R::empty(); 8],
        backups,
        backup_registers: &mut [R::empty(); 8],
    };
    match replay(journal, &mut tables) {
        Ok(hub) => Some(show_report(&hub, tables.view(), out)),
        Err(refusal) if is_of_another(refusal) => None,
        Err(refusal) => Some(show_fault(refusal, out)),
    }
}

/// Shows a journal: the report of its hub, with the register that it names, or the fault for which its replay stops.
/// A buffer that is too short is left as it was, and the answer says how long it should be.
pub fn show(journal: &[u8], out: &mut [u8]) -> Result<Shown, Refusal>
    ensures { Shows (text_shown journal.now) (number_shown journal.now) out.old result out.new }
{
    let mut commands = [Command::blank(); 64];
    let mut masters = [Card::unused(BackupNumber(0)); 8];
    let mut backups = [Card::unused(MasterNumber(0)); 8];
    // By `if let`, tried by `or_else`: of a buffer that a closure may write to, a proof knows only the length afterwards.
    if let Some(shown) = show_with::<Sum>(journal, &mut commands, &mut masters, &mut backups, out) {
        return shown;
    }
    if let Some(shown) = show_with::<Classes>(
        journal,
        &mut commands,
        &mut masters,
        &mut backups,
        out,
    ) {
        return shown;
    }
    if let Some(shown) = show_with::<Peak>(
        journal,
        &mut commands,
        &mut masters,
        &mut backups,
        out,
    ) {
        return shown;
    }
    show_fault(ANOTHER_REGISTER, out)
}
