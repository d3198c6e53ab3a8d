// Making a hub on tables that the caller lends.
#![tactic(auto)]

ghost use Rattle.std.specs.Prelude.{◌≡◌, ◌≤◌, false, map, length, replicate, MatchResult};
ghost use Rattle.hub_runs.specs.Runs.{first_card, fresh};
ghost use Rattle.hub_tables.specs.Lent.{SameSlices, held, viewed};
ghost use Rattle.hub_making.specs.Making.{all_lengths_fit, asked, counts_fit, first_outside, Makes, MakesRun, NewHub};

use hub_cards::{BackupNumber, Card, MasterNumber, Status};
use hub_records::commands::{Command, Phase};
use hub_records::hub::{Counts, ExecState, Hub};
use hub_tables::tables::{Tables, View};
use refusals::Refusal;
use registers::{Move, Register};

/// Whether the counts of a hub are within their limits: 1 to 64 commands, at most 7 losses, 1 to 8 cards of each role.
// The limits are written out, here and where a journal is read, replayed or shown: a constant of each would stand below all
// of these, where there are only refusals, actions and registers.
pub fn counts_fit(counts: Counts) -> bool
    ensures { result ≡ counts_fit (asked counts) }
{
    (1..=64).contains(&counts.commands) && counts.kills <= 7 && (1..=8).contains(&counts.cards)
}

// The record of a new hub, if the counts are within their limits.
fn new_hub(counts: Counts) -> Result<Hub, Refusal>
    ensures { MatchResult result (NewHub (asked counts)) (λ refusal. (counts_fit (asked counts) ≡ false) × (refusal ≡ Refusal.CountOutsideLimits)) }
{
    if !counts_fit(counts) {
        return Err(Refusal::CountOutsideLimits);
    }
    Ok(Hub {
        commands: counts.commands,
        kills: counts.kills,
        cards: counts.cards,
        state: ExecState::Running,
        losses: 0,
        steps: 0,
    })
}

// Whether there is one move and one record for each command, and one record and one register for each card.
fn one_each<R>(counts: Counts, moves: &[i32], tables: View<'_, R>) -> bool
    ensures { result ≡ all_lengths_fit (asked counts) moves.now (viewed tables.entry) }
{
    let commands = counts.commands as usize;
    moves.len() == commands && tables.lengths_fit(commands, counts.cards as usize)
}

// The number of the first move that is outside the limits, from 1.
fn first_outside(moves: &[i32]) -> Option<u32>
    requires { length moves.now ≤ 64 }
    ensures { result ≡ first_outside 1 moves.now }
{
    let first = moves.iter().position(|z| z.unsigned_abs() > Move::LIMIT);
    first.map(|i| i as u32 + 1)
}

// Writes a fresh command for each move.
fn set_commands(moves: &[i32], table: &mut [Command])
    requires { length table.old ≡ length moves.now }
    ensures { table.new ≡ map fresh moves.now }
{
    // By index: of `table.iter_mut().zip(moves)` a proof knows only that the length stays.
    for (i, &hundredths) in moves.iter().enumerate() {
        table[i] = Command {
            hundredths,
            phase: Phase::Pending,
            own_master: MasterNumber(1),
            own_backup: BackupNumber(0),
            message: None,
        };
    }
}

// Writes the first card as active, with its partner, and the others as unused.
fn set_cards<P: Copy>(cards: &mut [Card<P>], one: P, none: P)
    requires { 1 ≤ length cards.old }
    ensures { cards.new ≡ first_card one none (length cards.old) }
{
    let unused = Card::unused(none);
    cards.fill_with(|| unused);
    cards[0] = Card {
        status: Status::Active,
        partner: one,
        ..unused
    };
}

// Writes empty registers.
fn set_registers<R: Register>(registers: &mut [R])
    ensures { map R.figures registers.new ≡ replicate (length registers.old) R.start }
{
    let empty = R::empty();
    registers.fill_with(|| empty);
}

/// Makes a hub with so many commands, losses at most and cards of each role, and sets the tables as a run begins: every
/// command pending with its move, the first card of each role active and the other's partner, and every register empty.
/// From here on the calls on this hub are a run, of which everything holds that is promised of runs.
/// It is refused where a count is outside its limits, a table has another length than the counts say, or a move is
/// outside the limits, in this order; a refusal changes no table.
// `slices` stands wherever `&mut Tables` is taken: of a struct that holds a `&mut` a caller knows only what a clause says.
#[inline]
pub fn make<R: Register>(
    counts: Counts,
    moves: &[i32],
    tables: &mut Tables<'_, R>,
) -> Result<Hub, Refusal>
    ensures made { Makes R.figures R.start (asked counts) moves.now (held tables.old) result (held tables.new) }
    ensures run { MakesRun R.figures R.start R.rule (asked counts) moves.now (held tables.old) result (held tables.new) }
    ensures slices { SameSlices tables.old tables.new }
{
    let hub = new_hub(counts)?;
    if !one_each(counts, moves, tables.view()) {
        return Err(Refusal::WrongTableLength);
    }
    if let Some(command) = first_outside(moves) {
        return Err(Refusal::MoveOutsideLimits { command });
    }
    set_commands(moves, tables.commands);
    set_cards(tables.masters, BackupNumber(1), BackupNumber(0));
    set_registers(tables.master_registers);
    set_cards(tables.backups, MasterNumber(1), MasterNumber(0));
    set_registers(tables.backup_registers);
    Ok(hub)
}
