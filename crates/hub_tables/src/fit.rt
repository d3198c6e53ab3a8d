// Whether the tables of a hub fit together.
ghost use Rattle.std.specs.Prelude.{◌≡◌, length};
ghost use Rattle.std.specs.List.{list_all};
ghost use Rattle.hub_tables.specs.Fit.{card_fits, command_fits, fits, has_room, lengths_fit, message_fits, numbers_fit, pair_fits};

use super::tables::View;
use hub_cards::{BackupNumber, Card, CardNumber, MasterNumber};
use hub_records::commands::{Command, Message, Phase};
use hub_records::hub::Hub;
use registers::Move;

// Whether a count has room for one more.
fn has_room(count: u32) -> bool
    ensures { result ≡ has_room count }
{
    count < u32::MAX
}

// Whether both numbers are of so many cards.
fn pair_fits(cards: usize, master: MasterNumber, backup: BackupNumber) -> bool
    ensures { result ≡ pair_fits cards master backup }
{
    master.0 <= cards && backup.0 <= cards
}

// Whether the numbers that a message carries are of so many cards.
fn numbers_fit(cards: usize, message: Message) -> bool
    ensures { result ≡ numbers_fit cards message }
{
    message.master().0 <= cards && message.backup().is_none_or(|backup| backup.0 <= cards)
}

// Whether a command in this phase may hold this message, or none.
fn message_fits(cards: usize, phase: Phase, message: Option<Message>) -> bool
    ensures { result ≡ message_fits cards phase message }
{
    message.is_none_or(|message| phase == Phase::Working && numbers_fit(cards, message))
}

fn command_fits(cards: usize, command: Command) -> bool
    ensures { result ≡ command_fits cards command }
{
    command.hundredths.unsigned_abs() <= Move::LIMIT
        && pair_fits(cards, command.own_master, command.own_backup)
        && message_fits(cards, command.phase, command.message)
}

fn card_fits<P: CardNumber>(cards: usize, card: Card<P>) -> bool
    ensures { result ≡ card_fits P.CardNumber.plain cards card }
{
    card.partner.number() <= cards && has_room(card.version)
}

fn commands_fit(cards: usize, commands: &[Command]) -> bool
    ensures { result ≡ list_all (command_fits cards) commands.now }
{
    commands.iter().all(|&command| command_fits(cards, command))
}

fn cards_fit<P: CardNumber>(cards: usize, table: &[Card<P>]) -> bool
    ensures { result ≡ list_all (card_fits P.CardNumber.plain cards) table.now }
{
    table.iter().all(|&card| card_fits(cards, card))
}

// Whether there are so many commands, and so many cards and registers of each role, of tables that are given by their lengths.
#[inline]
fn lengths_fit(
    commands: usize,
    cards: usize,
    of_commands: usize,
    of_masters: usize,
    of_master_registers: usize,
    of_backups: usize,
    of_backup_registers: usize,
) -> bool
    ensures { result ≡ lengths_fit commands cards of_commands of_masters of_master_registers of_backups of_backup_registers }
{
    of_commands == commands
        && of_masters == cards
        && of_master_registers == cards
        && of_backups == cards
        && of_backup_registers == cards
}

/// Whether the tables of a hub fit together: their lengths are those that the hub has, no record has the number of a card
/// that there is not, each move keeps to the limits, only working commands hold a message, and every count has room.
/// The tables of registers are given by their lengths: a caller may ask before there are any.
#[inline]
pub fn tables_fit(
    hub: &Hub,
    commands: &[Command],
    masters: &[Card<BackupNumber>],
    master_registers: usize,
    backups: &[Card<MasterNumber>],
    backup_registers: usize,
) -> bool
    ensures { result ≡ fits hub.now.commands hub.now.cards commands.now masters.now backups.now hub.now.steps master_registers backup_registers }
{
    let cards = hub.cards as usize;
    lengths_fit(
        hub.commands as usize,
        cards,
        commands.len(),
        masters.len(),
        master_registers,
        backups.len(),
        backup_registers,
    ) && has_room(hub.steps)
        && commands_fit(cards, commands)
        && cards_fit(cards, masters)
        && cards_fit(cards, backups)
}

impl<R> View<'_, R> {
    /// Whether there are so many commands, and so many cards and registers of each role.
    pub fn lengths_fit(&self, commands: usize, cards: usize) -> bool
        ensures { result ≡ lengths_fit commands cards (length self.now.commands.now) (length self.now.masters.now) (length self.now.master_registers.now) (length self.now.backups.now) (length self.now.backup_registers.now) }
    {
        lengths_fit(
            commands,
            cards,
            self.commands.len(),
            self.masters.len(),
            self.master_registers.len(),
            self.backups.len(),
            self.backup_registers.len(),
        )
    }

    /// Whether the tables of a hub fit together: `tables_fit` of these tables.
    pub fn fit(&self, hub: &Hub) -> bool
        ensures { result ≡ fits hub.now.commands hub.now.cards self.now.commands.now self.now.masters.now self.now.backups.now hub.now.steps (length self.now.master_registers.now) (length self.now.backup_registers.now) }
    {
        let master_registers = self.master_registers.len();
        let backup_registers = self.backup_registers.len();
        tables_fit(
            hub,
            self.commands,
            self.masters,
            master_registers,
            self.backups,
            backup_registers,
        )
    }
}
