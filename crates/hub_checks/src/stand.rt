// A hub with its tables, of one command and two cards of each role; and what a test says of it.
ghost use Rattle.std.specs.Prelude.{◌≤◌};

use hub::{look, step};
use hub_cards::*;
use hub_records::commands::*;
use hub_records::hub::*;
use hub_records::look::Look;
use hub_tables::tables::{Tables, View};
use refusals::Refusal;
use registers::{Register, Sum};

// Tables for so many commands, and so many cards of each role.
#[derive(Clone, Copy, Debug, PartialEq, Eq)]
pub struct OwnTables<const COMMANDS: usize, const CARDS: usize> {
    pub commands: [Command; COMMANDS],
    pub masters: [Card<BackupNumber>; CARDS],
    pub master_registers: [Sum; CARDS],
    pub backups: [Card<MasterNumber>; CARDS],
    pub backup_registers: [Sum; CARDS],
}

impl<const COMMANDS: usize, const CARDS: usize> OwnTables<COMMANDS, CARDS> {
    // Two methods, as there are two structs: no type is generic over whether its references may write.
    pub fn lend(&mut self) -> Tables<'_, Sum> {
        Tables {
            commands: &mut self.commands,
            masters: &mut self.masters,
            master_registers: &mut self.master_registers,
            backups: &mut self.backups,
            backup_registers: &mut self.backup_registers,
        }
    }

    pub fn view(&self) -> View<'_, Sum> {
        View {
            commands: &self.commands,
            masters: &self.masters,
            master_registers: &self.master_registers,
            backups: &self.backups,
            backup_registers: &self.backup_registers,
        }
    }
}

#[derive(Clone, Copy, Debug, PartialEq, Eq)]
pub struct Stand {
    pub hub: Hub,
    pub tables: OwnTables<1, 2>,
}

pub fn command(phase: Phase, message: Option<Message>) -> Command {
    Command {
        hundredths: 25,
        phase,
        own_master: MasterNumber(1),
        own_backup: BackupNumber(0),
        message,
    }
}

// A card whose partner has this number.
pub fn card<P: CardNumber>(status: Status, number: usize, version: u32) -> Card<P> {
    Card {
        status,
        partner: P::new(number),
        version,
    }
}

// The cards of one role with these statuses, of partner 1 and version 0.
fn cards<P: CardNumber>(statuses: [Status; 2]) -> [Card<P>; 2] {
    statuses.map(|status| card(status, 1, 0))
}

// Status and partner of a card of either role.
fn status_and_partner<P: CardNumber>(card: Card<P>) -> (Status, usize) {
    (card.status, card.partner.number())
}

fn version<P: CardNumber>(card: Card<P>) -> u32 {
    card.version
}

fn first_figure(sum: Sum) -> Option<i64> {
    sum.figure(0)
}

// Counts that the tables of a stand fit.
pub const COUNTS: Counts = Counts {
    commands: 1,
    kills: 1,
    cards: 2,
};

// A hub that runs and is rated for so many losses.
pub fn running(kills: u32) -> Hub
    requires { kills ≤ 7 }
{
    Hub {
        commands: 1,
        kills,
        cards: 2,
        state: ExecState::Running,
        losses: 0,
        steps: 0,
    }
}

// The first cards are active, the command is in this phase with this message, and one loss is left.
pub fn stand_with(phase: Phase, message: Option<Message>) -> Stand {
    Stand {
        hub: running(1),
        tables: OwnTables {
            commands: [command(phase, message)],
            masters: cards([Status::Active, Status::Unused]),
            master_registers: [Sum::empty(); 2],
            backups: cards([Status::Active, Status::Unused]),
            backup_registers: [Sum::empty(); 2],
        },
    }
}

impl Stand {
    // With cards of these statuses, of partner 1 and version 0.
    pub fn with_cards(self, masters: [Status; 2], backups: [Status; 2]) -> Stand {
        Stand {
            tables: OwnTables {
                masters: cards(masters),
                backups: cards(backups),
                ..self.tables
            },
            ..self
        }
    }

    pub fn step(&mut self, letter: char, number: usize) -> Result<(), Refusal> {
        step(&mut self.hub, &mut self.tables.lend(), letter, number)
    }

    pub fn look(&self) -> Result<Look, Refusal> {
        look(&self.hub, self.tables.view())
    }

    // State, losses and steps.
    pub fn counts(&self) -> (ExecState, u32, u32) {
        (self.hub.state, self.hub.losses, self.hub.steps)
    }

    // Status and partner of both masters, then of both backups.
    pub fn of_cards(&self) -> ([(Status, usize); 2], [(Status, usize); 2]) {
        (
            self.tables.masters.map(status_and_partner),
            self.tables.backups.map(status_and_partner),
        )
    }

    // Versions of both masters, then of both backups.
    pub fn versions(&self) -> ([u32; 2], [u32; 2]) {
        (
            self.tables.masters.map(version),
            self.tables.backups.map(version),
        )
    }

    // Figures in the same order.
    pub fn figures(&self) -> ([Option<i64>; 2], [Option<i64>; 2]) {
        (
            self.tables.master_registers.map(first_figure),
            self.tables.backup_registers.map(first_figure),
        )
    }
}
