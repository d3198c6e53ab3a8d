// What the searches and the check of the tables answer on examples.
use super::fit::tables_fit;
use super::search::*;
use super::tables::View;
use hub_cards::*;
use hub_records::commands::*;
use hub_records::hub::*;

fn card<P>(status: Status, partner: P, version: u32) -> Card<P> {
    Card {
        status,
        partner,
        version,
    }
}

// The numbers of the active card, of the last lost and of the last used among three masters.
fn found(first: Status, second: Status, third: Status) -> [Option<MasterNumber>; 3] {
    let masters = [
        card(first, BackupNumber(0), 0),
        card(second, BackupNumber(0), 0),
        card(third, BackupNumber(0), 0),
    ];
    [
        active_card(&masters),
        last_lost(&masters),
        last_card(&masters),
    ]
}

#[test]
fn a_search_takes_the_first_or_the_last(rt: HostRuntime) {
    assert_eq!(rt;
        found(Status::Unused, Status::Unused, Status::Unused),
        [None; 3]
    );
    assert_eq!(rt;
        found(Status::Lost, Status::Lost, Status::Active),
        [
            Some(MasterNumber(3)),
            Some(MasterNumber(2)),
            Some(MasterNumber(3))
        ]
    );
    assert_eq!(rt;
        found(Status::Active, Status::Active, Status::Unused),
        [Some(MasterNumber(1)), None, Some(MasterNumber(2))]
    );
}

fn command(hundredths: i32, phase: Phase, own: usize, message: Option<Message>) -> Command {
    Command {
        hundredths,
        phase,
        own_master: MasterNumber(own),
        own_backup: BackupNumber(0),
        message,
    }
}

fn master(status: Status, partner: usize, version: u32) -> Card<BackupNumber> {
    card(status, BackupNumber(partner), version)
}

// Whether tables of one command and one card of each role fit, of which these are given. The registers are only counted.
fn fit(
    steps: u32,
    command: Command,
    master: Card<BackupNumber>,
    partner: usize,
    backup_registers: &[u8],
) -> bool {
    let hub = Hub {
        commands: 1,
        kills: 0,
        cards: 1,
        state: ExecState::Running,
        losses: 0,
        steps,
    };
    let tables = View {
        commands: &[command],
        masters: &[master],
        master_registers: &[0],
        backups: &[card(Status::Unused, MasterNumber(partner), 0)],
        backup_registers,
    };
    tables.fit(&hub)
}

#[test]
fn tables_fit_unless_something_does_not(rt: HostRuntime) {
    let working = command(
        -9000,
        Phase::Working,
        1,
        Some(Message::MasterDo(MasterNumber(1))),
    );
    let idle = command(0, Phase::Pending, 0, None);
    let card = master(Status::Active, 1, 7);
    assert!(rt; fit(0, working, card, 1, &[0]));
    assert!(rt; !fit(0, idle, card, 1, &[0, 0]));
    assert!(rt; !fit(u32::MAX, idle, card, 1, &[0]));
    assert!(rt; !fit(0, idle, card, 2, &[0]));
    assert!(rt; !fit(0, idle, master(Status::Lost, 2, 7), 1, &[0]));
    assert!(rt; !fit(0, idle, master(Status::Lost, 1, u32::MAX), 1, &[0]));
}

#[test]
fn a_command_has_to_fit(rt: HostRuntime) {
    let card = master(Status::Active, 1, 0);
    let far = Some(Message::BackupDo(MasterNumber(1), BackupNumber(2)));
    let near = Some(Message::BackupDo(MasterNumber(1), BackupNumber(1)));
    assert!(rt; fit(0, command(0, Phase::Working, 0, near), card, 0, &[0]));
    assert!(rt; !fit(0, command(0, Phase::Working, 0, far), card, 0, &[0]));
    assert!(rt; !fit(0, command(0, Phase::Done, 0, near), card, 0, &[0]));
    assert!(rt; !fit(0, command(9001, Phase::Pending, 0, None), card, 0, &[0]));
    assert!(rt; !fit(0, command(0, Phase::Pending, 2, None), card, 0, &[0]));
}

// The registers are given by their number, which may be that of tables that there are not.
#[test]
fn tables_fit_by_the_number_of_their_registers(rt: HostRuntime) {
    let hub = Hub {
        commands: 1,
        kills: 0,
        cards: 1,
        state: ExecState::Running,
        losses: 0,
        steps: 0,
    };
    let commands = [command(0, Phase::Pending, 0, None)];
    let masters = [master(Status::Active, 1, 7)];
    let backups = [card(Status::Active, MasterNumber(1), 7)];
    assert!(rt; tables_fit(&hub, &commands, &masters, 1, &backups, 1));
    assert!(rt; !tables_fit(&hub, &commands, &masters, 0, &backups, 1));
    assert!(rt; !tables_fit(&hub, &commands, &masters, 1, &backups, 2));
    assert!(rt; !tables_fit(&hub, &commands, &masters, 1, &[], 1));
}
