// Making a hub: its refusals, their order, and that they change nothing.
use super::stand::*;
use hub::make;
use hub_cards::*;
use hub_records::commands::*;
use hub_records::hub::*;
use refusals::Refusal;
use std::process::Abort;

// Makes a hub on the tables of a stand.
fn made(stand: &mut Stand, counts: Counts, moves: &[i32]) -> Result<(), Refusal> {
    stand.hub = make(counts, moves, &mut stand.tables.lend())?;
    Ok(())
}

// Tables in which nothing is as making leaves it.
fn used() -> Stand {
    let message = Some(Message::BackupDone(MasterNumber(2), BackupNumber(2)));
    let mut before = stand_with(Phase::Working, message).with_cards(
        [Status::Lost, Status::Active],
        [Status::Active, Status::Unused],
    );
    before.tables.backups[1].version = 7;
    before
}

fn refused(rt: &impl Abort, counts: Counts, moves: &[i32], cause: Refusal) {
    let mut after = used();
    assert_eq!(rt; made(&mut after, counts, moves), Err(cause));
    assert_eq!(rt; after, used());
}

#[test]
fn counts_have_limits(rt: HostRuntime) {
    let cause = Refusal::CountOutsideLimits;
    let no_command = Counts {
        commands: 0,
        ..COUNTS
    };
    refused(&rt, no_command, &[25], cause);
    let many_commands = Counts {
        commands: 65,
        ..COUNTS
    };
    refused(&rt, many_commands, &[25], cause);
    refused(&rt, Counts { kills: 8, ..COUNTS }, &[25], cause);
    refused(&rt, Counts { cards: 0, ..COUNTS }, &[25], cause);
    refused(&rt, Counts { cards: 9, ..COUNTS }, &[9001, 3], cause);
}

#[test]
fn lengths_and_moves(rt: HostRuntime) {
    let wrong_length = Refusal::WrongTableLength;
    refused(&rt, COUNTS, &[25, 25], wrong_length);
    let two_commands = Counts {
        commands: 2,
        ..COUNTS
    };
    refused(&rt, two_commands, &[25, 25], wrong_length);
    refused(&rt, Counts { cards: 1, ..COUNTS }, &[9001], wrong_length);
    let cause = Refusal::MoveOutsideLimits { command: 1 };
    refused(&rt, COUNTS, &[9001], cause);
    refused(&rt, COUNTS, &[-9001], cause);
}

#[test]
fn a_made_hub(rt: HostRuntime) {
    let mut hub = used();
    assert_eq!(rt;
        made(&mut hub, Counts { kills: 7, ..COUNTS }, &[-9000]),
        Ok(())
    );
    assert_eq!(rt; hub.counts(), (ExecState::Running, 0, 0));
    assert_eq!(rt;
        hub.tables.commands,
        [Command {
            hundredths: -9000,
            ..command(Phase::Pending, None)
        }]
    );
    assert_eq!(rt;
        hub.of_cards(),
        (
            [(Status::Active, 1), (Status::Unused, 0)],
            [(Status::Active, 1), (Status::Unused, 0)]
        )
    );
    assert_eq!(rt; hub.versions(), ([0, 0], [0, 0]));
    assert_eq!(rt; hub.figures(), ([Some(0), Some(0)], [Some(0), Some(0)]));
}

// The numbers under which the causes are known.
#[test]
fn causes_have_numbers(rt: HostRuntime) {
    let causes = [
        Refusal::CountOutsideLimits,
        Refusal::WrongTableLength,
        Refusal::MoveOutsideLimits { command: 1 },
        Refusal::TablesMisfit,
        Refusal::HubFinished,
        Refusal::UnknownLetter,
        Refusal::NoSuchCommand,
        Refusal::LossesUsedUp,
        Refusal::WrongPhaseOrMessage,
        Refusal::WrongCardStatus,
        Refusal::WrongCardNumber,
        Refusal::NoPlaceLeft,
        Refusal::JournalTooLong,
        Refusal::LineNotDue { line: 1 },
        Refusal::ValueNotAllowed { line: 1 },
        Refusal::StepDenied { line: 1 },
        Refusal::BufferTooShort { needed: 1 },
    ];
    assert_eq!(rt;
        causes.map(Refusal::number),
        [1, 2, 3, 4, 5, 6, 7, 8, 9, 10, 11, 12, 13, 14, 15, 16, 17]
    );
}
