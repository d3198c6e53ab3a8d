// Single steps, on tables that could be restored from anywhere.
use super::stand::*;
use hub_cards::*;
use hub_records::commands::*;
use hub_records::hub::*;
use refusals::Refusal;
use std::process::Abort;

// The step is refused for this cause, and everything is as it was.
fn refused(rt: &impl Abort, stand: Stand, letter: char, number: usize, cause: Refusal) {
    let mut after = stand;
    assert_eq!(rt; after.step(letter, number), Err(cause));
    assert_eq!(rt; after, stand);
}

fn misfits(rt: &impl Abort, stand: Stand) {
    refused(rt, stand, 'A', 1, Refusal::TablesMisfit);
    assert_eq!(rt; stand.look(), Err(Refusal::TablesMisfit));
}

fn to_backup(m: usize, b: usize) -> Option<Message> {
    Some(Message::BackupDo(MasterNumber(m), BackupNumber(b)))
}

#[test]
fn commands_that_misfit(rt: HostRuntime) {
    let mut far = stand_with(Phase::Pending, None);
    far.tables.commands[0].hundredths = -9001;
    misfits(&rt, far);
    let mut own = stand_with(Phase::Pending, None);
    own.tables.commands[0].own_backup = BackupNumber(3);
    misfits(&rt, own);
    misfits(&rt, stand_with(Phase::Working, to_backup(3, 1)));
    misfits(&rt, stand_with(Phase::Working, to_backup(1, 3)));
    misfits(&rt, stand_with(Phase::Pending, to_backup(1, 1)));
    misfits(&rt, stand_with(Phase::Done, to_backup(1, 1)));
    misfits(&rt, stand_with(Phase::GaveUp, to_backup(1, 1)));
}

#[test]
fn cards_and_counts_that_misfit(rt: HostRuntime) {
    let mut partner = stand_with(Phase::Pending, None);
    partner.tables.backups[1].partner = MasterNumber(3);
    misfits(&rt, partner);
    let mut version = stand_with(Phase::Pending, None);
    version.tables.masters[1].version = u32::MAX;
    misfits(&rt, version);
    let mut steps = stand_with(Phase::Pending, None);
    steps.hub.steps = u32::MAX;
    misfits(&rt, steps);
    let mut more_commands = stand_with(Phase::Pending, None);
    more_commands.hub.commands = 2;
    misfits(&rt, more_commands);
    let mut fewer_cards = stand_with(Phase::Pending, None);
    fewer_cards.hub.cards = 1;
    misfits(&rt, fewer_cards);
}

#[test]
fn a_finished_hub_takes_no_step(rt: HostRuntime) {
    let mut success = stand_with(Phase::Pending, None);
    success.hub.state = ExecState::Success;
    refused(&rt, success, 'A', 1, Refusal::HubFinished);
    refused(&rt, success, 'z', 9, Refusal::HubFinished);
    let mut fatal = stand_with(Phase::Pending, None);
    fatal.hub.state = ExecState::Fatal;
    refused(&rt, fatal, 'Q', 0, Refusal::HubFinished);
}

#[test]
fn letters_and_numbers(rt: HostRuntime) {
    let start = stand_with(Phase::Pending, None);
    refused(&rt, start, 'S', 1, Refusal::UnknownLetter);
    refused(&rt, start, '@', 1, Refusal::UnknownLetter);
    refused(&rt, start, 'a', 1, Refusal::UnknownLetter);
    refused(&rt, start, 'Ā', 9, Refusal::UnknownLetter);
    refused(&rt, start, 'A', 2, Refusal::NoSuchCommand);
    refused(&rt, start, 'A', 0, Refusal::NoSuchCommand);
    refused(&rt, start, 'O', 5, Refusal::NoSuchCommand);
    refused(&rt, start, 'R', 1, Refusal::NoSuchCommand);
}

#[test]
fn losses_are_limited(rt: HostRuntime) {
    let mut rated_for_none = stand_with(Phase::Pending, None);
    rated_for_none.hub = running(0);
    refused(&rt, rated_for_none, 'Q', 0, Refusal::LossesUsedUp);
    refused(&rt, rated_for_none, 'R', 0, Refusal::LossesUsedUp);
}

#[test]
fn phases_and_messages(rt: HostRuntime) {
    let cause = Refusal::WrongPhaseOrMessage;
    refused(&rt, stand_with(Phase::Working, None), 'A', 1, cause);
    refused(&rt, stand_with(Phase::Done, None), 'A', 1, cause);
    // a working command without a message fits, and no step is for it
    for letter in 'B'..='N' {
        refused(&rt, stand_with(Phase::Working, None), letter, 1, cause);
    }
    let mut begun = stand_with(Phase::Pending, None);
    assert_eq!(rt; begun.step('A', 1), Ok(()));
    refused(&rt, begun, 'D', 1, cause);
}

#[test]
fn cards_that_are_not_as_needed(rt: HostRuntime) {
    let told = stand_with(Phase::Working, to_backup(1, 1));
    refused(&rt, told, 'H', 1, Refusal::WrongCardStatus);
    refused(&rt, told, 'O', 0, Refusal::WrongCardStatus);
    refused(&rt, told, 'E', 1, Refusal::WrongCardNumber);
    let told_by_another = stand_with(Phase::Working, to_backup(2, 1));
    refused(&rt, told_by_another, 'D', 1, Refusal::WrongCardNumber);
    let told_none = stand_with(Phase::Working, to_backup(1, 0));
    refused(&rt, told_none, 'D', 1, Refusal::WrongCardStatus);
    let told_unused = stand_with(Phase::Working, to_backup(1, 2));
    refused(&rt, told_unused, 'H', 1, Refusal::WrongCardStatus);
    let all_lost = told.with_cards([Status::Lost, Status::Unused], [Status::Lost; 2]);
    refused(&rt, all_lost, 'Q', 0, Refusal::WrongCardStatus);
    refused(&rt, all_lost, 'P', 0, Refusal::WrongCardStatus);
}

#[test]
fn the_place_after_the_last_lost_card(rt: HostRuntime) {
    let start = stand_with(Phase::Pending, None);
    let full = start.with_cards([Status::Active, Status::Unused], [Status::Lost; 2]);
    refused(&rt, full, 'O', 0, Refusal::NoPlaceLeft);
    let mut free = start.with_cards(
        [Status::Active, Status::Unused],
        [Status::Lost, Status::Unused],
    );
    assert_eq!(rt; free.step('O', 0), Ok(()));
    assert_eq!(rt;
        free.of_cards(),
        (
            [(Status::Active, 2), (Status::Unused, 1)],
            [(Status::Lost, 1), (Status::Active, 1)]
        )
    );
}

#[test]
fn of_two_active_cards_the_lower_is_taken(rt: HostRuntime) {
    let mut two = stand_with(Phase::Pending, None).with_cards(
        [Status::Active; 2],
        [Status::Active; 2],
    );
    assert_eq!(rt; two.step('Q', 0), Ok(()));
    assert_eq!(rt;
        two.of_cards(),
        (
            [(Status::Lost, 1), (Status::Active, 1)],
            [(Status::Active, 1), (Status::Active, 1)]
        )
    );
    assert_eq!(rt; two.counts(), (ExecState::Running, 1, 1));
}

#[test]
fn cards_take_moves(rt: HostRuntime) {
    let m = MasterNumber(1);
    let b = BackupNumber(1);
    let mut hub = stand_with(Phase::Pending, None);
    assert_eq!(rt; hub.step('A', 1), Ok(()));
    assert_eq!(rt;
        hub.tables.commands,
        [command(Phase::Working, Some(Message::MasterDo(m)))]
    );
    assert_eq!(rt; hub.step('B', 1), Ok(()));
    assert_eq!(rt; hub.versions(), ([1, 0], [0, 0]));
    assert_eq!(rt; hub.figures(), ([Some(25), Some(0)], [Some(0), Some(0)]));
    assert_eq!(rt;
        hub.tables.commands,
        [command(Phase::Working, Some(Message::MasterDone(m, b)))]
    );
    assert_eq!(rt; hub.step('C', 1), Ok(()));
    assert_eq!(rt; hub.step('D', 1), Ok(()));
    assert_eq!(rt; hub.figures(), ([Some(25), Some(0)], [Some(25), Some(0)]));
    assert_eq!(rt; hub.step('F', 1), Ok(()));
    assert_eq!(rt; hub.counts(), (ExecState::Success, 0, 5));
    assert_eq!(rt;
        hub.tables.commands,
        [Command {
            own_backup: b,
            ..command(Phase::Done, None)
        }]
    );
}
