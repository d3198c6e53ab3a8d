// Lists of calls.
use super::stand::*;
use hub::{Answer, Call, run};
use hub_cards::*;
use hub_records::commands::*;
use hub_records::hub::*;
use refusals::Refusal;
use std::process::Abort;
use std::test::Fail;

// What an answer says: nothing for a step, and for a look the number of done commands.
type Told = Result<Option<usize>, Refusal>;

const STEPPED: Told = Ok(None);

const FINISHED: Told = Err(Refusal::HubFinished);

fn told(answer: Result<Answer, Refusal>) -> Told {
    match answer? {
        Answer::Stepped => Ok(None),
        Answer::Seen(look) => Ok(Some(look.done)),
    }
}

// The call under a letter, for command 1 or for none, and under '?' a look.
fn call_for(letter: char) -> Call {
    match letter {
        '?' => Call::Look,
        'A'..='N' => Call::Step { letter, command: 1 },
        _ => Call::Step { letter, command: 0 },
    }
}

// The hub after these letters, which get these answers.
fn answers(
    rt: &impl Abort,
    kills: u32,
    letters: [char; 8],
    expected: [Told; 8],
) -> Result<Stand, Fail> {
    let counts = Counts { kills, ..COUNTS };
    let mut got = [Ok(Answer::Stepped); 8];
    let mut stand = stand_with(Phase::Done, None);
    stand.hub = run(
        counts,
        &[25],
        &mut stand.tables.lend(),
        &letters.map(call_for),
        &mut got,
    )
    .map_err(|_| Fail::new("the hub was not made"))?;
    assert_eq!(rt; got.map(told), expected);
    Ok(stand)
}

#[test]
fn nothing_is_lost(rt: HostRuntime) -> Result<(), Fail> {
    let done = answers(
        &rt,
        0,
        ['A', 'B', 'C', 'D', 'F', '?', 'A', 'Q'],
        [
            STEPPED,
            STEPPED,
            STEPPED,
            STEPPED,
            STEPPED,
            Ok(Some(1)),
            FINISHED,
            FINISHED,
        ],
    )?;
    assert_eq!(rt; done.counts(), (ExecState::Success, 0, 5));
    assert_eq!(rt; done.figures(), ([Some(25), Some(0)], [Some(25), Some(0)]));
    Ok(())
}

#[test]
fn a_lost_backup_is_replaced(rt: HostRuntime) -> Result<(), Fail> {
    let done = answers(
        &rt,
        1,
        ['A', 'B', 'C', 'R', 'H', 'O', 'I', 'M'],
        [STEPPED; 8],
    )?;
    assert_eq!(rt; done.counts(), (ExecState::Success, 1, 8));
    assert_eq!(rt;
        done.of_cards(),
        (
            [(Status::Active, 2), (Status::Unused, 0)],
            [(Status::Lost, 1), (Status::Active, 1)]
        )
    );
    assert_eq!(rt; done.versions(), ([1, 0], [0, 1]));
    assert_eq!(rt; done.figures(), ([Some(25), Some(0)], [Some(0), Some(25)]));
    Ok(())
}

#[test]
fn a_master_lost_late_does_no_harm(rt: HostRuntime) -> Result<(), Fail> {
    let done = answers(
        &rt,
        1,
        ['A', 'B', 'C', 'Q', 'D', 'F', '?', 'R'],
        [
            STEPPED,
            STEPPED,
            STEPPED,
            STEPPED,
            STEPPED,
            STEPPED,
            Ok(Some(1)),
            FINISHED,
        ],
    )?;
    assert_eq!(rt; done.counts(), (ExecState::Success, 1, 6));
    assert_eq!(rt; done.figures(), ([Some(25), Some(0)], [Some(25), Some(0)]));
    Ok(())
}

#[test]
fn both_cards_gone_is_fatal(rt: HostRuntime) -> Result<(), Fail> {
    let fatal = answers(
        &rt,
        2,
        ['A', 'Q', 'P', 'R', 'G', '?', 'A', 'B'],
        [
            STEPPED,
            STEPPED,
            STEPPED,
            STEPPED,
            STEPPED,
            Ok(Some(0)),
            FINISHED,
            FINISHED,
        ],
    )?;
    assert_eq!(rt; fatal.counts(), (ExecState::Fatal, 2, 5));
    assert_eq!(rt;
        fatal.of_cards(),
        (
            [(Status::Lost, 1), (Status::Active, 1)],
            [(Status::Lost, 2), (Status::Unused, 0)]
        )
    );
    Ok(())
}

#[test]
fn every_answer_needs_its_place(rt: HostRuntime) {
    let counts = Counts { kills: 0, ..COUNTS };
    let mut stand = stand_with(Phase::Done, None);
    let mut places = [Ok(Answer::Stepped); 2];
    assert_eq!(rt;
        run(
            counts,
            &[25],
            &mut stand.tables.lend(),
            &[Call::Look],
            &mut places
        ),
        Err(Refusal::WrongTableLength)
    );
    assert_eq!(rt; stand, stand_with(Phase::Done, None));
}
