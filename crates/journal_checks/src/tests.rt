// Expected lines and texts are worked out by hand from docs/journal.md and docs/refusals.md.
use crate::refused::{LINES_NOT_DUE, STEPS_NOT_ALLOWED, VALUES_NOT_ALLOWED, is_fault_print};
use actions::Action;
use batch::{Shown, show};
use journal::kinds::Accepted;
use journal::lines::Line;
use journal::place::Place;
use journal::reader::Reader;
use refusals::Refusal;
use registers::Kind;
use std::test::Fail;

// Whether the journal gets this fault print.
fn gets(journal: &[u8], print: &[u8]) -> bool {
    let mut text = [0; 2048];
    let shown = show(journal, &mut text);
    is_fault_print(shown, &text, print)
}

#[test]
fn lines_that_are_not_due(rt: HostRuntime) {
    for (journal, print) in LINES_NOT_DUE {
        assert!(rt; gets(journal, print), "{journal:?}");
    }
}

#[test]
fn values_that_are_not_allowed(rt: HostRuntime) {
    for (journal, print) in VALUES_NOT_ALLOWED {
        assert!(rt; gets(journal, print), "{journal:?}");
    }
}

#[test]
fn steps_that_are_not_allowed(rt: HostRuntime) {
    for (journal, print) in STEPS_NOT_ALLOWED {
        assert!(rt; gets(journal, print), "{journal:?}");
    }
}

#[test]
fn a_journal_is_as_long_as_it_may_be(rt: HostRuntime) -> Result<(), Fail> {
    let mut journal = vec![in rt.alloc(); 10u8; 65536]?;
    assert!(rt; gets(&journal, b"fault=14\nline=1\n"));
    journal.push(10)?;
    assert!(rt; gets(&journal, b"fault=13\nline=0\n"));
    Ok(())
}

// The largest and the smallest move, and a command above the number of commands, which the reader leaves to the hub.
#[test]
fn totals_of_two_commands(rt: HostRuntime) {
    let journal =
        b"commands=2\nkills=7\ncards=8\nregister=peak\nmove=-9000\nmove=9000\nstep=A64\nstep=Q\nstep=Q\n";
    let expected =
        b"commands=2\nkills=7\ncards=8\nregister=peak\nfigures=9000\nmean=none\nA=1\nB=0\nC=0\nD=0\nE=0\nF=0\nG=0\nH=0\nI=0\nJ=0\nK=0\nL=0\nM=0\nN=0\nO=0\nP=0\nQ=2\nR=0\n";
    let mut text = [0; 2048];
    assert_eq!(rt; show(journal, &mut text), Ok(Shown::Text(expected.len())));
    assert!(rt; text.starts_with(expected));
    let mut short = [7; 100];
    let needed = expected.len();
    assert_eq!(rt;
        show(journal, &mut short),
        Err(Refusal::BufferTooShort { needed })
    );
    assert_eq!(rt; short, [7; 100]);
}

#[test]
fn lines_hold_their_values(rt: HostRuntime) -> Result<(), Fail> {
    let mut reader = Reader::new(b"commands=12\nkills=x\n", Accepted::Only(Some(Kind::Sum)));
    let Ok(Some(Line::Commands { value, count })) = reader.next_line() else {
        return Err(Fail::new("the first line tells the commands"));
    };
    assert_eq!(rt; count, 12);
    assert_eq!(rt; value.at, 9);
    assert_eq!(rt; value.text, b"12".as_slice());
    assert_eq!(rt; reader.place(), Place { at: 12, line: 2 });
    assert_eq!(rt;
        reader.next_line().err(),
        Some(Refusal::ValueNotAllowed { line: 2 })
    );
    assert_eq!(rt; reader.place(), Place { at: 12, line: 2 });
    Ok(())
}

#[test]
fn a_step_is_taken_apart(rt: HostRuntime) -> Result<(), Fail> {
    let mut reader = Reader::new(
        b"commands=1\nkills=0\ncards=1\nregister=sum\nmove=1\nstep=D1\nstep=O\n",
        Accepted::AnyNamed,
    );
    // the header has five lines
    for _ in 0..5 {
        assert!(rt; matches!(reader.next_line(), Ok(Some(_))));
    }
    let Ok(
        Some(
            Line::Step {
                value,
                number,
                action,
                command,
            },
        ),
    ) = reader.next_line()
    else {
        return Err(Fail::new("the sixth line is a step"));
    };
    assert_eq!(rt; value.text, b"D1".as_slice());
    assert_eq!(rt; number.text, b"1".as_slice());
    assert_eq!(rt; number.at, value.at.saturating_add(1));
    assert_eq!(rt; action, Action::BackupDoing);
    assert_eq!(rt; action.place(), 3);
    assert_eq!(rt; command, 1);
    assert!(rt;
        matches!(
            reader.next_line(),
            Ok(Some(Line::Step {
                value: _,
                number: _,
                action: _,
                command: 0
            }))
        )
    );
    assert!(rt; matches!(reader.next_line(), Ok(None)));
    Ok(())
}

// A register that is not the caller's is refused; a caller whose register has no name accepts none.
#[test]
fn only_the_callers_register(rt: HostRuntime) {
    for kind in [None, Some(Kind::Sum), Some(Kind::Classes), Some(Kind::Peak)] {
        let mut reader = Reader::new(
            b"commands=1\nkills=0\ncards=1\nregister=classes\n",
            Accepted::Only(kind),
        );
        // three lines come before the register
        for _ in 0..3 {
            assert!(rt; matches!(reader.next_line(), Ok(Some(_))));
        }
        let accepted = matches!(reader.next_line(), Ok(Some(_)));
        assert_eq!(rt; accepted, kind == Some(Kind::Classes));
    }
}

#[test]
fn a_register_may_come_as_its_number(rt: HostRuntime) {
    assert!(rt; Accepted::AnyNamed.includes_number(0));
    assert!(rt; Accepted::AnyNamed.includes_number(7));
    assert!(rt; Accepted::Only(None).includes_number(0));
    assert!(rt; !Accepted::Only(None).includes_number(1));
    for number in 1..=3 {
        let accepted = Accepted::Only(Kind::of_number(number));
        assert!(rt; accepted.includes_number(number));
        assert!(rt; !accepted.includes_number(0));
        assert!(rt; !accepted.includes_number(number + 1));
    }
}
