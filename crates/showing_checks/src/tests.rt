// Expected lines and texts are worked out by hand from docs/journal.md, docs/refusals.md and docs/hub.md.
use journal_checks::refused::{
    LINES_NOT_DUE, STEPS_NOT_ALLOWED, VALUES_NOT_ALLOWED, is_fault_print,
};
use refusals::Refusal;
use showing::{Shown, show};
use std::test::Fail;

// Whether the journal gets this fault print.
fn gets(journal: &[u8], print: &[u8]) -> bool {
    let mut text = [0; 2048];
    let shown = show(journal, &mut text);
    is_fault_print(shown, &text, print)
}

#[test]
fn lines_that_are_not_due(rt: HostRuntime) {
    for (journal, print) in LINES_NOT_DUE {
        assert!(rt; gets(journal, print), "{journal:?}");
    }
}

#[test]
fn values_that_are_not_allowed(rt: HostRuntime) {
    for (journal, print) in VALUES_NOT_ALLOWED {
        assert!(rt; gets(journal, print), "{journal:?}");
    }
}

#[test]
fn steps_that_are_not_allowed(rt: HostRuntime) {
    for (journal, print) in STEPS_NOT_ALLOWED {
        assert!(rt; gets(journal, print), "{journal:?}");
    }
}

#[test]
fn a_journal_is_as_long_as_it_may_be(rt: HostRuntime) -> Result<(), Fail> {
    let mut journal = vec![in rt.alloc(); 10u8; 65536]?;
    assert!(rt; gets(&journal, b"fault=14\nline=1\n"));
    journal.push(10)?;
    assert!(rt; gets(&journal, b"fault=13\nline=0\n"));
    Ok(())
}

// The reader lets pass a command above the number of commands; the hub then refuses its step, as any other.
#[test]
fn steps_that_the_hub_refuses(rt: HostRuntime) {
    let refused: [(&[u8], &[u8]); 3] = [
        (
            b"commands=2\nkills=7\ncards=8\nregister=peak\nmove=-9000\nmove=9000\nstep=A64\nstep=Q\nstep=Q\n",
            b"fault=16\nline=7\n",
        ),
        (
            b"commands=1\nkills=0\ncards=1\nregister=sum\nmove=1\nstep=A1\nstep=C1\n",
            b"fault=16\nline=7\n",
        ),
        (
            b"commands=1\nkills=0\ncards=1\nregister=classes\nmove=1\nstep=Q\n",
            b"fault=16\nline=6\n",
        ),
    ];
    for (journal, print) in refused {
        assert!(rt; gets(journal, print), "{journal:?}");
    }
}

// The largest and the smallest move. A buffer that is too short stays as it was, for a report and for a fault.
#[test]
fn a_text_has_to_fit(rt: HostRuntime) {
    let journal =
        b"commands=2\nkills=7\ncards=8\nregister=peak\nmove=-9000\nmove=9000\nstep=A1\nstep=B1\nstep=R\n";
    let expected =
        b"state=running\nsteps=3\nlosses=1\nmaster=1\nmaster-version=1\nmaster-register=9000\nbackup=1\nbackup-version=0\nbackup-register=0\nmean=none\n";
    let mut text = [0; 2048];
    assert_eq!(rt; show(journal, &mut text), Ok(Shown::Text(expected.len())));
    assert!(rt; text.starts_with(expected));
    let mut short = [7; 100];
    let needed = expected.len();
    assert_eq!(rt;
        show(journal, &mut short),
        Err(Refusal::BufferTooShort { needed })
    );
    assert_eq!(rt; short, [7; 100]);
    let mut shorter = [7; 15];
    assert_eq!(rt;
        show(b"", &mut shorter),
        Err(Refusal::BufferTooShort { needed: 16 })
    );
    assert_eq!(rt; shorter, [7; 15]);
}
