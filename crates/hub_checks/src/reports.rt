// The report of a hub, and what becomes of the buffer.
use super::stand::*;
use hub_cards::*;
use hub_records::commands::*;
use hub_report::report_text;
use refusals::Refusal;

// What the buffer holds where nothing was written.
const MARK: u8 = 35;

fn report(stand: &Stand, out: &mut [u8]) -> Result<usize, Refusal> {
    report_text(&stand.hub, stand.tables.view(), out)
}

#[test]
fn a_report_and_the_bytes_after_it(rt: HostRuntime) {
    let mut hub = stand_with(Phase::Pending, None);
    assert_eq!(rt; hub.step('A', 1), Ok(()));
    assert_eq!(rt; hub.step('B', 1), Ok(()));
    assert_eq!(rt; hub.step('R', 0), Ok(()));
    let expected =
        b"state=running\nsteps=3\nlosses=1\nmaster=1\nmaster-version=1\nmaster-register=25\nbackup=1\nbackup-version=0\nbackup-register=0\nmean=25\n";
    let mut out = [MARK; 200];
    assert_eq!(rt; report(&hub, &mut out), Ok(expected.len()));
    assert!(rt; out.starts_with(expected));
    assert_eq!(rt; out[expected.len()], MARK);
    assert_eq!(rt; out[199], MARK);
}

#[test]
fn no_card_has_no_register(rt: HostRuntime) {
    let start = stand_with(Phase::Pending, None);
    let hub = start.with_cards([Status::Unused; 2], [Status::Active, Status::Unused]);
    let expected =
        b"state=running\nsteps=0\nlosses=0\nmaster=0\nmaster-version=0\nmaster-register=none\nbackup=1\nbackup-version=0\nbackup-register=0\nmean=none\n";
    let mut out = [MARK; 200];
    assert!(rt; report(&hub, &mut out).is_ok());
    assert!(rt; out.starts_with(expected));
}

#[test]
fn a_buffer_that_is_too_short(rt: HostRuntime) {
    let hub = stand_with(Phase::Pending, None);
    // ten lines, of which the last says that there is no mean yet: 129 bytes
    let mut out = [MARK; 128];
    assert_eq!(rt;
        report(&hub, &mut out),
        Err(Refusal::BufferTooShort { needed: 129 })
    );
    assert_eq!(rt; out, [MARK; 128]);
    let mut exact = [MARK; 129];
    assert!(rt; report(&hub, &mut exact).is_ok());
}

#[test]
fn tables_that_misfit(rt: HostRuntime) {
    let mut hub = stand_with(Phase::Pending, None);
    hub.hub.steps = u32::MAX;
    let mut out = [MARK; 8];
    assert_eq!(rt; report(&hub, &mut out), Err(Refusal::TablesMisfit));
    assert_eq!(rt; out, [MARK; 8]);
}
