// Small examples, with the bytes written out by hand.
use crate::{Writer, fault_text};
use refusals::Refusal;
use registers::{Classes, Move, OutsideLimits, Register};

#[test]
fn numbers(rt: HostRuntime) {
    let mut out = [b'.'; 24];
    let mut writer = Writer::new(&mut out, 0);
    writer.put_number(0u64);
    assert_eq!(rt; writer.end(), 1);
    writer.put_number(10u64);
    assert_eq!(rt; writer.end(), 3);
    writer.put_number(u64::MAX);
    assert_eq!(rt; writer.end(), 23);
    assert_eq!(rt; &out[..], b"01018446744073709551615.".as_slice());
}

#[test]
fn signed_numbers(rt: HostRuntime) {
    let mut out = [b'.'; 24];
    let mut writer = Writer::new(&mut out, 0);
    writer.put_number(i64::MIN);
    assert_eq!(rt; writer.end(), 20);
    writer.put_number(-1i64);
    assert_eq!(rt; writer.end(), 22);
    writer.put_number(0i64);
    assert_eq!(rt; writer.end(), 23);
    assert_eq!(rt; &out[..], b"-9223372036854775808-10.".as_slice());
}

#[test]
fn exactly_long_enough(rt: HostRuntime) {
    let mut out = [b'.'; 5];
    let mut writer = Writer::new(&mut out, 2);
    writer.put(b"abc");
    assert_eq!(rt; writer.end(), 5);
    assert_eq!(rt; &out[..], b"..abc".as_slice());
}

#[test]
fn one_byte_too_short(rt: HostRuntime) {
    let mut out = [b'.'; 4];
    let mut writer = Writer::new(&mut out, 2);
    writer.put(b"abc");
    assert_eq!(rt; writer.end(), 5);
    let mut writer = Writer::new(&mut out, usize::MAX);
    writer.put(b"abc");
    assert_eq!(rt; writer.end(), usize::MAX);
    let mut writer = Writer::new(&mut out, 0);
    writer.put_number_line(b"k", 10u64);
    assert_eq!(rt; writer.end(), 5);
    assert_eq!(rt; &out[..], b"....".as_slice());
}

#[test]
fn lines(rt: HostRuntime) {
    let mut out = [b'.'; 12];
    let mut writer = Writer::new(&mut out, 0);
    writer.put_number_line(b"k", 10u64);
    assert_eq!(rt; writer.end(), 5);
    writer.put_number_line(b"sum", -7i64);
    assert_eq!(rt; writer.end(), 12);
    assert_eq!(rt; &out[..], b"k=10\nsum=-7\n".as_slice());
}

#[test]
fn faults(rt: HostRuntime) {
    let mut out = [b'.'; 17];
    assert_eq!(rt;
        fault_text(Refusal::StepDenied { line: 9 }, &mut out),
        Ok(16)
    );
    assert_eq!(rt; &out[..], b"fault=16\nline=9\n.".as_slice());
    let mut short = [b'.'; 14];
    assert_eq!(rt;
        fault_text(Refusal::HubFinished, &mut short),
        Err(Refusal::BufferTooShort { needed: 15 })
    );
    assert_eq!(rt; &short[..], b"..............".as_slice());
}

#[test]
fn figures_of_a_register(rt: HostRuntime) -> Result<(), OutsideLimits> {
    let mut register: Classes = <Classes as Register>::empty();
    register.take(Move::try_from(50)?);
    let mut out = [b'.'; 24];
    let mut writer = Writer::new(&mut out, 0);
    writer.put_figures_line(b"classes", &register);
    assert_eq!(rt; writer.end(), 24);
    assert_eq!(rt; &out[..], b"classes=0,1,0,0,0,0,0,0\n".as_slice());
    Ok(())
}
