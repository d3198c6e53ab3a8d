// The replay of journals on the caller's tables, and what it leaves in them.
use super::stand::{OwnTables, card};
use hub_cards::*;
use hub_records::commands::*;
use hub_tables::tables::Tables;
use refusals::Refusal;
use registers::{Register, Sum};
use replay::replay;

// Full tables in which every place is marked, so that a test sees which places were used.
fn marked() -> OwnTables<64, 8> {
    let command = Command {
        hundredths: 7,
        phase: Phase::GaveUp,
        own_master: MasterNumber(7),
        own_backup: BackupNumber(7),
        message: None,
    };
    OwnTables {
        commands: [command; 64],
        masters: [card(Status::Lost, 7, 7); 8],
        master_registers: [Sum::empty(); 8],
        backups: [card(Status::Lost, 7, 7); 8],
        backup_registers: [Sum::empty(); 8],
    }
}

impl OwnTables<64, 8> {
    fn replay(&mut self, journal: &[u8]) -> Result<(), Refusal> {
        replay(journal, &mut self.lend())?;
        Ok(())
    }

    // For places 1 and 2: how far the command has come, and the versions of the masters and the backups.
    fn seen(&self) -> ([Phase; 2], [u32; 2], [u32; 2]) {
        (
            [self.commands[0].phase, self.commands[1].phase],
            [self.masters[0].version, self.masters[1].version],
            [self.backups[0].version, self.backups[1].version],
        )
    }

    fn figures(&self) -> [Option<i64>; 2] {
        [
            self.master_registers[0].figure(0),
            self.backup_registers[0].figure(0),
        ]
    }
}

#[test]
fn the_first_places_are_used_and_no_other(rt: HostRuntime) {
    let mut tables = marked();
    assert_eq!(rt;
        tables.replay(
            b"commands=1\nkills=0\ncards=1\nregister=sum\nmove=-30\nstep=A1\nstep=B1\nstep=C1\nstep=D1\nstep=F1\n",
        ),
        Ok(())
    );
    assert_eq!(rt;
        tables.seen(),
        ([Phase::Done, Phase::GaveUp], [1, 7], [1, 7])
    );
    assert_eq!(rt; tables.figures(), [Some(-30), Some(-30)]);
}

#[test]
fn a_refused_step_leaves_the_run_so_far(rt: HostRuntime) {
    let mut tables = marked();
    assert_eq!(rt;
        tables.replay(
            b"commands=1\nkills=0\ncards=1\nregister=sum\nmove=5\nstep=A1\nstep=B1\nstep=D1\nstep=C1\n",
        ),
        Err(Refusal::StepDenied { line: 8 })
    );
    assert_eq!(rt;
        tables.seen(),
        ([Phase::Working, Phase::GaveUp], [1, 7], [0, 7])
    );
    assert_eq!(rt; tables.figures(), [Some(5), Some(0)]);
}

#[test]
fn a_line_of_wrong_form_leaves_the_run_so_far(rt: HostRuntime) {
    let mut tables = marked();
    assert_eq!(rt;
        tables.replay(
            b"commands=1\nkills=0\ncards=1\nregister=sum\nmove=5\nstep=A1\nstep=B1\nstep=O1\n",
        ),
        Err(Refusal::ValueNotAllowed { line: 8 })
    );
    assert_eq!(rt;
        tables.seen(),
        ([Phase::Working, Phase::GaveUp], [1, 7], [0, 7])
    );
    let mut cut = marked();
    assert_eq!(rt;
        cut.replay(b"commands=1\nkills=0\ncards=1\nregister=sum\nmove=5\nstep=A1\nstep=B1"),
        Err(Refusal::LineNotDue { line: 7 })
    );
    assert_eq!(rt;
        cut.seen(),
        ([Phase::Working, Phase::GaveUp], [0, 7], [0, 7])
    );
}

#[test]
fn before_the_hub_is_made_nothing_changes(rt: HostRuntime) {
    let mut tables = marked();
    assert_eq!(rt;
        tables.replay(b"commands=2\nkills=0\ncards=1\nregister=sum\nmove=5\n"),
        Err(Refusal::LineNotDue { line: 6 })
    );
    assert_eq!(rt; tables.seen(), ([Phase::GaveUp; 2], [7, 7], [7, 7]));
    // a register that is not the caller's
    assert_eq!(rt;
        tables.replay(b"commands=1\nkills=0\ncards=1\nregister=peak\nmove=5\n"),
        Err(Refusal::ValueNotAllowed { line: 4 })
    );
    assert_eq!(rt; tables.seen(), ([Phase::GaveUp; 2], [7, 7], [7, 7]));
}

#[test]
fn tables_have_to_be_full(rt: HostRuntime) {
    let mut tables = marked();
    let mut fewer = Tables {
        commands: &mut tables.commands,
        masters: &mut tables.masters,
        master_registers: &mut tables.master_registers,
        backups: &mut tables.backups,
        backup_registers: &mut [Sum::empty(); 7],
    };
    assert_eq!(rt;
        replay(
            b"commands=1\nkills=0\ncards=1\nregister=sum\nmove=5\n",
            &mut fewer,
        ),
        Err(Refusal::WrongTableLength)
    );
    assert_eq!(rt; tables.seen(), ([Phase::GaveUp; 2], [7, 7], [7, 7]));
}
