// Commands, and the messages by which they travel between the cards.
ghost use Rattle.std.specs.Prelude.{◌≡◌, Some};
ghost use Rattle.std.specs.Option.{option_map_or};
ghost use Rattle.hub_records.specs.Commands.{backup_in, backup_named, blank_command, is_done, master_in};

use hub_cards::{BackupNumber, MasterNumber};

#[derive(Clone, Copy, Debug, PartialEq, Eq)]
pub enum Phase {
    Pending,
    Working,
    Done,
    GaveUp,
}

impl Phase {
    /// Whether the command is done.
    pub fn is_done(self) -> bool
        ensures { result ≡ is_done self }
    {
        self == Phase::Done
    }
}

// What a working command waits for, with the cards that it concerns.
#[derive(Clone, Copy, Debug, PartialEq, Eq)]
pub enum Message {
    MasterDo(MasterNumber),
    MasterDone(MasterNumber, BackupNumber),
    BackupDo(MasterNumber, BackupNumber),
    BackupDone(MasterNumber, BackupNumber),
    MasterGetNewBackup(MasterNumber, BackupNumber),
    BackupGetNewMaster(MasterNumber, BackupNumber),
    NewBackupId(MasterNumber, BackupNumber),
    NewMasterId(MasterNumber, BackupNumber),
}

impl Message {
    /// The master that the message concerns.
    pub fn master(self) -> MasterNumber
        ensures { result.0 ≡ master_in (Some self) }
    {
        match self {
            Message::MasterDo(m)
            | Message::MasterDone(m, _)
            | Message::BackupDo(m, _)
            | Message::BackupDone(m, _)
            | Message::MasterGetNewBackup(m, _)
            | Message::BackupGetNewMaster(m, _)
            | Message::NewBackupId(m, _)
            | Message::NewMasterId(m, _) => m,
        }
    }

    /// The backup that the message concerns, if it names one.
    pub fn backup(self) -> Option<BackupNumber>
        ensures named { result ≡ backup_named self }
        ensures number { option_map_or (λ (b : BackupNumber). b.0) result 0 ≡ backup_in (Some self) }
    {
        match self {
            Message::MasterDo(_) => None,
            Message::MasterDone(_, b)
            | Message::BackupDo(_, b)
            | Message::BackupDone(_, b)
            | Message::MasterGetNewBackup(_, b)
            | Message::BackupGetNewMaster(_, b)
            | Message::NewBackupId(_, b)
            | Message::NewMasterId(_, b) => Some(b),
        }
    }
}

// A command as the hub's table has it. The move is a plain number here, since tables can be restored from anywhere.
#[derive(Clone, Copy, Debug, PartialEq, Eq)]
pub struct Command {
    pub hundredths: i32,
    pub phase: Phase,
    pub own_master: MasterNumber,
    pub own_backup: BackupNumber,
    pub message: Option<Message>,
}

impl Command {
    /// A command that holds nothing yet: it is pending, moves nothing and knows no card. Making a hub writes over it.
    pub fn blank() -> Command
        ensures { result ≡ blank_command }
    {
        Command {
            hundredths: 0,
            phase: Phase::Pending,
            own_master: MasterNumber(0),
            own_backup: BackupNumber(0),
            message: None,
        }
    }
}
