// The eighteen actions of the replication protocol, under the names of the TLA+ module
// AsyncFinishReplication without its role prefixes, and the letters by which journals and callers name them.
#![tactic(auto)]

ghost use Rattle.std.specs.Prelude.{◌≡◌};
ghost use Rattle.std.specs.Result.{result_ok};
ghost use Rattle.actions.specs.Letters.{action_of, is_loss, is_of_command, letter_of, place_of};

#[derive(Clone, Copy, Debug, PartialEq, Eq)]
pub enum Action {
    Starting,
    MasterDoing,
    HandlingMasterDone,
    BackupDoing,
    DetectingOldMasterId,
    HandlingBackupDone,
    HandlingMasterDoFailed,
    HandlingBackupDoFailed,
    GettingNewBackup,
    GettingNewMaster,
    HandlingBackupGetNewMasterFailed,
    HandlingMasterGetNewBackupFailed,
    UpdatingBackupId,
    UpdatingMasterId,
    CreatingNewBackup,
    CreatingNewMaster,
    KillingMaster,
    KillingBackup,
}

// A character that no action has as its letter.
#[derive(Clone, Copy, Debug, PartialEq, Eq)]
pub struct UnknownLetter;

impl TryFrom<char> for Action {
    type Error = UnknownLetter;

    ghost try_from_gives = { λ letter action. result_ok action ≡ action_of letter };

    fn try_from(letter: char) -> Result<Action, UnknownLetter> {
        match letter {
            'A' => Ok(Action::Starting),
            'B' => Ok(Action::MasterDoing),
            'C' => Ok(Action::HandlingMasterDone),
            'D' => Ok(Action::BackupDoing),
            'E' => Ok(Action::DetectingOldMasterId),
            'F' => Ok(Action::HandlingBackupDone),
            'G' => Ok(Action::HandlingMasterDoFailed),
            'H' => Ok(Action::HandlingBackupDoFailed),
            'I' => Ok(Action::GettingNewBackup),
            'J' => Ok(Action::GettingNewMaster),
            'K' => Ok(Action::HandlingBackupGetNewMasterFailed),
            'L' => Ok(Action::HandlingMasterGetNewBackupFailed),
            'M' => Ok(Action::UpdatingBackupId),
            'N' => Ok(Action::UpdatingMasterId),
            'O' => Ok(Action::CreatingNewBackup),
            'P' => Ok(Action::CreatingNewMaster),
            'Q' => Ok(Action::KillingMaster),
            'R' => Ok(Action::KillingBackup),
            _ => Err(UnknownLetter),
        }
    }
}

impl From<Action> for char {
    ghost from_gives = { λ action letter. letter ≡ letter_of action };

    fn from(action: Action) -> char {
        char::from(b'A' + action as u8)
    }
}

impl Action {
    // The place of the action's letter in the alphabet, from 0: an index of what is counted by letters.
    pub fn place(self) -> usize
        ensures { result ≡ place_of self }
    {
        self as usize
    }

    // Whether the action is a step of one command, so that a command's number comes with its letter.
    pub fn is_of_command(self) -> bool
        ensures { result ≡ is_of_command self }
    {
        !matches!(
            self,
            Action::CreatingNewBackup
                | Action::CreatingNewMaster
                | Action::KillingMaster
                | Action::KillingBackup
        )
    }

    // Whether the action is the loss of a card.
    pub fn is_loss(self) -> bool
        ensures { result ≡ is_loss self }
    {
        matches!(self, Action::KillingMaster | Action::KillingBackup)
    }
}
