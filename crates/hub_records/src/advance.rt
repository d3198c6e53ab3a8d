// How a command moves on.
ghost use Rattle.std.specs.Prelude.{◌≡◌, OnErr};
ghost use Rattle.hub_records.specs.Advance.{advance_of, answer_of};
ghost use Rattle.hub_records.specs.Commands.{rests, waits};

use super::commands::{Command, Message, Phase};
use actions::Action;
use hub_cards::{BackupNumber, Card, MasterNumber};
use refusals::Refusal;

// What a command sees of the cards: those that its message names, and the active ones.
#[derive(Clone, Copy, Debug, PartialEq, Eq)]
pub struct Seen {
    pub master: Card<BackupNumber>,
    pub backup: Card<MasterNumber>,
    pub active_master: Option<MasterNumber>,
    pub active_backup: Option<BackupNumber>,
}

// What a command's step does besides moving the command on. `Nothing` is a case, and no Option of an Effect: it is one of the
// five things that a step may do, and who applies them matches all five.
#[derive(Clone, Copy, Debug, PartialEq, Eq)]
pub enum Effect {
    Nothing,
    MasterTakes(MasterNumber),
    BackupTakes(BackupNumber),
    Completes,
    GivesUp,
}

impl Command {
    // From now on the command works, and waits for this message.
    fn wait_for(&mut self, message: Message)
        ensures { self.new ≡ waits message self.old }
    {
        self.phase = Phase::Working;
        self.message = Some(message);
    }

    // The command waits for nothing any more.
    fn rest(&mut self, phase: Phase)
        ensures { self.new ≡ rests phase self.old }
    {
        self.phase = phase;
        self.message = None;
    }

    // Moves on under the action, if the command is one that the action is for and the cards are as it needs them.
    // By rules of the project this is one match over the pair of state and action, and moves on in place; the actions that
    // look for an active card take the Option of its search apart.
    pub fn advance(&mut self, action: Action, seen: &Seen) -> Result<Effect, Refusal>
        ensures moves { answer_of result self.new ≡ advance_of action self.old seen.now }
        ensures refused { OnErr result (self.new ≡ self.old) }
    {
        match ((self.phase, self.message), action) {
            ((Phase::Pending, _), Action::Starting) => {
                self.wait_for(Message::MasterDo(self.own_master));
                Ok(Effect::Nothing)
            }
            ((_, Some(Message::MasterDo(m))), Action::MasterDoing) => {
                if !seen.master.status.is_active() {
                    return Err(Refusal::WrongCardStatus);
                }
                self.wait_for(Message::MasterDone(m, seen.master.partner));
                Ok(Effect::MasterTakes(m))
            }
            ((_, Some(Message::MasterDo(_))), Action::HandlingMasterDoFailed) => {
                if !seen.master.status.is_lost() {
                    return Err(Refusal::WrongCardStatus);
                }
                match seen.active_backup {
                    Some(d) => {
                        self.wait_for(Message::BackupGetNewMaster(self.own_master, d));
                        Ok(Effect::Nothing)
                    }
                    None => {
                        self.rest(Phase::GaveUp);
                        Ok(Effect::GivesUp)
                    }
                }
            }
            ((_, Some(Message::MasterDone(m, b))), Action::HandlingMasterDone) => {
                self.own_backup = b;
                self.wait_for(Message::BackupDo(m, b));
                Ok(Effect::Nothing)
            }
            ((_, Some(Message::BackupDo(m, b))), Action::BackupDoing) => {
                if !seen.backup.status.is_active() {
                    return Err(Refusal::WrongCardStatus);
                }
                if seen.backup.partner != m {
                    return Err(Refusal::WrongCardNumber);
                }
                self.wait_for(Message::BackupDone(m, b));
                Ok(Effect::BackupTakes(b))
            }
            ((_, Some(Message::BackupDo(m, b))), Action::DetectingOldMasterId)
            | ((_, Some(Message::BackupGetNewMaster(m, b))), Action::GettingNewMaster) => {
                if !seen.backup.status.is_active() {
                    return Err(Refusal::WrongCardStatus);
                }
                if seen.backup.partner == m {
                    return Err(Refusal::WrongCardNumber);
                }
                self.wait_for(Message::NewMasterId(seen.backup.partner, b));
                Ok(Effect::Nothing)
            }
            ((_, Some(Message::BackupDo(_, _))), Action::HandlingBackupDoFailed) => {
                if !seen.backup.status.is_lost() {
                    return Err(Refusal::WrongCardStatus);
                }
                self.wait_for(Message::MasterGetNewBackup(self.own_master, self.own_backup));
                Ok(Effect::Nothing)
            }
            ((_, Some(Message::BackupDone(_, _))), Action::HandlingBackupDone) => {
                self.rest(Phase::Done);
                Ok(Effect::Completes)
            }
            ((_, Some(Message::MasterGetNewBackup(m, b))), Action::GettingNewBackup) => {
                if !seen.master.status.is_active() {
                    return Err(Refusal::WrongCardStatus);
                }
                if seen.master.partner == b {
                    return Err(Refusal::WrongCardNumber);
                }
                self.wait_for(Message::NewBackupId(m, seen.master.partner));
                Ok(Effect::Nothing)
            }
            (
                (_, Some(Message::MasterGetNewBackup(_, _))),
                Action::HandlingMasterGetNewBackupFailed,
            ) => {
                if !seen.master.status.is_lost() {
                    return Err(Refusal::WrongCardStatus);
                }
                self.rest(Phase::GaveUp);
                Ok(Effect::GivesUp)
            }
            (
                (_, Some(Message::BackupGetNewMaster(_, _))),
                Action::HandlingBackupGetNewMasterFailed,
            ) => {
                if !seen.backup.status.is_lost() {
                    return Err(Refusal::WrongCardStatus);
                }
                match seen.active_master {
                    Some(a) => {
                        if a == self.own_master {
                            return Err(Refusal::WrongCardNumber);
                        }
                        self.own_master = a;
                        self.rest(Phase::Pending);
                        Ok(Effect::Nothing)
                    }
                    None => {
                        self.rest(Phase::GaveUp);
                        Ok(Effect::GivesUp)
                    }
                }
            }
            ((_, Some(Message::NewBackupId(_, b))), Action::UpdatingBackupId) => {
                self.own_backup = b;
                self.rest(Phase::Done);
                Ok(Effect::Completes)
            }
            ((_, Some(Message::NewMasterId(m, _))), Action::UpdatingMasterId) => {
                self.own_master = m;
                self.rest(Phase::Pending);
                Ok(Effect::Nothing)
            }
            _ => Err(Refusal::WrongPhaseOrMessage),
        }
    }
}
