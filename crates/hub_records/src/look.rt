// What a look at a hub sees.
use super::hub::ExecState;
use hub_cards::{BackupNumber, MasterNumber};

// How the hub stands, how many steps it has accepted and how many cards it has lost, how many commands are done, and
// for each role the last card, which is 0 for none, and its version. No Option: 0 is the number of no card all through the
// records, and the version of none is 0 as well.
#[derive(Clone, Copy, Debug, PartialEq, Eq)]
pub struct Look {
    pub state: ExecState,
    pub steps: u32,
    pub losses: u32,
    pub done: usize,
    pub master: MasterNumber,
    pub master_version: u32,
    pub backup: BackupNumber,
    pub backup_version: u32,
}
