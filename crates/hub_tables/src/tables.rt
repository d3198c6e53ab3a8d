// The tables of a hub, which the caller lends: to write to, or only to see.
ghost use Rattle.std.specs.Prelude.{◌≡◌};
ghost use Rattle.hub_tables.specs.Lent.{held, viewed};

use hub_cards::{BackupNumber, Card, MasterNumber};
use hub_records::commands::Command;

/// The tables that a caller lends to a hub: its commands, and for each role the cards and their registers.
// Cards and registers are tables of their own: by a rule of the project the searches go over a role's card records alone.
#[derive(Drop)]
pub struct Tables<'t, R> {
    pub commands: &'t mut [Command],
    pub masters: &'t mut [Card<BackupNumber>],
    pub master_registers: &'t mut [R],
    pub backups: &'t mut [Card<MasterNumber>],
    pub backup_registers: &'t mut [R],
}

/// The same tables, lent only to be seen.
// A struct of its own: no type is generic over whether its references may write.
#[derive(Clone, Copy)]
pub struct View<'t, R> {
    pub commands: &'t [Command],
    pub masters: &'t [Card<BackupNumber>],
    pub master_registers: &'t [R],
    pub backups: &'t [Card<MasterNumber>],
    pub backup_registers: &'t [R],
}

impl<R> Tables<'_, R> {
    /// The tables, only to be seen.
    pub fn view(&self) -> View<'_, R>
        ensures { viewed result ≡ held self.now }
    {
        View {
            commands: self.commands,
            masters: self.masters,
            master_registers: self.master_registers,
            backups: self.backups,
            backup_registers: self.backup_registers,
        }
    }
}
