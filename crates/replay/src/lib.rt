// The replay of a journal: its header makes a hub, and its steps are carried out on it.
#![tactic(auto)]

mod header;
mod replaying;
mod steps;

pub use replaying::replay;
