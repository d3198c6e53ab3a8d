// A step of a hub, over tables that the caller lends: of a command, or of the cards alone.
#![tactic(auto)]

mod card_steps;
mod command_steps;
mod stepping;

pub use stepping::step;
