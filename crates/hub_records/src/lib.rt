// The records of a hub: its commands with the way they move on, and the hub itself.
#![tactic(auto)]

pub mod advance;
pub mod cards;
pub mod commands;
pub mod hub;
pub mod look;
