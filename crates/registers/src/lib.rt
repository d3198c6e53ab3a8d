// Registers of pitch moves: the interface of a register, three kinds of it, and the mean of a sum.
#![tactic(auto)]

mod classes;
mod examples;
mod kind;
mod means;
mod moves;
mod peak;
mod register;
mod sum;
#[cfg(test)]
mod tests;

pub use classes::Classes;
pub use examples::worked_examples_hold;
pub use kind::Kind;
pub use means::{is_mean, mean, mean_of};
pub use moves::{Move, OutsideLimits};
pub use peak::Peak;
pub use register::Register;
pub use sum::Sum;
