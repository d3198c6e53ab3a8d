// The hub's tables: searches over the cards of a role, and whether tables fit together.
#![tactic(auto)]

pub mod fit;
pub mod search;
pub mod tables;
#[cfg(test)]
mod tests;
