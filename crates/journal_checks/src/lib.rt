// Checks of the journal reader and of what is shown of a journal, on examples worked out by hand.
#![tactic(auto)]

pub mod refused;
#[cfg(test)]
mod tests;
