// Checks of what is shown of a journal, on examples worked out by hand.
#![tactic(auto)]

#[cfg(test)]
mod tests;
