// Reading a journal: lines of `key=value` in a fixed order, each ended by a line feed.
#![tactic(auto)]

mod due;
pub mod keys;
pub mod kinds;
pub mod lines;
pub mod numbers;
pub mod place;
pub mod reader;
mod rows;
mod values;
