// Text in a buffer that the caller lends: pieces, numbers, lines, and the print of a fault.
// Nothing here allocates, and no call writes a part of what it was asked to write.
#![tactic(auto)]

mod fault;
mod figures;
mod lines;
mod printing;
mod shown;
#[cfg(test)]
mod tests;
mod writer;

pub use fault::{fault_example, fault_text};
pub use printing::print;
pub use shown::{Shown, show_fault};
pub use writer::Writer;
