// From the bytes of a journal to the text that is shown of it.
#![tactic(auto)]

mod showing;

pub use report::Shown;
pub use showing::show;
