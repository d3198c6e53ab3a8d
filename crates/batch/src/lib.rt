// What a batch must come to: the journal read from start to end, and its totals as text.
#![tactic(auto)]

mod batch;
mod reading;
mod showing;
mod text;

pub use batch::Batch;
pub use reading::read_batch;
pub use report::Shown;
pub use showing::show;
