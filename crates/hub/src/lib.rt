// The hub's calls, over tables that the caller lends: making a hub, a step, a look, and any list of steps and looks.
#![tactic(auto)]

mod calls;
mod looking;
pub mod making;
mod running;
pub mod stepping;

pub use calls::{Answer, Call};
pub use hub_making::make;
pub use hub_steps::step;
pub use looking::look;
pub use running::run;
