// The report of a hub as text, in a buffer that the caller lends.
#![tactic(auto)]

mod reporting;
mod role;
mod worked;

pub use reporting::report_text;
pub use worked::worked_report_holds;
