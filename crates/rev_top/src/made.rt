//! A report, and the run of which it was made.

use rev_report::Report;
use thread_runs::Ran;

/// A report, and the run by threads of which it was made, where the mode makes one.
#[derive(Drop)]
pub struct Made {
    pub report: Report,
    pub ran: Option<Ran>,
}
