//! Reads records of a journal back from the provider, and says what differs from what is wanted, or doubts it. It
//! sends searches, and nothing else.
#![tactic(auto)]

mod begun;
mod beside;
mod counts;
mod differences;
mod doubtful;
mod explaining;
mod findings;
mod laws;
mod lines;
mod looking;
mod over_tcp;
mod rechecking;
mod running;
mod telling;

pub use begun::{Begun, Pending};
pub use beside::Beside;
pub use counts::Counts;
pub use doubtful::Doubtful;
pub use findings::Finding;
pub use laws::in_step_means;
pub use lines::{FindingLines, FindingNotices};
pub use looking::{Hindrance, Look};
pub use over_tcp::{check, recheck};
pub use rechecking::recheck_all;
pub use running::check_all;
pub use telling::TellFinding;
