//! Streams with a deadline, from which on each call fails. Connector and provider share them.
#![tactic(auto)]

mod deadline;
mod prompt;
mod shared;
mod timed;

pub use deadline::Deadline;
pub use prompt::PromptStream;
pub use shared::{SharedStream, TimedHandle, timed_handles};
pub use timed::TimedStream;
