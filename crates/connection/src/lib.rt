//! The connections of a provider, one after another, each with a deadline.
#![tactic(auto)]

mod accepting;
mod ahead;
mod answering;
mod descriptors;
mod ending;
mod endings;
mod faults;
mod held;
mod late;
mod laws;
mod leaving;
mod limits;
mod lines;
mod listening;
mod opening;
mod reactions;
mod readiness;
mod received;
mod search_times;
mod searches;
mod serving;
mod sockets;
mod waiting;
mod watch;

pub use ahead::AheadReader;
pub use answering::{Served, serve};
pub use late::LateWriter;
pub use laws::{rounds_meet_everybody, stops_leave_one_request};
pub use limits::SEARCH_SECONDS;
pub use listening::Listen;
pub use opening::listen_at;
pub use serving::{ConnectionFault, answered, serve_connections, serve_from_memory, serve_next};
pub use sockets::Sockets;
