//! Requests, answers and their bodies (RFC 7644).
#![tactic(auto)]

mod answers;
mod bodies;
mod laws;
mod lists;
mod messages;
mod refusals;

pub use answers::{BodyFault, read_body};
pub use bodies::{body_at, body_of, location_of};
pub use laws::bodies_are_read_back;
pub use lists::{ListResponse, Resources};
pub use messages::{Answer, Request};
pub use refusals::{ErrorResponse, Refusal};
