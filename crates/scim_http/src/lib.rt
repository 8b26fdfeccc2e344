//! What a SCIM request asks for, and what a response says, as HTTP texts (RFC 7644). Connector and provider
//! share them.
#![tactic(auto)]

mod conditions;
mod field_lines;
mod laws;
mod media;
mod numbers;
mod queries;
mod replies;
mod requests;
mod routes;
mod searches;
mod segments;

pub use field_lines::{MEDIA_TYPE, stated_type};
pub use laws::{
    answers_are_responses, locations_are_routed, one_meaning, replies_are_lawful,
    segments_are_spelled,
};
pub use replies::{Reply, fixed_response, response_of};
pub use requests::{MeaningFault, meaning};
pub use routes::collection_path;
