//! The client of a SCIM provider (RFC 7644): the bytes that it sends for a request, and how it reads the
//! answer.
#![tactic(auto)]

mod answer_laws;
mod answers;
mod exchange;
mod request_laws;
mod requests;
mod service;
mod service_paths;

pub use answer_laws::{answers_are_read, one_answer};
pub use answers::{AnswerFault, read_answer};
pub use exchange::{ExchangeFault, read_reply};
pub use request_laws::{one_request, requests_are_spelled};
pub use service::{CreateRequest, ReplaceRequest, RetrieveRequest, ScimService, SearchRequest};
pub use service_paths::{SERVICE_PATH_LIMIT, ServicePath};
