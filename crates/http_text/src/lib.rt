//! HTTP/1.1 texts over counted streams (RFC 9112): reads and writes requests and responses, and sends bytes
//! to a writer.
#![tactic(auto)]

mod arrays;
mod chunks;
mod counts;
mod fault;
mod incoming;
mod input;
mod judge;
mod limits;
mod output;
mod parsing;
mod reading;
mod request;
mod response;
mod response_reading;
mod sending;
mod texts;
mod trailers;
mod wholes;
mod writing;

pub use fault::{ReadFault, SendFault};
pub use http::StatusCode;
pub use incoming::{FieldValues, Incoming};
pub use input::Input;
pub use judge::is_head;
pub use limits::{
    BODY_LIMIT, CHUNK_FRAMING_LIMIT, FIELD_LIMIT, HEAD_LIMIT, INTERIM_LIMIT, RESPONSE_BODY_LIMIT,
    TURN_LIMIT,
};
pub use output::Output;
pub use request::{messages_are_apart, read_request, request_in};
pub use response::write_response;
pub use response_reading::{read_response, response_in, responses_are_apart};
pub use sending::send;
pub use texts::{texts_are_read, write_request};
pub use writing::FieldLine;
