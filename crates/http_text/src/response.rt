//! The bytes of a response (RFC 9112, sections 4 to 6).
ghost use Rattle.std.specs.Prelude.{◌≡◌, map, IfOk};
ghost use Rattle.http_text.specs.Response.{phrase_of, line_of, written_lines, response_text};

use crate::writing::{FieldLine, write_message};
use http::StatusCode;
use std::alloc::{AllocError, Global};

/// The reason phrase of a status; empty for a status that this product never sends.
fn phrase(status: StatusCode) -> &'static str
    ensures { result.now ≡ phrase_of status }
{
    match status.as_u16() {
        200 => "OK",
        201 => "Created",
        304 => "Not Modified",
        400 => "Bad Request",
        404 => "Not Found",
        409 => "Conflict",
        411 => "Length Required",
        412 => "Precondition Failed",
        413 => "Content Too Large",
        415 => "Unsupported Media Type",
        417 => "Expectation Failed",
        431 => "Request Header Fields Too Large",
        500 => "Internal Server Error",
        501 => "Not Implemented",
        _ => "",
    }
}

/// The bytes of an HTTP/1.1 response with these field lines and this body. The lines are written unchanged:
/// the caller sees to it that a name is a token and that a value has no control byte except the tab.
pub fn write_response(
    alloc: Global,
    status: StatusCode,
    fields: &[FieldLine<'_>],
    body: &[u8],
) -> Result<Vec<u8>, AllocError>
    ensures { IfOk result (λ text. text.items
        ≡ response_text status (written_lines (map line_of fields.now)) body.now) }
{
    let start = ["HTTP/1.1 ", status.as_str(), " ", phrase(status)];
    write_message(alloc, &start, fields, body)
}
