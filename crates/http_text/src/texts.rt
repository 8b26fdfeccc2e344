//! The bytes of a request, and the law that written messages are read back.
ghost use Rattle.std.specs.Prelude.{◌≡◌, map, IfOk};
ghost use Rattle.http_text.specs.Response.{line_of, written_lines};
ghost use Rattle.http_text.specs.Texts.{request_text, TextsAreRead};

use crate::writing::{FieldLine, write_message};
use std::alloc::{AllocError, Global};

/// The bytes of an HTTP/1.1 request with this method, this target, these field lines and this body, each
/// written unchanged.
#[tactic(auto, using(crate::proofs::TextLemmas::request_parts))]
pub fn write_request(
    alloc: Global,
    method: &str,
    target: &str,
    fields: &[FieldLine<'_>],
    body: &[u8],
) -> Result<Vec<u8>, AllocError>
    ensures { IfOk result (λ text. text.items ≡ request_text method.now target.now
        (written_lines (map line_of fields.now)) body.now) }
{
    let start = [method, " ", target, " HTTP/1.1"];
    write_message(alloc, &start, fields, body)
}

/// A law: the text that is written for a request or a response is read as a message with exactly its parts.
pub fn texts_are_read()
    ensures { TextsAreRead }
{}
