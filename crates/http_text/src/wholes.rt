//! Bytes that are exactly one message.
ghost use Rattle.std.specs.Prelude.{MatchOption, IfOk};
ghost use Rattle.http_text.specs.Parsing.{form_of};
ghost use Rattle.http_text.specs.Wholes.{IsNone, IsOne, TakesWhole};

use crate::incoming::Incoming;
use crate::limits::{FIELD_LIMIT, HEAD_LIMIT};
use crate::parsing::{MessageKind, Parse};
use httparse::spans::EMPTY_HEADER_SPAN;
use std::alloc::{AllocError, Global};

/// The message of this kind that is exactly these bytes; `None` if they are only a part of a message, a
/// refused one, or more than one. The work is proportional to the number of bytes.
pub(crate) fn message_in(
    alloc: Global,
    kind: MessageKind,
    bytes: &[u8],
) -> Result<Option<Incoming>, AllocError>
    ensures { IfOk result (λ found.
        MatchOption found (IsNone (form_of kind) bytes.now) (IsOne (form_of kind) bytes.now)) }
{
    let front = &bytes[..bytes.len().min(HEAD_LIMIT)];
    let mut fields = [EMPTY_HEADER_SPAN; FIELD_LIMIT];
    match kind.parse(front, &mut fields, &mut 0) {
        Parse::Whole(spans) => {
            let copy = Vec::from_slice(alloc, front)?;
            match Incoming::from_head(alloc, copy, spans, &fields) {
                Ok(message) => with_body(kind, message, &bytes[spans.len..]),
                Err(_) => Err(AllocError),
            }
        }
        Parse::Part => Ok(None),
        Parse::Refused(_) => Ok(None),
    }
}

/// The message with this body, if its head states that length.
fn with_body(
    kind: MessageKind,
    mut message: Incoming,
    body: &[u8],
) -> Result<Option<Incoming>, AllocError>
    ensures { IfOk result (λ found. TakesWhole (form_of kind) message body.now found) }
{
    match kind.judge(&message) {
        Ok(length) if length == body.len() as u64 => match message.append(body) {
            Ok(()) => Ok(Some(message)),
            Err(_) => Err(AllocError),
        },
        _ => Ok(None),
    }
}
