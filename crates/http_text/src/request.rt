//! Reads a request from a stream (RFC 9112, sections 2 to 6).
ghost use Rattle.std.specs.Prelude.{◌≡◌, MatchOption, OnOk, IfOk, IfErr};
ghost use Rattle.http_text.specs.Counts.{CountsTurns};
ghost use Rattle.http_text.specs.Heads.{EndsReading};
ghost use Rattle.http_text.specs.Requests.{TakesMessage, TakesRefused, FindsMessage, FindsRefusedHead, FindsEnd, FindsLong, FindsMalformed, MessagesAreApart};
ghost use Rattle.http_text.specs.Wholes.{IsNoRequest, IsOneRequest};

use crate::fault::ReadFault;
use crate::incoming::Incoming;
use crate::input::Input;
use crate::parsing::MessageKind;
use crate::reading::read_message;
use crate::wholes::message_in;
use std::alloc::{AllocError, Global};
use std::io::Read;

/// Reads one request. Bytes after the request stay in the reader, even if they were read ahead. An
/// interrupted read is made again.
pub fn read_request<R: Read>(alloc: Global, reader: &mut Input<R>) -> Result<Incoming, ReadFault>
    // What was taken from the reader: a whole message, or the bytes that the refusal is about.
    ensures message { IfOk result (TakesMessage reader.old.remaining reader.new.remaining) }
    ensures refused { IfErr result (TakesRefused reader.old.remaining reader.new.remaining) }

    // A message at the reader's front is found, whatever follows it, unless the stream has a fault.
    ensures found { FindsMessage reader.old.remaining reader.new.remaining result }
    ensures refused_head { FindsRefusedHead reader.old.remaining result }
    ensures ended { FindsEnd reader.old.remaining result }
    ensures long { FindsLong reader.old.remaining result }
    ensures malformed { FindsMalformed reader.old.remaining result }

    // A fault of the stream agrees with the counts.
    ensures counts { CountsTurns reader.old.calls reader.new.calls }
    ensures clean { OnOk result (reader.new.failures ≡ reader.old.failures) }
    ensures fault { IfErr result (EndsReading reader.old reader.new) }
{
    read_message(alloc, MessageKind::Request, reader)
}

/// The request that is exactly these bytes; `None` if they are only a part of a request, a refused one, or
/// more than one. The result is the one of `read_request`, without a stream that may fail. The work is
/// proportional to the number of bytes.
pub fn request_in(alloc: Global, bytes: &[u8]) -> Result<Option<Incoming>, AllocError>
    ensures { IfOk result (λ found.
        MatchOption found (IsNoRequest bytes.now) (IsOneRequest bytes.now)) }
{
    message_in(alloc, MessageKind::Request, bytes)
}

/// A law: no proper prefix of a request is a request.
pub fn messages_are_apart()
    ensures { MessagesAreApart }
{}
