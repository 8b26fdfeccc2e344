//! Reads a response from a stream, or from bytes (RFC 9112, sections 2 to 7).
ghost use Rattle.std.specs.Prelude.{◌≡◌, ◌≢◌, [], Some, IsTrue, IsFalse, MatchOption, OnOk, IfOk, IfErr};
ghost use Rattle.http_text.specs.Counts.{CountsTurns};
ghost use Rattle.http_text.specs.Heads.{EndsReading, IsStreamFault};
ghost use Rattle.http_text.specs.Forms.{IsResponseMessage};
ghost use Rattle.http_text.specs.Responses.{IsNoResponse, TakesOne, TakesRefusedOne, TakesWithin, TakesRefusedWithin, TakesResponse, TakesRefusedResponse, FindsResponse, FindsRefusedResponse, FindsResponseEnd, FindsLongResponse, FindsMalformedResponse, FindsMalformedBody, FindsInterims, ResponsesAreApart};
ghost use Rattle.http_text.specs.Steps.{SpendsTurns, EndsTurns};

use crate::chunks::read_chunked;
use crate::fault::ReadFault;
use crate::incoming::Incoming;
use crate::input::Input;
use crate::judge::{has_chunks, is_interim};
use crate::limits::{INTERIM_LIMIT, TURN_LIMIT};
use crate::parsing::MessageKind;
use crate::reading::read_whole;
use std::alloc::{AllocError, Global};
use std::io::Read;

/// Reads one response, over at most `INTERIM_LIMIT` interim ones before it. Bytes after the response stay in the
/// reader, even if they were read ahead. An interrupted read is made again. `Content-Length` must state the body's length, at most
/// `RESPONSE_BODY_LIMIT`, or the body comes in chunks, with at most as much content and `CHUNK_FRAMING_LIMIT` bytes
/// beside it. A 204 and a 304 have no body, whatever they state.
pub fn read_response<R: Read>(alloc: Global, reader: &mut Input<R>) -> Result<Incoming, ReadFault>
    // What was taken from the reader: a whole response, or the bytes that the refusal is about.
    ensures message { IfOk result (TakesResponse reader.old.remaining reader.new.remaining) }
    ensures refused { IfErr result
        (TakesRefusedResponse reader.old.remaining reader.new.remaining) }

    // A response at the reader's front is found, whatever follows it, unless the stream has a fault.
    ensures found { FindsResponse reader.old.remaining reader.new.remaining result }
    ensures refused_head { FindsRefusedResponse reader.old.remaining result }
    ensures ended { FindsResponseEnd reader.old.remaining result }
    ensures long { FindsLongResponse reader.old.remaining result }
    ensures malformed { FindsMalformedResponse reader.old.remaining result }
    ensures malformed_body { FindsMalformedBody reader.old.remaining result }
    ensures interims { FindsInterims reader.old.remaining result }

    // A fault of the stream agrees with the counts.
    ensures counts { CountsTurns reader.old.calls reader.new.calls }
    ensures clean { OnOk result (reader.new.failures ≡ reader.old.failures) }
    ensures fault { IfErr result (EndsReading reader.old reader.new) }
{
    let mut turns = TURN_LIMIT;
    read_within(alloc, reader, INTERIM_LIMIT, &mut turns)
}

/// Reads one response, over at most `room` interim responses before it.
fn read_within<R: Read>(
    alloc: Global,
    reader: &mut Input<R>,
    room: u32,
    turns: &mut u32,
) -> Result<Incoming, ReadFault>
    ensures message { IfOk result
        (TakesWithin room reader.old.remaining reader.new.remaining) }
    ensures refused { IfErr result
        (TakesRefusedWithin room reader.old.remaining reader.new.remaining) }
    ensures counts { SpendsTurns reader.old reader.new turns.old turns.new }
    ensures clean { OnOk result (reader.new.failures ≡ reader.old.failures) }
    ensures fault { IfErr result (EndsTurns reader.old reader.new turns.new) }
{
    let message = read_one(alloc, reader, turns)?;
    if !is_interim(&message) {
        return Ok(message);
    }
    if room == 0 {
        return Err(ReadFault::Malformed { is_head: false });
    }
    read_within(alloc, reader, room - 1, turns)
}

/// Reads one response, interim or not.
fn read_one<R: Read>(
    alloc: Global,
    reader: &mut Input<R>,
    turns: &mut u32,
) -> Result<Incoming, ReadFault>
    ensures message { IfOk result (TakesOne reader.old.remaining reader.new.remaining) }
    ensures refused { IfErr result (TakesRefusedOne reader.old.remaining reader.new.remaining) }
    ensures counts { SpendsTurns reader.old reader.new turns.old turns.new }
    ensures clean { OnOk result (reader.new.failures ≡ reader.old.failures) }
    ensures fault { IfErr result (EndsTurns reader.old reader.new turns.new) }
{
    let mut message = read_whole(alloc, MessageKind::Response, reader, turns, &mut 0)?;
    if !has_chunks(&message) {
        return Ok(message);
    }
    match read_chunked(alloc, reader, &mut message, turns) {
        Ok(()) => Ok(message),
        Err(fault) => Err(fault),
    }
}

/// The response that is exactly these bytes; `None` if they are only a part of a response, or more than
/// one. The work is proportional to the number of bytes.
pub fn response_in(alloc: Global, bytes: &[u8]) -> Result<Option<Incoming>, AllocError>
    ensures { IfOk result (λ found.
        MatchOption found (IsNoResponse bytes.now) (IsResponseMessage bytes.now)) }
{
    let mut reader = Input::new(bytes);
    match read_response(alloc, &mut reader) {
        Ok(response) => {
            if is_read_up(reader) {
                Ok(Some(response))
            } else {
                Ok(None)
            }
        }
        Err(fault) => {
            if is_of_stream(fault) {
                Err(AllocError)
            } else {
                Ok(None)
            }
        }
    }
}

/// Whether no byte remains.
fn is_read_up(reader: Input<&[u8]>) -> bool
    ensures ended { IsTrue result → reader.entry.remaining ≡ Some [] }
    ensures more { IsFalse result → reader.entry.remaining ≢ Some [] }
{
    let ahead = reader.ahead().len();
    let rest = reader.into_inner();
    ahead == 0 && rest.is_empty()
}

/// Whether a fault says nothing of the bytes.
fn is_of_stream(fault: ReadFault) -> bool
    ensures { IsFalse result → ¬ (IsStreamFault fault) }
{
    match fault {
        ReadFault::ReadFailed | ReadFault::OutOfMemory | ReadFault::TurnsExhausted => true,
        ReadFault::Malformed { .. }
        | ReadFault::HostMissingOrRepeated { .. }
        | ReadFault::LengthMissing { .. }
        | ReadFault::BodyTooLong { .. }
        | ReadFault::HeadTooLong { .. }
        | ReadFault::TransferCoding { .. }
        | ReadFault::Expectation { .. }
        | ReadFault::EndedEarly => false,
    }
}

/// A law: no proper prefix of a response is a response.
pub fn responses_are_apart()
    ensures { ResponsesAreApart }
{}
