//! Reads messages from their bytes.
ghost use Rattle.std.specs.Prelude.{◌≡◌, ◌<◌, ◌++◌, ℕ, List, length, false, is_ok, IfOk};
ghost use Rattle.scim_message.specs.declared.messages.Answer.{Answer};
ghost use Rattle.scim_message.specs.declared.messages.Request.{Request};
ghost use Rattle.scim_client.specs.Answers.{AnswersSo};
ghost use Rattle.scim_client.specs.Spelling.{SpellsRequest};
ghost use Rattle.world_sim.specs.Messages.{says};
ghost use Rattle.world_sim.specs.Reading as spec;
ghost use Rattle.world_sim.specs.Reading.{IsOrMemory, IsReadAs, MeansSo};

use crate::messages::Said;
use http_text::{Incoming, request_in};
use scim_client::{AnswerFault, read_answer};
use scim_http::{MeaningFault, meaning};
use scim_message::{Answer, Request};
use std::alloc::{AllocError, Global};

/// Why bytes couldn't be read as a message.
#[derive(Clone, Copy)]
pub(crate) enum ReadingFault {
    /// They aren't exactly one message that asks for something, or that answers the request.
    Unread,
    Memory,
}

/// Reads the request that these bytes ask for, as the server does.
pub(crate) fn read_asked(alloc: Global, bytes: &[u8]) -> Result<Request, ReadingFault>
    ensures ok { IfOk result (SpellsRequest bytes.now) }
    // The result is the request that they spell, or out of memory.
    ensures only { (request : Request) → SpellsRequest bytes.now request
        → IsOrMemory request result }
{
    match request_in(alloc, bytes) {
        Ok(Some(incoming)) => asked_by(alloc, &incoming),
        Ok(None) => Err(ReadingFault::Unread),
        Err(_) => Err(ReadingFault::Memory),
    }
}

/// What a message asks for.
fn asked_by(alloc: Global, incoming: &Incoming) -> Result<Request, ReadingFault>
    ensures { MeansSo incoming.now result }
{
    match meaning(alloc, incoming) {
        Ok(request) => Ok(request),
        Err(MeaningFault::Refused(_)) => Err(ReadingFault::Unread),
        Err(MeaningFault::OutOfMemory) => Err(ReadingFault::Memory),
    }
}

/// Reads the answer to a request from these bytes, as the client does.
pub(crate) fn read_answered(
    alloc: Global,
    request: &Request,
    bytes: &[u8],
) -> Result<Answer, ReadingFault>
    ensures ok { IfOk result (AnswersSo bytes.now request.now) }
    // The result is the answer that they are, or out of memory.
    ensures only { (answer : Answer) → AnswersSo bytes.now request.now answer
        → IsOrMemory answer result }
{
    match read_answer(alloc, request, bytes) {
        Ok(answer) => Ok(answer),
        Err(fault) => Err(reading_fault(fault)),
    }
}

/// Bytes that aren't an answer are unread.
fn reading_fault(fault: AnswerFault) -> ReadingFault
    ensures { result ≡ spec.reading_fault fault }
{
    match fault {
        AnswerFault::NotOneResponse | AnswerFault::NotJson | AnswerFault::WrongShape => {
            ReadingFault::Unread
        }
        AnswerFault::OutOfMemory => ReadingFault::Memory,
    }
}

/// Whether a message was read.
fn is_read<T: Drop>(read: Result<T, ReadingFault>) -> Result<bool, AllocError>
    ensures { IfOk result (λ found. found ≡ is_ok read) }
{
    match read {
        Ok(_) => Ok(true),
        Err(ReadingFault::Unread) => Ok(false),
        Err(ReadingFault::Memory) => Err(AllocError),
    }
}

/// Whether the first bytes of a message are read as a whole one by the side that they go to. They never are
/// if the message has more bytes.
pub(crate) fn read_cut(alloc: Global, said: &Said, front: &[u8]) -> Result<bool, AllocError>
    ensures { (more : List ℕ) → 0 < length more → IsReadAs (front.now ++ more) (says said.now)
        → IfOk result (λ read. read ≡ false) }
{
    match said {
        Said::Asked(_) => is_read(read_asked(alloc, front)),
        Said::Answered(asked, _) => is_read(read_answered(alloc, &asked.request, front)),
    }
}
