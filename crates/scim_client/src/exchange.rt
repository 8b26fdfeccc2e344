//! One exchange with a service: sends a request and reads one response.
ghost use Rattle.std.specs.Prelude.{◌≡◌, Result};
ghost use Rattle.http_text.specs.Counts.{CountsTurns};
ghost use Rattle.http_text.specs.Message.{Message};
ghost use Rattle.http_text.specs.declared.fault.ReadFault.{ReadFault};
ghost use Rattle.scim_client.specs.Exchanges as spec;
ghost use Rattle.scim_client.specs.Requests.{text_of};

use crate::answers::{AnswerFault, answer_in};
use crate::service::ScimService;
use http_text::{Input, Output, ReadFault, SendFault, read_response, send};
use scim_message::{Answer, Request};
use std::alloc::Global;
use std::io::{Read, Write};
use std::{error, fmt};

/// Why no answer came. Its text is its code.
#[derive(Clone, Copy, Debug, PartialEq, Eq)]
pub enum ExchangeFault {
    /// The request wasn't sent whole (H12, H14), and nothing was read.
    Unsent(SendFault),
    /// The bytes ended before the response did.
    EndedEarly,
    /// A read failed.
    ReadFailed,
    /// Out of memory while the response was read.
    OutOfMemory,
    /// The response wasn't complete after 100,000 reads.
    TurnsExhausted,
    /// The response isn't an answer (K1 to K3), or memory ran out before the request was sent or after the
    /// response was read (K4).
    NoAnswer(AnswerFault),
}

impl fmt::Display for ExchangeFault {
    ghost use Rattle.std.specs.Prelude.{Some};
    ghost use Rattle.scim_client.specs.Codes.{exchange_fault_text};

    ghost output = { λ fault. Some (exchange_fault_text fault) };

    fn fmt<W: fmt::Write>(&self, f: &mut fmt::Formatter<W>) -> fmt::Result {
        match self {
            ExchangeFault::Unsent(fault) => write!(f, "{fault}"),
            ExchangeFault::EndedEarly => f.write_str("H10"),
            ExchangeFault::ReadFailed => f.write_str("H11"),
            ExchangeFault::OutOfMemory => f.write_str("H13"),
            ExchangeFault::TurnsExhausted => f.write_str("H14"),
            ExchangeFault::NoAnswer(fault) => write!(f, "{fault}"),
        }
    }
}

impl error::Error for ExchangeFault {}

impl ScimService {
    /// Sends a request and reads one response to it; bytes after the response stay in the reader. The fault
    /// says how much was sent and read. If memory runs out before anything is sent, both streams are
    /// unchanged.
    pub fn exchange<R: Read, W: Write>(
        &self,
        alloc: Global,
        request: &Request,
        reader: &mut Input<R>,
        writer: &mut Output<W>,
    ) -> Result<Answer, ExchangeFault>
        // What was written, and what was taken from the reader; the answer is the one in these bytes.
        ensures sent { spec.Sends (text_of self.now request.now) writer.old writer.new result }
        ensures read { spec.Reads request.now reader.old reader.new result }
        ensures spelled { spec.SpellsSent self.now request.now writer.old writer.new }

        // The response at the reader's front is the result, whatever follows it, unless something hinders
        // the exchange.
        ensures known { spec.ExchangesKnown request.now reader.old.remaining reader.new.remaining
            result }

        // The turns of both streams.
        ensures writes { CountsTurns writer.old.calls writer.new.calls }
        ensures reads { CountsTurns reader.old.calls reader.new.calls }
    {
        match self.send_request(alloc, request, writer) {
            Ok(()) => read_reply(alloc, request, reader),
            Err(fault) => Err(fault),
        }
    }

    /// Sends a request, and reads nothing. The fault says how much was sent. If memory runs out before anything is
    /// sent, the stream is unchanged.
    pub fn send_request<W: Write>(
        &self,
        alloc: Global,
        request: &Request,
        writer: &mut Output<W>,
    ) -> Result<(), ExchangeFault>
        ensures sent { spec.Starts (text_of self.now request.now) writer.old writer.new result }
        ensures spelled { spec.SpellsSent self.now request.now writer.old writer.new }
        ensures writes { CountsTurns writer.old.calls writer.new.calls }
    {
        match self.bytes_of(alloc, request) {
            Ok(text) => send_text(&text, writer),
            Err(_) => Err(ExchangeFault::NoAnswer(AnswerFault::OutOfMemory)),
        }
    }
}

/// Sends the text of a request.
fn send_text<W: Write>(text: &[u8], writer: &mut Output<W>) -> Result<(), ExchangeFault>
    ensures sent { spec.Starts text.now writer.old writer.new result }
    ensures writes { CountsTurns writer.old.calls writer.new.calls }
{
    match send(writer, text) {
        Ok(()) => Ok(()),
        Err(fault) => Err(ExchangeFault::Unsent(fault)),
    }
}

/// Reads one response to a request that was sent; bytes after it stay in the reader.
pub fn read_reply<R: Read>(
    alloc: Global,
    request: &Request,
    reader: &mut Input<R>,
) -> Result<Answer, ExchangeFault>
    ensures reply { spec.IsReply result }
    ensures read { spec.Reads request.now reader.old reader.new result }
    ensures known { spec.ExchangesKnown request.now reader.old.remaining reader.new.remaining
        result }
    ensures reads { CountsTurns reader.old.calls reader.new.calls }
{
    receive(alloc, request, reader)
}

/// Reads the answer to a request.
fn receive<R: Read>(
    alloc: Global,
    request: &Request,
    reader: &mut Input<R>,
) -> Result<Answer, ExchangeFault>
    ensures { (r : Result Message ReadFault) × spec.HasRead reader.old reader.new r
        × spec.ComesOf request.now r result }
{
    match read_response(alloc, reader) {
        Ok(response) => match answer_in(alloc, request, &response) {
            Ok(answer) => Ok(answer),
            Err(fault) => Err(ExchangeFault::NoAnswer(fault)),
        },
        Err(fault) => Err(fault_of(fault)),
    }
}

/// The fault of an exchange for a fault of reading a response.
fn fault_of(fault: ReadFault) -> ExchangeFault
    ensures { result ≡ spec.fault_of fault }
{
    match fault {
        ReadFault::EndedEarly => ExchangeFault::EndedEarly,
        ReadFault::ReadFailed => ExchangeFault::ReadFailed,
        ReadFault::OutOfMemory => ExchangeFault::OutOfMemory,
        ReadFault::TurnsExhausted => ExchangeFault::TurnsExhausted,
        ReadFault::Malformed { .. }
        | ReadFault::HostMissingOrRepeated { .. }
        | ReadFault::LengthMissing { .. }
        | ReadFault::BodyTooLong { .. }
        | ReadFault::HeadTooLong { .. }
        | ReadFault::TransferCoding { .. }
        | ReadFault::Expectation { .. } => ExchangeFault::NoAnswer(AnswerFault::NotOneResponse),
    }
}
