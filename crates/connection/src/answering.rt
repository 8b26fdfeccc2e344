//! One connection.
ghost use Rattle.std.specs.Prelude.{◌≡◌, ◌≤◌, ◌+◌, Result, IfOk, OnErr, OnOk, Some};
ghost use Rattle.provider_core.specs.Stores.{IsQuiet, CountsFaults};
ghost use Rattle.provider_core.specs.Stops.{CountsSearchFault, StopsIf};
ghost use Rattle.provider_core.specs.Outcomes.{outcome, changed_rows};
ghost use Rattle.provider_core.specs.Calls.{Writes};
ghost use Rattle.http_text.specs.Counts.{CountsTurns};
ghost use Rattle.http_text.specs.Message.{Message};
ghost use Rattle.http_text.specs.declared.fault.ReadFault.{ReadFault};
ghost use Rattle.scim_http.specs.Replies.{ReplyRecord, fixed_reply};
ghost use Rattle.connection.specs.Reactions.{reaction_to};
ghost use Rattle.connection.specs.Serving as spec;
ghost use Rattle.connection.specs.Known.{ServesKnown};

use crate::reactions::{Reaction, reaction_to};
use http_text::{Incoming, Input, Output, ReadFault, is_head, read_request, send};
use provider_core::{
    Answer, ErrorResponse, Meanwhile, Nothing, Provider, ProviderFault, Registry, Request,
    SearchFault,
};
use scim_http::{MeaningFault, Reply, fixed_response, meaning};
use scim_key::Base;
use scim_message::Refusal;
use std::alloc::{AllocError, Global};
use std::io::{Read, Write};

/// How a connection ended.
#[derive(Clone, Copy, Debug, PartialEq, Eq)]
pub enum Served {
    /// A response with this status code was written whole.
    Answered { status: u16 },
    /// No request came, and nothing was written.
    NoRequest(ReadFault),
    /// A response with this status code couldn't be written whole, or the flush after it failed.
    Lost { status: u16 },
}

/// Reads one request, answers it and makes its change. Bytes after the request stay unread. The answer's
/// bytes are formed before the change is made, and sent after it. If the store fails or memory runs out, a
/// fixed response is sent, which needs no memory, and the rows stay.
pub fn serve<R: Registry, I: Read, O: Write>(
    alloc: Global,
    provider: &mut Provider<R>,
    base: &Base,
    reader: &mut Input<I>,
    writer: &mut Output<O>,
) -> Served
    // What was read, and what followed from it.
    ensures served { (r : Result Message ReadFault) × spec.HasRead reader.old reader.new r
        × spec.Serves (R.is_faithful provider.new) base.now (R.rows provider.old)
        (R.rows provider.new) writer.old writer.new r result
        × spec.LeavesRows R.Registry provider.old provider.new r }

    // The same of one reply, which says what the store did.
    ensures replied { spec.IsReplied R.Registry base.now provider.old provider.new
        reader.old reader.new writer.old writer.new result }

    // The same, if the bytes at the reader's front are known.
    ensures known { ServesKnown (R.is_faithful provider.new) base.now (R.rows provider.old)
        (R.rows provider.new) writer.old writer.new result
        reader.old.remaining reader.new.remaining }

    // The counts of the store and of the writer.
    ensures faults { spec.AnswersFaults R.Registry provider.old provider.new writer.old writer.new
        result }
    ensures quiet { IsQuiet R.is_faithful R.faults provider.old provider.new }
    ensures writes { R.writes provider.new ≤ R.writes provider.old + 1 }
    ensures turns { CountsTurns writer.old.calls writer.new.calls }
{
    serve_meanwhile(alloc, provider, base, reader, writer, &mut Nothing)
}

/// Serves as `serve` does. If the request asks for a look through all rows, somebody else goes on after each page of
/// rows. If he stops it, the fixed response is sent.
pub(crate) fn serve_meanwhile<R: Registry, I: Read, O: Write, M: Meanwhile>(
    alloc: Global,
    provider: &mut Provider<R>,
    base: &Base,
    reader: &mut Input<I>,
    writer: &mut Output<O>,
    meanwhile: &mut M,
) -> Served
    ensures served { (r : Result Message ReadFault) × spec.HasRead reader.old reader.new r
        × spec.Serves (R.is_faithful provider.new) base.now (R.rows provider.old)
        (R.rows provider.new) writer.old writer.new r result
        × spec.LeavesRows R.Registry provider.old provider.new r }
    ensures replied { spec.IsReplied R.Registry base.now provider.old provider.new
        reader.old reader.new writer.old writer.new result }
    ensures known { ServesKnown (R.is_faithful provider.new) base.now (R.rows provider.old)
        (R.rows provider.new) writer.old writer.new result
        reader.old.remaining reader.new.remaining }
    ensures faults { spec.AnswersFaults R.Registry provider.old provider.new writer.old writer.new
        result }
    ensures quiet { IsQuiet R.is_faithful R.faults provider.old provider.new }
    ensures writes { R.writes provider.new ≤ R.writes provider.old + 1 }
    ensures turns { CountsTurns writer.old.calls writer.new.calls }
    ensures keeps { M.keeps meanwhile.old meanwhile.new }
    ensures stops { spec.AnswersStop (M.stops meanwhile.old) (M.stops meanwhile.new)
        writer.old writer.new result }
{
    match read_request(alloc, reader) {
        Ok(incoming) => serve_message(alloc, provider, base, &incoming, writer, meanwhile),
        Err(fault) => serve_fault(alloc, base, fault, writer),
    }
}

/// Answers a message.
fn serve_message<R: Registry, O: Write, M: Meanwhile>(
    alloc: Global,
    provider: &mut Provider<R>,
    base: &Base,
    incoming: &Incoming,
    writer: &mut Output<O>,
    meanwhile: &mut M,
) -> Served
    ensures served { spec.Serves (R.is_faithful provider.new) base.now (R.rows provider.old)
        (R.rows provider.new) writer.old writer.new (Ok incoming.now) result }
    ensures replied { (reply : ReplyRecord) × spec.Replies R.Registry base.now provider.old
        provider.new (Ok incoming.now) (Some reply)
        × spec.IsSent writer.old writer.new reply result }
    ensures leaves { spec.LeavesRows R.Registry provider.old provider.new (Ok incoming.now) }
    ensures faults { spec.AnswersFaults R.Registry provider.old provider.new writer.old writer.new
        result }
    ensures quiet { IsQuiet R.is_faithful R.faults provider.old provider.new }
    ensures writes { R.writes provider.new ≤ R.writes provider.old + 1 }
    ensures turns { CountsTurns writer.old.calls writer.new.calls }
    ensures keeps { M.keeps meanwhile.old meanwhile.new }
    ensures stops { spec.AnswersStop (M.stops meanwhile.old) (M.stops meanwhile.new)
        writer.old writer.new result }
{
    match reply_to(alloc, provider, base, incoming, meanwhile) {
        Ok(reply) => sent(writer, reply.status(), reply.text()),
        Err(_) => send_fixed(writer),
    }
}

/// Answers a fault of reading, or stays silent.
fn serve_fault<O: Write>(
    alloc: Global,
    base: &Base,
    fault: ReadFault,
    writer: &mut Output<O>,
) -> Served
    ensures served { spec.Reacts base.now writer.old writer.new fault (reaction_to fault)
        result }
    ensures turns { CountsTurns writer.old.calls writer.new.calls }
{
    match reaction_to(fault) {
        Reaction::Refuse {
            refusal,
            leaves_body_out,
        } => refuse(alloc, base, refusal, leaves_body_out, writer),
        Reaction::GiveUp => send_fixed(writer),
        Reaction::StaySilent => Served::NoRequest(fault),
    }
}

/// Answers a refusal.
fn refuse<O: Write>(
    alloc: Global,
    base: &Base,
    refusal: Refusal,
    leaves_body_out: bool,
    writer: &mut Output<O>,
) -> Served
    ensures sent { spec.Sends writer.old writer.new
        (spec.AnswersFault base.now leaves_body_out refusal) result }
    ensures turns { CountsTurns writer.old.calls writer.new.calls }
{
    match refusal_reply(alloc, base, refusal, leaves_body_out) {
        Ok(reply) => sent(writer, reply.status(), reply.text()),
        Err(_) => send_fixed(writer),
    }
}

/// The response to a message. The message's change is made.
fn reply_to<R: Registry, M: Meanwhile>(
    alloc: Global,
    provider: &mut Provider<R>,
    base: &Base,
    incoming: &Incoming,
    meanwhile: &mut M,
) -> Result<Reply, SearchFault>
    ensures reply { IfOk result (spec.AnswersMessage (R.is_faithful provider.new) base.now
        (R.rows provider.old) (R.rows provider.new) incoming.now) }
    ensures same { R.is_faithful provider.new
        → OnErr result (R.rows provider.new ≡ R.rows provider.old) }
    ensures leaves { spec.LeavesRows R.Registry provider.old provider.new (Ok incoming.now) }
    ensures open { R.is_honest provider.new → R.is_faithful provider.old →
        OnOk result (R.is_faithful provider.new) }
    ensures quiet { IsQuiet R.is_faithful R.faults provider.old provider.new }
    ensures writes { R.writes provider.new ≤ R.writes provider.old + 1 }
    ensures counted { CountsFaults CountsSearchFault
        (R.faults provider.old) (R.faults provider.new) result }
    ensures keeps { M.keeps meanwhile.old meanwhile.new }
    ensures stops { StopsIf (M.stops meanwhile.old) (M.stops meanwhile.new) result }
{
    let leaves_body_out = is_head(incoming);
    match meaning(alloc, incoming) {
        Ok(request) => carry_out(alloc, provider, base, request, leaves_body_out, meanwhile),
        Err(MeaningFault::Refused(refusal)) => Ok(refusal_reply(
            alloc,
            base,
            refusal,
            leaves_body_out,
        )?),
        Err(MeaningFault::OutOfMemory) => Err(SearchFault::Provider(ProviderFault::Memory)),
    }
}

/// Makes the change of a request, and returns its response, which is formed first.
fn carry_out<R: Registry, M: Meanwhile>(
    alloc: Global,
    provider: &mut Provider<R>,
    base: &Base,
    request: Request,
    leaves_body_out: bool,
    meanwhile: &mut M,
) -> Result<Reply, SearchFault>
    ensures reply { IfOk result (spec.AnswersRequest (R.is_faithful provider.new) base.now
        (R.rows provider.old) (R.rows provider.new) leaves_body_out request) }
    ensures writes { Writes R.Registry CountsSearchFault provider.old provider.new
        (changed_rows (R.rows provider.old) (outcome (R.rows provider.old) request).change)
        result }
    ensures open { R.is_honest provider.new → OnOk result (R.is_faithful provider.new) }
    ensures keeps { M.keeps meanwhile.old meanwhile.new }
    ensures stops { StopsIf (M.stops meanwhile.old) (M.stops meanwhile.new) result }
{
    let pending = provider.prepare_meanwhile(alloc, request, meanwhile)?;
    let reply = Reply::of(alloc, pending.answer(), base, leaves_body_out)?;
    provider.commit_change(pending)?;
    Ok(reply)
}

/// The response to a refusal.
fn refusal_reply(
    alloc: Global,
    base: &Base,
    refusal: Refusal,
    leaves_body_out: bool,
) -> Result<Reply, AllocError>
    ensures { IfOk result
        (λ reply. reply ≡ spec.refusal_reply base.now leaves_body_out refusal) }
{
    let answer = Answer::Error(ErrorResponse::of(alloc, refusal)?);
    Reply::of(alloc, &answer, base, leaves_body_out)
}

/// Sends a response.
fn sent<O: Write>(writer: &mut Output<O>, status: u16, text: &[u8]) -> Served
    ensures sent { spec.IsSent writer.old writer.new
        (record { status = status; text = text.now }) result }
    ensures turns { CountsTurns writer.old.calls writer.new.calls }
{
    match send(writer, text) {
        Ok(()) => Served::Answered { status },
        Err(_) => Served::Lost { status },
    }
}

/// Sends the fixed response, for a failed store or for out of memory.
fn send_fixed<O: Write>(writer: &mut Output<O>) -> Served
    ensures sent { spec.IsSent writer.old writer.new fixed_reply result }
    ensures turns { CountsTurns writer.old.calls writer.new.calls }
{
    sent(writer, 500, fixed_response())
}
