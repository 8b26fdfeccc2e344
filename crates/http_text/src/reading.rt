//! Reads a message of either form from a stream.
ghost use Rattle.std.specs.Prelude.{◌≡◌, ◌<◌, [], length, OnOk, IfOk, IfErr};
ghost use Rattle.std.specs.Io.KnownBytes.{Keeps};
ghost use Rattle.http_text.specs.Counts.{CountsTurns};
ghost use Rattle.http_text.specs.Heads.{TakesMessage, TakesRefused, FindsMessage, FindsRefusedHead, FindsEnd, FindsLong, FindsMalformed, EndsReading};
ghost use Rattle.http_text.specs.Parsing.{form_of};
ghost use Rattle.http_text.specs.Steps.{CountsParses, SpendsTurns, EndsTurns, GivesNone, TakesHead, TakesBody, CutsBody};

use crate::fault::ReadFault;
use crate::incoming::Incoming;
use crate::input::{Input, ReadTurn};
use crate::limits::{FIELD_LIMIT, HEAD_LIMIT, TURN_LIMIT};
use crate::parsing::{MessageKind, Parse};
use httparse::spans::EMPTY_HEADER_SPAN;
use std::alloc::Global;
use std::io::Read;

/// Reads one message of this kind.
pub(crate) fn read_message<R: Read>(
    alloc: Global,
    kind: MessageKind,
    reader: &mut Input<R>,
) -> Result<Incoming, ReadFault>
    ensures message { IfOk result
        (TakesMessage (form_of kind) reader.old.remaining reader.new.remaining) }
    ensures refused { IfErr result
        (TakesRefused (form_of kind) reader.old.remaining reader.new.remaining) }
    ensures found { FindsMessage (form_of kind) reader.old.remaining reader.new.remaining result }
    ensures refused_head { FindsRefusedHead (form_of kind) reader.old.remaining result }
    ensures ended { FindsEnd (form_of kind) reader.old.remaining result }
    ensures long { FindsLong (form_of kind) reader.old.remaining result }
    ensures malformed { FindsMalformed (form_of kind) reader.old.remaining result }
    ensures counts { CountsTurns reader.old.calls reader.new.calls }
    ensures clean { OnOk result (reader.new.failures ≡ reader.old.failures) }
    ensures fault { IfErr result (EndsReading reader.old reader.new) }
{
    let mut turns = TURN_LIMIT;
    let mut parses = 0;
    read_whole(alloc, kind, reader, &mut turns, &mut parses)
}

/// Reads one message of this kind. It counts how often the head is parsed.
pub(crate) fn read_whole<R: Read>(
    alloc: Global,
    kind: MessageKind,
    reader: &mut Input<R>,
    turns: &mut u32,
    parses: &mut u64,
) -> Result<Incoming, ReadFault>
    ensures message { IfOk result
        (TakesMessage (form_of kind) reader.old.remaining reader.new.remaining) }
    ensures refused { IfErr result
        (TakesRefused (form_of kind) reader.old.remaining reader.new.remaining) }
    ensures counts { SpendsTurns reader.old reader.new turns.old turns.new }
    ensures clean { OnOk result (reader.new.failures ≡ reader.old.failures) }
    ensures fault { IfErr result (EndsTurns reader.old reader.new turns.new) }
    ensures parses { CountsParses parses.old parses.new turns.old turns.new }
{
    let mut message = read_head(alloc, kind, reader, turns, parses)?;
    let length = kind.judge(&message)?;
    read_body(alloc, reader, &mut message, length, turns)?;
    Ok(message)
}

/// Reads up to the end of a head, and parses it once whenever new bytes have come. If they are refused, it looks for
/// the first of them that decides it. It counts how often the head is parsed.
fn read_head<R: Read>(
    alloc: Global,
    kind: MessageKind,
    reader: &mut Input<R>,
    turns: &mut u32,
    parses: &mut u64,
) -> Result<Incoming, ReadFault>
    ensures head { IfOk result
        (TakesHead (form_of kind) reader.old.remaining reader.new.remaining) }
    ensures refused { IfErr result
        (TakesRefused (form_of kind) reader.old.remaining reader.new.remaining) }
    ensures counts { SpendsTurns reader.old reader.new turns.old turns.new }
    ensures clean { OnOk result (reader.new.failures ≡ reader.old.failures) }
    ensures fault { IfErr result (EndsTurns reader.old reader.new turns.new) }
    ensures parses { CountsParses parses.old parses.new turns.old turns.new }
{
    let mut bytes = Vec::new(alloc);
    let mut fields = [EMPTY_HEADER_SPAN; FIELD_LIMIT];
    loop {
        look_ahead(alloc, reader, turns)?;
        let before = bytes.len();
        let count = reader.ahead().len().min(HEAD_LIMIT - before);
        if bytes.extend_from_slice(&reader.ahead()[..count]).is_err() {
            return Err(ReadFault::OutOfMemory);
        }
        match kind.parse(&bytes, &mut fields, parses) {
            Parse::Whole(spans) => {
                reader.take(spans.len - before);
                return Incoming::from_head(alloc, bytes, spans, &fields);
            }
            Parse::Part => reader.take(count),
            Parse::Refused(fault) => {
                let refusal = kind.first_refusal(&bytes, before, fault, &mut fields, parses);
                reader.take(refusal.length - before);
                return Err(refusal.fault);
            }
        }
    }
}

/// Reads the bytes of a body.
fn read_body<R: Read>(
    alloc: Global,
    reader: &mut Input<R>,
    message: &mut Incoming,
    length: u64,
    turns: &mut u32,
) -> Result<(), ReadFault>
    ensures body { OnOk result
        (TakesBody reader.old.remaining reader.new.remaining message.old message.new length) }
    ensures cut { IfErr result (CutsBody reader.old.remaining reader.new.remaining length) }
    ensures counts { SpendsTurns reader.old reader.new turns.old turns.new }
    ensures clean { OnOk result (reader.new.failures ≡ reader.old.failures) }
    ensures fault { IfErr result (EndsTurns reader.old reader.new turns.new) }
{
    let mut left = length as usize;
    while left > 0 {
        look_ahead(alloc, reader, turns)?;
        let count = left.min(reader.ahead().len());
        message.append(&reader.ahead()[..count])?;
        reader.take(count);
        left -= count;
    }
    Ok(())
}

/// Reads ahead, if no bytes are there from an earlier read. An interrupted read is made again while turns
/// remain.
pub(crate) fn look_ahead<R: Read>(
    alloc: Global,
    reader: &mut Input<R>,
    turns: &mut u32,
) -> Result<(), ReadFault>
    ensures kept { OnOk result (Keeps reader.old.remaining reader.new.remaining) }
    ensures some { OnOk result (0 < length reader.new.ahead) }
    ensures spent { OnOk result (reader.old.ahead ≡ [] → turns.new < turns.old) }
    ensures none { IfErr result (GivesNone reader.old.remaining reader.new.remaining) }
    ensures counts { SpendsTurns reader.old reader.new turns.old turns.new }
    ensures clean { OnOk result (reader.new.failures ≡ reader.old.failures) }
    ensures fault { IfErr result (EndsTurns reader.old reader.new turns.new) }
{
    while reader.ahead().is_empty() {
        if *turns == 0 {
            return Err(ReadFault::TurnsExhausted);
        }
        *turns -= 1;
        match reader.look(alloc) {
            ReadTurn::Bytes(_) | ReadTurn::Interrupted => {}
            ReadTurn::End => return Err(ReadFault::EndedEarly),
            ReadTurn::Failed => return Err(ReadFault::ReadFailed),
        }
    }
    Ok(())
}
