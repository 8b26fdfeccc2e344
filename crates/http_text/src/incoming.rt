//! A message that was read: one buffer, which lends its parts.
ghost use Rattle.std.specs.Prelude.{◌≡◌, [], ◌∷◌, ◌++◌, length, vec_len, map, All, IfSome, IfOk, IfErr, OnOk, MatchOption};
ghost use Rattle.httparse.specs.Spans.{header_bytes, IsHeaderWithin};
ghost use Rattle.http_text.specs.Message.{method_of, target_of, code_of, minor_of, values};
ghost use Rattle.http_text.specs.Parsing.{front_message, AreWithin};

use crate::fault::ReadFault;
use crate::parsing::{HeadSpans, Start};
use httparse::spans::HeaderSpan;
use std::alloc::Global;
use std::marker::Model;

/// A message that was read. It lends the parts of its one buffer.
#[derive(Drop)]
pub struct Incoming {
    pub(crate) bytes: Vec<u8>,
    pub(crate) head_length: usize,
    pub(crate) start: Start,
    pub(crate) minor: u8,
    pub(crate) fields: Vec<HeaderSpan>,
}

impl Model for Incoming {
    ghost use Rattle.http_text.specs.Message.{Message};

    ghost Value = { Message };

    ghost use Rattle.http_text.specs.IncomingView.{message_of, IsLaidOut};

    ghost view = { message_of };

    ghost invariant = { IsLaidOut };
}

/// The values of the fields with one name, in the order of their lines.
#[derive(Drop)]
pub struct FieldValues<'a> {
    name: &'a [u8],
    head: &'a [u8],
    fields: &'a [HeaderSpan],
}

impl<'a> Model for FieldValues<'a> {
    ghost use Rattle.std.specs.Prelude.{List, ℕ, length, map, All};
    ghost use Rattle.httparse.specs.Spans.{header_bytes, IsHeaderWithin};
    ghost use Rattle.http_text.specs.Message.{values};

    ghost Value = { List (List ℕ) };

    ghost view = { λ s. values s.name.now (map (header_bytes s.head.now) s.fields.now) };

    ghost invariant = { λ s. All (IsHeaderWithin (length s.head.now)) s.fields.now };
}

impl Incoming {
    /// The message of the head at the front of these bytes, with no body yet.
    pub(crate) fn from_head(
        alloc: Global,
        mut bytes: Vec<u8>,
        head: HeadSpans,
        fields: &[HeaderSpan],
    ) -> Result<Incoming, ReadFault>
        requires { AreWithin bytes.items fields.now head }
        ensures message { IfOk result (λ message. message
            ≡ front_message bytes.items fields.now head) }
        ensures memory { IfErr result (λ fault. fault ≡ ReadFault.OutOfMemory) }
    {
        bytes.truncate(head.len);
        match Vec::from_slice(alloc, &fields[..head.count]) {
            Ok(fields) => Ok(Incoming {
                bytes,
                head_length: head.len,
                start: head.start,
                minor: head.minor,
                fields,
            }),
            Err(_) => Err(ReadFault::OutOfMemory),
        }
    }

    /// Adds bytes to the body.
    pub(crate) fn append(&mut self, bytes: &[u8]) -> Result<(), ReadFault>
        ensures ok { OnOk result
            (self.new ≡ record { head = self.old.head; body = self.old.body ++ bytes.now }) }
        ensures memory { IfErr result (λ fault. fault ≡ ReadFault.OutOfMemory) }
    {
        match self.bytes.extend_from_slice(bytes) {
            Ok(()) => Ok(()),
            Err(_) => Err(ReadFault::OutOfMemory),
        }
    }

    /// A request's method, in the case that was sent; empty for a response.
    pub fn method(&self) -> &[u8]
        ensures { result.now ≡ method_of self.now.head.start }
    {
        match self.start {
            Start::RequestLine { method, .. } => method.of(&self.bytes[..self.head_length]),
            Start::StatusLine { .. } => &[],
        }
    }

    /// A request's target, with its escapes; empty for a response.
    pub fn target(&self) -> &[u8]
        ensures { result.now ≡ target_of self.now.head.start }
    {
        match self.start {
            Start::RequestLine { target, .. } => target.of(&self.bytes[..self.head_length]),
            Start::StatusLine { .. } => &[],
        }
    }

    /// A response's status code; 0 for a request.
    pub fn status(&self) -> u16
        ensures { result ≡ code_of self.now.head.start }
    {
        match self.start {
            Start::RequestLine { .. } => 0,
            Start::StatusLine { code } => code,
        }
    }

    /// The digit after `HTTP/1.`.
    pub fn minor_version(&self) -> u8
        ensures { result ≡ minor_of self.now.head.start }
    {
        self.minor
    }

    /// The values of the fields with this name, in any case, in the order of their lines. White space at
    /// the ends of a value is left out.
    pub fn fields<'a>(&'a self, name: &'a str) -> FieldValues<'a>
        ensures { result ≡ values name.now self.now.head.fields }
    {
        FieldValues {
            name: name.as_bytes(),
            head: &self.bytes[..self.head_length],
            fields: &self.fields,
        }
    }

    /// The body; empty if there is none.
    pub fn body(&self) -> &[u8]
        ensures { result.now ≡ self.now.body }
    {
        &self.bytes[self.head_length..]
    }
}

impl<'a> Iterator for FieldValues<'a> {
    ghost use Rattle.std.specs.Iterator.{YieldsFirstRef, item_count};

    type Item = &'a [u8];

    ghost next_gives = { YieldsFirstRef (λ it. it) };

    ghost remaining = { item_count (λ it. it) };

    fn next(&mut self) -> Option<&'a [u8]> {
        let (value, rest) = split_named(self.name, self.head, self.fields)?;
        self.fields = rest;
        Some(value)
    }
}

/// The value of the first field with this name, and the fields after it.
fn split_named<'a>(
    name: &[u8],
    head: &'a [u8],
    fields: &'a [HeaderSpan],
) -> Option<(&'a [u8], &'a [HeaderSpan])>
    requires { All (IsHeaderWithin (length head.now)) fields.now }
    ensures within { IfSome result (λ found. All (IsHeaderWithin (length head.now)) found.1.now) }
    ensures first { MatchOption result
        (values name.now (map (header_bytes head.now) fields.now) ≡ [])
        (λ found. values name.now (map (header_bytes head.now) fields.now)
        ≡ found.0.now ∷ values name.now (map (header_bytes head.now) found.1.now)) }
{
    for (i, field) in fields.iter().enumerate() {
        if field.name.of(head).eq_ignore_ascii_case(name) {
            return Some((field.value.of(head), &fields[i + 1..]));
        }
    }
    None
}
