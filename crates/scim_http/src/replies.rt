//! Answers as responses (RFC 7644 section 3.14, RFC 9110 section 15).
ghost use Rattle.std.specs.Prelude.{◌≡◌, ◌++◌, map, false, IfOk, OnOk, string_bytes};
ghost use Rattle.std.specs.Option.{option_map};
ghost use Rattle.std.specs.Str.{IsUtf8};
ghost use Rattle.http_text.specs.Response.{line_of};
ghost use Rattle.scim_message.specs.Bodies.{body_text};
ghost use Rattle.scim_message.specs.Fitting.{ShowsLawfully};
ghost use Rattle.scim_message.specs.Messages.{answer_status};
ghost use Rattle.scim_http.specs.Replies as spec;

use crate::field_lines::stated_type;
use http_text::{FieldLine, StatusCode, write_response};
use itoa::Buffer;
use scim_key::Base;
use scim_message::{Answer, body_at, location_of};
use scim_resource::Shown;
use std::alloc::{AllocError, Global};
use std::marker::Model;

/// How many field lines a response may have.
const FIELD_LINES: usize = 6;

/// A response as it is sent: its status code and its bytes.
#[derive(Drop)]
pub struct Reply {
    status: u16,
    text: Vec<u8>,
}

impl Model for Reply {
    ghost use Rattle.scim_http.specs.Replies.{ReplyRecord};

    ghost Value = { ReplyRecord };

    ghost view = { λ r. record { status = r.status; text = r.text.items } };
}

impl Reply {
    /// The response for an answer.
    pub fn of(
        alloc: Global,
        answer: &Answer,
        base: &Base,
        leaves_body_out: bool,
    ) -> Result<Reply, AllocError>
        ensures reply { IfOk result
            (λ reply. reply ≡ spec.reply_of base.now leaves_body_out answer.now) }
        // What the types of the answer's parts guarantee.
        ensures lawful { OnOk result (ShowsLawfully answer.now) }
        ensures utf8 { OnOk result (IsUtf8 (body_text base.now answer.now)) }
    {
        Ok(Reply {
            status: answer.status(),
            text: text_of(alloc, answer, base, leaves_body_out)?,
        })
    }

    /// The status code.
    pub fn status(&self) -> u16
        ensures { result ≡ self.now.status }
    {
        self.status
    }

    /// The bytes, from the status line on.
    pub fn text(&self) -> &[u8]
        ensures { result.now ≡ self.now.text }
    {
        &self.text
    }
}

/// The bytes of the response for an answer.
pub fn response_of(alloc: Global, answer: &Answer, base: &Base) -> Result<Vec<u8>, AllocError>
    ensures text { IfOk result (λ text. text.items ≡ spec.answer_text base.now false answer.now) }
    // What the types of the answer's parts guarantee.
    ensures lawful { OnOk result (ShowsLawfully answer.now) }
    ensures utf8 { OnOk result (IsUtf8 (body_text base.now answer.now)) }
{
    text_of(alloc, answer, base, false)
}

/// The fixed response, for a failed store and for out of memory.
#[tactic(auto, unfolding(crate::specs::Replies::fixed_text))]
pub fn fixed_response() -> &'static [u8]
    ensures { result.now ≡ spec.fixed_text }
{
    b"HTTP/1.1 500 Internal Server Error\r\nConnection: close\r\nContent-Length: 129\r\nContent-Type: application/scim+json\r\n\r\n{\"detail\":\"the provider could not complete the request\",\"schemas\":[\"urn:ietf:params:scim:api:messages:2.0:Error\"],\"status\":\"500\"}"
}

fn status_of(answer: &Answer) -> StatusCode
    ensures { result ≡ answer_status answer.now }
{
    StatusCode::from_u16(answer.status()).unwrap()
}

fn text_of(
    alloc: Global,
    answer: &Answer,
    base: &Base,
    leaves_body_out: bool,
) -> Result<Vec<u8>, AllocError>
    ensures text { IfOk result
        (λ text. text.items ≡ spec.answer_text base.now leaves_body_out answer.now) }
    ensures lawful { OnOk result (ShowsLawfully answer.now) }
    ensures utf8 { OnOk result (IsUtf8 (body_text base.now answer.now)) }
{
    let location = location_of(alloc, answer, base)?;
    let body = body_at(alloc, answer, base, location.as_deref())?;
    let mut buffer = Buffer::new();
    let length = buffer.format(body.len());
    let fields = fields_of(
        if has_body(answer) {
            Some(length.as_bytes())
        } else {
            None
        },
        bytes_of(&location),
        tag_of(answer),
        is_created(answer),
    );
    let sent = unless_left_out(leaves_body_out, &body);
    write_response(alloc, status_of(answer), &fields, sent)
}

/// The field lines of a response; each is there if it has a value.
fn fields_of<'a>(
    length: Option<&'a [u8]>,
    location: Option<&'a [u8]>,
    tag: Option<&'a [u8]>,
    created: bool,
) -> [FieldLine<'a>; FIELD_LINES]
    ensures { map line_of result
        ≡ spec.lines_of (option_map (λ t. t.now) length.entry)
        (option_map (λ t. t.now) location.entry)
        (option_map (λ t. t.now) tag.entry) created }
{
    [
        FieldLine::new("Connection", Some(b"close")),
        FieldLine::new("Content-Length", length),
        FieldLine::new("Content-Location", location),
        FieldLine::new("Content-Type", stated_type(length)),
        FieldLine::new("ETag", tag),
        FieldLine::new("Location", if created { location } else { None }),
    ]
}

fn bytes_of(text: &Option<String>) -> Option<&[u8]>
    ensures { option_map (λ t. t.now) result ≡ option_map string_bytes text.now }
{
    match text {
        Some(text) => Some(text.as_bytes()),
        None => None,
    }
}

/// The entity tag of the resource that an answer is about, if it is known.
fn tag_of(answer: &Answer) -> Option<&[u8]>
    ensures { option_map (λ t. t.now) result ≡ spec.shown_tag answer.now }
{
    match answer {
        Answer::Created(shown) | Answer::Found(shown) | Answer::Replaced(shown) => tag_text(shown),
        Answer::NotModified { version, .. } => Some(version.text()),
        Answer::List(_) | Answer::Error(_) => None,
    }
}

fn tag_text(shown: &Shown) -> Option<&[u8]>
    ensures { option_map (λ t. t.now) result ≡ shown.now.version }
{
    match shown.version() {
        Some(tag) => Some(tag.text()),
        None => None,
    }
}

/// Whether the answer's resource was created by this request.
fn is_created(answer: &Answer) -> bool
    ensures { result ≡ spec.is_created answer.now }
{
    matches!(answer, Answer::Created(_))
}

/// Whether the answer has a body: only a 304 has none.
fn has_body(answer: &Answer) -> bool
    ensures { result ≡ spec.has_body answer.now }
{
    !matches!(answer, Answer::NotModified { .. })
}

fn unless_left_out(leaves_body_out: bool, body: &[u8]) -> &[u8]
    ensures { result.now ≡ spec.unless_left_out leaves_body_out body.now }
{
    if leaves_body_out { &[] } else { body }
}
