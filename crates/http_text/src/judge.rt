//! Which requests and responses are refused by their heads, and in which order.
ghost use Rattle.std.specs.Prelude.{◌≡◌, Some, None, if◌then◌else◌, codes};
ghost use Rattle.std.specs.Str.Parse.{digits_value};
ghost use Rattle.http_text.specs.Message.{is_length, length_of, minor_of, values};
ghost use Rattle.http_text.specs.Judging.{readable_length, refused_where, is_head, has_method_head, has_body, is_host, is_host_wrong, is_any, length_wanted, judge_head, codings, is_chunked_alone, is_bodiless, is_interim, is_no_status, has_chunks, response_length, judge_response};

use crate::fault::ReadFault;
use crate::incoming::Incoming;
use crate::limits::{BODY_LIMIT, RESPONSE_BODY_LIMIT};

/// The most digits that a length may have.
const LENGTH_DIGITS: usize = 18;

/// The length of the body that follows a request's head, or the first refusal.
pub(crate) fn judge_request(message: &Incoming) -> Result<u64, ReadFault>
    ensures { result ≡ judge_head message.now.head }
{
    let is_head = is_head(message);
    let host_fault = ReadFault::HostMissingOrRepeated { is_head };
    let coding_fault = ReadFault::TransferCoding { is_head };
    let expectation_fault = ReadFault::Expectation { is_head };
    let length = stated_length(message, is_head)?;
    refuse_where(is_host_wrong(message), host_fault)?;
    refuse_where(has_field(message, "transfer-encoding"), coding_fault)?;
    refuse_where(has_field(message, "expect"), expectation_fault)?;
    length_wanted(has_body(message), is_head, length)
}

/// The length of the body that follows a response's head, 0 before chunks, or the first refusal.
pub(crate) fn judge_response(message: &Incoming) -> Result<u64, ReadFault>
    ensures { result ≡ judge_response message.now.head }
{
    let is_chunked = is_chunked_alone(message);
    let is_coded = has_field(message, "transfer-encoding");
    let malformed = ReadFault::Malformed { is_head: false };
    refuse_where(is_no_status(message.status()), malformed)?;
    refuse_where(is_coded && !is_chunked, malformed)?;
    let length = stated_length(message, false)?;
    response_length(is_bodiless(message.status()), is_chunked, length)
}

/// Whether a body in chunks follows a response's head.
pub(crate) fn has_chunks(message: &Incoming) -> bool
    ensures { result ≡ has_chunks message.now.head }
{
    !is_bodiless(message.status()) && is_chunked_alone(message)
}

/// Whether a response with this status has no body, whatever it states.
fn is_bodiless(status: u16) -> bool
    ensures { result ≡ is_bodiless status }
{
    status < 200 || status == 204 || status == 304
}

/// Whether another response follows this one.
pub(crate) fn is_interim(message: &Incoming) -> bool
    ensures { result ≡ is_interim message.now.head }
{
    message.status() < 200
}

/// Whether there is no such status, or it switches protocols.
fn is_no_status(status: u16) -> bool
    ensures { result ≡ is_no_status status }
{
    status < 100 || status == 101
}

/// Whether the only coding is `chunked`.
fn is_chunked_alone(message: &Incoming) -> bool
    ensures { result ≡ is_chunked_alone (codings message.now.head) }
{
    let mut codings = message.fields("transfer-encoding");
    match (codings.next(), codings.next()) {
        (Some(coding), None) => coding.eq_ignore_ascii_case(b"chunked"),
        _ => false,
    }
}

/// The length of a response's body: it is stated, or the body has none or comes in chunks.
fn response_length(
    is_bodiless: bool,
    is_chunked: bool,
    length: Option<u64>,
) -> Result<u64, ReadFault>
    ensures { result ≡ response_length is_bodiless is_chunked length }
{
    match length {
        None if is_chunked => Ok(0),
        Some(_) if is_chunked => Err(ReadFault::Malformed { is_head: false }),
        _ if is_bodiless => Ok(0),
        None => Err(ReadFault::Malformed { is_head: false }),
        Some(length) if length > RESPONSE_BODY_LIMIT => {
            Err(ReadFault::BodyTooLong { is_head: false })
        }
        Some(length) => Ok(length),
    }
}

/// Whether the method is HEAD.
pub fn is_head(message: &Incoming) -> bool
    ensures { result ≡ is_head message.now.head }
{
    message.method() == b"HEAD".as_slice()
}

fn has_body(message: &Incoming) -> bool
    ensures { result ≡ has_body message.now.head }
{
    message.method() == b"POST".as_slice() || message.method() == b"PUT".as_slice()
}

/// Whether a request that begins with these bytes has the method HEAD. White space before it is passed over.
pub(crate) fn has_method_head(bytes: &[u8]) -> bool
    ensures { result ≡ has_method_head bytes.now }
{
    bytes.trim_ascii_start().starts_with(b"HEAD ")
}

fn stated_length(message: &Incoming, is_head: bool) -> Result<Option<u64>, ReadFault>
    ensures { result ≡ readable_length is_head (length_of message.now.head) }
{
    let mut values = message.fields("content-length");
    let Some(text) = values.next() else {
        return Ok(None);
    };
    if values.next().is_some() {
        return Err(ReadFault::Malformed { is_head });
    }
    match read_length(text) {
        Some(length) => Ok(Some(length)),
        None => Err(ReadFault::Malformed { is_head }),
    }
}

fn read_length(text: &[u8]) -> Option<u64>
    ensures { result ≡ (if is_length text.now then Some (digits_value 10 text.now) else None) }
{
    if text.is_empty() || text.len() > LENGTH_DIGITS {
        return None;
    }
    let mut length: u64 = 0;
    for digit in text {
        if !digit.is_ascii_digit() {
            return None;
        }
        length = length * 10 + u64::from(*digit - b'0');
    }
    Some(length)
}

fn is_host_wrong(message: &Incoming) -> bool
    ensures { result
        ≡ is_host_wrong (minor_of message.now.head.start)
        (values (codes "host") message.now.head.fields) }
{
    let mut hosts = message.fields("host");
    match (hosts.next(), hosts.next()) {
        (None, _) => message.minor_version() == 1,
        (Some(host), None) => !is_host(host),
        (Some(_), Some(_)) => true,
    }
}

/// Whether a text has only bytes that a host and a port may have.
fn is_host(text: &[u8]) -> bool
    ensures { result ≡ is_host text.now }
{
    text.iter().all(|b| {
        *b == b'!'
            || (*b >= b'$' && *b <= b'.')
            || (*b >= b'0' && *b <= b';')
            || *b == b'='
            || (*b >= b'A' && *b <= b'[')
            || *b == b']'
            || *b == b'_'
            || (*b >= b'a' && *b <= b'z')
            || *b == b'~'
    })
}

fn has_field(message: &Incoming, name: &str) -> bool
    ensures { result ≡ is_any (values name.now message.now.head.fields) }
{
    message.fields(name).next().is_some()
}

fn refuse_where(is_refused: bool, fault: ReadFault) -> Result<(), ReadFault>
    ensures { result ≡ refused_where is_refused fault }
{
    if is_refused { Err(fault) } else { Ok(()) }
}

fn length_wanted(has_body: bool, is_head: bool, length: Option<u64>) -> Result<u64, ReadFault>
    ensures { result ≡ length_wanted has_body is_head length }
{
    match length {
        None if has_body => Err(ReadFault::LengthMissing { is_head }),
        None => Ok(0),
        Some(length) if length > BODY_LIMIT => Err(ReadFault::BodyTooLong { is_head }),
        Some(length) => Ok(length),
    }
}
