//! Parses the heads of requests and responses.
ghost use Rattle.std.specs.Prelude.{◌≡◌, ◌+◌, ◌≤◌, ◌<◌, length, take};
ghost use Rattle.http_text.specs.Counts.{count_up};
ghost use Rattle.http_text.specs.Heads.{IsUndecided};
ghost use Rattle.http_text.specs.Message.{head_limit, field_limit};
ghost use Rattle.http_text.specs.Forms.{request_form, response_form};
ghost use Rattle.http_text.specs.Parsing.{form_of, spans_of_request, spans_of_response, Parses};
ghost use Rattle.http_text.specs.Steps.{IsFirstRefusal, RefusesHead, most_halvings};

use crate::counts::count;
use crate::fault::ReadFault;
use crate::incoming::Incoming;
use crate::judge::{has_method_head, judge_request, judge_response};
use crate::limits::HEAD_LIMIT;
use httparse::spans::{
    HeaderSpan, RequestSpans, ResponseSpans, Span, parse_request, parse_response,
};
use httparse::{Error, Status};

/// Which of the two forms a message has.
#[derive(Clone, Copy)]
pub(crate) enum MessageKind {
    Request,
    Response,
}

/// The first line of a head, as the parts of its bytes.
#[derive(Clone, Copy)]
pub(crate) enum Start {
    RequestLine { method: Span, target: Span },
    StatusLine { code: u16 },
}

/// Where the parts of a head are, how many field lines it has, and its length.
#[derive(Clone, Copy)]
pub(crate) struct HeadSpans {
    pub(crate) start: Start,
    pub(crate) minor: u8,
    pub(crate) count: usize,
    pub(crate) len: usize,
}

/// The result of parsing a head.
pub(crate) enum Parse {
    Whole(HeadSpans),
    Part,
    Refused(ReadFault),
}

/// Bytes that are refused: how many they are, and the fault.
#[derive(Clone, Copy)]
pub(crate) struct Refusal {
    pub(crate) length: usize,
    pub(crate) fault: ReadFault,
}

impl MessageKind {
    /// The parts of a whole head at the front of these bytes, or whether more bytes may complete one. It counts the
    /// call.
    pub(crate) fn parse(self, bytes: &[u8], fields: &mut [HeaderSpan], parses: &mut u64) -> Parse
        requires room { length fields.old ≡ field_limit }
        requires bound { length bytes.now ≤ head_limit }
        ensures parsed { Parses (form_of self) bytes.now fields.new result }
        ensures counted { parses.new ≡ count_up parses.old 1 }
    {
        count(parses);
        match self {
            MessageKind::Request => parse_request_head(bytes, fields),
            MessageKind::Response => parse_response_head(bytes, fields),
        }
    }

    /// The shortest front of some bytes that is refused. All of them are, with this fault, and the first `undecided` of
    /// them aren't. Each call of `parse` halves the bytes that may decide it.
    pub(crate) fn first_refusal(
        self,
        bytes: &[u8],
        undecided: usize,
        fault: ReadFault,
        fields: &mut [HeaderSpan],
        parses: &mut u64,
    ) -> Refusal
        requires room { length fields.old ≡ field_limit }
        requires bound { length bytes.now ≤ head_limit }
        requires begun { undecided < length bytes.now }
        requires before { IsUndecided (form_of self) (take undecided bytes.now) }
        requires refused { RefusesHead (form_of self) bytes.now fault }
        ensures first { IsFirstRefusal (form_of self) bytes.now undecided result }
        ensures counted { parses.new ≤ parses.old + most_halvings }
    {
        let mut low = undecided;
        let mut high = bytes.len();
        let mut fault = fault;
        'halve: while high - low > 1 {
            let middle = low + (high - low) / 2;
            match self.parse(&bytes[..middle], fields, parses) {
                Parse::Part => low = middle,
                Parse::Refused(earlier) => {
                    high = middle;
                    fault = earlier;
                }
                // No front of refused bytes is a head.
                Parse::Whole(_) => return Refusal {
                    length: high,
                    fault,
                },
            }
        }
        Refusal {
            length: high,
            fault,
        }
    }

    /// The length of the body that follows a head, or the first refusal.
    pub(crate) fn judge(self, message: &Incoming) -> Result<u64, ReadFault>
        ensures { result ≡ (form_of self).judge message.now.head }
    {
        match self {
            MessageKind::Request => judge_request(message),
            MessageKind::Response => judge_response(message),
        }
    }
}

fn parse_request_head(bytes: &[u8], fields: &mut [HeaderSpan]) -> Parse
    requires room { length fields.old ≡ field_limit }
    requires bound { length bytes.now ≤ head_limit }
    ensures { Parses request_form bytes.now fields.new result }
{
    match parse_request(bytes, fields) {
        Ok(Status::Complete(head)) => Parse::Whole(of_request(head)),
        Ok(Status::Partial) if bytes.len() < HEAD_LIMIT => Parse::Part,
        Ok(Status::Partial) | Err(Error::TooManyHeaders) => {
            let is_head = has_method_head(bytes);
            Parse::Refused(ReadFault::HeadTooLong { is_head })
        }
        Err(_) => {
            let is_head = has_method_head(bytes);
            Parse::Refused(ReadFault::Malformed { is_head })
        }
    }
}

fn parse_response_head(bytes: &[u8], fields: &mut [HeaderSpan]) -> Parse
    requires room { length fields.old ≡ field_limit }
    requires bound { length bytes.now ≤ head_limit }
    ensures { Parses response_form bytes.now fields.new result }
{
    match parse_response(bytes, fields) {
        Ok(Status::Complete(head)) => Parse::Whole(of_response(head)),
        Ok(Status::Partial) if bytes.len() < HEAD_LIMIT => Parse::Part,
        Ok(Status::Partial) => Parse::Refused(ReadFault::HeadTooLong { is_head: false }),
        Err(Error::TooManyHeaders) => Parse::Refused(ReadFault::HeadTooLong { is_head: false }),
        Err(_) => Parse::Refused(ReadFault::Malformed { is_head: false }),
    }
}

fn of_request(head: RequestSpans) -> HeadSpans
    ensures { result ≡ spans_of_request head }
{
    HeadSpans {
        start: Start::RequestLine {
            method: head.method,
            target: head.path,
        },
        minor: head.version,
        count: head.headers,
        len: head.len,
    }
}

fn of_response(head: ResponseSpans) -> HeadSpans
    ensures { result ≡ spans_of_response head }
{
    HeadSpans {
        start: Start::StatusLine { code: head.code },
        minor: head.version,
        count: head.headers,
        len: head.len,
    }
}
