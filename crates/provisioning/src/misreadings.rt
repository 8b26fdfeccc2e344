//! Why what came isn't an answer to the request.
use crate::excerpts::Excerpt;
use crate::explaining::Ended;
use crate::heads::Head;
use crate::recording::KEPT_LIMIT;
use http_text::RESPONSE_BODY_LIMIT;
use scim_client::AnswerFault;
use scim_message::Request;
use std::alloc::{AllocError, Global};
use std::fmt;

/// Which rule a response breaks.
#[derive(Drop)]
pub enum Misreading {
    /// The bytes don't begin with the head of a response (K1).
    NoResponse(Excerpt),
    /// The response is one, and its head isn't kept whole (K2, K3).
    LongHead,
    /// The response has a transfer coding (K1).
    Coded {
        status: u16,
        coding: Excerpt,
    },
    /// The response doesn't state its length (K1).
    WithoutLength {
        status: u16,
    },
    /// The response states its length twice, not as a number, or as one that is too great (K1).
    OtherLength {
        status: u16,
        length: Excerpt,
    },
    /// The response names another address (K1 to K3).
    Elsewhere {
        status: u16,
        location: Excerpt,
    },
    /// The response has no body (K2).
    WithoutBody {
        status: u16,
    },
    /// The body isn't JSON (K2).
    NotJson {
        status: u16,
        media_type: Option<Excerpt>,
        body: Excerpt,
    },
    /// The request is answered with another status (K3).
    OtherStatus {
        status: u16,
        expected: u16,
    },
    /// The body is JSON, and not what the request is answered with (K3).
    OtherShape {
        status: u16,
        body: Excerpt,
    },
}

/// Which rule the response of an exchange breaks. `None` if memory ran out.
pub(crate) fn misread(
    ended: &Ended<'_>,
    fault: AnswerFault,
) -> Result<Option<Misreading>, AllocError> {
    let came = ended.heard.first();
    match (fault, Head::of(came)) {
        (AnswerFault::OutOfMemory, _) => Ok(None),
        (_, Some(head)) => Ok(Some(broken(ended, fault, &head)?)),
        (AnswerFault::NotOneResponse, None) => {
            let came = Excerpt::of(ended.alloc, came)?;
            Ok(Some(Misreading::NoResponse(came)))
        }
        (AnswerFault::NotJson | AnswerFault::WrongShape, None) => Ok(Some(Misreading::LongHead)),
    }
}

/// Which rule a response with this head breaks.
fn broken(
    ended: &Ended<'_>,
    fault: AnswerFault,
    head: &Head<'_>,
) -> Result<Misreading, AllocError> {
    match head.field("location") {
        Some(location) if head.status / 100 == 3 => Ok(Misreading::Elsewhere {
            status: head.status,
            location: Excerpt::of(ended.alloc, location)?,
        }),
        _ => match fault {
            AnswerFault::NotJson => not_json(ended, head),
            AnswerFault::WrongShape => other_shape(ended, head),
            AnswerFault::NotOneResponse | AnswerFault::OutOfMemory => { endless(ended.alloc, head) }
        },
    }
}

/// Why nobody can say where a response with this head ends.
fn endless(alloc: Global, head: &Head<'_>) -> Result<Misreading, AllocError> {
    let status = head.status;
    if let Some(coding) = head.field("transfer-encoding") {
        let coding = Excerpt::of(alloc, coding)?;
        return Ok(Misreading::Coded { status, coding });
    }
    match head.field("content-length") {
        Some(length) => Ok(Misreading::OtherLength {
            status,
            length: Excerpt::of(alloc, length)?,
        }),
        None => Ok(Misreading::WithoutLength { status }),
    }
}

/// What a body is that isn't JSON.
fn not_json(ended: &Ended<'_>, head: &Head<'_>) -> Result<Misreading, AllocError> {
    let (alloc, status) = (ended.alloc, head.status);
    if head.rest().is_empty() {
        return Ok(Misreading::WithoutBody { status });
    }
    let media_type = match head.field("content-type") {
        Some(media_type) => Some(Excerpt::of(alloc, media_type)?),
        None => None,
    };
    Ok(Misreading::NotJson {
        status,
        media_type,
        body: Excerpt::of(alloc, head.rest())?,
    })
}

/// Why JSON isn't an answer to the request.
fn other_shape(ended: &Ended<'_>, head: &Head<'_>) -> Result<Misreading, AllocError> {
    let (status, expected) = (head.status, success_status(ended.request));
    if status != expected {
        return Ok(Misreading::OtherStatus { status, expected });
    }
    Ok(Misreading::OtherShape {
        status,
        body: Excerpt::of(ended.alloc, head.rest())?,
    })
}

/// The status with which a request is answered that succeeds.
fn success_status(request: &Request) -> u16 {
    match request {
        Request::Create { .. } => 201,
        _ => 200,
    }
}

impl fmt::Display for Misreading {
    fn fmt<W: fmt::Write>(&self, f: &mut fmt::Formatter<W>) -> fmt::Result {
        match self {
            Misreading::NoResponse(bytes) => write!(f, "not one HTTP response: \"{bytes}\""),
            Misreading::LongHead => write!(f, "the head has more than {KEPT_LIMIT} bytes"),
            Misreading::Coded { status, coding } => {
                write!(
                    f,
                    "{status} with Transfer-Encoding: {coding}, not alone, malformed, or above {RESPONSE_BODY_LIMIT}"
                )
            }
            Misreading::WithoutLength { status } => write!(f, "{status} without Content-Length"),
            Misreading::OtherLength { status, length } => {
                write!(
                    f,
                    "{status} with Content-Length: {length}, repeated, no number, or above {RESPONSE_BODY_LIMIT}"
                )
            }
            Misreading::Elsewhere { status, location } => {
                write!(f, "{status}, Location: {location}")
            }
            Misreading::WithoutBody { status } => write!(f, "{status} without a JSON body"),
            Misreading::NotJson {
                status,
                media_type,
                body,
            } => match media_type {
                Some(media_type) => write!(f, "{status}, {media_type}, not JSON: \"{body}\""),
                None => write!(f, "{status}, not JSON: \"{body}\""),
            },
            Misreading::OtherStatus { status, expected } => {
                write!(f, "{status} in place of {expected}")
            }
            Misreading::OtherShape { status, body } => {
                write!(f, "{status}, JSON of another shape: \"{body}\"")
            }
        }
    }
}
