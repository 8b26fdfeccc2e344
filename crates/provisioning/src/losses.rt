//! Why no answer came, as far as the stream says.
use crate::excerpts::Excerpt;
use crate::explaining::Ended;
use crate::recording::Heard;
use http_text::{SendFault, TURN_LIMIT};
use std::alloc::AllocError;
use std::fmt;
use std::io::ErrorKind;

/// How a stream failed.
#[derive(Drop)]
pub enum Loss {
    /// A write failed, when this many bytes were sent (H12).
    Unsent { sent: usize },
    /// The writes that a request may take weren't enough (H14).
    SlowSending { sent: usize },
    /// The stream ended, and nothing came (H10).
    Silence,
    /// The stream ended within the answer (H10).
    Cut { count: usize, first: Excerpt },
    /// A read failed (H11).
    Unread { count: usize, kind: ErrorKind },
    /// The reads that an answer may take weren't enough (H14).
    SlowReading { count: usize },
}

/// How sending failed.
pub(crate) fn unsent(fault: SendFault) -> Loss {
    match fault {
        SendFault::WriteFailed { sent } => Loss::Unsent { sent },
        SendFault::TurnsExhausted { sent } => Loss::SlowSending { sent },
    }
}

/// How the stream of an exchange ended early.
pub(crate) fn cut(ended: &Ended<'_>) -> Result<Loss, AllocError> {
    let heard = ended.heard;
    if heard.count() == 0 {
        return Ok(Loss::Silence);
    }
    Ok(Loss::Cut {
        count: heard.count(),
        first: Excerpt::of(ended.alloc, heard.first())?,
    })
}

/// How reading failed.
pub(crate) fn unread(heard: &Heard) -> Loss {
    Loss::Unread {
        count: heard.count(),
        kind: heard.error().unwrap_or(ErrorKind::Other),
    }
}

/// A number of bytes. Its text is `1 byte` or `17 bytes`.
#[derive(Clone, Copy)]
struct Bytes(usize);

impl fmt::Display for Bytes {
    fn fmt<W: fmt::Write>(&self, f: &mut fmt::Formatter<W>) -> fmt::Result {
        match self.0 {
            1 => f.write_str("1 byte"),
            count => write!(f, "{count} bytes"),
        }
    }
}

impl fmt::Display for Loss {
    fn fmt<W: fmt::Write>(&self, f: &mut fmt::Formatter<W>) -> fmt::Result {
        match self {
            Loss::Unsent { sent } => write!(f, "sending failed after {}", Bytes(*sent)),
            Loss::SlowSending { sent } => {
                write!(f, "{} sent by {TURN_LIMIT} writes", Bytes(*sent))
            }
            Loss::Silence => f.write_str("the connection ended before an answer"),
            Loss::Cut { count, first } => {
                write!(f, "the answer ended after {}: \"{first}\"", Bytes(*count))
            }
            Loss::Unread { count, kind } => {
                write!(f, "reading failed after {}: {kind}", Bytes(*count))
            }
            Loss::SlowReading { count } => {
                write!(f, "{} came by {TURN_LIMIT} reads", Bytes(*count))
            }
        }
    }
}
