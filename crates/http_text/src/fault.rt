//! Why no message was read, and why bytes weren't sent whole.

use std::{error, fmt};

/// Why no request or response was read. Its text is its code. `is_head` says whether the request's method
/// was HEAD, whose answer has no body.
#[derive(Clone, Copy, Debug, PartialEq, Eq)]
pub enum ReadFault {
    /// No further bytes can complete a head or a body in chunks, or `Content-Length` is repeated or isn't 1 to 18
    /// digits. Of a response also: its end isn't stated, or it is an interim one too many.
    Malformed { is_head: bool },
    /// An HTTP/1.1 request without `Host`, or any request with two, or with one that isn't a host (RFC 9112, section
    /// 3.2).
    HostMissingOrRepeated { is_head: bool },
    /// A POST or PUT without `Content-Length`.
    LengthMissing { is_head: bool },
    /// A `Content-Length` above 32,768 in a request, or above 8,388,608 in a response; or chunks beyond a limit.
    BodyTooLong { is_head: bool },
    /// 16,384 bytes hold no whole head, or there are more than 64 field lines.
    HeadTooLong { is_head: bool },
    /// A request has a `Transfer-Encoding`.
    TransferCoding { is_head: bool },
    /// There is an `Expect`.
    Expectation { is_head: bool },
    /// The bytes ended before the message did.
    EndedEarly,
    /// A read failed.
    ReadFailed,
    /// Out of memory.
    OutOfMemory,
    /// The message wasn't complete after 100,000 reads.
    TurnsExhausted,
}

impl fmt::Display for ReadFault {
    ghost use Rattle.std.specs.Prelude.{Some};
    ghost use Rattle.http_text.specs.Codes.{read_fault_text};

    ghost output = { λ fault. Some (read_fault_text fault) };

    fn fmt<W: fmt::Write>(&self, f: &mut fmt::Formatter<W>) -> fmt::Result {
        f.write_str(match self {
            ReadFault::Malformed { .. } => "H1",
            ReadFault::HostMissingOrRepeated { .. } => "H2",
            ReadFault::LengthMissing { .. } => "H3",
            ReadFault::BodyTooLong { .. } => "H4",
            ReadFault::HeadTooLong { .. } => "H5",
            ReadFault::TransferCoding { .. } => "H6",
            ReadFault::Expectation { .. } => "H7",
            ReadFault::EndedEarly => "H10",
            ReadFault::ReadFailed => "H11",
            ReadFault::OutOfMemory => "H13",
            ReadFault::TurnsExhausted => "H14",
        })
    }
}

impl error::Error for ReadFault {}

/// Why bytes weren't sent whole. Its text is its code.
#[derive(Clone, Copy, Debug, PartialEq, Eq)]
pub enum SendFault {
    /// A write or the flush failed, after `sent` bytes were taken.
    WriteFailed { sent: usize },
    /// 100,000 writes and flushes weren't enough; `sent` bytes were taken.
    TurnsExhausted { sent: usize },
}

impl fmt::Display for SendFault {
    ghost use Rattle.std.specs.Prelude.{Some};
    ghost use Rattle.http_text.specs.Codes.{send_fault_text};

    ghost output = { λ fault. Some (send_fault_text fault) };

    fn fmt<W: fmt::Write>(&self, f: &mut fmt::Formatter<W>) -> fmt::Result {
        f.write_str(match self {
            SendFault::WriteFailed { .. } => "H12",
            SendFault::TurnsExhausted { .. } => "H14",
        })
    }
}

impl error::Error for SendFault {}
