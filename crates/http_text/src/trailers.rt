//! The trailers of a body in chunks, byte by byte (RFC 9112, section 7.1.2).
ghost use Rattle.std.specs.Prelude.{◌≡◌};
ghost use Rattle.http_text.specs.Trailers.{place_after};

use httparse::{is_header_name_token, is_header_value_token};

/// A place within the trailers: the next byte is the first of a line, is in a name, is in a value, ends a line or ends
/// the last line; or the trailers have ended, or are malformed.
#[derive(Clone, Copy, PartialEq, Eq)]
pub(crate) enum TrailerPlace {
    LineStart,
    Name,
    Value,
    LineFeed,
    LastFeed,
    End,
    Malformed,
}

impl TrailerPlace {
    /// The place after a byte.
    pub(crate) fn after(self, byte: u8) -> TrailerPlace
        ensures { result ≡ place_after self byte }
    {
        match self {
            TrailerPlace::LineStart | TrailerPlace::Name if is_header_name_token(byte) => {
                TrailerPlace::Name
            }
            TrailerPlace::LineStart if byte == b'\r' => TrailerPlace::LastFeed,
            TrailerPlace::Name if byte == b':' => TrailerPlace::Value,
            TrailerPlace::Value if is_header_value_token(byte) => TrailerPlace::Value,
            TrailerPlace::Value if byte == b'\r' => TrailerPlace::LineFeed,
            TrailerPlace::LineFeed if byte == b'\n' => TrailerPlace::LineStart,
            TrailerPlace::LastFeed if byte == b'\n' => TrailerPlace::End,
            _ => TrailerPlace::Malformed,
        }
    }
}
