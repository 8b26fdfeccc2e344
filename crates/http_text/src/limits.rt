//! The limits of messages.

/// The greatest length of a head, in bytes.
pub const HEAD_LIMIT: usize = 16_384;

/// The greatest number of field lines.
pub const FIELD_LIMIT: usize = 64;

/// The greatest length of a request's body, in bytes.
pub const BODY_LIMIT: u64 = 32_768;

/// The greatest length of a response's body, in bytes.
pub const RESPONSE_BODY_LIMIT: u64 = 8_388_608;

/// The greatest number of bytes of a response's body in chunks that aren't its content: sizes, extensions, trailers and
/// the ends of lines.
pub const CHUNK_FRAMING_LIMIT: usize = 8_388_608;

/// The greatest number of interim responses before a response.
pub const INTERIM_LIMIT: u32 = 8;

/// The greatest number of reads, or of writes and flushes, for one message.
pub const TURN_LIMIT: u32 = 100_000;
