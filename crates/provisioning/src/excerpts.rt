//! Texts of others, of which the first bytes are printed.
use journal_core::Printable;
use std::alloc::{AllocError, Global};
use std::fmt;

/// The most bytes of one text of others that are printed.
const EXCERPT_LIMIT: usize = 200;

/// The first bytes of a text of others.
#[derive(Drop)]
pub struct Excerpt {
    bytes: Vec<u8>,
}

impl Excerpt {
    /// The first bytes of a text.
    pub(crate) fn of(alloc: Global, bytes: &[u8]) -> Result<Excerpt, AllocError> {
        let count = bytes.len().min(EXCERPT_LIMIT);
        Ok(Excerpt {
            bytes: Vec::from_slice(alloc, &bytes[..count])?,
        })
    }
}

impl fmt::Display for Excerpt {
    fn fmt<W: fmt::Write>(&self, f: &mut fmt::Formatter<W>) -> fmt::Result {
        write!(f, "{}", Printable(&self.bytes))
    }
}
