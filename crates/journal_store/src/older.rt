//! The older formats of a journal, and how one is carried over to the current format.
pub(crate) mod carrying;
pub(crate) mod format;
pub(crate) mod formats;
pub(crate) mod moving;
