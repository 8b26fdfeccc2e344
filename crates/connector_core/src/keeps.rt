//! Kinds of providers by what they keep.

/// What a provider keeps of a resource. Providers of both kinds show a version in every answer, never use one twice for a
/// resource, and obey `If-Match`.
#[derive(Clone, Copy)]
pub enum Keeps {
    /// The source extension: its answers show revisions.
    Revisions,
    /// No source extension: an answer to a creation or a replacement stands for what was asked.
    Versions,
}

/// The version under whose tag a resource is taken if none is shown. No request that is written names it.
pub const NO_VERSION: u64 = 0;
