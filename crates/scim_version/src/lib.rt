//! Entity tags, and the conditions of a request that name them (RFC 7232).
#![tactic(auto)]

mod conditions;
mod laws;
mod lists;
mod tags;

pub use conditions::{Condition, TagList};
pub use laws::{lists_are_spelled, tags_are_spelled, version_tags_differ};
pub use tags::{EntityTag, TagFault};
