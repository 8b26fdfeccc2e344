//! Filters (RFC 7644 section 3.4.2.2): what they are, how a text spells them, and what they mean.
#![tactic(auto)]

mod comparing;
mod filters;
mod laws;
mod matching;
mod reader;
mod single;
mod terms;
mod texts;
mod tokens;
mod words;

pub use filters::{Filter, FilterFault, TEXT_LIMIT};
pub use laws::{keys_decide, one_filter, text_spells};
pub use reader::DEPTH_LIMIT;
