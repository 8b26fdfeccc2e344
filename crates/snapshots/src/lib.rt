//! Snapshots: files that say all that is true today. The connector's journal gives their rows revisions, and says who
//! is absent from them.
#![tactic(auto)]

mod absence;
mod doubts;
mod laws;
mod numbering;
mod records;
mod rows;
mod tally;
mod withdrawing;

pub use doubts::Unsure;
pub use laws::{
    again_offers_nothing, books_are_named, nobody_is_withdrawn_if_unsure, revisions_rise,
    snapshot_is_taken,
};
pub use numbering::{Numbered, number};
