//! The connector: what the source wants of each record, what it asks of the provider, and what it learns
//! from the answers.
#![tactic(auto)]

mod accepting;
mod asking;
mod books;
mod changing;
mod connectors;
mod findings;
mod fitting;
mod keeps;
mod knowledge;
mod laws;
mod learning;
mod offering;
mod opening;
mod taking;

pub use accepting::{
    BookFault, Verdict, accept, accept_is_by_history, histories_rise, new_rows_go_on,
};
pub use asking::{Ask, AskFault, MOST_EXCHANGES, search_for};
pub use changing::{ChangeFault, member_at};
pub use connectors::Connector;
pub use keeps::{Keeps, NO_VERSION};
pub use knowledge::{Known, Seen};
pub use laws::{
    answers_stand_for_what_was_asked, learns_by_notes, maps_are_books, memory_never_faults,
    what_was_seen_is_replaced,
};
pub use learning::{LearnFault, Learnt};
pub use opening::ConnectorOpenFault;
