//! The journal of the connector: for each record the last row, the id, and the confirmed revision.
#![tactic(auto)]

mod entries;
mod journals;
mod laws;
mod memory;
mod printable;
mod reopening;
mod words;

pub use entries::{Entry, GROUP_LIMIT, USER_LIMIT};
pub use journals::Journal;
pub use laws::journals_in_memory_stay;
pub use memory::MemoryJournal;
pub use printable::Printable;
pub use reopening::ReopenJournal;
pub use words::kind_word;
