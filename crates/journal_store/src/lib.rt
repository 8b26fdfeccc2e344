//! The journal of a connector in SQLite.
#![tactic(auto)]

mod batches;
mod columns;
mod format;
mod formats;
mod journal;
mod lawful;
mod learning;
mod making;
mod older;
mod opening;
mod places;
mod resets;
mod scopes;
mod statements;
mod tables;

pub use journal::SqlJournal;
pub use opening::{JournalOpenFault, is_older};
pub use resets::resets_keep_rows;
pub use scopes::{ResetResult, Scope};
