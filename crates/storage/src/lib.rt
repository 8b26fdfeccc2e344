//! Where the rows of a provider and the journal of a connector are kept: in database files, which are opened, closed
//! and shown, or in memory.
#![tactic(auto)]

mod closing;
mod database;
mod entry_storage;
mod host;
mod journal_file;
mod journal_lines;
mod journal_showing;
mod looking;
mod memory;
mod noted_disk;
mod notes;
mod places;
mod reason;
mod resetting;
mod row_storage;
mod shared_ids;
mod show_fault;
mod store_file;
mod store_lines;
mod store_showing;

pub use closing::Close;
pub use database::DatabaseFile;
pub use entry_storage::{EntryStorage, StoredEntries};
pub use host::DatabaseHost;
pub use journal_file::JournalFile;
pub use journal_lines::{entry_line, reset_line};
pub use journal_showing::{show_entries, write_entries};
pub use looking::LookFault;
pub use memory::InMemory;
pub use noted_disk::NotedDisk;
pub use notes::Notes;
pub use places::{FileId, Found, Place, Standing};
pub use reason::DatabaseReason;
pub use resetting::reset_entries;
pub use row_storage::{RowStorage, StoredRows};
pub use show_fault::ShowFault;
pub use store_file::StoreFile;
pub use store_lines::row_line;
pub use store_showing::{show_rows, write_rows};
