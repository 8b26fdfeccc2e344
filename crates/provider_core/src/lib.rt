//! The provider over a registry: its answer to each request, and what it changes.
#![tactic(auto)]

mod kinds;
mod laws;
mod listing;
mod meanwhile;
mod memory;
mod outcomes;
mod pending;
mod provider;
mod registry;
mod reopening;
mod searching;

pub use laws::{
    answers_show_facts, entries_go_on, memory_is_faithful, memory_never_faults,
    records_are_found_by_name, requests_write_one_content, rows_follow_stories, stories_only_grow,
    tables_stay_whole,
};
pub use meanwhile::{Meanwhile, Nothing, SearchFault};
pub use memory::MemoryRegistry;
pub use outcomes::MOST_RESOURCES;
pub use pending::{Change, Pending};
pub use provider::{Provider, ProviderFault};
pub use registry::{ROWS_AT_ONCE, Registry};
pub use reopening::Reopen;
pub use scim_message::{Answer, ErrorResponse, ListResponse, Request, Resources};
pub use searching::{MOST_LISTED, reads_all_rows};
