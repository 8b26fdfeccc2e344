//! The registry of a provider in SQLite.
#![tactic(auto)]

mod format;
mod opening;
mod registry;
mod tables;

pub use opening::RegistryOpenFault;
pub use registry::SqlRegistry;
