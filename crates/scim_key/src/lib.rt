//! Names, keys, ids, the base of a service, revisions of the source, and the faults of stores.
#![tactic(auto)]

mod bases;
mod group_names;
mod identifiers;
mod names;
mod records;
mod revisions;
mod stores;
mod user_names;

pub use bases::{AUTHORITY_LIMIT, BASE_LIMIT, Base, bases_are_spelled};
pub use group_names::GroupName;
pub use identifiers::{ID_LIMIT, LAST_NUMBER, NUMBERED_ID_LENGTH, ResourceId, ids_differ};
pub use names::{NAME_LIMIT, NameFault};
pub use records::{Key, Kind, RecordName, record_names_are_ordered};
pub use revisions::{
    LAST_EPOCH, LAST_REVISION, REVISION_DIGITS, Revision, next_revisions_follow,
    revisions_are_ordered, revisions_are_read_back,
};
pub use stores::StoreFault;
pub use user_names::UserName;
