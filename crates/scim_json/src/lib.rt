//! JSON as SCIM reads and writes it: attributes by name in any case, their values, and objects with
//! optional members.
#![tactic(auto)]

mod attributes;
mod laws;
mod parsing;
mod values;
mod writing;

pub use attributes::{attribute, list_repeats, repeats, same_name, value_repeats};
pub use laws::plain_text_reads_back;
pub use parsing::{JsonFault, json_of};
pub use values::{ValueFault, flag_or, items_in, lists_text, members_in, text_of, whole_in};
pub use writing::{TEXT_ROOM, write_text, write_text_if, write_whole};
