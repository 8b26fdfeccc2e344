//! Users and groups as resources: their content, their rows and their JSON.
#![tactic(auto)]

mod contents;
mod emails;
mod faults;
mod group_objects;
mod group_reading;
mod group_writing;
mod groups;
mod laws;
mod locations;
mod reading;
mod rows;
mod schemas;
mod showing;
mod texts;
mod user_objects;
mod user_texts;
mod users;
mod writing;

pub use contents::Content;
pub use emails::{EMAIL_LIMIT, Email, Emails};
pub use faults::ContentFault;
pub use groups::{Group, MEMBER_LIMIT, Members};
pub use laws::{
    alike_values_are_read_the_same, repeated_members_are_kept_once, repeated_names_come_first,
    shown_reads_back, text_reads_back,
};
pub use locations::location;
pub use rows::{LAST_VERSION, RowVersion, Shown, Stored, TAG_LIMIT};
pub use texts::{OptionalText, TEXT_LIMIT, Text};
pub use user_texts::{TEXT_COUNT, USER_TEXTS, UserText};
pub use users::User;
