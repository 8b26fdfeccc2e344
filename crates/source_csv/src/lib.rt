//! Rows of the source: CSV files of users and of groups, read record by record.
#![tactic(auto)]

mod columns;
mod faults;
mod fields;
mod files;
mod groups;
mod headers;
mod layouts;
mod line_counts;
mod missing_quotes;
mod quotes;
mod rows;
mod snapshot_headers;
mod snapshots;
mod streams;
mod texts;
mod users;

pub use faults::{Rejected, RowCode, RowFault, SourceFault};
pub use files::{SourceFile, SourceRows, files_have_records, read_file, read_rows};
pub use groups::{GroupRow, MEMBER_LIMIT};
pub use headers::{DEPARTMENT_COLUMNS, GROUP_COLUMNS, GROUP_HEADERS, USER_COLUMNS, USER_HEADERS};
pub use layouts::{Alias, Column, GROUP_SNAPSHOT, Layout, Separator, USER_SNAPSHOT};
pub use missing_quotes::{Multiline, multiline_at};
pub use rows::{Row, keys_are_of_names};
pub use snapshots::{SnapshotFile, read_snapshot};
pub use streams::{ReadFault, RowReader};
pub use texts::{FieldValue, TEXT_FIELD_COUNT, TEXT_FIELDS, TextField, VALUE_LIMIT};
pub use users::UserRow;
