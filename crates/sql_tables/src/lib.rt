//! Tables of a layout in SQLite: their schema, queries and writes on them, the columns of a result row, and what a
//! store counts of its calls.
#![tactic(auto)]

mod columns;
mod counts;
mod marks;
mod schemas;
mod statements;

pub use columns::{integer_at, number_at, text_at};
pub use counts::{concluded, counted, refusal};
pub use marks::{Mark, find_mark};
pub use schemas::{has_order, is_blank, is_column, is_format, is_plain};
pub use statements::{Layout, ask, statement_fault, write};
