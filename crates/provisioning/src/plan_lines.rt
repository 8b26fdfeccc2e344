//! The lines of a plan.
ghost use Rattle.std.specs.Prelude.{◌≡◌, Some};
ghost use Rattle.std.specs.Option.{option_copied};
ghost use Rattle.provisioning.specs.Plans.{absent_text, from_text, is_back, planned_text, row_text, said_text, stays_active};

use crate::changes::Changes;
use journal_core::kind_word;
use scim_key::{RecordName, Revision};
use source_csv::{Column, Row};
use std::fmt;

/// A record that a push would ask for. Its text is `user bob 1 to 2: mail`, `user bob 1 to 2 left`, `user dan 3 to 4
/// active again`, `user cid new 1 active` if nothing of it is confirmed, or `group crew 1 to 2 members=3`.
#[derive(Clone, Copy)]
pub(crate) struct Planned<'a> {
    pub name: &'a RecordName,
    pub confirmed: Revision,
    pub row: &'a Row,
    /// The row that is confirmed, if it is known.
    pub before: Option<&'a Row>,
    /// The columns in which the row says something else.
    pub changes: &'a [Column],
    /// Whether the record is absent from a snapshot.
    pub is_absent: bool,
}

impl<'a> fmt::Display for Planned<'a> {
    ghost output = { λ it. Some (planned_text it.name.now it.confirmed it.row.now
        (option_copied it.before) it.changes.now it.is_absent) };

    fn fmt<W: fmt::Write>(&self, f: &mut fmt::Formatter<W>) -> fmt::Result {
        let (kind, key) = (kind_word(self.name.kind), self.name.key.as_str());
        let from = Confirmed {
            revision: self.confirmed,
        };
        let said = Said {
            row: self.row,
            before: self.before,
            changes: self.changes,
        };
        let (wanted, absent) = (self.row.revision(), absent_text(self.is_absent));
        let changes = Changes(self.changes);
        write!(f, "{kind} {key} {from} {wanted}{said}{absent}{changes}")
    }
}

/// What is added for a record that is absent from a snapshot.
fn absent_text(is_absent: bool) -> &'static str
    ensures { result.now ≡ absent_text is_absent }
{
    if is_absent { " (not in the file)" } else { "" }
}

/// From where a record is changed: `1 to`, or `new` if nothing is confirmed.
#[derive(Clone, Copy)]
struct Confirmed {
    revision: Revision,
}

impl fmt::Display for Confirmed {
    ghost output = { λ it. Some (from_text it.revision) };

    fn fmt<W: fmt::Write>(&self, f: &mut fmt::Formatter<W>) -> fmt::Result {
        if self.revision == Revision::none() {
            f.write_str("new")
        } else {
            write!(f, "{} to", self.revision)
        }
    }
}

/// What a row says of its record: `active`, `left` or `members=3`.
#[derive(Clone, Copy)]
struct Status<'a> {
    row: &'a Row,
}

impl<'a> fmt::Display for Status<'a> {
    ghost output = { λ it. Some (row_text it.row.now) };

    fn fmt<W: fmt::Write>(&self, f: &mut fmt::Formatter<W>) -> fmt::Result {
        match self.row {
            Row::User(user) if user.is_active() => f.write_str("active"),
            Row::User(_) => f.write_str("left"),
            Row::Group(group) => write!(f, "members={}", group.members().len()),
        }
    }
}

/// What a row says of its record, beside its confirmed row: ` active again` of somebody who is back, and nothing of
/// somebody who stays active, if the line names columns.
#[derive(Clone, Copy)]
struct Said<'a> {
    row: &'a Row,
    before: Option<&'a Row>,
    changes: &'a [Column],
}

impl<'a> fmt::Display for Said<'a> {
    ghost output = { λ it. Some (said_text (option_copied it.before) it.row.now it.changes.now) };

    fn fmt<W: fmt::Write>(&self, f: &mut fmt::Formatter<W>) -> fmt::Result {
        if is_back(self.before, self.row) {
            f.write_str(" active again")
        } else if stays_active(self.before, self.row) && self.changes.len() != 0 {
            Ok(())
        } else {
            write!(f, " {}", Status { row: self.row })
        }
    }
}

/// Whether the row says that the user is active, and the confirmed one said otherwise.
fn is_back(before: Option<&Row>, row: &Row) -> bool
    ensures { result ≡ is_back (option_copied before.entry) row.now }
{
    match (before, row) {
        (Some(Row::User(before)), Row::User(row)) => !before.is_active() && row.is_active(),
        _ => false,
    }
}

/// Whether both say that the user is active.
fn stays_active(before: Option<&Row>, row: &Row) -> bool
    ensures { result ≡ stays_active (option_copied before.entry) row.now }
{
    match (before, row) {
        (Some(Row::User(before)), Row::User(row)) => before.is_active() && row.is_active(),
        _ => false,
    }
}
