//! Rows that are older than the wanted row of their record.
ghost use Rattle.std.specs.Prelude.{◌≡◌, IfOk};
ghost use Rattle.std.specs.Option.{option_copied, option_map};
ghost use Rattle.provisioning.specs.Lines.{leaver_text};
ghost use Rattle.provisioning.specs.Offering.{is_leaver, older_of, older_than};

use crate::sources::label;
use connector_core::{ChangeFault, Connector, Verdict};
use journal_core::Journal;
use scim_key::{Kind, Revision};
use source_csv::Row;
use std::alloc::{AllocError, Global};
use std::fmt;

/// A row that is older than the wanted row of its record.
#[derive(Drop)]
pub struct OlderRow {
    pub revision: Revision,
    /// The revision of the wanted row.
    pub wanted: Revision,
    /// The row says that a user left; by the wanted row the user is active.
    pub is_leaver: bool,
}

/// Whether the row says that a user left, while the wanted row says that the user is active.
fn is_leaver(row: &Row, wanted: &Row) -> bool
    ensures { result ≡ is_leaver row.now wanted.now }
{
    match (row, wanted) {
        (Row::User(row), Row::User(wanted)) => !row.is_active() && wanted.is_active(),
        _ => false,
    }
}

/// The row, beside the wanted row of its record.
fn older_than(row: &Row, wanted: Option<&Row>) -> Option<OlderRow>
    ensures { result ≡ option_map (older_than row.now) (option_copied wanted.entry) }
{
    match wanted {
        Some(wanted) => Some(OlderRow {
            revision: row.revision(),
            wanted: wanted.revision(),
            is_leaver: is_leaver(row, wanted),
        }),
        None => None,
    }
}

/// What an older row is beside the wanted row; none for any other verdict.
pub(crate) fn older_of<J: Journal>(
    alloc: Global,
    connector: &Connector<J>,
    row: &Row,
    verdict: &Result<Verdict, ChangeFault>,
) -> Result<Option<OlderRow>, AllocError>
    ensures { IfOk result (λ older. older ≡ older_of connector.now.book row.now verdict.now) }
{
    match verdict {
        Ok(Verdict::Older) => {
            let name = row.record_name(alloc)?;
            Ok(older_than(row, connector.row(&name)))
        }
        _ => Ok(None),
    }
}

/// What is added for a row that says that a user left, while the wanted row says that the user is active.
fn leaver_text(is_leaver: bool) -> &'static str
    ensures { result.now ≡ leaver_text is_leaver }
{
    if is_leaver { "; it says left" } else { "" }
}

/// The line of an older row on standard error: `users record 2: older, 1 is below 2`.
#[derive(Clone, Copy)]
pub(crate) struct OlderLine<'a> {
    pub kind: Kind,
    pub place: usize,
    pub older: &'a OlderRow,
}

impl<'a> fmt::Display for OlderLine<'a> {
    ghost use Rattle.std.specs.Prelude.{Some};
    ghost use Rattle.provisioning.specs.Lines.{older_text};

    ghost output = { λ row. Some (older_text row.kind row.place row.older.now) };

    fn fmt<W: fmt::Write>(&self, f: &mut fmt::Formatter<W>) -> fmt::Result {
        write!(
            f,
            "{} record {}: older, {} is below {}{}",
            label(self.kind),
            self.place,
            self.older.revision,
            self.older.wanted,
            leaver_text(self.older.is_leaver)
        )
    }
}
