//! The state of a record after its exchanges.
ghost use Rattle.std.specs.Prelude.{true};
ghost use Rattle.connector_core.specs.Maps.{book_of};
ghost use Rattle.provisioning.specs.Records.{Stands, most_exchanges};

use crate::faults::RecordFault;
use connector_core::Connector;
use journal_core::Journal;
use scim_key::{Key, RecordName, Revision};
use std::fmt;

/// The state of a record after its exchanges.
#[derive(Drop)]
pub enum Standing {
    /// The wanted revision, this one, is confirmed, and isn't doubted.
    Confirmed(Revision),
    /// A group waits for this member, its first by key without an id.
    Waits(Key),
    /// The wanted revision isn't confirmed, or is doubted. The last fault, if there was one.
    Unconfirmed(Option<RecordFault>),
}

impl fmt::Display for Standing {
    ghost use Rattle.std.specs.Prelude.{Some};
    ghost use Rattle.provisioning.specs.Lines.{standing_text};

    ghost output = { λ standing. Some (standing_text standing) };

    /// The state in a few words: `confirmed 2`, `unconfirmed C4`, `unconfirmed waits ann`, or `unconfirmed
    /// -` if there was no fault.
    fn fmt<W: fmt::Write>(&self, f: &mut fmt::Formatter<W>) -> fmt::Result {
        match self {
            Standing::Confirmed(revision) => write!(f, "confirmed {revision}"),
            Standing::Waits(member) => write!(f, "unconfirmed waits {}", member.as_str()),
            Standing::Unconfirmed(Some(fault)) => write!(f, "unconfirmed {fault}"),
            Standing::Unconfirmed(None) => f.write_str("unconfirmed -"),
        }
    }
}

/// The result for a record.
#[derive(Drop)]
pub struct Pushed {
    pub exchanges: u32,
    pub standing: Standing,
}

/// The state of a record after all its exchanges.
pub(crate) fn standing_after<J: Journal>(
    connector: &Connector<J>,
    name: &RecordName,
    last: Option<RecordFault>,
) -> Standing
    ensures { Stands true (book_of connector.now.book) name.now most_exchanges last result }
{
    if connector.is_done(name) {
        Standing::Confirmed(connector.confirmed(name))
    } else {
        Standing::Unconfirmed(last)
    }
}
