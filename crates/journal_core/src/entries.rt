//! What a journal keeps about a record.
use scim_key::{ResourceId, Revision};
use source_csv::Row;
use std::alloc::AllocError;

/// The most users that a connector keeps.
pub const USER_LIMIT: usize = 100_000;

/// The most groups that a connector keeps.
pub const GROUP_LIMIT: usize = 10_000;

/// What a journal keeps about a record.
pub struct Entry {
    /// The last row that the source gave for this record.
    pub row: Row,
    /// The revision that the provider's answers have confirmed, or none.
    pub confirmed: Revision,
    /// The id that the provider gave to the record.
    pub id: Option<ResourceId>,
}

/// Dropping an entry is one call, as for a row.
impl Drop for Entry {
    fn drop(self) {
        let Entry {
            row: _,
            confirmed: _,
            id: _,
        } = self;
    }
}

impl Entry {
    ghost use Rattle.std.specs.Prelude.{◌≡◌};

    /// The row, the confirmed revision and the id.
    pub fn into_parts(self) -> (Row, Revision, Option<ResourceId>)
        ensures { result ≡ (self.row, self.confirmed, self.id) }
    {
        let Entry { row, confirmed, id } = self;
        (row, confirmed, id)
    }
}

impl Clone for Entry {
    ghost use Rattle.std.specs.Prelude.{◌≡◌};

    ghost is_clone = { λ a b. b ≡ a };

    fn clone(&self) -> Result<Entry, AllocError> {
        Ok(Entry {
            row: self.row.clone()?,
            confirmed: self.confirmed,
            id: self.id.clone()?,
        })
    }
}
