//! What is known about a record.
use scim_key::{ResourceId, Revision};
use scim_version::EntityTag;
use source_csv::Row;

/// What was seen last of a record at the provider, since the connector was opened.
#[derive(Drop)]
pub enum Seen {
    /// Nothing.
    Unknown,
    /// The provider has no resource of the record.
    Absent,
    /// A resource with this id and this entity tag, at this revision of the source, or at none.
    At {
        id: ResourceId,
        tag: EntityTag,
        revision: Revision,
    },
}

/// What the connector knows about a record.
pub struct Known {
    /// The last row that the source gave for it.
    pub wanted: Row,
    /// The revision that the provider's answers have confirmed, or none.
    pub confirmed: Revision,
    /// The id that the provider gave to the record.
    pub id: Option<ResourceId>,
    pub seen: Seen,
    /// Whether somebody else may have changed it. Then it counts as confirmed only once it is seen as it is wanted.
    pub is_doubted: bool,
}

/// Dropping it is one call, as for a row.
impl Drop for Known {
    fn drop(self) {
        let Known {
            wanted: _,
            confirmed: _,
            id: _,
            seen: _,
            is_doubted: _,
        } = self;
    }
}
