//! The ids that users have at the provider.
ghost use Rattle.std.specs.Prelude.{◌≡◌, ℕ, List, Option};
ghost use Rattle.std.specs.Option.{option_copied};
ghost use Rattle.scim_key.specs.declared.records.RecordName.{RecordName};
ghost use Rattle.source_csv.specs.Records.{user};

use scim_key::{Key, ResourceId};
use std::marker::Model;

/// Something that knows the ids of users at the provider.
pub trait Ids {
    ghost id_of: { Self → RecordName → Option (List ℕ) };

    /// The id of the user with this key, if it is known.
    fn id(&self, key: &Key) -> Option<&ResourceId>
        ensures { option_copied result ≡ id_of self.now (user key.now) };
}

/// Ids, one for each member of a group, in the order of the members' keys.
#[derive(Drop)]
pub struct ResourceIds {
    pub(crate) items: Vec<ResourceId>,
}

impl Model for ResourceIds {
    ghost use Rattle.std.specs.Prelude.{List, ℕ};

    ghost Value = { List (List ℕ) };

    ghost view = { λ l. l.items.items };
}

impl ResourceIds {
    pub fn as_slice(&self) -> &[ResourceId]
        ensures { result.now ≡ self.now }
    {
        self.items.as_slice()
    }
}

/// Whether a group can be sent: with all of its members, or not yet.
#[derive(Drop)]
pub enum Ready {
    /// Each member has an id: these, in the order of the members' keys.
    Ids(ResourceIds),
    /// The member at this place, from 0, is the first by key without an id.
    Waits(usize),
}
