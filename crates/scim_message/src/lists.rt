//! List messages (RFC 7644 section 3.4.2).
ghost use Rattle.std.specs.Prelude.{◌≡◌};

use scim_resource::Shown;
use std::marker::Model;

/// The resources of one page, in their order.
#[derive(Drop)]
pub struct Resources {
    items: Vec<Shown>,
}

impl Model for Resources {
    ghost use Rattle.std.specs.Prelude.{List};
    ghost use Rattle.scim_resource.specs.Rows.{ShownRecord};

    ghost Value = { List ShownRecord };

    ghost view = { λ r. r.items.items };
}

impl Resources {
    pub fn from_vec(items: Vec<Shown>) -> Resources
        ensures { result ≡ items.items }
    {
        Resources { items }
    }

    pub fn into_vec(self) -> Vec<Shown>
        ensures { result.items ≡ self }
    {
        let Resources { items } = self;
        items
    }

    pub fn as_slice(&self) -> &[Shown]
        ensures { result.now ≡ self.now }
    {
        self.items.as_slice()
    }
}

/// One page of the resources that a search found.
#[derive(Drop)]
pub struct ListResponse {
    /// How many resources were found, on this page or not.
    pub total: u64,
    /// The place of the page's first resource among all that were found, counted from 1.
    pub start: u64,
    pub resources: Resources,
}
