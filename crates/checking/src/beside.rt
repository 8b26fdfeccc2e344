//! A resource beside what is wanted of it.
ghost use Rattle.std.specs.Prelude.{◌≡◌, Some};
ghost use Rattle.checking.specs.Findings.{is_in_step, same_id};

use comparing::is_as_wanted;
use scim_key::ResourceId;
use scim_resource::{Content, Shown};

/// A resource that was found, beside what is wanted of it.
#[derive(Drop)]
pub struct Beside {
    /// The image of the wanted row.
    pub wanted: Content,
    /// The id that the connector knows.
    pub known: Option<ResourceId>,
    pub found: Shown,
}

impl Beside {
    /// Whether its content is what is wanted, and its id is the known one.
    pub fn is_in_step(&self) -> bool
        ensures { result ≡ is_in_step self.now }
    {
        is_as_wanted(&self.wanted, self.found.content()) && self.has_known_id()
    }

    /// Whether its id is the known one.
    pub(crate) fn has_known_id(&self) -> bool
        ensures { result ≡ same_id self.now.known self.now.found.id }
    {
        match &self.known {
            Some(known) => known.as_str() == self.found.id().as_str(),
            None => false,
        }
    }
}
