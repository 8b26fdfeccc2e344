//! The service of a world's provider.
ghost use Rattle.std.specs.Prelude.{◌≡◌, IfOk};
ghost use Rattle.scim_key.specs.Bases.{IsBase};
ghost use Rattle.scim_client.specs.Requests.{text_of};
ghost use Rattle.scim_client.specs.Spelling.{IsWritable, KeepsLimits, SpellsRequest};

use scim_client::ScimService;
use scim_key::Base;
use scim_message::Request;
use std::alloc::{AllocError, Global};
use std::marker::Model;

/// A service whose address is its base.
#[derive(Drop)]
pub(crate) struct OwnService {
    service: ScimService,
}

impl Model for OwnService {
    ghost use Rattle.std.specs.Prelude.{List, ℕ};
    ghost use Rattle.scim_key.specs.Bases.{IsBase};

    ghost Value = { List ℕ };

    ghost view = { λ s. s.service };

    ghost invariant = { λ s. IsBase s.service };
}

impl OwnService {
    /// The service at this base.
    pub(crate) fn new(base: Base) -> OwnService
        ensures { result ≡ base }
    {
        keeps_form(&base);
        OwnService {
            service: ScimService::new(base),
        }
    }

    pub(crate) fn base(&self) -> &Base
        ensures { result.now ≡ self.now }
    {
        self.service.base()
    }

    /// The bytes of a request to this service.
    pub(crate) fn bytes_of(&self, alloc: Global, request: &Request) -> Result<Vec<u8>, AllocError>
        ensures text { IfOk result (λ text. text.items ≡ text_of self.now request.now) }
        ensures spelled { IfOk result (λ text. IsWritable request.now
            → KeepsLimits self.now request.now → SpellsRequest text.items request.now) }
    {
        self.service.bytes_of(alloc, request)
    }
}

/// The type of a base guarantees its form.
pub(crate) fn keeps_form(base: &Base)
    ensures { IsBase base.now }
{
    let _ = base.as_str();
}
