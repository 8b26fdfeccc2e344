//! The URNs of schemas.
ghost use Rattle.std.specs.Prelude.{◌≡◌};
ghost use Rattle.scim_resource.specs.Schemas as spec;

/// The core schema of users (RFC 7643 section 4.1).
#[tactic(auto, unfolding(crate::specs::Schemas::core_user))]
pub(crate) fn core_user() -> &'static str
    ensures { result.now ≡ spec.core_user }
{
    "urn:ietf:params:scim:schemas:core:2.0:User"
}

/// The core schema of groups (RFC 7643 section 4.2).
#[tactic(auto, unfolding(crate::specs::Schemas::core_group))]
pub(crate) fn core_group() -> &'static str
    ensures { result.now ≡ spec.core_group }
{
    "urn:ietf:params:scim:schemas:core:2.0:Group"
}

/// The enterprise extension of users (RFC 7643 section 4.3).
#[tactic(auto, unfolding(crate::specs::Schemas::enterprise_extension))]
pub(crate) fn enterprise_extension() -> &'static str
    ensures { result.now ≡ spec.enterprise_extension }
{
    "urn:ietf:params:scim:schemas:extension:enterprise:2.0:User"
}

/// The extension with the source's revision.
#[tactic(auto, unfolding(crate::specs::Schemas::source_extension))]
pub(crate) fn source_extension() -> &'static str
    ensures { result.now ≡ spec.source_extension }
{
    "urn:example:params:scim:schemas:extension:source:1.0"
}
