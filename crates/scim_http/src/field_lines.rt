//! The field lines of a message to be written.
ghost use Rattle.std.specs.Prelude.{◌≡◌, option_map};
ghost use Rattle.scim_http.specs.Replies as spec;

/// The media type of every body that is written (RFC 7644 section 3.1).
pub const MEDIA_TYPE: &[u8] = b"application/scim+json";

/// The media type to state if there is a body, which has a length.
pub fn stated_type(length: Option<&[u8]>) -> Option<&'static [u8]>
    ensures { option_map (λ t. t.now) result
        ≡ spec.stated_type (option_map (λ t. t.now) length.entry) }
{
    match length {
        Some(_) => Some(MEDIA_TYPE),
        None => None,
    }
}
