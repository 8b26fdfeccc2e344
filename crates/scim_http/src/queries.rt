//! The parameters of a query, which is read like an HTML form.
ghost use Rattle.std.specs.Prelude.{◌≡◌, IfOk, option_map};
ghost use Rattle.std.specs.Cow.{cow_str_bytes};
ghost use Rattle.scim_http.specs.Queries as spec;

use form_urlencoded::{decode, raw_pairs};
use std::alloc::{AllocError, Global};
use std::borrow::CowStr;

/// The value of the first parameter with this name.
pub(crate) fn parameter<'a>(
    alloc: Global,
    name: &str,
    query: &'a [u8],
) -> Result<Option<CowStr<'a>>, AllocError>
    ensures { IfOk result
        (λ value. option_map cow_str_bytes value ≡ spec.parameter name.now query.now) }
{
    for (written_name, written) in raw_pairs(query) {
        if decode(alloc, written_name)?.as_bytes() == name.as_bytes() {
            return Ok(Some(decode(alloc, written)?));
        }
    }
    Ok(None)
}
