//! The conditions of a request (RFC 7232 section 3).
ghost use Rattle.std.specs.Prelude.{◌≡◌, ◌∷◌, IfOk};
ghost use Rattle.http_text.specs.Message.{values};
ghost use Rattle.scim_http.specs.Meaning as spec;
ghost use Rattle.scim_http.specs.Meaning.{Tells};

use crate::requests::MeaningFault;
use http_text::{FieldValues, Incoming};
use scim_message::Refusal;
use scim_version::{Condition, TagFault};
use std::alloc::{AllocError, Global};

/// `If-Match` and `If-None-Match`.
pub(crate) fn conditions_of(
    alloc: Global,
    incoming: &Incoming,
) -> Result<(Condition, Condition), MeaningFault>
    ensures { Tells result (spec.conditions_of incoming.now) }
{
    let if_match = condition_named(alloc, "if-match", incoming)?;
    let if_none_match = condition_named(alloc, "if-none-match", incoming)?;
    Ok((if_match, if_none_match))
}

/// The condition in the lines of a field; `Always` if there are none.
fn condition_named(
    alloc: Global,
    name: &str,
    incoming: &Incoming,
) -> Result<Condition, MeaningFault>
    ensures { Tells result (spec.condition_named name.now incoming.now) }
{
    let mut lines = incoming.fields(name);
    match lines.next() {
        Some(first) => condition_text(alloc, &joined(alloc, first, lines)?),
        None => Ok(Condition::Always),
    }
}

/// The values of several field lines, joined by commas, in order.
fn joined(alloc: Global, first: &[u8], others: FieldValues<'_>) -> Result<Vec<u8>, AllocError>
    ensures { IfOk result (λ text. text.items ≡ spec.joined (first.now ∷ others.entry)) }
{
    let mut text = Vec::from_slice(alloc, first)?;
    for other in others {
        text.push(b',')?;
        text.extend_from_slice(other)?;
    }
    Ok(text)
}

/// The condition that a text spells.
fn condition_text(alloc: Global, text: &[u8]) -> Result<Condition, MeaningFault>
    ensures { Tells result (spec.condition_text text.now) }
{
    match Condition::read_list(alloc, text) {
        Ok(condition) => Ok(condition),
        Err(TagFault::Malformed) => Err(MeaningFault::Refused(Refusal::ValueNotAllowed)),
        Err(TagFault::Memory) => Err(MeaningFault::OutOfMemory),
    }
}
