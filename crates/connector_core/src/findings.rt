//! What an answer says about a record.
ghost use Rattle.std.specs.Prelude.{◌≡◌, ℕ, IfErr, IfOk};
ghost use Rattle.scim_key.specs.Outcome.{GivesBy};
ghost use Rattle.connector_core.specs.Keeps.{carried};
ghost use Rattle.connector_core.specs.Learning as spec;
ghost use Rattle.connector_core.specs.Maps.{book_of};
ghost use Rattle.connector_core.specs.Noting.{CountsLearn, IsNewsOf, lesson_if, lesson_of};

use crate::books::Book;
use crate::fitting::{News, shown};
use crate::keeps::Keeps;
use crate::knowledge::{Known, Seen};
use crate::learning::{LearnFault, Learnt};
use scim_key::RecordName;
use scim_message::{Answer, ListResponse, Request};
use scim_version::{Condition, EntityTag, TagList};
use std::alloc::Global;

/// The news if the provider has no such resource: nothing if an id is known and isn't doubted.
fn none_shown(known: &Known) -> News
    ensures gives { lesson_of known.now result ≡ spec.none_sighted known.now.id known.now }
    ensures news { IsNewsOf known.now result }
{
    if known.id.is_some() && !known.is_doubted {
        return News::Nothing;
    }
    News::Passing {
        seen: Seen::Absent,
        is_doubted: known.is_doubted,
        learnt: Learnt::Absent,
    }
}

/// The news if an answer says that what was seen is outdated, provided that the answer is about it.
fn forgetting(is_concerned: bool, known: &Known) -> News
    ensures gives { lesson_of known.now result ≡ spec.forgetting is_concerned known.now }
    ensures news { IsNewsOf known.now result }
{
    if is_concerned {
        News::Passing {
            seen: Seen::Unknown,
            is_doubted: known.is_doubted,
            learnt: Learnt::Forgotten,
        }
    } else {
        News::Nothing
    }
}

/// Whether the connector saw that the provider has no resource of the record.
fn is_absent(seen: &Seen) -> bool
    ensures { result ≡ spec.is_absent seen.now }
{
    matches!(seen, Seen::Absent)
}

/// Whether a tag is the only one of a list, byte for byte.
fn is_alone(tags: &TagList, tag: &EntityTag) -> bool
    ensures { result ≡ spec.is_alone tags.now tag.now }
{
    matches!(tags.as_slice(), [only] if only.text() == tag.text())
}

/// Whether the condition has only the tag that was seen.
fn is_under(if_match: &Condition, seen: &Seen) -> bool
    ensures { result ≡ spec.is_under if_match.now seen.now }
{
    match (if_match, seen) {
        (Condition::Tags(tags), Seen::At { tag, .. }) => is_alone(tags, tag),
        _ => false,
    }
}

/// The news from a list that answers a search: the resource that was found, or none.
fn listed(
    alloc: Global,
    keeps: Keeps,
    book: &Book,
    name: &RecordName,
    known: &Known,
    request: &Request,
    list: &ListResponse,
) -> Result<News, LearnFault>
    ensures gives { GivesBy (lesson_of known.now) LearnFault.Memory result
        (lesson_if keeps (book_of book.now) name.now known.now (carried request.now)
        (spec.listed list.now.total list.now.resources)) }
    ensures news { IfOk result (IsNewsOf known.now) }
    ensures counted { IfErr result (λ fault. (n : ℕ) → CountsLearn n n fault) }
{
    match list.resources.as_slice() {
        [] if list.total == 0 => Ok(none_shown(known)),
        [only] if list.total == 1 => shown(alloc, keeps, book, name, known, request, only),
        _ => Err(LearnFault::Unfit),
    }
}

/// The news in the answer to a Create.
fn from_creating(
    alloc: Global,
    keeps: Keeps,
    book: &Book,
    name: &RecordName,
    known: &Known,
    request: &Request,
    answer: &Answer,
) -> Result<News, LearnFault>
    ensures gives { GivesBy (lesson_of known.now) LearnFault.Memory result
        (lesson_if keeps (book_of book.now) name.now known.now (carried request.now)
        (spec.found_creating answer.now)) }
    ensures news { IfOk result (IsNewsOf known.now) }
    ensures counted { IfErr result (λ fault. (n : ℕ) → CountsLearn n n fault) }
{
    match answer {
        Answer::Created(resource) => shown(alloc, keeps, book, name, known, request, resource),
        Answer::Error(error) if error.status() == 409 => Ok(forgetting(
            is_absent(&known.seen),
            known,
        )),
        Answer::Error(error) => Err(LearnFault::Refused {
            status: error.status(),
        }),
        _ => Err(LearnFault::Unfit),
    }
}

/// The news in the answer to a Search.
fn from_searching(
    alloc: Global,
    keeps: Keeps,
    book: &Book,
    name: &RecordName,
    known: &Known,
    request: &Request,
    answer: &Answer,
) -> Result<News, LearnFault>
    ensures gives { GivesBy (lesson_of known.now) LearnFault.Memory result
        (lesson_if keeps (book_of book.now) name.now known.now (carried request.now)
        (spec.found_searching answer.now)) }
    ensures news { IfOk result (IsNewsOf known.now) }
    ensures counted { IfErr result (λ fault. (n : ℕ) → CountsLearn n n fault) }
{
    match answer {
        Answer::List(list) => listed(alloc, keeps, book, name, known, request, list),
        Answer::Error(error) => Err(LearnFault::Refused {
            status: error.status(),
        }),
        _ => Err(LearnFault::Unfit),
    }
}

/// The news in the answer to a Replace under a condition.
fn from_replacing(
    alloc: Global,
    keeps: Keeps,
    book: &Book,
    name: &RecordName,
    known: &Known,
    request: &Request,
    if_match: &Condition,
    answer: &Answer,
) -> Result<News, LearnFault>
    ensures gives { GivesBy (lesson_of known.now) LearnFault.Memory result
        (lesson_if keeps (book_of book.now) name.now known.now (carried request.now)
        (spec.found_replacing if_match.now answer.now)) }
    ensures news { IfOk result (IsNewsOf known.now) }
    ensures counted { IfErr result (λ fault. (n : ℕ) → CountsLearn n n fault) }
{
    match answer {
        Answer::Replaced(resource) => shown(alloc, keeps, book, name, known, request, resource),
        Answer::Error(error) if error.status() == 412 => {
            Ok(forgetting(is_under(if_match, &known.seen), known))
        }
        Answer::Error(error) => Err(LearnFault::Refused {
            status: error.status(),
        }),
        _ => Err(LearnFault::Unfit),
    }
}

/// The news about a record in the answer to a request.
pub(crate) fn news_in(
    alloc: Global,
    keeps: Keeps,
    book: &Book,
    name: &RecordName,
    known: &Known,
    request: &Request,
    answer: &Answer,
) -> Result<News, LearnFault>
    ensures gives { GivesBy (lesson_of known.now) LearnFault.Memory result
        (lesson_if keeps (book_of book.now) name.now known.now (carried request.now)
        (spec.finding request.now answer.now)) }
    ensures news { IfOk result (IsNewsOf known.now) }
    ensures counted { IfErr result (λ fault. (n : ℕ) → CountsLearn n n fault) }
{
    match request {
        Request::Create { .. } => from_creating(alloc, keeps, book, name, known, request, answer),
        Request::Search { .. } => from_searching(alloc, keeps, book, name, known, request, answer),
        Request::Replace { if_match, .. } => from_replacing(
            alloc, keeps, book, name, known, request, if_match, answer,
        ),
        Request::Retrieve { .. } => Err(LearnFault::Unfit),
    }
}
