//! Whether a shown resource is the record's, and the news in it.
ghost use Rattle.std.specs.Prelude.{◌≡◌, ◌≢◌, ◌↔◌, ◌⊎◌, ℕ, true, None, Some, IfErr, IfOk, IfSome};
ghost use Rattle.std.specs.Str.{bytes_eq};
ghost use Rattle.scim_key.specs.Names.{key_of};
ghost use Rattle.scim_key.specs.Outcome.{Gives, GivesBy};
ghost use Rattle.scim_key.specs.Revisions.{IsRevision, later, ◌≺◌, ◌≼◌};
ghost use Rattle.scim_resource.specs.Contents.{content_name, content_revision};
ghost use Rattle.source_csv.specs.Records.{row_revision};
ghost use Rattle.connector_core.specs.Book.{learning};
ghost use Rattle.connector_core.specs.History.{same_name};
ghost use Rattle.connector_core.specs.Keeps.{asked_lesson, carried, lesson_at, lesson_under, only_seen, says, standing_for, unseen, unshown_lesson};
ghost use Rattle.connector_core.specs.Learning as spec;
ghost use Rattle.connector_core.specs.Maps.{book_of};
ghost use Rattle.connector_core.specs.Noting.{CountsLearn, IsFit, IsNewsOf, lesson_of, within};

use crate::books::Book;
use crate::keeps::{Keeps, NO_VERSION};
use crate::knowledge::{Known, Seen};
use crate::learning::{LearnFault, Learnt};
use comparing::{is_active, is_as_wanted};
use mapping::{ImageFault, row_content};
use scim_key::{Key, Kind, RecordName, ResourceId, Revision};
use scim_message::Request;
use scim_resource::{Content, Shown};
use scim_version::EntityTag;
use std::alloc::{AllocError, Global};
use std::marker::Model;

/// What is new about a record.
#[derive(Drop)]
pub(crate) enum News {
    /// A new id or a higher revision, which the journal keeps too.
    Lasting {
        confirmed: Revision,
        id: ResourceId,
        seen: Seen,
        learnt: Learnt,
    },
    /// What was seen and whether the record is doubted, which the journal doesn't keep.
    Passing {
        seen: Seen,
        is_doubted: bool,
        learnt: Learnt,
    },
    Nothing,
}

/// A resource that was seen, with its revision and its entity tag.
#[derive(Drop)]
pub(crate) struct Sight {
    id: ResourceId,
    revision: Revision,
    tag: EntityTag,
}

impl Model for Sight {
    ghost use Rattle.connector_core.specs.Learning as spec;
    ghost use Rattle.connector_core.specs.Maps.{book_of};

    ghost Value = { spec.Sight };

    ghost view = { λ s. record { id = s.id; revision = s.revision; tag = s.tag } };
}

/// Whether this is the key of a name. It allocates nothing.
fn is_key_of(key: &Key, name: &str) -> bool
    ensures { result ≡ bytes_eq key.now (key_of name.now) }
{
    key.as_str().eq_ignore_ascii_case(name)
}

/// Whether a content is of this record. It allocates nothing.
fn is_named(name: &RecordName, content: &Content) -> bool
    ensures { result ≡ same_name name.now (content_name content.now) }
{
    match (name.kind, content) {
        (Kind::User, Content::User(user)) => is_key_of(&name.key, user.user_name().as_str()),
        (Kind::Group, Content::Group(group)) => is_key_of(&name.key, group.display_name().as_str()),
        _ => false,
    }
}

/// Whether an id may be the record's; any id may if none is known.
fn fits_id(known: &Known, id: &ResourceId) -> bool
    ensures { result ≡ spec.fits_id known.now.id id.now }
{
    match &known.id {
        None => true,
        Some(known) => known.as_str() == id.as_str(),
    }
}

/// The revision of a content, if it has one that isn't above the wanted one.
fn revision_within(known: &Known, content: &Content) -> Option<Revision>
    ensures value { result ≡ within known.now (content_revision content.now) }
    ensures lawful { IfSome result IsRevision }
    ensures within { IfSome result (λ revision. revision ≼ row_revision known.now.wanted) }
{
    match content.revision() {
        Some(revision) if !known.wanted.revision().is_before(revision) => Some(revision),
        _ => None,
    }
}

/// A shown resource that stands for a content as a sight of the record: it must have the record's name, its known
/// id, a revision up to the wanted one, and an entity tag.
fn fit(
    alloc: Global,
    name: &RecordName,
    known: &Known,
    content: &Content,
    shown: &Shown,
) -> Result<Sight, LearnFault>
    ensures gives { Gives LearnFault.Memory result
        (spec.fit name.now known.now (standing_for content.now shown.now)) }
    ensures fit { IfOk result (IsFit known.now) }
    ensures counted { IfErr result (λ fault. (n : ℕ) → CountsLearn n n fault) }
{
    if !is_named(name, content) || !fits_id(known, shown.id()) {
        return Err(LearnFault::Unfit);
    }
    let Some(revision) = revision_within(known, content) else {
        return Err(LearnFault::Unfit);
    };
    Ok(Sight {
        tag: tag_of(shown)?,
        id: shown.id().clone()?,
        revision,
    })
}

/// Whether this is the known id.
fn is_known(known: &Known, id: &ResourceId) -> bool
    ensures { (result ≡ true) ↔ (known.now.id ≡ Some id.now) }
{
    match &known.id {
        None => false,
        Some(known) => known.as_str() == id.as_str(),
    }
}

/// The news that the journal keeps too, from a resource that was seen and fits.
fn lasting(alloc: Global, known: &Known, sight: Sight, learnt: Learnt) -> Result<News, AllocError>
    requires fit { IsFit known.now sight }
    requires new { (known.now.id ≢ Some sight.id) ⊎ (known.now.confirmed ≺ sight.revision) }
    ensures gives { IfOk result (λ news. lesson_of known.now news ≡ record {
      known = learning (later known.now.confirmed sight.revision) sight.id
          (spec.seen_at sight) known.now;
      learnt = learnt;
    }) }
    ensures news { IfOk result (IsNewsOf known.now) }
{
    Ok(News::Lasting {
        confirmed: known.confirmed.later(sight.revision),
        id: sight.id.clone()?,
        seen: seen_at(sight),
        learnt,
    })
}

/// The news from a resource that was seen and fits.
fn sighted(alloc: Global, known: &Known, sight: Sight) -> Result<News, AllocError>
    requires { IsFit known.now sight }
    ensures gives { IfOk result (λ news. lesson_of known.now news
        ≡ spec.sighted known.now sight) }
    ensures news { IfOk result (IsNewsOf known.now) }
{
    if known.confirmed.is_before(sight.revision) {
        let learnt = Learnt::Confirmed(sight.revision);
        return lasting(alloc, known, sight, learnt);
    }
    if is_known(known, &sight.id) {
        return Ok(News::Passing {
            seen: seen_at(sight),
            is_doubted: false,
            learnt: Learnt::Seen,
        });
    }
    lasting(alloc, known, sight, Learnt::Seen)
}

fn seen_at(sight: Sight) -> Seen
    ensures { result ≡ spec.seen_at sight }
{
    let Sight { id, revision, tag } = sight;
    Seen::At { id, tag, revision }
}

/// Whether a content is what is wanted of a record.
fn is_wanted(
    alloc: Global,
    book: &Book,
    known: &Known,
    content: &Content,
) -> Result<bool, AllocError>
    ensures { IfOk result (λ is. is ≡ spec.is_wanted (book_of book.now) known.now content.now) }
{
    match row_content(alloc, &known.wanted, book) {
        Ok(image) => Ok(is_as_wanted(&image, content)),
        Err(ImageFault::MemberWithoutId { .. }) => Ok(false),
        Err(ImageFault::Memory) => Err(AllocError),
    }
}

/// The revision that a content shows, or none.
fn shown_revision(content: &Content) -> Revision
    ensures { result ≡ spec.shown_revision content.now }
{
    match content.revision() {
        Some(revision) => revision,
        None => Revision::none(),
    }
}

/// The entity tag of a resource.
fn tag_of(shown: &Shown) -> Result<EntityTag, LearnFault>
    ensures gives { Gives LearnFault.Memory result
        (spec.or_fault LearnFault.Unversioned shown.now.version) }
    ensures counted { IfErr result (λ fault. (n : ℕ) → CountsLearn n n fault) }
{
    match shown.version() {
        Some(tag) => Ok(tag.clone()?),
        None => Err(LearnFault::Unversioned),
    }
}

/// A shown resource that stands for a content that isn't as it is wanted as a sight of the record: it must have the
/// record's name, a revision up to the wanted one or none, and an entity tag.
fn fit_differing(
    alloc: Global,
    name: &RecordName,
    known: &Known,
    content: &Content,
    shown: &Shown,
) -> Result<Sight, LearnFault>
    ensures gives { Gives LearnFault.Memory result
        (spec.fit_differing name.now known.now (standing_for content.now shown.now)) }
    ensures counted { IfErr result (λ fault. (n : ℕ) → CountsLearn n n fault) }
{
    let revision = shown_revision(content);
    if !is_named(name, content) || known.wanted.revision().is_before(revision) {
        return Err(LearnFault::Unfit);
    }
    Ok(Sight {
        tag: tag_of(shown)?,
        id: shown.id().clone()?,
        revision,
    })
}

/// The news from a resource that was seen and confirms nothing: the record stays in doubt if it is.
fn differing(known: &Known, sight: Sight) -> News
    ensures gives { lesson_of known.now result ≡ spec.differing known.now sight }
    ensures news { IsNewsOf known.now result }
{
    News::Passing {
        seen: seen_at(sight),
        is_doubted: known.is_doubted,
        learnt: Learnt::Seen,
    }
}

/// The news about a doubted record from a shown resource that stands for a content.
fn compared(
    alloc: Global,
    agrees: bool,
    name: &RecordName,
    known: &Known,
    content: &Content,
    shown: &Shown,
) -> Result<News, LearnFault>
    ensures gives { GivesBy (lesson_of known.now) LearnFault.Memory result
        (spec.compared agrees name.now known.now (standing_for content.now shown.now)) }
    ensures news { IfOk result (IsNewsOf known.now) }
    ensures counted { IfErr result (λ fault. (n : ℕ) → CountsLearn n n fault) }
{
    if agrees {
        let sight = Sight {
            tag: tag_of(shown)?,
            id: shown.id().clone()?,
            revision: known.wanted.revision(),
        };
        return Ok(sighted(alloc, known, sight)?);
    }
    let sight = fit_differing(alloc, name, known, content, shown)?;
    Ok(differing(known, sight))
}

/// The news from a shown resource that stands for a content.
fn shown_as(
    alloc: Global,
    book: &Book,
    name: &RecordName,
    known: &Known,
    content: &Content,
    shown: &Shown,
) -> Result<News, LearnFault>
    ensures gives { GivesBy (lesson_of known.now) LearnFault.Memory result
        (spec.shown_lesson (book_of book.now) name.now known.now (standing_for content.now shown.now)) }
    ensures news { IfOk result (IsNewsOf known.now) }
    ensures counted { IfErr result (λ fault. (n : ℕ) → CountsLearn n n fault) }
{
    if known.is_doubted {
        let agrees = is_wanted(alloc, book, known, content)?;
        return compared(alloc, agrees, name, known, content, shown);
    }
    let sight = fit(alloc, name, known, content, shown)?;
    Ok(sighted(alloc, known, sight)?)
}

/// Whether a shown resource has the record's name, and is active if the content is that was asked for.
fn says(name: &RecordName, content: &Content, shown: &Shown) -> bool
    ensures { result ≡ says name.now content.now shown.now }
{
    is_named(name, shown.content()) && is_active(content) == is_active(shown.content())
}

/// The same news, but nothing is in sight.
fn unseen(known: &Known, news: News) -> News
    requires { IsNewsOf known.now news }
    ensures gives { lesson_of known.now result ≡ unseen (lesson_of known.now news) }
    ensures news { IsNewsOf known.now result }
{
    let was_doubted = known.is_doubted;
    match news {
        News::Lasting {
            confirmed,
            id,
            seen,
            learnt,
        } => {
            drop(seen);
            News::Lasting {
                confirmed,
                id,
                seen: Seen::Unknown,
                learnt,
            }
        }
        News::Passing {
            seen,
            is_doubted,
            learnt,
        } => {
            drop(seen);
            News::Passing {
                seen: Seen::Unknown,
                is_doubted,
                learnt,
            }
        }
        News::Nothing => News::Passing {
            seen: Seen::Unknown,
            is_doubted: was_doubted,
            learnt: Learnt::Nothing,
        },
    }
}

/// The news from a shown resource without an entity tag that stands for a content: what is learnt under the tag that is
/// taken if none is shown, but the resource isn't in sight.
fn untagged_as(
    alloc: Global,
    book: &Book,
    name: &RecordName,
    known: &Known,
    content: &Content,
    shown: &Shown,
) -> Result<News, LearnFault>
    requires { shown.now.version ≡ None }
    ensures gives { GivesBy (lesson_of known.now) LearnFault.Memory result
        (lesson_under None (book_of book.now) name.now known.now (standing_for content.now shown.now)) }
    ensures news { IfOk result (IsNewsOf known.now) }
    ensures counted { IfErr result (λ fault. (n : ℕ) → CountsLearn n n fault) }
{
    let untagged = Shown::without_tag(alloc, shown.id(), content.clone()?)?;
    let tagged = untagged.under_version(alloc, NO_VERSION)?;
    let news = shown_as(alloc, book, name, known, content, &tagged)?;
    Ok(unseen(known, news))
}

/// The news from a resource that the answer to a creation or a replacement shows without its revision: it stands for
/// the content that was asked for.
fn asked(
    alloc: Global,
    book: &Book,
    name: &RecordName,
    known: &Known,
    content: &Content,
    shown: &Shown,
) -> Result<News, LearnFault>
    ensures gives { GivesBy (lesson_of known.now) LearnFault.Memory result
        (asked_lesson (book_of book.now) name.now known.now content.now shown.now) }
    ensures news { IfOk result (IsNewsOf known.now) }
    ensures counted { IfErr result (λ fault. (n : ℕ) → CountsLearn n n fault) }
{
    if !says(name, content, shown) {
        return Err(LearnFault::Unfit);
    }
    match shown.version() {
        Some(_) => shown_as(alloc, book, name, known, content, shown),
        None => untagged_as(alloc, book, name, known, content, shown),
    }
}

/// The news from a resource that a search shows without its revision: it is only seen.
fn only_seen(
    alloc: Global,
    name: &RecordName,
    known: &Known,
    shown: &Shown,
) -> Result<News, LearnFault>
    ensures gives { GivesBy (lesson_of known.now) LearnFault.Memory result
        (only_seen name.now known.now shown.now) }
    ensures news { IfOk result (IsNewsOf known.now) }
    ensures counted { IfErr result (λ fault. (n : ℕ) → CountsLearn n n fault) }
{
    if !is_named(name, shown.content()) {
        return Err(LearnFault::Unfit);
    }
    let sight = Sight {
        tag: tag_of(shown)?,
        id: shown.id().clone()?,
        revision: Revision::none(),
    };
    Ok(differing(known, sight))
}

/// The news from a resource that the answer to a request shows without its revision.
fn unshown(
    alloc: Global,
    book: &Book,
    name: &RecordName,
    known: &Known,
    request: &Request,
    shown: &Shown,
) -> Result<News, LearnFault>
    ensures gives { GivesBy (lesson_of known.now) LearnFault.Memory result
        (unshown_lesson (book_of book.now) name.now known.now (carried request.now) shown.now) }
    ensures news { IfOk result (IsNewsOf known.now) }
    ensures counted { IfErr result (λ fault. (n : ℕ) → CountsLearn n n fault) }
{
    match request {
        Request::Create { content } => asked(alloc, book, name, known, content, shown),
        Request::Replace { content, .. } => asked(alloc, book, name, known, content, shown),
        Request::Retrieve { .. } => only_seen(alloc, name, known, shown),
        Request::Search { .. } => only_seen(alloc, name, known, shown),
    }
}

/// The news from a resource that the answer to a request shows.
pub(crate) fn shown(
    alloc: Global,
    keeps: Keeps,
    book: &Book,
    name: &RecordName,
    known: &Known,
    request: &Request,
    shown: &Shown,
) -> Result<News, LearnFault>
    ensures gives { GivesBy (lesson_of known.now) LearnFault.Memory result
        (lesson_at keeps (book_of book.now) name.now known.now (carried request.now) (spec.Shows shown.now)) }
    ensures news { IfOk result (IsNewsOf known.now) }
    ensures counted { IfErr result (λ fault. (n : ℕ) → CountsLearn n n fault) }
{
    match keeps {
        Keeps::Revisions => shown_as(alloc, book, name, known, shown.content(), shown),
        Keeps::Versions => unshown(alloc, book, name, known, request, shown),
    }
}
