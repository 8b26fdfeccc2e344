//! The next request for a record.
ghost use Rattle.std.specs.Prelude.{◌≡◌, IfOk, is_none};
ghost use Rattle.std.specs.List.{position_from};
ghost use Rattle.std.specs.Option.{ok_or};
ghost use Rattle.scim_key.specs.Outcome.{Gives};
ghost use Rattle.mapping.specs.Images.{imaged};
ghost use Rattle.connector_core.specs.History.{user};
ghost use Rattle.connector_core.specs.Asking.{asking, is_done, is_done_at, replacement, request_for, requested, search_for};
ghost use Rattle.connector_core.specs.Book.{known_id};
ghost use Rattle.connector_core.specs.Maps.{book_of};

use crate::books::Book;
use crate::changing::member_at;
use crate::connectors::Connector;
use crate::knowledge::{Known, Seen};
use journal_core::Journal;
use mapping::{Ids, ImageFault, row_content};
use scim_filter::Filter;
use scim_key::{Key, Kind, RecordName, ResourceId};
use scim_message::Request;
use scim_resource::Content;
use scim_version::{Condition, EntityTag, TagList};
use source_csv::{GroupRow, Row};
use std::alloc::{AllocError, Global};
use thiserror::Error;

/// The most exchanges that one record takes: a search, a creation or a replacement, and one more if somebody else was
/// faster.
pub const MOST_EXCHANGES: u32 = 3;

/// What the connector asks for next for a record.
#[derive(Drop)]
pub enum Ask {
    /// Nothing: the wanted revision is confirmed, and isn't doubted.
    Nothing,
    /// Nothing yet: this member, the first by key, has no id.
    Waits(Key),
    /// This request.
    Send(Request),
}

/// Why the connector can't say what it asks for.
#[derive(Clone, Copy, Debug, Error)]
pub enum AskFault {
    /// The source gave no row of this record.
    #[error("C7")]
    NoSuchRecord,
    #[error("C6")]
    Memory,
}

impl From<AllocError> for AskFault {
    ghost use Rattle.connector_core.specs.declared.asking.AskFault.TheVariants.{Memory};

    ghost from_gives = { λ _ fault. fault ≡ Memory };

    fn from(_: AllocError) -> AskFault {
        AskFault::Memory
    }
}

/// The ids of the users of the book.
impl Ids for Book {
    ghost id_of = { λ book. known_id (book_of book) };

    fn id(&self, key: &Key) -> Option<&ResourceId> {
        match self.user(key) {
            Some(known) => known.id.as_ref(),
            None => None,
        }
    }
}

/// The ids of the users of the connector.
impl<J: Journal> Ids for Connector<J> {
    ghost id_of = { λ connector. known_id (book_of connector.book) };

    fn id(&self, key: &Key) -> Option<&ResourceId> {
        self.book.id(key)
    }
}

/// The search for the resource with the name of a row, as the row spells it.
pub fn search_for(alloc: Global, row: &Row) -> Result<Request, AllocError>
    ensures { IfOk result (λ request. request ≡ search_for row.now) }
{
    let (kind, filter) = match row {
        Row::User(row) => (Kind::User, Filter::eq_user_name(alloc, row.login())?),
        Row::Group(row) => (Kind::Group, Filter::eq_display_name(alloc, row.name())?),
    };
    Ok(Request::Search {
        kind,
        filter: Some(filter),
        start: 1,
        count: None,
    })
}

/// The replacement of the version with this tag, and of no other version.
fn replacement(
    alloc: Global,
    id: &ResourceId,
    tag: &EntityTag,
    content: Content,
) -> Result<Request, AllocError>
    ensures { IfOk result (λ request. request ≡ replacement id.now tag.now content) }
{
    let mut tags = Vec::with_capacity(alloc, 1)?;
    tags.push(tag.clone()?)?;
    Ok(Request::Replace {
        id: id.clone()?,
        content,
        if_match: Condition::Tags(TagList::from_vec(tags)),
        if_none_match: Condition::Always,
    })
}

/// The place, from 0, of the first of a group's members whose user has no id.
fn place_without_id(book: &Book, row: &GroupRow) -> Option<usize>
    ensures { result
        ≡ position_from
        (λ key. is_none (known_id (book_of book.now) (user key))) 0 row.now.members }
{
    row.members().iter().position(|key| book.id(key).is_none())
}

/// The search for a row's resource, if the row has an image. It makes no image.
fn search_if_ready(alloc: Global, book: &Book, row: &Row) -> Result<Request, ImageFault>
    ensures { Gives ImageFault.Memory result
        (requested (λ _. search_for row.now) (imaged (known_id (book_of book.now)) row.now)) }
{
    if let Row::Group(group) = row
        && let Some(place) = place_without_id(book, group)
    {
        return Err(ImageFault::MemberWithoutId { place });
    }
    Ok(search_for(alloc, row)?)
}

/// The request for a record that isn't done, by what was seen of it, if its row has an image.
fn request_for(alloc: Global, book: &Book, known: &Known) -> Result<Request, ImageFault>
    ensures { Gives ImageFault.Memory result
        (requested (request_for known.now.seen known.now.wanted)
        (imaged (known_id (book_of book.now)) known.now.wanted)) }
{
    match &known.seen {
        Seen::Unknown => search_if_ready(alloc, book, &known.wanted),
        Seen::Absent => Ok(Request::Create {
            content: row_content(alloc, &known.wanted, book)?,
        }),
        Seen::At { id, tag, .. } => {
            let content = row_content(alloc, &known.wanted, book)?;
            Ok(replacement(alloc, id, tag, content)?)
        }
    }
}

/// Whether the wanted revision is confirmed, and isn't doubted.
fn is_done(known: &Known) -> bool
    ensures { result ≡ is_done known.now }
{
    !known.is_doubted && known.confirmed == known.wanted.revision()
}

impl<J: Journal> Connector<J> {
    /// Whether nothing is asked for a record: its wanted revision is confirmed, and isn't doubted.
    pub fn is_done(&self, name: &RecordName) -> bool
        ensures { result ≡ is_done_at (book_of self.now.book) name.now }
    {
        match self.book.get(name) {
            Some(known) => is_done(known),
            None => false,
        }
    }

    /// What the connector asks for next for a record. It writes nothing and changes nothing.
    pub fn ask(&self, name: &RecordName) -> Result<Ask, AskFault>
        ensures { Gives AskFault.Memory result
            (ok_or (asking (book_of self.now.book) name.now) AskFault.NoSuchRecord) }
    {
        let Some(known) = self.book.get(name) else {
            return Err(AskFault::NoSuchRecord);
        };
        if is_done(known) {
            return Ok(Ask::Nothing);
        }
        match request_for(self.alloc, &self.book, known) {
            Ok(request) => Ok(Ask::Send(request)),
            Err(ImageFault::MemberWithoutId { place }) => {
                Ok(Ask::Waits(member_at(self.alloc, &known.wanted, place)?))
            }
            Err(ImageFault::Memory) => Err(AskFault::Memory),
        }
    }
}
