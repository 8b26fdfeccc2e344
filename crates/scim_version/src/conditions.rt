//! The conditions of a request (RFC 7232 sections 3.1 and 3.2).
ghost use Rattle.std.specs.Prelude.{◌≡◌, IfOk, List, ℕ, map};
ghost use Rattle.scim_key.specs.Outcome.{Gives, GivesBy};
ghost use Rattle.scim_version.specs.Conditions.{Spells, condition_of, has_version, has_version_weakly, holds_match, holds_none_match, is_star, tags_from};
ghost use Rattle.scim_version.specs.declared.conditions.Condition.{Condition};

use crate::lists::elements_of;
use crate::tags::{EntityTag, TagFault};
use std::alloc::Global;
use std::marker::Model;

/// A list of entity tags.
#[derive(Drop)]
pub struct TagList {
    tags: Vec<EntityTag>,
}

impl Model for TagList {
    ghost use Rattle.std.specs.Prelude.{List, ℕ};

    ghost Value = { List (List ℕ) };

    ghost view = { λ list. list.tags.items };
}

/// The condition of an `If-Match` or `If-None-Match` field; `Always` if the request has no such field.
#[derive(Drop)]
pub enum Condition {
    Always,
    AnyTag,
    Tags(TagList),
}

impl TagList {
    pub fn from_vec(tags: Vec<EntityTag>) -> TagList
        ensures { result ≡ tags.items }
    {
        TagList { tags }
    }

    pub fn as_slice(&self) -> &[EntityTag]
        ensures { result.now ≡ self.now }
    {
        self.tags.as_slice()
    }

    /// Whether some tag is strongly equal to the tag of a version.
    #[tactic(auto, unfolding(crate::specs::Conditions::has_version))]
    fn has_version(&self, version: u64) -> bool
        ensures { result ≡ has_version self.now version }
    {
        self.tags.iter().any(|tag| tag.is_of_version(version))
    }

    /// Whether some tag is weakly equal to the tag of a version.
    #[tactic(auto, unfolding(crate::specs::Conditions::has_version_weakly))]
    fn has_version_weakly(&self, version: u64) -> bool
        ensures { result ≡ has_version_weakly self.now version }
    {
        self.tags
            .iter()
            .any(|tag| tag.is_weakly_of_version(version))
    }
}

/// Whether `*` is the only element.
#[tactic(auto, unfolding(crate::specs::Conditions::is_star))]
fn is_star_alone(elements: &[&[u8]]) -> bool
    ensures { result ≡ is_star (map (λ e. e.now) elements.now) }
{
    matches!(elements, [only] if *only == b"*".as_slice())
}

/// Reads each of these texts as a tag.
#[tactic(auto, unfolding(crate::specs::Conditions::tags_from))]
fn tags_of(alloc: Global, texts: &[&[u8]]) -> Result<Vec<EntityTag>, TagFault>
    ensures { GivesBy (λ tags. tags.items) TagFault.Memory result
        (tags_from (map (λ e. e.now) texts.now)) }
{
    let mut tags = Vec::new(alloc);
    for text in texts {
        tags.push(EntityTag::read(alloc, text)?)?;
    }
    Ok(tags)
}

/// Reads the elements of a list as a condition.
#[tactic(auto, unfolding(crate::specs::Conditions::condition_of, crate::specs::Conditions::condition_from))]
fn condition_in(alloc: Global, text: &[u8]) -> Result<Condition, TagFault>
    ensures { Gives TagFault.Memory result (condition_of text.now) }
{
    let elements = elements_of(alloc, text)?;
    if elements.is_empty() {
        return Err(TagFault::Malformed);
    }
    if is_star_alone(&elements) {
        return Ok(Condition::AnyTag);
    }
    let tags = tags_of(alloc, &elements)?;
    Ok(Condition::Tags(TagList::from_vec(tags)))
}

impl Condition {
    /// Reads the field `If-Match` or `If-None-Match`, its lines joined by commas. A field of another form,
    /// a list without tags, or `*` beside a tag is `Malformed`.
    pub fn read_list(alloc: Global, bytes: &[u8]) -> Result<Condition, TagFault>
        // The text spells the condition that was read.
        ensures found { IfOk result (λ condition. Spells bytes.now condition) }
        // A condition that the text spells is read, unless memory runs out.
        ensures only { (condition : Condition) → Spells bytes.now condition
            → Gives TagFault.Memory result (Ok condition) }
        ensures exact { Gives TagFault.Memory result (condition_of bytes.now) }
    {
        condition_in(alloc, bytes)
    }

    /// Whether `If-Match` holds for a resource at its current version, or for no resource.
    pub fn holds_match(&self, version: Option<u64>) -> bool
        ensures { result ≡ holds_match self.now version }
    {
        match (self, version) {
            (Condition::Always, _) => true,
            (_, None) => false,
            (Condition::AnyTag, Some(_)) => true,
            (Condition::Tags(list), Some(version)) => list.has_version(version),
        }
    }

    /// Whether `If-None-Match` holds for a resource at its current version, or for no resource.
    pub fn holds_none_match(&self, version: Option<u64>) -> bool
        ensures { result ≡ holds_none_match self.now version }
    {
        match (self, version) {
            (Condition::Always, _) => true,
            (_, None) => true,
            (Condition::AnyTag, Some(_)) => false,
            (Condition::Tags(list), Some(version)) => !list.has_version_weakly(version),
        }
    }
}
