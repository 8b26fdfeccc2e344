//! Revisions of the source.
ghost use Rattle.std.specs.Prelude.{◌≡◌, IfSome, Some};
ghost use Rattle.std.specs.Char.{is_ascii_digit};
ghost use Rattle.std.specs.List.{list_all};
ghost use Rattle.std.specs.Cmp.{partial_equiv_from_equiv};
ghost use Rattle.scim_key.specs.RevisionOrder.{revisions_equal};
ghost use Rattle.scim_key.specs.Revisions.{before, confirmed_of_parts, later, next_revision, no_revision, numeral_value, read_revision, revision_epoch, revision_number, revision_of_parts, revision_text, same_revision, IsOrder, IsRevision, NextsFollow, RevisionsAreReadBack};
ghost use Rattle.scim_key.specs.Revisions as spec;

use std::fmt;
use std::marker::Model;

/// The greatest epoch that a revision may have.
pub const LAST_EPOCH: u32 = 999_999;

/// The greatest number that a revision may have.
pub const LAST_REVISION: u32 = 2_000_000_000;

/// The most digits that the epoch and the number of a text each may have, leading zeros included.
pub const REVISION_DIGITS: usize = 18;

/// A revision of a record of the source, or none. It has an epoch and a number; a source that counts anew raises
/// the epoch. Revisions are ordered by epoch, then by number. "None" comes before all others.
#[derive(Clone, Copy)]
pub struct Revision {
    epoch: u32,
    number: u32,
}

impl Model for Revision {
    ghost use Rattle.scim_key.specs.Revisions.{IsNoneOrRevision, RevisionValue};

    ghost Value = { RevisionValue };

    ghost view = { λ r. record { epoch = r.epoch; number = r.number } };

    ghost invariant = { λ r. IsNoneOrRevision (record { epoch = r.epoch; number = r.number }) };

    ghost inverse = { λ r. record { epoch = r.epoch; number = r.number } };
}

impl PartialEq for Revision {
    ghost eq = { same_revision };

    ghost laws = { partial_equiv_from_equiv revisions_equal };

    #[tactic(auto, unfolding(crate::specs::Revisions::same_revision))]
    fn eq(&self, other: &Revision) -> bool {
        self.epoch == other.epoch && self.number == other.number
    }
}

impl Eq for Revision {
    ghost laws = { revisions_equal };
}

/// `N`, or `E:N` if the epoch isn't 0: decimal digits without leading zeros; `0` for none.
impl fmt::Display for Revision {
    ghost output = { λ r. Some (revision_text r) };

    #[tactic(auto, unfolding(crate::specs::Revisions::revision_text))]
    fn fmt<W: fmt::Write>(&self, f: &mut fmt::Formatter<W>) -> fmt::Result {
        if self.epoch == 0 {
            write!(f, "{}", self.number)
        } else {
            write!(f, "{}:{}", self.epoch, self.number)
        }
    }
}

/// Whether a text is 1 to 18 digits.
fn is_numeral(text: &str) -> bool
    ensures { result ≡ spec.is_numeral text.now }
{
    !text.is_empty() && text.len() <= REVISION_DIGITS && are_digits(text.as_bytes())
}

fn are_digits(bytes: &[u8]) -> bool
    ensures { result ≡ list_all is_ascii_digit bytes.now }
{
    bytes.iter().all(|b| b.is_ascii_digit())
}

/// The value of a text of 1 to 18 digits.
fn numeral(text: &str) -> Option<u64>
    ensures { result ≡ numeral_value text.now }
{
    if is_numeral(text) {
        text.parse().ok()
    } else {
        None
    }
}

/// The texts of the epoch and of the number; without a colon the epoch is 0.
fn spelled_parts(text: &str) -> (&str, &str)
    ensures { (result.0.now, result.1.now) ≡ spec.spelled_parts text.now }
{
    text.split_once(':').unwrap_or(("0", text))
}

impl Revision {
    /// No revision.
    #[tactic(auto, unfolding(crate::specs::Revisions::no_revision))]
    pub fn none() -> Revision
        ensures { result ≡ no_revision }
    {
        Revision {
            epoch: 0,
            number: 0,
        }
    }

    /// The revision with this epoch, of at most `LAST_EPOCH`, and this number, from 1 to `LAST_REVISION`.
    #[tactic(auto, unfolding(crate::specs::Revisions::is_revision, crate::specs::Revisions::revision_of_parts))]
    pub fn of_parts(epoch: u64, number: u64) -> Option<Revision>
        ensures exact { result ≡ revision_of_parts epoch number }
        ensures lawful { IfSome result IsRevision }
    {
        if epoch <= LAST_EPOCH as u64 && number >= 1 && number <= LAST_REVISION as u64 {
            Some(Revision {
                epoch: epoch as u32,
                number: number as u32,
            })
        } else {
            None
        }
    }

    /// The same, or none for epoch 0 and number 0.
    #[tactic(auto, unfolding(crate::specs::Revisions::confirmed_of_parts, crate::specs::Revisions::no_revision, crate::specs::Revisions::same_revision))]
    pub fn confirmed_of_parts(epoch: u64, number: u64) -> Option<Revision>
        ensures exact { result ≡ confirmed_of_parts epoch number }
    {
        if epoch == 0 && number == 0 {
            Some(Revision::none())
        } else {
            Revision::of_parts(epoch, number)
        }
    }

    /// Reads a revision of a source file: `N` or `E:N`, each 1 to 18 digits, leading zeros allowed, with an epoch
    /// of at most `LAST_EPOCH` and a number from 1 to `LAST_REVISION`. `N` is `0:N`.
    #[tactic(auto, unfolding(crate::specs::Revisions::read_revision))]
    pub fn read(text: &str) -> Option<Revision>
        ensures exact { result ≡ read_revision text.now }
        ensures lawful { IfSome result IsRevision }
    {
        let (epoch, number) = spelled_parts(text);
        Revision::of_parts(numeral(epoch)?, numeral(number)?)
    }

    /// The epoch of this revision; 0 for none.
    #[tactic(auto, unfolding(crate::specs::Revisions::revision_epoch))]
    pub fn epoch(self) -> u32
        ensures { result ≡ revision_epoch self }
    {
        self.epoch
    }

    /// The number of this revision in its epoch; 0 for none.
    #[tactic(auto, unfolding(crate::specs::Revisions::revision_number))]
    pub fn number(self) -> u32
        ensures { result ≡ revision_number self }
    {
        self.number
    }

    /// Whether this revision comes before the other.
    #[tactic(auto, unfolding(crate::specs::Revisions::before))]
    pub fn is_before(self, other: Revision) -> bool
        ensures { result ≡ before self other }
    {
        self.epoch < other.epoch || (self.epoch == other.epoch && self.number < other.number)
    }

    /// The revision after this one: the next number of its epoch, or number 1 of the next epoch after
    /// `LAST_REVISION`. There is none after the last revision of `LAST_EPOCH`. After none comes 1.
    #[tactic(auto, unfolding(crate::specs::Revisions::next_revision))]
    pub fn next(self) -> Option<Revision>
        ensures exact { result ≡ next_revision self }
        ensures lawful { IfSome result IsRevision }
    {
        if self.number < LAST_REVISION {
            Revision::of_parts(self.epoch as u64, self.number as u64 + 1)
        } else {
            Revision::of_parts(self.epoch as u64 + 1, 1)
        }
    }

    /// The later of the two revisions.
    #[tactic(auto, unfolding(crate::specs::Revisions::later))]
    pub fn later(self, other: Revision) -> Revision
        ensures { result ≡ later self other }
    {
        if self.is_before(other) { other } else { self }
    }
}

/// Revisions are totally ordered, none comes first, and there are at most `LAST_EPOCH` + 1 times
/// `LAST_REVISION` of them.
pub fn revisions_are_ordered()
    ensures { IsOrder }
{}

/// A valid revision, once written, is read back as itself.
pub fn revisions_are_read_back()
    ensures { RevisionsAreReadBack }
{}

/// The revision that `next` gives comes after the one before, no revision is between the two, and only the very
/// last one has none.
pub fn next_revisions_follow()
    ensures { NextsFollow }
{}
