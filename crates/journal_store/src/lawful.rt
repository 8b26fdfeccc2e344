//! What the entries of a journal must be when it is opened.
ghost use Rattle.std.specs.Prelude.{◌≡◌, false, IfErr, IfOk, OnOk, IsTrue};
ghost use Rattle.std.specs.List.{AllByRecursion, list_all};
ghost use Rattle.sqlite_rules.specs.Lists.{Has};
ghost use Rattle.journal_store.specs.Opening.{AreInOrder, AreLawful, HasMembersOf, IsFor, OpenFailsFor, is_identified, keys_of};

use crate::opening::JournalOpenFault;
use journal_core::{Entry, GROUP_LIMIT, USER_LIMIT};
use scim_key::{Key, RecordName, Revision};
use source_csv::Row as SourceRow;
use std::alloc::{AllocError, Global};

/// Whether the record has an id, or nothing is confirmed of it.
fn is_identified(entry: &Entry) -> bool
    ensures { result ≡ is_identified entry.now }
{
    entry.confirmed == Revision::none() || entry.id.is_some()
}

fn are_identified(entries: &[Entry]) -> bool
    ensures { result ≡ list_all is_identified entries.now }
{
    entries.iter().all(|entry| is_identified(entry))
}

/// The keys of the entries' records, in order.
fn keys_of(alloc: Global, entries: &[Entry]) -> Result<Vec<Key>, AllocError>
    ensures { IfOk result (λ keys. keys.items ≡ keys_of entries.now) }
{
    let mut keys = Vec::new(alloc);
    for entry in entries {
        let RecordName { kind: _, key } = entry.row.record_name(alloc)?;
        keys.push(key)?;
    }
    Ok(keys)
}

/// Whether the key is among these, which are in order.
fn is_among(keys: &[Key], key: &Key) -> bool
    ensures is { IsTrue result → Has keys.now key.now }
    ensures not { result ≡ false → AreInOrder keys.now → Has keys.now key.now → ⊥ }
{
    keys.binary_search(key).is_ok()
}

fn are_among(keys: &[Key], members: &[Key]) -> bool
    ensures are { IsTrue result → AllByRecursion (Has keys.now) members.now }
    ensures not { result ≡ false → AreInOrder keys.now → AllByRecursion (Has keys.now) members.now
        → ⊥ }
{
    for member in members {
        if !is_among(keys, member) {
            return false;
        }
    }
    true
}

/// Whether each member of a group is a user with one of these keys.
fn has_members(keys: &[Key], group: &Entry) -> bool
    ensures has { IsTrue result → HasMembersOf keys.now group.now }
    ensures not { result ≡ false → AreInOrder keys.now → HasMembersOf keys.now group.now → ⊥ }
{
    match &group.row {
        SourceRow::User(_) => true,
        SourceRow::Group(row) => are_among(keys, row.members()),
    }
}

fn have_members(keys: &[Key], groups: &[Entry]) -> bool
    ensures have { IsTrue result → AllByRecursion (HasMembersOf keys.now) groups.now }
    ensures not { result ≡ false → AreInOrder keys.now
        → AllByRecursion (HasMembersOf keys.now) groups.now → ⊥ }
{
    for group in groups {
        if !has_members(keys, group) {
            return false;
        }
    }
    true
}

/// Checks the entries of both types, which are in order of their keys.
pub(crate) fn check_lists(
    alloc: Global,
    users: &[Entry],
    groups: &[Entry],
) -> Result<(), JournalOpenFault>
    ensures lawful { OnOk result (AreLawful users.now groups.now) }
    ensures cause { IfErr result (IsFor ⊥ (AreInOrder (keys_of users.now)
        → AreLawful users.now groups.now → ⊥)) }
    ensures failed { IfErr result (OpenFailsFor ⊥) }
{
    if users.len() > USER_LIMIT || groups.len() > GROUP_LIMIT {
        return Err(JournalOpenFault::Damaged);
    }
    if !are_identified(users) || !are_identified(groups) {
        return Err(JournalOpenFault::Damaged);
    }
    let keys = keys_of(alloc, users)?;
    if !have_members(keys.as_slice(), groups) {
        return Err(JournalOpenFault::Damaged);
    }
    Ok(())
}
