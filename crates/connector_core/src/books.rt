//! The book: what is known about each record, under its name.
ghost use Rattle.std.specs.Prelude.{◌≡◌, ◌++◌, IfOk, OnOk, OnErr, IsSome, Some, map};
ghost use Rattle.std.specs.BTreeMap.{IsOrdered, Updates, get as get_in, keys as keys_in};
ghost use Rattle.std.specs.FinMap.{empty, get, insert, keys, remove};
ghost use Rattle.std.specs.Option.{option_copied, option_map};
ghost use Rattle.journal_core.specs.Entries.{count_of};
ghost use Rattle.connector_core.specs.History.{user};
ghost use Rattle.connector_core.specs.Book.{learning, seeing, wanted_row, wanting_now};
ghost use Rattle.connector_core.specs.Maps.{book_of, changed};
ghost use Rattle.connector_core.specs.Trees.{key_cmp, of};

use crate::knowledge::{Known, Seen};
use scim_key::{Key, Kind, RecordName, ResourceId, Revision};
use source_csv::Row;
use std::alloc::{AllocError, AllocFailed, Global};
use std::collections::BTreeMap;
use std::marker::Model;
use std::mem::replace;

/// What is known about each record, under its name. Users and groups are separate, so that a member is
/// found by its key alone and each type is counted.
#[derive(Drop)]
pub(crate) struct Book {
    users: BTreeMap<Key, Known>,
    groups: BTreeMap<Key, Known>,
}

impl Model for Book {
    ghost use Rattle.std.specs.Coded.{codes};
    ghost use Rattle.std.specs.FinMap as fin;
    ghost use Rattle.connector_core.specs.Maps.{BookMap};
    ghost use Rattle.connector_core.specs.Trees.{book_in};

    ghost Value = { BookMap };

    ghost coded = { Prim.hlevel (codes, fin.code) };

    ghost view = { λ b. book_in b.users b.groups };
}

/// Sets another wanted row for an existing record, and gives the one before.
fn want(records: &mut BTreeMap<Key, Known>, key: &Key, row: Row) -> Option<Row>
    requires { IsSome (get_in key_cmp records.old key.now) }
    ensures updates { Updates key_cmp records.old records.new key.now
        (option_map (wanting_now row) (get_in key_cmp records.old key.now)) }
    ensures last { result
        ≡ option_map (λ known. known.wanted) (get_in key_cmp records.old key.now) }
{
    match records.get_mut(key) {
        Some(known) => Some(replace(&mut known.wanted, row)),
        None => None,
    }
}

/// Sets what was seen of an existing record, and whether it is doubted.
fn see(records: &mut BTreeMap<Key, Known>, key: &Key, seen: Seen, is_doubted: bool)
    requires { IsSome (get_in key_cmp records.old key.now) }
    ensures { Updates key_cmp records.old records.new key.now
        (option_map (seeing seen is_doubted) (get_in key_cmp records.old key.now)) }
{
    if let Some(known) = records.get_mut(key) {
        known.seen = seen;
        known.is_doubted = is_doubted;
    }
}

/// Sets what was learnt about an existing record.
fn learn(
    records: &mut BTreeMap<Key, Known>,
    key: &Key,
    confirmed: Revision,
    id: ResourceId,
    seen: Seen,
)
    requires { IsSome (get_in key_cmp records.old key.now) }
    ensures { Updates key_cmp records.old records.new key.now
        (option_map (learning confirmed id seen) (get_in key_cmp records.old key.now)) }
{
    if let Some(known) = records.get_mut(key) {
        known.confirmed = confirmed;
        known.id = Some(id);
        known.seen = seen;
        known.is_doubted = false;
    }
}

/// Appends the names of a tree's records to a list, in order.
fn push_names(
    names: &mut Vec<RecordName>,
    kind: Kind,
    known: &BTreeMap<Key, Known>,
) -> Result<(), AllocError>
    ensures names { OnOk result (names.new.items ≡ names.old.items
        ++ map (of kind) (keys_in known.now)) }
    ensures ordered { IsOrdered key_cmp known.now }
{
    for key in known.keys() {
        names.push(RecordName {
            kind,
            key: key.clone()?,
        })?;
    }
    Ok(())
}

impl Book {
    /// A book without records.
    pub(crate) fn new(alloc: Global) -> Book
        ensures { result ≡ empty }
    {
        Book {
            users: BTreeMap::new(alloc),
            groups: BTreeMap::new(alloc),
        }
    }

    /// What is known about a record. It allocates nothing.
    pub(crate) fn get(&self, name: &RecordName) -> Option<&Known>
        ensures { option_copied result ≡ get self.now name.now }
    {
        match name.kind {
            Kind::User => self.users.get(&name.key),
            Kind::Group => self.groups.get(&name.key),
        }
    }

    /// What is known about the user with this key. It allocates nothing.
    pub(crate) fn user(&self, key: &Key) -> Option<&Known>
        ensures { option_copied result ≡ get self.now (user key.now) }
    {
        self.users.get(key)
    }

    /// How many records of a type there are.
    pub(crate) fn count(&self, kind: Kind) -> usize
        ensures { result ≡ count_of kind (keys self.now) }
    {
        let users = self.users.len();
        let groups = self.groups.len();
        match kind {
            Kind::User => users,
            Kind::Group => groups,
        }
    }

    /// The names of the records, in order.
    pub(crate) fn names(&self, alloc: Global) -> Result<Vec<RecordName>, AllocError>
        ensures { IfOk result (λ names. names.items ≡ keys self.now) }
    {
        let mut names = Vec::new(alloc);
        push_names(&mut names, Kind::User, &self.users)?;
        push_names(&mut names, Kind::Group, &self.groups)?;
        Ok(names)
    }

    /// Puts what is known about a record, in place of what was there.
    pub(crate) fn put(
        &mut self,
        name: RecordName,
        known: Known,
    ) -> Result<(), AllocFailed<(Key, Known)>>
        ensures ok { OnOk result (self.new ≡ insert self.old name known) }
        ensures err { OnErr result (self.new ≡ self.old) }
    {
        let RecordName { kind, key } = name;
        match kind {
            Kind::User => {
                self.users.insert(key, known)?;
                Ok(())
            }
            Kind::Group => {
                self.groups.insert(key, known)?;
                Ok(())
            }
        }
    }

    /// Removes a record.
    pub(crate) fn take_out(&mut self, name: &RecordName)
        ensures { self.new ≡ remove self.old name.now }
    {
        match name.kind {
            Kind::User => {
                self.users.remove(&name.key);
            }
            Kind::Group => {
                self.groups.remove(&name.key);
            }
        }
    }

    /// Sets another wanted row for an existing record, and gives the one before. It allocates nothing.
    pub(crate) fn want(&mut self, name: &RecordName, row: Row) -> Option<Row>
        requires { IsSome (get self.old name.now) }
        ensures changed { self.new ≡ changed (wanting_now row) self.old name.now }
        ensures last { result ≡ wanted_row (book_of self.old) name.now }
    {
        match name.kind {
            Kind::User => want(&mut self.users, &name.key, row),
            Kind::Group => want(&mut self.groups, &name.key, row),
        }
    }

    /// Sets what was seen of an existing record, and whether it is doubted. It allocates nothing.
    pub(crate) fn see(&mut self, name: &RecordName, seen: Seen, is_doubted: bool)
        requires { IsSome (get self.old name.now) }
        ensures { self.new ≡ changed (seeing seen is_doubted) self.old name.now }
    {
        match name.kind {
            Kind::User => see(&mut self.users, &name.key, seen, is_doubted),
            Kind::Group => see(&mut self.groups, &name.key, seen, is_doubted),
        }
    }

    /// Sets what was learnt about an existing record. It allocates nothing.
    pub(crate) fn learn(
        &mut self,
        name: &RecordName,
        confirmed: Revision,
        id: ResourceId,
        seen: Seen,
    )
        requires { IsSome (get self.old name.now) }
        ensures { self.new ≡ changed (learning confirmed id seen) self.old name.now }
    {
        match name.kind {
            Kind::User => learn(&mut self.users, &name.key, confirmed, id, seen),
            Kind::Group => learn(&mut self.groups, &name.key, confirmed, id, seen),
        }
    }
}
