//! The columns of a result row, and the entry that they show.
ghost use Rattle.std.specs.Prelude.{◌≡◌, ◌≤◌, ◌+◌, ℕ, false, List, map, Option, None, Some, IfErr, IfOk, OnErr, OnOk, IsTrue};
ghost use Rattle.std.specs.List.{AllByRecursion};
ghost use Rattle.std.specs.Str.{IsUtf8};
ghost use Rattle.scim_key.specs.Revisions.{IsRevision};
ghost use Rattle.scim_key.specs.declared.records.Kind.TheVariants.{User, Group};
ghost use Rattle.sqlite_value.specs.Order.{column};
ghost use Rattle.sqlite_value.specs.Value.{owned};
ghost use Rattle.sqlite_value.specs.declared.value.Value.TheVariants.{Text};
ghost use Rattle.source_csv.specs.Fields.{pieces};
ghost use Rattle.source_csv.specs.Records.{IsRow, row_name};
ghost use Rattle.source_csv.specs.Rows.{AreUserKeys, IsUserKey};
ghost use Rattle.journal_store.specs.Connections.{Shows, ShowsNone, ShowsRest, ShowsSource};
ghost use Rattle.journal_store.specs.Faults.{HasCause, IsOfRow};
ghost use Rattle.journal_store.specs.declared.places.TheConstants.{KEY, USER_CONFIRMED};
ghost use Rattle.journal_store.specs.declared.statements.TableFault.TheVariants.{Damaged};
ghost use Rattle.journal_store.specs.Rows.{IsLawfulId, IsReadable, active_in, confirmed_in, group_in, id_in, revision_in, text_columns, texts_in, texts_of, user_in};

use crate::places::{
    ACTIVE, CONFIRMED_EPOCH, EPOCH, FIRST_TEXT, GROUP_CONFIRMED, ID, KEY, MEMBERS, NAME, REVISION,
    USER_CONFIRMED,
};
use crate::statements::TableFault;
use journal_core::Entry;
use scim_key::{GroupName, Key, Kind, ResourceId, Revision, UserName};
use source_csv::{FieldValue, GroupRow, Row as SourceRow, TEXT_FIELD_COUNT, UserRow};
use sql_tables::{number_at, text_at as bytes_at};
use sqlite::Row;
use sqlite_value::value::ValueRef;
use std::alloc::Global;
use std::{array, str};

fn text_at(row: &Row, at: usize) -> Result<&str, TableFault>
    ensures some { IfOk result (λ text. column row.now at ≡ Text text.now) }
    ensures utf8 { IfOk result (λ text. IsUtf8 text.now) }
    ensures none { OnErr result ((text : List ℕ) → column row.now at ≡ Text text → IsUtf8 text
        → ⊥) }
    ensures fault { IfErr result (λ fault. fault ≡ Damaged) }
{
    let Some(bytes) = bytes_at(row, at) else {
        return Err(TableFault::Damaged);
    };
    match str::from_utf8(bytes) {
        Ok(text) => Ok(text),
        Err(_) => Err(TableFault::Damaged),
    }
}

/// The value in a column. A column beyond the end is NULL.
fn cell_at(row: &Row, at: usize) -> ValueRef<'_>
    ensures { owned result ≡ column row.now at }
{
    match row.get_ref(at) {
        Ok(cell) => cell,
        Err(_) => ValueRef::Null,
    }
}

fn value_of(alloc: Global, cell: ValueRef<'_>) -> Result<FieldValue, TableFault>
    ensures some { IfOk result (λ value. owned cell.entry ≡ Text value) }
    ensures utf8 { IfOk result IsUtf8 }
    ensures none { IfErr result (HasCause ((text : List ℕ) → owned cell.entry ≡ Text text
        → IsUtf8 text → ⊥)) }
    ensures read { IfErr result IsOfRow }
{
    let ValueRef::Text(bytes) = cell else {
        return Err(TableFault::Damaged);
    };
    match str::from_utf8(bytes) {
        Ok(text) => Ok(FieldValue::new(String::from_str(alloc, text)?)),
        Err(_) => Err(TableFault::Damaged),
    }
}

/// The revision whose epoch and number are in these columns.
fn revision_at(row: &Row, epoch: usize, number: usize) -> Result<Revision, TableFault>
    ensures value { IfOk result
        (λ revision. revision_in (column row.now epoch) (column row.now number) ≡ Some revision) }
    ensures lawful { IfOk result (λ revision. IsRevision revision) }
    ensures none { OnErr result (revision_in (column row.now epoch) (column row.now number)
        ≡ None) }
    ensures fault { IfErr result (λ fault. fault ≡ Damaged) }
{
    let (Some(epoch), Some(number)) = (number_at(row, epoch), number_at(row, number)) else {
        return Err(TableFault::Damaged);
    };
    match Revision::of_parts(epoch, number) {
        Some(revision) => Ok(revision),
        None => Err(TableFault::Damaged),
    }
}

/// The confirmed revision whose epoch and number are in these columns; 0 and 0 mean none.
fn confirmed_at(row: &Row, epoch: usize, number: usize) -> Result<Revision, TableFault>
    ensures some { IfOk result
        (λ revision. confirmed_in (column row.now epoch) (column row.now number) ≡ Some revision) }
    ensures none { OnErr result (confirmed_in (column row.now epoch) (column row.now number)
        ≡ None) }
    ensures fault { IfErr result (λ fault. fault ≡ Damaged) }
{
    let (Some(epoch), Some(number)) = (number_at(row, epoch), number_at(row, number)) else {
        return Err(TableFault::Damaged);
    };
    match Revision::confirmed_of_parts(epoch, number) {
        Some(revision) => Ok(revision),
        None => Err(TableFault::Damaged),
    }
}

fn active_at(row: &Row, at: usize) -> Result<bool, TableFault>
    ensures some { IfOk result (λ active. active_in (column row.now at) ≡ Some active) }
    ensures none { OnErr result (active_in (column row.now at) ≡ None) }
    ensures fault { IfErr result (λ fault. fault ≡ Damaged) }
{
    match number_at(row, at) {
        Some(0) => Ok(false),
        Some(1) => Ok(true),
        _ => Err(TableFault::Damaged),
    }
}

/// The id; none if the column is NULL. A column beyond the end is NULL.
fn id_at(alloc: Global, row: &Row, at: usize) -> Result<Option<ResourceId>, TableFault>
    ensures some { IfOk result (λ id. id_in (column row.now at) ≡ Some id) }
    ensures lawful { IfOk result IsLawfulId }
    ensures none { IfErr result (HasCause ((id : Option (List ℕ))
        → id_in (column row.now at) ≡ Some id → IsLawfulId id → ⊥)) }
    ensures read { IfErr result IsOfRow }
{
    match row.get_ref(at) {
        Ok(ValueRef::Null) | Err(_) => Ok(None),
        Ok(_) => Ok(Some(ResourceId::read(alloc, text_at(row, at)?)?)),
    }
}

/// The key of a member, which is stored unchanged.
fn member_of(alloc: Global, text: &str) -> Result<Key, TableFault>
    ensures value { IfOk result (λ key. key ≡ text.now) }
    ensures lawful { IfOk result IsUserKey }
    ensures none { IfErr result (HasCause (IsUserKey text.now → ⊥)) }
    ensures read { IfErr result IsOfRow }
{
    let name = UserName::read(alloc, text)?;
    let key = name.key(alloc)?;
    if key.as_str() != text {
        return Err(TableFault::Damaged);
    }
    Ok(key)
}

/// The keys between the single spaces.
fn members_of(alloc: Global, text: &str) -> Result<Vec<Key>, TableFault>
    ensures value { IfOk result (λ keys. keys.items ≡ pieces text.now) }
    ensures lawful { IfOk result (λ keys. AreUserKeys keys.items) }
    ensures none { IfErr result (HasCause (AreUserKeys (pieces text.now) → ⊥)) }
    ensures read { IfErr result IsOfRow }
{
    let mut keys = Vec::new(alloc);
    if text.is_empty() {
        return Ok(keys);
    }
    for name in text.split(' ') {
        keys.push(member_of(alloc, name)?)?;
    }
    Ok(keys)
}

/// The values of the texts of a user, whose columns come after the revision.
#[tactic(auto, unfolding(crate::specs::Rows::text_columns))]
fn text_cells(row: &Row) -> [ValueRef<'_>; TEXT_FIELD_COUNT]
    ensures { map owned result ≡ text_columns row.now }
{
    array::from_fn(|at| cell_at(row, FIRST_TEXT + at))
}

fn texts_at(alloc: Global, row: &Row) -> Result<[FieldValue; TEXT_FIELD_COUNT], TableFault>
    ensures some { IfOk result (λ texts. texts_in row.now ≡ Some texts) }
    ensures utf8 { IfOk result (λ _. AllByRecursion IsReadable (text_columns row.now)) }
    ensures none { IfErr result (HasCause ((texts : List (List ℕ)) → texts_in row.now ≡ Some texts
        → AllByRecursion IsReadable (text_columns row.now) → ⊥)) }
    ensures read { IfErr result IsOfRow }
{
    text_cells(row).try_map(|cell| value_of(alloc, cell))
}

fn user_at(alloc: Global, row: &Row) -> Result<SourceRow, TableFault>
    ensures some { IfOk result (λ user. user_in row.now ≡ Some user) }
    ensures texts { OnOk result (AllByRecursion IsReadable (texts_of User row.now)) }
    ensures none { IfErr result (HasCause ((user : _) → ShowsSource User row.now user → ⊥)) }
    ensures read { IfErr result IsOfRow }
{
    let login = UserName::read(alloc, text_at(row, NAME)?)?;
    let revision = revision_at(row, USER_CONFIRMED + EPOCH, REVISION)?;
    let texts = texts_at(alloc, row)?;
    let active = active_at(row, ACTIVE)?;
    match UserRow::new(login, revision, texts, active) {
        Some(user) => Ok(SourceRow::User(user)),
        None => Err(TableFault::Damaged),
    }
}

fn group_at(alloc: Global, row: &Row) -> Result<SourceRow, TableFault>
    ensures some { IfOk result (λ group. group_in row.now ≡ Some group) }
    ensures texts { OnOk result (AllByRecursion IsReadable (texts_of Group row.now)) }
    ensures none { IfErr result (HasCause ((group : _) → ShowsSource Group row.now group → ⊥)) }
    ensures read { IfErr result IsOfRow }
{
    let name = GroupName::read(alloc, text_at(row, NAME)?)?;
    let revision = revision_at(row, GROUP_CONFIRMED + EPOCH, REVISION)?;
    let members = members_of(alloc, text_at(row, MEMBERS)?)?;
    match GroupRow::new(name, revision, members) {
        Some(group) => Ok(SourceRow::Group(group)),
        None => Err(TableFault::Damaged),
    }
}

/// Whether the first column has the key of the entry's record, which is of this type.
fn has_its_key(alloc: Global, kind: Kind, row: &Row, source: &SourceRow) -> Result<bool, TableFault>
    ensures key { IfOk result (λ is. IsTrue is
        → column row.now KEY ≡ Text (row_name source.now).key) }
    ensures kind { IfOk result (λ is. IsTrue is → (row_name source.now).kind ≡ kind) }
    ensures other { IfOk result (λ is. is ≡ false
        → column row.now KEY ≡ Text (row_name source.now).key → (row_name source.now).kind ≡ kind
        → ⊥) }
    ensures none { IfErr result (HasCause (column row.now KEY ≡ Text (row_name source.now).key → ⊥)) }
    ensures read { IfErr result IsOfRow }
{
    let name = source.record_name(alloc)?;
    Ok(name.kind == kind && bytes_at(row, KEY) == Some(name.key.as_str().as_bytes()))
}

/// The entry of a row, given its source row.
fn entry_of(
    alloc: Global,
    kind: Kind,
    row: &Row,
    source: SourceRow,
    after: usize,
) -> Result<Entry, TableFault>
    requires { after ≤ USER_CONFIRMED }
    ensures some { IfOk result (ShowsRest kind row.now source after) }
    ensures lawful { OnOk result (IsRow source) }
    ensures none { IfErr result (HasCause ((entry : _) → ShowsRest kind row.now source after entry
        → ⊥)) }
    ensures read { IfErr result IsOfRow }
{
    let confirmed = confirmed_at(row, after + CONFIRMED_EPOCH, after)?;
    let id = id_at(alloc, row, after + ID)?;
    if !has_its_key(alloc, kind, row, &source)? || source.revision().is_before(confirmed) {
        return Err(TableFault::Damaged);
    }
    Ok(Entry {
        row: source,
        confirmed,
        id,
    })
}

/// The entry that a result row shows.
pub(crate) fn read_entry(alloc: Global, kind: Kind, row: &Row) -> Result<Entry, TableFault>
    ensures some { IfOk result (Shows kind row.now) }
    ensures none { IfErr result (HasCause (ShowsNone kind row.now)) }
    ensures read { IfErr result IsOfRow }
{
    match kind {
        Kind::User => entry_of(alloc, Kind::User, row, user_at(alloc, row)?, USER_CONFIRMED),
        Kind::Group => entry_of(
            alloc,
            Kind::Group,
            row,
            group_at(alloc, row)?,
            GROUP_CONFIRMED,
        ),
    }
}
