//! The statements on the tables of entries.
ghost use Rattle.std.specs.Prelude.{◌≡◌, pos, map, true, false, MatchOption, Option, IfErr, IfOk, IsTrue, string_bytes};
ghost use Rattle.sqlite.specs.Held.{state};
ghost use Rattle.sqlite.specs.State.{HasCleanDisk};
ghost use Rattle.sqlite.specs.Values.{bound, bound_value};
ghost use Rattle.sqlite_value.specs.Value.{owned};
ghost use Rattle.sqlite_value.specs.declared.value.Value.TheVariants.{Int, Text};
ghost use Rattle.std.specs.Ordering.{is_lt};
ghost use Rattle.std.specs.declared.cmp.Ordering.TheVariants.{Less};
ghost use Rattle.scim_key.specs.Records.{name_cmp};
ghost use Rattle.source_csv.specs.Records.{row_name};
ghost use Rattle.source_csv.specs.Rows.{text_of};
ghost use Rattle.source_csv.specs.declared.rows.Row.TheVariants.{User, Group};
ghost use Rattle.journal_core.specs.Entries.{entry_with};
ghost use Rattle.journal_store.specs.Connections.{AreShownBy, IsNotNext, IsOnly, IsUnshownBy, ListsAllBy, ListsNoneBy, Shows, put_text};
ghost use Rattle.sql_tables.specs.Statements.{Checks, WhileOpen};
ghost use Rattle.sql_tables.specs.Layouts.{IsLaid as IsLaidBy};
ghost use Rattle.journal_store.specs.Faults.{FailsFor, HasCause, IsOfRow};
ghost use Rattle.journal_store.specs.Format.{all_text, find_text, marked_text, numbers_text};
ghost use Rattle.journal_store.specs.declared.format.TheConstants.{TEXT_ORDER};
ghost use Rattle.journal_store.specs.Rows.{active_number, epoch_value, id_value, members_text, revision_value, row_by};

use crate::columns::read_entry;
use crate::format::TEXT_ORDER;
use crate::formats::Format;
use crate::statements::TableFault;
use journal_core::Entry;
use scim_key::{Key, Kind, RecordName, ResourceId, Revision};
use source_csv::{GroupRow, Row as SourceRow, TEXT_FIELD_COUNT, UserRow};
use sql_tables::ask;
use sqlite::{Alter, Connection, Row};
use sqlite_value::value::ValueRef;
use std::alloc::{AllocError, Global};

// ---- parameters

fn number_param(number: u32) -> ValueRef<'static>
    ensures { bound_value (owned result) ≡ Int (pos number) }
{
    ValueRef::Int(i64::from(number))
}

pub(crate) fn text_param(text: &str) -> ValueRef<'_>
    ensures { bound_value (owned result) ≡ Text text.now }
{
    ValueRef::Text(text.as_bytes())
}

/// An id, or NULL for none.
fn id_param(id: &Option<ResourceId>) -> ValueRef<'_>
    ensures { bound_value (owned result) ≡ id_value id.now }
{
    match id {
        Some(id) => text_param(id.as_str()),
        None => ValueRef::Null,
    }
}

/// The number of a revision.
pub(crate) fn revision_param(revision: Revision) -> ValueRef<'static>
    ensures { bound_value (owned result) ≡ revision_value revision }
{
    number_param(revision.number())
}

/// The epoch of a revision.
pub(crate) fn epoch_param(revision: Revision) -> ValueRef<'static>
    ensures { bound_value (owned result) ≡ epoch_value revision }
{
    number_param(revision.epoch())
}

fn active_param(active: bool) -> ValueRef<'static>
    ensures { bound_value (owned result) ≡ Int (pos (active_number active)) }
{
    if active {
        number_param(1)
    } else {
        number_param(0)
    }
}

/// The keys, separated by spaces.
pub(crate) fn members_text(alloc: Global, keys: &[Key]) -> Result<String, AllocError>
    ensures { IfOk result (λ text. string_bytes text ≡ members_text keys.now) }
{
    let mut text = String::new(alloc);
    for at in 0..keys.len() {
        if at > 0 {
            text.push_str(" ")?;
        }
        text.push_str(keys[at].as_str())?;
    }
    Ok(text)
}

// ---- one entry

/// The entry that the rows with a name show.
pub(crate) fn only(alloc: Global, kind: Kind, rows: &[Row]) -> Result<Option<Entry>, TableFault>
    ensures { IfOk result (IsOnly kind rows.now) }
{
    match rows {
        [] => Ok(None),
        [row] => Ok(Some(read_entry(alloc, kind, row)?)),
        _ => Err(TableFault::Damaged),
    }
}

pub(crate) fn find_statement(kind: Kind) -> &'static str
    ensures { result.now ≡ find_text kind }
{
    match kind {
        Kind::User => {
            "SELECT name_key, login, revision, number, given, family, mail, department, active, confirmed, id, epoch, confirmed_epoch FROM user_entry_3 WHERE name_key = ?1"
        }
        Kind::Group => {
            "SELECT name_key, name, revision, members, confirmed, id, epoch, confirmed_epoch FROM group_entry_3 WHERE name_key = ?1"
        }
    }
}

// ---- one write

/// The confirmed revision and the id of an entry; a new one has neither.
pub(crate) fn learnt_of(held: Option<Entry>) -> (Revision, Option<ResourceId>)
    ensures { (row : _) → entry_with row held
        ≡ record { row = row; confirmed = result.0; id = result.1 } }
{
    match held {
        Some(entry) => {
            let (_row, confirmed, id) = entry.into_parts();
            (confirmed, id)
        }
        None => (Revision::none(), None),
    }
}

pub(crate) fn put_statement(kind: Kind, is_there: bool) -> &'static str
    ensures { result.now ≡ put_text is_there kind }
{
    match (kind, is_there) {
        (Kind::User, false) => {
            "INSERT INTO user_entry_3 (name_key, login, revision, number, given, family, mail, department, active, confirmed, id, epoch, confirmed_epoch) VALUES (?1, ?2, ?3, ?4, ?5, ?6, ?7, ?8, ?9, ?10, ?11, ?12, ?13)"
        }
        (Kind::Group, false) => {
            "INSERT INTO group_entry_3 (name_key, name, revision, members, confirmed, id, epoch, confirmed_epoch) VALUES (?1, ?2, ?3, ?4, ?5, ?6, ?7, ?8)"
        }
        (Kind::User, true) => {
            "UPDATE user_entry_3 SET login = ?2, revision = ?3, number = ?4, given = ?5, family = ?6, mail = ?7, department = ?8, active = ?9, confirmed = ?10, id = ?11, epoch = ?12, confirmed_epoch = ?13 WHERE name_key = ?1"
        }
        (Kind::Group, true) => {
            "UPDATE group_entry_3 SET name = ?2, revision = ?3, members = ?4, confirmed = ?5, id = ?6, epoch = ?7, confirmed_epoch = ?8 WHERE name_key = ?1"
        }
    }
}

pub(crate) fn kind_of(row: &SourceRow) -> Kind
    ensures { result ≡ (row_name row.now).kind }
{
    match row {
        SourceRow::User(_) => Kind::User,
        SourceRow::Group(_) => Kind::Group,
    }
}

/// The texts of a user, in the order of their columns.
fn text_params(user: &UserRow) -> [ValueRef<'_>; TEXT_FIELD_COUNT]
    ensures { bound result ≡ map (λ which. Text (text_of user.now which)) TEXT_ORDER }
{
    TEXT_ORDER.map(|which| text_param(user.text(which)))
}

/// The columns of a user's entry, under its key, with its revision.
pub(crate) fn user_params<'a>(
    alloc: Global,
    key: &'a Key,
    user: &'a UserRow,
    revision: Revision,
    confirmed: Revision,
    id: &'a Option<ResourceId>,
) -> Result<Vec<ValueRef<'a>>, AllocError>
    requires key { key.now ≡ (row_name (User user.now)).key }
    requires revision { revision ≡ user.now.revision }
    ensures { IfOk result (λ params. bound params.items ≡ row_by (User user.now) confirmed id.now) }
{
    let front = [
        text_param(key.as_str()),
        text_param(user.login().as_str()),
        revision_param(revision),
    ];
    let back = [
        active_param(user.is_active()),
        revision_param(confirmed),
        id_param(id),
        epoch_param(revision),
        epoch_param(confirmed),
    ];
    let mut params = Vec::new(alloc);
    params.extend_from_slice(&front)?;
    params.extend_from_slice(&text_params(user))?;
    params.extend_from_slice(&back)?;
    Ok(params)
}

/// The columns of a group's entry, under its key, with its revision and the text of its
/// members.
pub(crate) fn group_params<'a>(
    key: &'a Key,
    members: &'a str,
    group: &'a GroupRow,
    revision: Revision,
    confirmed: Revision,
    id: &'a Option<ResourceId>,
) -> [ValueRef<'a>; 8]
    requires key { key.now ≡ (row_name (Group group.now)).key }
    requires revision { revision ≡ group.now.revision }
    requires members { members.now ≡ members_text group.now.members }
    ensures { bound result ≡ row_by (Group group.now) confirmed id.now }
{
    [
        text_param(key.as_str()),
        text_param(group.name().as_str()),
        revision_param(revision),
        text_param(members),
        revision_param(confirmed),
        id_param(id),
        epoch_param(revision),
        epoch_param(confirmed),
    ]
}

// ---- all entries

pub(crate) fn marked_statement() -> &'static str
    ensures { result.now ≡ marked_text }
{
    "SELECT number FROM journal_format"
}

pub(crate) fn numbers_statement(kind: Kind) -> &'static str
    ensures { result.now ≡ numbers_text kind }
{
    match kind {
        Kind::User => "SELECT rowid FROM user_entry_3 ORDER BY rowid",
        Kind::Group => "SELECT rowid FROM group_entry_3 ORDER BY rowid",
    }
}

pub(crate) fn all_statement(kind: Kind) -> &'static str
    ensures { result.now ≡ all_text kind }
{
    match kind {
        Kind::User => {
            "SELECT name_key, login, revision, number, given, family, mail, department, active, confirmed, id, epoch, confirmed_epoch FROM user_entry_3 ORDER BY name_key"
        }
        Kind::Group => {
            "SELECT name_key, name, revision, members, confirmed, id, epoch, confirmed_epoch FROM group_entry_3 ORDER BY name_key"
        }
    }
}

// ---- lists

/// Whether the name comes after the previous one, if there is one.
fn comes_after(previous: &Option<RecordName>, name: &RecordName) -> bool
    ensures is { IsTrue result
        → MatchOption previous.now (Unit {0}) (λ p. name_cmp p name.now ≡ Less) }
    ensures not { result ≡ false
        → MatchOption previous.now ⊥ (λ p. is_lt (name_cmp p name.now) ≡ false) }
{
    match previous {
        Some(previous) => previous < name,
        None => true,
    }
}

/// The entry that a row shows, and its name, which must come after the previous one.
fn next_entry(
    alloc: Global,
    kind: Kind,
    previous: &Option<RecordName>,
    row: &Row,
) -> Result<(Entry, RecordName), TableFault>
    ensures shown { IfOk result (λ next. Shows kind row.now next.0) }
    ensures named { IfOk result (λ next. next.1 ≡ row_name next.0.row) }
    ensures after { IfOk result
        (λ next. MatchOption previous.now (Unit {0}) (λ p. name_cmp p next.1 ≡ Less)) }
    ensures none { IfErr result (HasCause (IsNotNext kind previous.now row.now)) }
    ensures read { IfErr result IsOfRow }
{
    let entry = read_entry(alloc, kind, row)?;
    let name = entry.row.record_name(alloc)?;
    if comes_after(previous, &name) {
        Ok((entry, name))
    } else {
        Err(TableFault::Damaged)
    }
}

/// The entries that the rows show, which must be in order of their names. Each row is dropped once it is read, so
/// that the rows and the entries aren't all in memory.
fn read_all(alloc: Global, kind: Kind, rows: Vec<Row>) -> Result<Vec<Entry>, TableFault>
    ensures some { IfOk result (λ list. AreShownBy (Shows kind) rows.items list.items) }
    ensures none { IfErr result (HasCause (IsUnshownBy (Shows kind) rows.items)) }
    ensures read { IfErr result IsOfRow }
{
    let mut list = Vec::new(alloc);
    let mut previous = None;
    for row in rows {
        let (entry, name) = next_entry(alloc, kind, &previous, &row)?;
        list.push(entry)?;
        previous = Some(name);
    }
    Ok(list)
}

/// The entries of one type, in order of their keys.
pub(crate) fn list_entries<S: Alter, F: Format>(
    alloc: Global,
    conn: &mut Connection<S>,
    kind: Kind,
) -> Result<Vec<Entry>, TableFault>
    requires laid { WhileOpen (IsLaidBy F.layout) (state S.Store conn.old) }
    ensures all { HasCleanDisk (state S.Store conn.new)
        → IfOk result
        (λ list. ListsAllBy (Shows kind) (F.columns kind)
        ((state S.Store conn.old).now.trees (F.tree kind)) list.items) }
    ensures none { HasCleanDisk (state S.Store conn.new)
        → IfErr result (HasCause (IsTrue (state S.Store conn.new).is_open
        × ListsNoneBy (Shows kind) (F.columns kind)
        ((state S.Store conn.old).now.trees (F.tree kind)))) }
    ensures checks { Checks FailsFor (state S.Store conn.old) (state S.Store conn.new) result }
{
    match ask::<S, F>(conn, F::list_statement(kind), &[]) {
        Ok(rows) => read_all(alloc, kind, rows),
        Err(error) => Err(TableFault::from(error)),
    }
}
