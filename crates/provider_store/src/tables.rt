//! The tables, and the statements on them.
ghost use Rattle.std.specs.Prelude.{◌≡◌, suc, pos, false, List, Ok, IfNone, IfOk, IfSome, OnOk, OnErr, IsTrue};
ghost use Rattle.sqlite_value.specs.declared.value.Value.TheVariants.{Int, Text};
ghost use Rattle.sqlite.specs.Held.{state};
ghost use Rattle.sqlite.specs.State.{HasCleanDisk, Survives};
ghost use Rattle.scim_resource.specs.Contents.{content_kind, content_name};
ghost use Rattle.scim_resource.specs.Reading.{content_in};
ghost use Rattle.scim_resource.specs.Rows.{IsStored, StoredRecord};
ghost use Rattle.provider_store.specs.Rows.{IsRowOf, kind_code};
ghost use Rattle.provider_store.specs.Connections.{AreRowsFrom, FindsName, FindsNumber, HoldsPage, IsBroken, IsLaid, IsOnly, IsThere, Leaves, Makes, added, content_text, renewed, resources};
ghost use Rattle.sql_tables.specs.Faults.{FailsFor};
ghost use Rattle.sql_tables.specs.Statements.{Checks, Keeps, WhileOpen};

use crate::format::Provider;
use scim_key::{Kind, LAST_NUMBER, RecordName, StoreFault};
use scim_resource::{Content, ContentFault, LAST_VERSION, Stored};
use sql_tables::{ask, number_at, statement_fault, text_at, write};
use sqlite::{Alter, Connection, Row};
use sqlite_value::value::ValueRef;
use std::alloc::{AllocError, Global};

/// What a look-up finds.
#[derive(Drop)]
pub enum Found {
    Nothing,
    /// A row without a valid resource, or more than one row.
    Damaged,
    There(Stored),
}

// ---- rows

fn kind_of(code: u64) -> Option<Kind>
    ensures some { IfSome result (λ kind. code ≡ kind_code kind) }
    ensures none { IfNone result ((kind : Kind) → code ≡ kind_code kind → ⊥) }
{
    match code {
        1 => Some(Kind::User),
        2 => Some(Kind::Group),
        _ => None,
    }
}

/// The code of a kind in the table.
fn code_of(kind: Kind) -> i64
    ensures { result ≡ pos (kind_code kind) }
{
    match kind {
        Kind::User => 1,
        Kind::Group => 2,
    }
}

/// The content that a text spells, or none.
fn read_content(alloc: Global, text: &[u8], kind: Kind) -> Result<Option<Content>, AllocError>
    ensures some { IfOk result (λ content. IfSome content (λ c. content_in kind text.now ≡ Ok c)) }
    ensures none { IfOk result (λ content. IfNone content ((c : Content)
        → content_in kind text.now ≡ Ok c → ⊥)) }
{
    match Content::from_slice(alloc, text, kind) {
        Ok(content) => Ok(Some(content)),
        Err(ContentFault::Memory) => Err(AllocError),
        Err(_) => Ok(None),
    }
}

/// Whether the content is of this kind and its name has this key.
fn has_key(alloc: Global, content: &Content, kind: Kind, key: &[u8]) -> Result<bool, AllocError>
    ensures same { IfOk result (λ is. IsTrue is → content_name content.now ≡ record {
      kind = kind;
      key = key.now;
    }) }
    ensures other { IfOk result (λ is. is ≡ false → content_name content.now ≡ record {
      kind = kind;
      key = key.now;
    } → ⊥) }
{
    let name = content.name(alloc)?;
    Ok(name.kind == kind && name.key.as_str().as_bytes() == key)
}

/// The resource that a row of a result shows, or none if the row is invalid.
fn read_row(alloc: Global, row: &Row) -> Result<Option<Stored>, AllocError>
    ensures some { IfOk result (λ stored. IfSome stored (IsRowOf row.now)) }
    ensures none { IfOk result (λ stored. IfNone stored ((s : StoredRecord) → IsRowOf row.now s
        → ⊥)) }
{
    let (Some(number), Some(code), Some(key), Some(version), Some(text)) = (
        number_at(row, 0),
        number_at(row, 1),
        text_at(row, 2),
        number_at(row, 3),
        text_at(row, 4),
    ) else {
        return Ok(None);
    };
    let Some(kind) = kind_of(code) else {
        return Ok(None);
    };
    let Some(content) = read_content(alloc, text, kind)? else {
        return Ok(None);
    };
    if row.column_count() != 5 || !has_key(alloc, &content, kind, key)? {
        return Ok(None);
    }
    Ok(stored(number, version, content))
}

/// A row with this number and version, if both are within their limits.
fn stored(number: u64, version: u64, content: Content) -> Option<Stored>
    ensures value { IfSome result (λ s. s ≡ record {
      number = number;
      version = version;
      content = content;
    }) }
    ensures lawful { IfSome result IsStored }
    ensures none { IfNone result (IsStored (record {
      number = number;
      version = version;
      content = content;
    }) → ⊥) }
{
    let number = u32::try_from(number).ok()?;
    if number == 0 || number > LAST_NUMBER || version == 0 || version > LAST_VERSION {
        return None;
    }
    Some(Stored::new(number, version, content))
}

/// The only resource that the rows show.
fn only(alloc: Global, rows: &[Row]) -> Result<Found, AllocError>
    ensures { IfOk result (IsOnly rows.now) }
{
    match rows {
        [] => Ok(Found::Nothing),
        [row] => match read_row(alloc, row)? {
            Some(stored) => Ok(Found::There(stored)),
            None => Ok(Found::Damaged),
        },
        _ => Ok(Found::Damaged),
    }
}

/// The resource with this number.
pub(crate) fn find_numbered<S: Alter>(
    alloc: Global,
    conn: &mut Connection<S>,
    number: u32,
) -> Result<Found, StoreFault>
    requires laid { WhileOpen IsLaid (state S.Store conn.old) }
    ensures found { HasCleanDisk (state S.Store conn.new)
        → IfOk result (FindsNumber (resources (state S.Store conn.old)) number) }
    ensures checks { Checks FailsFor (state S.Store conn.old) (state S.Store conn.new) result }
{
    match ask::<S, Provider>(
        conn,
        "SELECT number, kind, name_key, version, content FROM resource WHERE number = ?1",
        &[ValueRef::Int(i64::from(number))],
    ) {
        Ok(rows) => Ok(only(alloc, rows.as_slice())?),
        Err(error) => Err(statement_fault(error)),
    }
}

/// The resources that the rows show, or none if a row is invalid or the numbers don't follow each other from
/// the one after `after`.
fn read_page(alloc: Global, rows: &[Row], after: u32) -> Result<Option<Vec<Stored>>, AllocError>
    ensures some { IfOk result
        (λ page. IfSome page (λ records. AreRowsFrom (suc after) rows.now records.items)) }
    ensures none { IfOk result (λ page. IfNone page ((records : List StoredRecord)
        → AreRowsFrom (suc after) rows.now records → ⊥)) }
{
    let mut page = Vec::new(alloc);
    let mut last = after;
    for row in rows {
        let Some(stored) = read_row(alloc, row)? else {
            return Ok(None);
        };
        if u64::from(stored.number()) != u64::from(last) + 1 {
            return Ok(None);
        }
        last = stored.number();
        page.push(stored)?;
    }
    Ok(Some(page))
}

/// The resources with the numbers above `after` and up to `last`, or none if a row with one of these numbers
/// is invalid, or the numbers of the rows don't follow each other from the one after `after`.
pub(crate) fn find_page<S: Alter>(
    alloc: Global,
    conn: &mut Connection<S>,
    after: u32,
    last: u32,
) -> Result<Option<Vec<Stored>>, StoreFault>
    requires laid { WhileOpen IsLaid (state S.Store conn.old) }
    ensures found { HasCleanDisk (state S.Store conn.new)
        → IfOk result
        (λ page. IfSome page
        (λ records. HoldsPage (resources (state S.Store conn.old)) after last records.items)) }
    ensures broken { HasCleanDisk (state S.Store conn.new)
        → IfOk result
        (λ page. IfNone page (IsBroken (resources (state S.Store conn.old)) after last)) }
    ensures checks { Checks FailsFor (state S.Store conn.old) (state S.Store conn.new) result }
{
    match ask::<S, Provider>(
        conn,
        "SELECT number, kind, name_key, version, content FROM resource WHERE number >= ?1 AND number <= ?2 ORDER BY number",
        &[
            ValueRef::Int(i64::from(after) + 1),
            ValueRef::Int(i64::from(last)),
        ],
    ) {
        Ok(rows) => Ok(read_page(alloc, rows.as_slice(), after)?),
        Err(error) => Err(statement_fault(error)),
    }
}

/// The resource with this name.
pub(crate) fn find_named<S: Alter>(
    alloc: Global,
    conn: &mut Connection<S>,
    name: &RecordName,
) -> Result<Found, StoreFault>
    requires laid { WhileOpen IsLaid (state S.Store conn.old) }
    ensures found { HasCleanDisk (state S.Store conn.new)
        → IfOk result (FindsName (resources (state S.Store conn.old)) name.now) }
    ensures checks { Checks FailsFor (state S.Store conn.old) (state S.Store conn.new) result }
{
    match ask::<S, Provider>(
        conn,
        "SELECT number, kind, name_key, version, content FROM resource WHERE kind = ?1 AND name_key = ?2",
        &[
            ValueRef::Int(code_of(name.kind)),
            ValueRef::Text(name.key.as_str().as_bytes()),
        ],
    ) {
        Ok(rows) => Ok(only(alloc, rows.as_slice())?),
        Err(error) => Err(statement_fault(error)),
    }
}

/// The compact text of a content.
fn text_of(alloc: Global, content: &Content) -> Result<Vec<u8>, AllocError>
    ensures text { IfOk result (λ text. text.items ≡ content_text content.now) }
    ensures spelled { OnOk result (content_in (content_kind content.now) (content_text content.now)
        ≡ Ok content.now) }
{
    content.text(alloc)
}

/// Adds a row.
pub(crate) fn insert_row<S: Alter>(
    alloc: Global,
    conn: &mut Connection<S>,
    row: &Stored,
) -> Result<(), StoreFault>
    requires laid { WhileOpen IsLaid (state S.Store conn.old) }
    ensures made { HasCleanDisk (state S.Store conn.new)
        → OnOk result
        (Makes (state S.Store conn.old) (state S.Store conn.new) row.now
        (added row.now (resources (state S.Store conn.old)))) }
    ensures keeps { HasCleanDisk (state S.Store conn.new)
        → OnErr result (Keeps (state S.Store conn.old) (state S.Store conn.new)) }
    ensures stop { Survives (state S.Store conn.old) (state S.Store conn.new)
        (λ db. IsTrue (state S.Store conn.old).is_open
        × Leaves row.now (added row.now (resources (state S.Store conn.old))) db) }
{
    let name = row.content().name(alloc)?;
    let text = text_of(alloc, row.content())?;
    match write::<S, Provider>(
        conn,
        "INSERT INTO resource (number, kind, name_key, version, content) VALUES (?1, ?2, ?3, ?4, ?5)",
        &[
            ValueRef::Int(i64::from(row.number())),
            ValueRef::Int(code_of(name.kind)),
            ValueRef::Text(name.key.as_str().as_bytes()),
            ValueRef::Int(row.version() as i64),
            ValueRef::Text(text.as_slice()),
        ],
    ) {
        Ok(_) => Ok(()),
        Err(error) => Err(statement_fault(error)),
    }
}

/// Puts a row in the place of the one with its number, which has its name.
pub(crate) fn update_row<S: Alter>(
    alloc: Global,
    conn: &mut Connection<S>,
    row: &Stored,
) -> Result<(), StoreFault>
    requires laid { WhileOpen IsLaid (state S.Store conn.old) }
    requires there { WhileOpen (λ s. IsThere (resources s) row.now) (state S.Store conn.old) }
    ensures made { HasCleanDisk (state S.Store conn.new)
        → OnOk result
        (Makes (state S.Store conn.old) (state S.Store conn.new) row.now
        (renewed row.now (resources (state S.Store conn.old)))) }
    ensures keeps { HasCleanDisk (state S.Store conn.new)
        → OnErr result (Keeps (state S.Store conn.old) (state S.Store conn.new)) }
    ensures stop { Survives (state S.Store conn.old) (state S.Store conn.new)
        (λ db. IsTrue (state S.Store conn.old).is_open
        × Leaves row.now (renewed row.now (resources (state S.Store conn.old))) db) }
{
    let text = text_of(alloc, row.content())?;
    match write::<S, Provider>(
        conn,
        "UPDATE resource SET version = ?2, content = ?3 WHERE number = ?1",
        &[
            ValueRef::Int(i64::from(row.number())),
            ValueRef::Int(row.version() as i64),
            ValueRef::Text(text.as_slice()),
        ],
    ) {
        Ok(_) => Ok(()),
        Err(error) => Err(statement_fault(error)),
    }
}
