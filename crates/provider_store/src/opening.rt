//! Opens a store: makes its tables, or checks them and each of their rows.
ghost use Rattle.std.specs.Prelude.{◌≡◌, ◌⊎◌, ◌<◌, ◌≤◌, ◌+◌, ℕ, false, List, [], ◌∷◌, length, min, pos, IfErr, IfOk, OnErr, OnOk, IsTrue, filter};
ghost use Rattle.sqlite_value.specs.Order.{column};
ghost use Rattle.sqlite_trees.specs.Tree.{has_rowid};
ghost use Rattle.sqlite_rules.specs.Lists.{Has};
ghost use Rattle.sqlite.specs.Effect.{IsDatabase};
ghost use Rattle.sqlite.specs.Held.{state};
ghost use Rattle.sqlite.specs.State.{HasCleanDisk, Survives};
ghost use Rattle.scim_key.specs.Identifiers.{last_number};
ghost use Rattle.scim_resource.specs.Contents.{content_name};
ghost use Rattle.scim_resource.specs.Rows.{StoredRecord};
ghost use Rattle.provider_store.specs.Format.{format_number};
ghost use Rattle.provider_store.specs.Connections.{IsBroken, IsLaid, resources};
ghost use Rattle.provider_store.specs.Lawful.{AreLawfulTo, AreNumbered, AreWithin, EndsAt, IsFirstWrong, IsLawfulAt, IsOutside, IsWrong, NoneNamed, has_name};
ghost use Rattle.provider_store.specs.Rows.{number_at};
ghost use Rattle.provider_store.specs.Opening.{IsAlone, IsCause, IsDamaged, IsFor, IsNewer, IsNotLaid, IsOfRows, IsSpoilt, IsStore, IsUnmarked, LeavesNone, OpenFailsFor, OpeningFails, Stands};
ghost use Rattle.sql_tables.specs.Faults.{HasFailed};
ghost use Rattle.sql_tables.specs.Layouts.{IsBlank, IsFormat};
ghost use Rattle.sql_tables.specs.Statements.{Checks, LeavesStore, Looks, WhileOpen};

use crate::format::{FORMAT, Provider, is_provider};
use crate::tables::{Found, find_named, find_numbered, find_page};
use provider_core::ROWS_AT_ONCE;
use scim_key::{LAST_NUMBER, StoreFault};
use scim_resource::Stored;
use sql_tables::{Mark, ask, find_mark, is_blank, number_at, statement_fault};
use sqlite::{Alter, Connection, Error, Row};
use sqlite_value::value::ValueRef;
use std::alloc::{AllocError, Global};
use thiserror::Error as Fault;

/// Why a store couldn't be opened. Its contents are unchanged.
#[derive(Clone, Copy, Debug, Fault)]
pub enum RegistryOpenFault {
    /// The database failed, or a transaction is open.
    #[error("Y1")]
    Store,
    /// The row with this number is invalid, or shouldn't be there. The number is 0 if the tables aren't
    /// those of the format.
    #[error("Y2")]
    Damaged(u64),
    /// The tables are of a newer format.
    #[error("Y3")]
    Newer,
    #[error("Y4")]
    Memory,
}

impl From<AllocError> for RegistryOpenFault {
    ghost use Rattle.provider_store.specs.declared.opening.RegistryOpenFault.TheVariants.{Memory};

    ghost from_gives = { λ _ fault. fault ≡ Memory };

    fn from(_: AllocError) -> RegistryOpenFault {
        RegistryOpenFault::Memory
    }
}

impl From<StoreFault> for RegistryOpenFault {
    ghost use Rattle.provider_store.specs.Opening.{open_fault};

    ghost from_gives = { λ fault given. given ≡ open_fault fault };

    fn from(fault: StoreFault) -> RegistryOpenFault {
        match fault {
            StoreFault::Store => RegistryOpenFault::Store,
            StoreFault::Memory => RegistryOpenFault::Memory,
        }
    }
}

/// A failed statement never means damage or a newer format.
impl From<Error> for RegistryOpenFault {
    ghost use Rattle.provider_store.specs.Opening.{open_fault};
    ghost use Rattle.sql_tables.specs.Faults.{statement_fault};

    ghost from_gives = { λ error fault. (fault ≡ open_fault (statement_fault error))
        × IsFor ⊥ (λ _. ⊥) fault };

    fn from(error: Error) -> RegistryOpenFault {
        RegistryOpenFault::from(statement_fault(error))
    }
}

// ---- the tables

/// Makes the tables and the row of the format, all or none.
fn make_tables<S: Alter>(conn: &mut Connection<S>) -> Result<(), Error>
    requires outside { (state S.Store conn.old).in_transaction ≡ false }
    requires blank { WhileOpen IsBlank (state S.Store conn.old) }
    ensures made { HasCleanDisk (state S.Store conn.new)
        → OnOk result (IsTrue (state S.Store conn.new).is_open × IsBlank (state S.Store conn.old)
        × IsStore (state S.Store conn.new) []) }
    ensures left { HasCleanDisk (state S.Store conn.new)
        → OnErr result (LeavesStore (state S.Store conn.old) (state S.Store conn.new)) }
    ensures stop { Survives (state S.Store conn.old) (state S.Store conn.new) LeavesNone }
{
    let mut tables = conn.transaction();
    tables.execute(
        "CREATE TABLE IF NOT EXISTS provider_format (one INTEGER PRIMARY KEY CHECK (one = 1), number INTEGER NOT NULL)",
        &[],
    )?;
    tables.execute(
        "INSERT INTO provider_format (one, number) VALUES (1, ?1)",
        &[ValueRef::Int(FORMAT as i64)],
    )?;
    tables.execute(
        "CREATE TABLE resource (number INTEGER PRIMARY KEY CHECK (number >= 1), kind INTEGER NOT NULL CHECK (kind = 1 OR kind = 2), name_key TEXT NOT NULL, version INTEGER NOT NULL CHECK (version >= 1), content TEXT NOT NULL, UNIQUE (kind, name_key))",
        &[],
    )?;
    tables.commit()
}

/// Checks the number of the format.
fn check_format<S: Alter>(conn: &mut Connection<S>) -> Result<(), RegistryOpenFault>
    requires laid { WhileOpen IsLaid (state S.Store conn.old) }
    ensures known { HasCleanDisk (state S.Store conn.new)
        → OnOk result (IsFormat (state S.Store conn.old) format_number) }
    ensures cause { HasCleanDisk (state S.Store conn.new)
        → IfErr result (IsFor (IsNewer (state S.Store conn.old)) (λ told. (told ≡ 0)
        × IsUnmarked (state S.Store conn.old))) }
    ensures told { HasCleanDisk (state S.Store conn.new)
        → IfErr result
        (IsFor (IsTrue (state S.Store conn.new).is_open)
        (λ _. IsTrue (state S.Store conn.new).is_open)) }
    ensures checks { Checks OpenFailsFor (state S.Store conn.old) (state S.Store conn.new) result }
{
    match find_mark::<S, Provider>(conn, "SELECT number FROM provider_format", FORMAT) {
        Ok(Mark::Own) => Ok(()),
        Ok(Mark::Newer) => Err(RegistryOpenFault::Newer),
        Ok(Mark::Unmarked) => Err(RegistryOpenFault::Damaged(0)),
        Err(error) => Err(RegistryOpenFault::from(error)),
    }
}

// ---- the rows

/// Checks the row with this number, if there is one.
fn check_row<S: Alter>(
    alloc: Global,
    conn: &mut Connection<S>,
    number: u32,
) -> Result<bool, RegistryOpenFault>
    requires laid { WhileOpen IsLaid (state S.Store conn.old) }
    ensures lawful { HasCleanDisk (state S.Store conn.new)
        → IfOk result (λ is. IsTrue is → IsLawfulAt (resources (state S.Store conn.old)) number) }
    ensures absent { HasCleanDisk (state S.Store conn.new)
        → IfOk result (λ is. is ≡ false
        → filter (has_rowid (pos number)) (resources (state S.Store conn.old)) ≡ []) }
    ensures cause { HasCleanDisk (state S.Store conn.new)
        → IfErr result (IsFor ⊥ (λ told. IsTrue (state S.Store conn.new).is_open × (told ≡ number)
        × IsWrong (resources (state S.Store conn.old)) number)) }
    ensures checks { Checks OpenFailsFor (state S.Store conn.old) (state S.Store conn.new) result }
{
    match find_numbered(alloc, conn, number)? {
        Found::There(row) => {
            check_name(alloc, conn, &row)?;
            Ok(true)
        }
        Found::Nothing => Ok(false),
        Found::Damaged => Err(RegistryOpenFault::Damaged(u64::from(number))),
    }
}

/// Checks that no other row has this row's name.
fn check_name<S: Alter>(
    alloc: Global,
    conn: &mut Connection<S>,
    row: &Stored,
) -> Result<(), RegistryOpenFault>
    requires laid { WhileOpen IsLaid (state S.Store conn.old) }
    ensures alone { HasCleanDisk (state S.Store conn.new)
        → OnOk result
        (IsAlone (resources (state S.Store conn.old)) (content_name row.now.content)) }
    ensures named { HasCleanDisk (state S.Store conn.new)
        → OnOk result ((r : _)
        × (filter (has_name (content_name row.now.content)) (resources (state S.Store conn.old))
        ≡ r ∷ [])) }
    ensures cause { HasCleanDisk (state S.Store conn.new)
        → IfErr result (IsFor ⊥ (λ told. IsTrue (state S.Store conn.new).is_open
        × (told ≡ row.now.number)
        × NoneNamed (resources (state S.Store conn.old)) (content_name row.now.content))) }
    ensures checks { Checks OpenFailsFor (state S.Store conn.old) (state S.Store conn.new) result }
{
    let name = row.content().name(alloc)?;
    match find_named(alloc, conn, &name)? {
        Found::There(_row) => Ok(()),
        Found::Nothing | Found::Damaged => Err(RegistryOpenFault::Damaged(u64::from(row.number()))),
    }
}

/// Checks the rows after the first `from` one by one, and returns how many follow each other from 1.
fn check_from<S: Alter>(
    alloc: Global,
    conn: &mut Connection<S>,
    from: u32,
) -> Result<u32, RegistryOpenFault>
    requires laid { WhileOpen IsLaid (state S.Store conn.old) }
    requires within { from ≤ last_number }
    requires before { HasCleanDisk (state S.Store conn.old)
        → AreLawfulTo (resources (state S.Store conn.old)) from }
    ensures lawful { HasCleanDisk (state S.Store conn.new)
        → IfOk result (AreLawfulTo (resources (state S.Store conn.old))) }
    ensures ends { HasCleanDisk (state S.Store conn.new)
        → IfOk result (EndsAt (resources (state S.Store conn.old))) }
    ensures cause { HasCleanDisk (state S.Store conn.new)
        → IfErr result (IsFor ⊥ (λ told. IsTrue (state S.Store conn.new).is_open
        × IsFirstWrong (resources (state S.Store conn.old)) told)) }
    ensures failed { HasCleanDisk (state S.Store conn.new)
        → IfErr result
        (OpenFailsFor (HasFailed (state S.Store conn.old) (state S.Store conn.new))) }
    ensures looks { Looks (state S.Store conn.old) (state S.Store conn.new) }
{
    for count in from..LAST_NUMBER {
        if !check_row(alloc, conn, count + 1)? {
            return Ok(count);
        }
    }
    Ok(LAST_NUMBER)
}

/// Whether each row has a number. SQLite gives one to each row, but its contracts don't say so.
fn are_numbered<S: Alter>(conn: &mut Connection<S>) -> Result<bool, RegistryOpenFault>
    requires laid { WhileOpen IsLaid (state S.Store conn.old) }
    ensures all { HasCleanDisk (state S.Store conn.new)
        → IfOk result (λ are. IsTrue are → AreNumbered (resources (state S.Store conn.old))) }
    ensures some { HasCleanDisk (state S.Store conn.new)
        → IfOk result (λ are. are ≡ false → AreNumbered (resources (state S.Store conn.old)) → ⊥) }
    ensures cause { IfErr result (IsFor ⊥ (λ _. ⊥)) }
    ensures checks { Checks OpenFailsFor (state S.Store conn.old) (state S.Store conn.new) result }
{
    match ask::<S, Provider>(
        conn,
        "SELECT number FROM resource WHERE number IS NULL",
        &[],
    ) {
        Ok(rows) => Ok(rows.is_empty()),
        Err(error) => Err(RegistryOpenFault::from(error)),
    }
}

/// The number up to which a page has rows that follow each other.
fn page_end(after: u32, page: &[Stored], last: u32) -> u32
    ensures { result ≡ min (after + length page.now) last }
{
    let end = (after as usize).saturating_add(page.len());
    end.min(last as usize) as u32
}

/// Checks the rows by pages, and returns how many follow each other from 1, up to a page that is broken. It
/// looks up no name, because kind and key are unique in sound tables.
fn check_pages<S: Alter>(alloc: Global, conn: &mut Connection<S>) -> Result<u32, RegistryOpenFault>
    requires laid { WhileOpen IsLaid (state S.Store conn.old) }
    requires sound { WhileOpen (λ s. IsDatabase s.now) (state S.Store conn.old) }
    requires numbered { HasCleanDisk (state S.Store conn.old)
        → AreNumbered (resources (state S.Store conn.old)) }
    requires open { HasCleanDisk (state S.Store conn.old)
        → IsTrue (state S.Store conn.old).is_open }
    ensures lawful { HasCleanDisk (state S.Store conn.new)
        → IfOk result (AreLawfulTo (resources (state S.Store conn.old))) }
    ensures within { IfOk result (λ count. count ≤ last_number) }
    ensures ends { HasCleanDisk (state S.Store conn.new)
        → IfOk result (λ count. EndsAt (resources (state S.Store conn.old)) count
        ⊎ ((last : ℕ) × IsBroken (resources (state S.Store conn.old)) count last)) }
    ensures cause { IfErr result (IsFor ⊥ (λ _. ⊥)) }
    ensures checks { Checks OpenFailsFor (state S.Store conn.old) (state S.Store conn.new) result }
{
    let mut count = 0;
    while count < LAST_NUMBER {
        let last = LAST_NUMBER.min(count + ROWS_AT_ONCE);
        let Some(page) = find_page(alloc, conn, count, last)? else {
            return Ok(count);
        };
        count = page_end(count, page.as_slice(), last);
        if count < last {
            return Ok(count);
        }
    }
    Ok(count)
}

/// Checks the rows in order of their numbers, and returns how many follow each other from 1.
fn check_rows<S: Alter>(alloc: Global, conn: &mut Connection<S>) -> Result<u32, RegistryOpenFault>
    requires laid { WhileOpen IsLaid (state S.Store conn.old) }
    requires sound { WhileOpen (λ s. IsDatabase s.now) (state S.Store conn.old) }
    ensures lawful { HasCleanDisk (state S.Store conn.new)
        → IfOk result (AreLawfulTo (resources (state S.Store conn.old))) }
    ensures ends { HasCleanDisk (state S.Store conn.new)
        → IfOk result (EndsAt (resources (state S.Store conn.old))) }
    ensures cause { HasCleanDisk (state S.Store conn.new)
        → IfErr result (IsFor ⊥ (λ told. IsTrue (state S.Store conn.new).is_open
        × IsFirstWrong (resources (state S.Store conn.old)) told)) }
    ensures failed { HasCleanDisk (state S.Store conn.new)
        → IfErr result
        (OpenFailsFor (HasFailed (state S.Store conn.old) (state S.Store conn.new))) }
    ensures looks { Looks (state S.Store conn.old) (state S.Store conn.new) }
{
    if !are_numbered(conn)? {
        return check_from(alloc, conn, 0);
    }
    let count = check_pages(alloc, conn)?;
    check_from(alloc, conn, count)
}

/// Checks that there is no row other than the first `count`.
fn check_rest<S: Alter>(conn: &mut Connection<S>, count: u32) -> Result<(), RegistryOpenFault>
    requires laid { WhileOpen IsLaid (state S.Store conn.old) }
    ensures none { HasCleanDisk (state S.Store conn.new)
        → OnOk result ((n : ℕ) → count < n
        → filter (has_rowid (pos n)) (resources (state S.Store conn.old)) ≡ []) }
    ensures within { HasCleanDisk (state S.Store conn.new)
        → OnOk result (AreWithin (resources (state S.Store conn.old)) count) }
    ensures cause { HasCleanDisk (state S.Store conn.new)
        → IfErr result (IsFor ⊥ (λ told. IsTrue (state S.Store conn.new).is_open
        × IsOutside (resources (state S.Store conn.old)) count told)) }
    ensures checks { Checks OpenFailsFor (state S.Store conn.old) (state S.Store conn.new) result }
{
    match ask::<S, Provider>(
        conn,
        "SELECT number FROM resource WHERE number < 1 OR number > ?1",
        &[ValueRef::Int(i64::from(count))],
    ) {
        Ok(rows) => none_in(rows.as_slice()),
        Err(error) => Err(RegistryOpenFault::from(error)),
    }
}

/// Checks that there is no row; otherwise the fault has the number of the first.
fn none_in(rows: &[Row]) -> Result<(), RegistryOpenFault>
    ensures none { OnOk result (rows.now ≡ []) }
    ensures cause { IfErr result (IsFor ⊥ (λ told. (r : _) × Has rows.now r
        × (told ≡ number_at (column r 0)))) }
    ensures read { IfErr result IsOfRows }
{
    match rows {
        [] => Ok(()),
        [row, ..] => Err(RegistryOpenFault::Damaged(number_at(row, 0).unwrap_or(0))),
    }
}

// ---- the store

/// Checks the format and each row, and returns how many rows there are.
fn check_laid<S: Alter>(alloc: Global, conn: &mut Connection<S>) -> Result<u32, RegistryOpenFault>
    requires laid { WhileOpen IsLaid (state S.Store conn.old) }
    requires sound { WhileOpen (λ s. IsDatabase s.now) (state S.Store conn.old) }
    ensures store { HasCleanDisk (state S.Store conn.new)
        → IfOk result (λ count. (rows : List StoredRecord) × IsStore (state S.Store conn.old) rows
        × (length rows ≡ count)) }
    ensures cause { HasCleanDisk (state S.Store conn.new)
        → IfErr result
        (IsFor (IsNewer (state S.Store conn.old)) (IsSpoilt (state S.Store conn.old))) }
    ensures checks { Checks OpenFailsFor (state S.Store conn.old) (state S.Store conn.new) result }
{
    check_format(conn)?;
    let count = check_rows(alloc, conn)?;
    check_rest(conn, count)?;
    Ok(count)
}

/// Whether the tables are laid out and no transaction is open.
fn is_laid<S: Alter>(conn: &Connection<S>) -> bool
    ensures is { IsTrue result → IsTrue (state S.Store conn.now).is_open
        → IsLaid (state S.Store conn.now) }
    ensures sound { IsTrue result → IsTrue (state S.Store conn.now).is_open
        → IsDatabase (state S.Store conn.now).now }
    ensures not { result ≡ false → IsNotLaid (state S.Store conn.now) }
{
    conn.is_autocommit() && is_provider(conn.schema())
}

/// Checks the tables, their format and each row, and returns how many rows there are.
pub(crate) fn check_tables<S: Alter>(
    alloc: Global,
    conn: &mut Connection<S>,
) -> Result<u32, RegistryOpenFault>
    ensures store { HasCleanDisk (state S.Store conn.new)
        → IfOk result (λ count. (rows : List StoredRecord) × IsStore (state S.Store conn.old) rows
        × (length rows ≡ count)) }
    ensures cause { HasCleanDisk (state S.Store conn.new)
        → IfErr result (IsFor (IsNewer (state S.Store conn.old)) (λ told. ((told ≡ 0)
        × IsNotLaid (state S.Store conn.old))
        ⊎ IsSpoilt (state S.Store conn.old) told)) }
    ensures checks { Checks OpenFailsFor (state S.Store conn.old) (state S.Store conn.new) result }
    ensures left { HasCleanDisk (state S.Store conn.new)
        → LeavesStore (state S.Store conn.old) (state S.Store conn.new) }
{
    if is_laid(conn) {
        check_laid(alloc, conn)
    } else {
        Err(RegistryOpenFault::Damaged(0))
    }
}

/// Makes the tables if there are none, otherwise checks them, and returns how many rows there are.
pub(crate) fn open_tables<S: Alter>(
    alloc: Global,
    conn: &mut Connection<S>,
) -> Result<u32, RegistryOpenFault>
    ensures stands { HasCleanDisk (state S.Store conn.new)
        → IfOk result (λ count. (rows : List StoredRecord) × Stands (state S.Store conn.old) rows
        × IsStore (state S.Store conn.new) rows × (length rows ≡ count)) }
    ensures sound { HasCleanDisk (state S.Store conn.new)
        → OnOk result ((number : ℕ) → IsDamaged (state S.Store conn.old) number → ⊥) }
    ensures cause { HasCleanDisk (state S.Store conn.new)
        → IfErr result (IsCause (state S.Store conn.old)) }
    ensures failed { HasCleanDisk (state S.Store conn.new)
        → IfErr result
        (OpenFailsFor (OpeningFails (state S.Store conn.old) (state S.Store conn.new))) }
    ensures open { HasCleanDisk (state S.Store conn.new)
        → OnOk result (IsTrue (state S.Store conn.new).is_open) }
    ensures left { HasCleanDisk (state S.Store conn.new)
        → OnErr result (LeavesStore (state S.Store conn.old) (state S.Store conn.new)) }
    ensures stop { Survives (state S.Store conn.old) (state S.Store conn.new) LeavesNone }
{
    if !conn.is_autocommit() {
        return Err(RegistryOpenFault::Store);
    }
    if !is_blank(conn.schema()) {
        return check_tables(alloc, conn);
    }
    match make_tables(conn) {
        Ok(()) => Ok(0),
        Err(error) => Err(RegistryOpenFault::from(error)),
    }
}
