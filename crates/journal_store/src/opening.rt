//! Opens a store: makes its tables, or checks them and each of their rows, and carries an older format over.
ghost use Rattle.std.specs.Prelude.{◌≡◌, ◌⊎◌, ◌<◌, ℕ, false, IfErr, IfOk, MatchOption, OnErr, OnOk, IsTrue};
ghost use Rattle.std.specs.Ordering.{int_cmp, is_lt};
ghost use Rattle.std.specs.declared.cmp.Ordering.TheVariants.{Less};
ghost use Rattle.journal_core.specs.Entries.{EntryMap};
ghost use Rattle.sqlite.specs.Held.{state};
ghost use Rattle.sqlite.specs.State.{HasCleanDisk, Survives};
ghost use Rattle.journal_store.specs.Connections.{AreNumbered, HasNumbersBy};
ghost use Rattle.sql_tables.specs.Faults.{HasFailed};
ghost use Rattle.sql_tables.specs.Layouts.{IsFormat, IsLaid as IsLaidBy, IsMark, IsOne};
ghost use Rattle.sql_tables.specs.Statements.{Checks, LeavesStore, Looks, WhileOpen};
ghost use Rattle.journal_store.specs.Opening.{AreRising, Becomes, HasFormatTable, HoldsEntriesBy, IsCarriedBy, IsCause, IsFor, IsNewer, IsNotLaidBy, IsOfRows, IsOlder, IsSpoiltBy, IsStore, IsStoreBy, IsUnmarkedBy, IsUnnumbered, LeavesCarriedBy, LeavesStanding, OpenFailsFor, OpeningFails, ShowsDamageBy};

use crate::format::{FORMAT, Journal, Unknown, is_journal};
use crate::formats::{Format, Marked};
use crate::lawful::check_lists;
use crate::making::make_tables;
use crate::older::carrying::{Older, carry};
use crate::older::format::{First, Second, is_first, is_second};
use crate::statements::TableFault;
use crate::tables::list_entries;
use scim_key::Kind;
use sql_tables::{Mark, ask, find_mark, integer_at, is_blank};
use sqlite::{Alter, Connection, Error, Row};
use std::alloc::{AllocError, Global};
use thiserror::Error as Fault;

/// Why a journal couldn't be opened. Its contents are unchanged.
#[derive(Clone, Copy, Debug, Fault)]
pub enum JournalOpenFault {
    /// The database failed, or a transaction is open.
    #[error("J1")]
    Store,
    /// The tables aren't those of the format, or an entry is invalid.
    #[error("J2")]
    Damaged,
    #[error("J3")]
    Memory,
    /// The tables are of a newer format.
    #[error("J4")]
    Newer,
}

impl From<AllocError> for JournalOpenFault {
    ghost use Rattle.journal_store.specs.declared.opening.JournalOpenFault.TheVariants.{Memory};

    ghost from_gives = { λ _ fault. fault ≡ Memory };

    fn from(_: AllocError) -> JournalOpenFault {
        JournalOpenFault::Memory
    }
}

impl From<TableFault> for JournalOpenFault {
    ghost use Rattle.journal_store.specs.Opening.{open_fault};

    ghost from_gives = { λ fault given. given ≡ open_fault fault };

    fn from(fault: TableFault) -> JournalOpenFault {
        match fault {
            TableFault::Store => JournalOpenFault::Store,
            TableFault::Damaged => JournalOpenFault::Damaged,
            TableFault::Memory => JournalOpenFault::Memory,
        }
    }
}

/// A failed statement never means damage or a newer format.
impl From<Error> for JournalOpenFault {
    ghost use Rattle.journal_store.specs.Faults.{statement_fault};
    ghost use Rattle.journal_store.specs.Opening.{open_fault};

    ghost from_gives = { λ error fault. (fault ≡ open_fault (statement_fault error))
        × IsFor ⊥ ⊥ fault };

    fn from(error: Error) -> JournalOpenFault {
        JournalOpenFault::from(TableFault::from(error))
    }
}

// ---- the number of the format

/// What the number in the table of the format means for the format with this number.
fn mark_of<S: Alter, F: Marked>(
    conn: &mut Connection<S>,
    number: u64,
) -> Result<Mark, JournalOpenFault>
    requires laid { WhileOpen (IsLaidBy F.layout) (state S.Store conn.old) }
    ensures mark { HasCleanDisk (state S.Store conn.new)
        → IfOk result (IsMark (IsFormat (state S.Store conn.old)) number) }
    ensures cause { IfErr result (IsFor ⊥ ⊥) }
    ensures checks { Checks OpenFailsFor (state S.Store conn.old) (state S.Store conn.new) result }
{
    match find_mark::<S, F>(conn, F::marked_statement(), number) {
        Ok(mark) => Ok(mark),
        Err(error) => Err(JournalOpenFault::from(error)),
    }
}

/// The fault for a number above that of the format: either it is above each known one, or the tables aren't
/// those of its format.
fn number_fault<S: Alter, F: Format>(conn: &mut Connection<S>) -> JournalOpenFault
    requires laid { WhileOpen (IsLaidBy F.layout) (state S.Store conn.old) }
    requires above { WhileOpen (λ s. (number : ℕ) × (F.number < number) × IsFormat s number)
        (state S.Store conn.old) }
    ensures cause { HasCleanDisk (state S.Store conn.new)
        → IsFor (IsTrue (state S.Store conn.new).is_open
        × IsNewer (state S.Store conn.old)) (IsTrue (state S.Store conn.new).is_open
        × IsUnmarkedBy F.number (state S.Store conn.old)) result }
    ensures failed { HasCleanDisk (state S.Store conn.new)
        → OpenFailsFor (HasFailed (state S.Store conn.old) (state S.Store conn.new)) result }
    ensures looks { Looks (state S.Store conn.old) (state S.Store conn.new) }
{
    match mark_of::<S, F>(conn, FORMAT) {
        Ok(Mark::Newer) => JournalOpenFault::Newer,
        Ok(Mark::Own | Mark::Unmarked) => JournalOpenFault::Damaged,
        Err(fault) => fault,
    }
}

/// Checks the number of the format.
fn check_format<S: Alter, F: Format>(conn: &mut Connection<S>) -> Result<(), JournalOpenFault>
    requires laid { WhileOpen (IsLaidBy F.layout) (state S.Store conn.old) }
    ensures known { HasCleanDisk (state S.Store conn.new)
        → OnOk result (IsFormat (state S.Store conn.old) F.number) }
    ensures cause { HasCleanDisk (state S.Store conn.new)
        → IfErr result
        (IsFor (IsNewer (state S.Store conn.old))
        (IsUnmarkedBy F.number (state S.Store conn.old))) }
    ensures checks { Checks OpenFailsFor (state S.Store conn.old) (state S.Store conn.new) result }
{
    match mark_of::<S, F>(conn, F::number()) {
        Ok(Mark::Own) => Ok(()),
        Ok(Mark::Newer) => Err(number_fault::<S, F>(conn)),
        Ok(Mark::Unmarked) => Err(JournalOpenFault::Damaged),
        Err(fault) => Err(fault),
    }
}

// ---- the rows

/// Whether the number is above the last one, if there is one.
fn rises(last: Option<i64>, number: i64) -> bool
    ensures is { IsTrue result → MatchOption last (Unit {0}) (λ n. int_cmp n number ≡ Less) }
    ensures not { result ≡ false → MatchOption last ⊥ (λ n. is_lt (int_cmp n number) ≡ false) }
{
    match last {
        Some(last) => last < number,
        None => true,
    }
}

/// Checks that the rows show rising numbers.
fn check_rising(rows: &[Row]) -> Result<(), JournalOpenFault>
    ensures rising { OnOk result (AreRising rows.now) }
    ensures cause { IfErr result (IsFor ⊥ (IsUnnumbered rows.now)) }
    ensures read { IfErr result IsOfRows }
{
    let mut last = None;
    for row in rows {
        let Some(number) = integer_at(row, 0) else {
            return Err(JournalOpenFault::Damaged);
        };
        if !rises(last, number) {
            return Err(JournalOpenFault::Damaged);
        }
        last = Some(number);
    }
    Ok(())
}

/// Checks that each row of a table has a number that no other row has.
fn check_table<S: Alter, F: Format>(
    conn: &mut Connection<S>,
    kind: Kind,
) -> Result<(), JournalOpenFault>
    requires laid { WhileOpen (IsLaidBy F.layout) (state S.Store conn.old) }
    ensures numbered { HasCleanDisk (state S.Store conn.new)
        → OnOk result (AreNumbered ((state S.Store conn.old).now.trees (F.tree kind))) }
    ensures cause { HasCleanDisk (state S.Store conn.new)
        → IfErr result (IsFor ⊥ (IsTrue (state S.Store conn.new).is_open
        × (AreNumbered ((state S.Store conn.old).now.trees (F.tree kind)) → ⊥))) }
    ensures checks { Checks OpenFailsFor (state S.Store conn.old) (state S.Store conn.new) result }
{
    match ask::<S, F>(conn, F::numbers_statement(kind), &[]) {
        Ok(rows) => check_rising(rows.as_slice()),
        Err(error) => Err(JournalOpenFault::from(error)),
    }
}

/// Checks the numbers of the rows of both tables.
fn check_numbers<S: Alter, F: Format>(conn: &mut Connection<S>) -> Result<(), JournalOpenFault>
    requires laid { WhileOpen (IsLaidBy F.layout) (state S.Store conn.old) }
    ensures numbered { HasCleanDisk (state S.Store conn.new)
        → OnOk result (HasNumbersBy F.tree (state S.Store conn.old).now.trees) }
    ensures cause { HasCleanDisk (state S.Store conn.new)
        → IfErr result (IsFor ⊥ (IsTrue (state S.Store conn.new).is_open
        × (HasNumbersBy F.tree (state S.Store conn.old).now.trees → ⊥))) }
    ensures checks { Checks OpenFailsFor (state S.Store conn.old) (state S.Store conn.new) result }
{
    check_table::<S, F>(conn, Kind::User)?;
    check_table::<S, F>(conn, Kind::Group)
}

/// Checks the entries of both tables.
fn check_entries<S: Alter, F: Format>(
    alloc: Global,
    conn: &mut Connection<S>,
) -> Result<(), JournalOpenFault>
    requires laid { WhileOpen (IsLaidBy F.layout) (state S.Store conn.old) }
    ensures holds { HasCleanDisk (state S.Store conn.new)
        → OnOk result (HoldsEntriesBy F.Format (state S.Store conn.old).now.trees) }
    ensures cause { HasCleanDisk (state S.Store conn.new)
        → IfErr result (IsFor ⊥ (IsTrue (state S.Store conn.new).is_open
        × (HoldsEntriesBy F.Format (state S.Store conn.old).now.trees → ⊥))) }
    ensures checks { Checks OpenFailsFor (state S.Store conn.old) (state S.Store conn.new) result }
{
    let users = list_entries::<S, F>(alloc, conn, Kind::User)?;
    let groups = list_entries::<S, F>(alloc, conn, Kind::Group)?;
    check_lists(alloc, users.as_slice(), groups.as_slice())
}

// ---- the store

/// Checks the format and each row.
fn check_laid<S: Alter, F: Format>(
    alloc: Global,
    conn: &mut Connection<S>,
) -> Result<(), JournalOpenFault>
    requires laid { WhileOpen (IsLaidBy F.layout) (state S.Store conn.old) }
    ensures store { HasCleanDisk (state S.Store conn.new)
        → OnOk result ((entries : EntryMap) × IsStoreBy F.Format (state S.Store conn.old) entries) }
    ensures cause { HasCleanDisk (state S.Store conn.new)
        → IfErr result
        (IsFor (IsNewer (state S.Store conn.old))
        (ShowsDamageBy F.Format (state S.Store conn.old))) }
    ensures checks { Checks OpenFailsFor (state S.Store conn.old) (state S.Store conn.new) result }
{
    check_format::<S, F>(conn)?;
    check_numbers::<S, F>(conn)?;
    check_entries::<S, F>(alloc, conn)
}

/// Whether the tables are laid out and no transaction is open.
fn is_laid<S: Alter, F: Marked>(conn: &Connection<S>) -> bool
    ensures is { IsTrue result → IsTrue (state S.Store conn.now).is_open
        → IsLaidBy F.layout (state S.Store conn.now) }
    ensures one { IsTrue result → IsOne F.layout (state S.Store conn.now).now.schema }
    ensures not { result ≡ false → IsNotLaidBy F.layout (state S.Store conn.now) }
{
    conn.is_autocommit() && F::is_laid_out(conn.schema())
}

/// Checks the tables, their format and each row.
pub(crate) fn check_tables<S: Alter, F: Format>(
    alloc: Global,
    conn: &mut Connection<S>,
) -> Result<(), JournalOpenFault>
    ensures store { HasCleanDisk (state S.Store conn.new)
        → OnOk result ((entries : EntryMap) × IsStoreBy F.Format (state S.Store conn.old) entries) }
    ensures cause { HasCleanDisk (state S.Store conn.new)
        → IfErr result
        (IsFor (IsNewer (state S.Store conn.old)) (IsNotLaidBy F.layout (state S.Store conn.old)
        ⊎ IsSpoiltBy F.Format (state S.Store conn.old))) }
    ensures checks { Checks OpenFailsFor (state S.Store conn.old) (state S.Store conn.new) result }
    ensures left { HasCleanDisk (state S.Store conn.new)
        → LeavesStore (state S.Store conn.old) (state S.Store conn.new) }
{
    if is_laid::<S, F>(conn) {
        check_laid::<S, F>(alloc, conn)
    } else {
        Err(JournalOpenFault::Damaged)
    }
}

/// Checks the tables of an older format, and carries them over.
fn open_older<S: Alter, F: Older>(
    alloc: Global,
    conn: &mut Connection<S>,
) -> Result<(), JournalOpenFault>
    requires outside { (state S.Store conn.old).in_transaction ≡ false }
    requires older { IsOne F.layout (state S.Store conn.old).now.schema }
    ensures stands { HasCleanDisk (state S.Store conn.new)
        → OnOk result ((entries : EntryMap)
        × IsCarriedBy F.Format (state S.Store conn.old) (state S.Store conn.new) entries
        × IsStore (state S.Store conn.new) entries) }
    ensures cause { HasCleanDisk (state S.Store conn.new)
        → IfErr result
        (IsFor (IsNewer (state S.Store conn.old)) (IsSpoiltBy F.Format (state S.Store conn.old))) }
    ensures open { HasCleanDisk (state S.Store conn.new)
        → OnOk result (IsTrue (state S.Store conn.new).is_open) }
    ensures left { HasCleanDisk (state S.Store conn.new)
        → OnErr result (LeavesStore (state S.Store conn.old) (state S.Store conn.new)) }
    ensures stop { Survives (state S.Store conn.old) (state S.Store conn.new)
        (LeavesCarriedBy F.Format (state S.Store conn.old)) }
{
    check_tables::<S, F>(alloc, conn)?;
    if !conn.is_autocommit() {
        return Err(JournalOpenFault::Store);
    }
    match carry::<S, F>(conn) {
        Ok(()) => Ok(()),
        Err(error) => Err(JournalOpenFault::from(error)),
    }
}

/// Refuses tables that are of no known format: they may be those of a newer one.
fn refuse_foreign<S: Alter>(conn: &mut Connection<S>) -> Result<(), JournalOpenFault>
    requires outside { (state S.Store conn.old).in_transaction ≡ false }
    ensures refused { OnOk result ⊥ }
    ensures cause { HasCleanDisk (state S.Store conn.new)
        → IfErr result
        (IsFor (IsNewer (state S.Store conn.old))
        (HasFormatTable (state S.Store conn.old).now.schema → IsNewer (state S.Store conn.old)
        → ⊥)) }
    ensures checks { Checks OpenFailsFor (state S.Store conn.old) (state S.Store conn.new) result }
    ensures left { HasCleanDisk (state S.Store conn.new)
        → LeavesStore (state S.Store conn.old) (state S.Store conn.new) }
{
    if !is_laid::<S, Unknown>(conn) {
        return Err(JournalOpenFault::Damaged);
    }
    match mark_of::<S, Unknown>(conn, FORMAT) {
        Ok(Mark::Newer) => Err(JournalOpenFault::Newer),
        Ok(Mark::Own | Mark::Unmarked) => Err(JournalOpenFault::Damaged),
        Err(fault) => Err(fault),
    }
}

/// Whether the tables are those of an older format, which an opening carries over.
pub fn is_older<S: Alter>(conn: &Connection<S>) -> bool
    ensures is { IsTrue result → IsOlder (state S.Store conn.now).now.schema }
    ensures known { IsOlder (state S.Store conn.now).now.schema → IsTrue result }
{
    is_first(conn.schema()) || is_second(conn.schema())
}

/// Makes the tables if there are none, and carries those of an older format over. Otherwise it checks them.
pub(crate) fn open_tables<S: Alter>(
    alloc: Global,
    conn: &mut Connection<S>,
) -> Result<(), JournalOpenFault>
    ensures stands { HasCleanDisk (state S.Store conn.new)
        → OnOk result ((entries : EntryMap)
        × Becomes (state S.Store conn.old) (state S.Store conn.new) entries) }
    ensures cause { HasCleanDisk (state S.Store conn.new)
        → IfErr result (IsCause (state S.Store conn.old)) }
    ensures failed { HasCleanDisk (state S.Store conn.new)
        → IfErr result
        (OpenFailsFor (OpeningFails (state S.Store conn.old) (state S.Store conn.new))) }
    ensures open { HasCleanDisk (state S.Store conn.new)
        → OnOk result (IsTrue (state S.Store conn.new).is_open) }
    ensures left { HasCleanDisk (state S.Store conn.new)
        → OnErr result (LeavesStore (state S.Store conn.old) (state S.Store conn.new)) }
    ensures stop { Survives (state S.Store conn.old) (state S.Store conn.new)
        (LeavesStanding (state S.Store conn.old)) }
{
    if !conn.is_autocommit() {
        return Err(JournalOpenFault::Store);
    }
    if is_first(conn.schema()) {
        return open_older::<S, First>(alloc, conn);
    }
    if is_second(conn.schema()) {
        return open_older::<S, Second>(alloc, conn);
    }
    if is_journal(conn.schema()) {
        return check_tables::<S, Journal>(alloc, conn);
    }
    if !is_blank(conn.schema()) {
        return refuse_foreign(conn);
    }
    match make_tables(conn) {
        Ok(()) => Ok(()),
        Err(error) => Err(JournalOpenFault::from(error)),
    }
}
