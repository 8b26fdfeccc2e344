//! The row that has the number of the format.
ghost use Rattle.std.specs.Prelude.{[], IfOk};
ghost use Rattle.sqlite.specs.Held.{state};
ghost use Rattle.sqlite.specs.State.{HasCleanDisk};
ghost use Rattle.sql_tables.specs.Layouts.{IsFormat, IsLaid, IsMark, IsMarked};
ghost use Rattle.sql_tables.specs.Statements.{Checks, ErrorFailsFor, IsGiven, IsQuery, ShowsFormat, WhileOpen};

use crate::columns::number_at;
use crate::statements::{Layout, ask};
use sqlite::{Alter, Connection, Error, Row};

/// What the number of the format means for the format that was asked for.
#[derive(Clone, Copy)]
pub enum Mark {
    Own,
    Newer,
    /// There isn't one number, equal to the format's own or greater.
    Unmarked,
}

/// Reads the number of the format by this query.
pub fn find_mark<S: Alter, L: Layout>(
    conn: &mut Connection<S>,
    sql: &str,
    own: u64,
) -> Result<Mark, Error>
    requires query { IsQuery L.layout sql.now }
    requires given { IsGiven L.layout sql.now [] }
    requires shows { ShowsFormat L.layout sql.now }
    requires laid { WhileOpen (IsLaid L.layout) (state S.Store conn.old) }
    ensures mark { HasCleanDisk (state S.Store conn.new)
        → IfOk result (IsMark (IsFormat (state S.Store conn.old)) own) }
    ensures checks { Checks ErrorFailsFor (state S.Store conn.old) (state S.Store conn.new) result }
{
    let rows = ask::<S, L>(conn, sql, &[])?;
    Ok(mark_in(rows.as_slice(), own))
}

/// What the rows show.
fn mark_in(rows: &[Row], own: u64) -> Mark
    ensures { IsMark (IsMarked rows.now) own result }
{
    let [row] = rows else {
        return Mark::Unmarked;
    };
    match number_at(row, 0) {
        Some(number) if number == own => Mark::Own,
        Some(number) if number > own => Mark::Newer,
        _ => Mark::Unmarked,
    }
}
