//! Queries and writes on the tables of a layout.
ghost use Rattle.std.specs.Prelude.{◌≡◌, Err, IfErr, IfOk, OnOk, OnErr};
ghost use Rattle.sqlite.specs.Held.{state};
ghost use Rattle.sqlite.specs.State.{Executes, FailsToQuery, HasCleanDisk, Survives};
ghost use Rattle.sqlite.specs.Values.{bound};
ghost use Rattle.sqlite_schema.specs.declared.schema.Schema.{Schema as SchemaData};
ghost use Rattle.sql_tables.specs.Faults.{statement_fault};
ghost use Rattle.sql_tables.specs.Layouts.{IsLaid};
ghost use Rattle.sql_tables.specs.Statements.{Answers, Checks, ErrorFailsFor, IsEditText, IsGiven, IsQuery, Keeps, MayLeave, Ran, RanOn, WhileOpen};

use scim_key::StoreFault;
use sqlite::{Alter, Connection, Error, ErrorCode, Row};
use sqlite_value::value::ValueRef;

/// A layout of tables: a schema for each form. A form has what SQLite chooses.
pub trait Layout {
    ghost form: { Type 0 };

    ghost layout: { form → SchemaData };
}

/// The store's fault for an error of a statement.
pub fn statement_fault(error: Error) -> StoreFault
    ensures { result ≡ statement_fault error }
{
    match error {
        Error::SqliteFailure(ErrorCode::OutOfMemory) => StoreFault::Memory,
        _ => StoreFault::Store,
    }
}

/// The rows that a query returns.
pub fn ask<S: Alter, L: Layout>(
    conn: &mut Connection<S>,
    sql: &str,
    params: &[ValueRef<'_>],
) -> Result<Vec<Row>, Error>
    requires query { IsQuery L.layout sql.now }
    requires given { IsGiven L.layout sql.now (bound params.now) }
    requires laid { WhileOpen (IsLaid L.layout) (state S.Store conn.old) }
    ensures rows { HasCleanDisk (state S.Store conn.new)
        → IfOk result
        (λ rows. Answers sql.now (bound params.now) (state S.Store conn.old) rows.items) }
    ensures fails { HasCleanDisk (state S.Store conn.new)
        → IfErr result
        (FailsToQuery sql.now (bound params.now) (state S.Store conn.old)
        (state S.Store conn.new)) }
    ensures checks { Checks ErrorFailsFor (state S.Store conn.old) (state S.Store conn.new) result }
{
    let statement = conn.prepare(sql)?;
    statement.query_all(conn, params)
}

/// Runs one write, which commits by itself. Returns how many rows it changed.
pub fn write<S: Alter, L: Layout>(
    conn: &mut Connection<S>,
    sql: &str,
    params: &[ValueRef<'_>],
) -> Result<usize, Error>
    requires edit { IsEditText L.layout sql.now }
    requires laid { WhileOpen (IsLaid L.layout) (state S.Store conn.old) }
    ensures ran { HasCleanDisk (state S.Store conn.new)
        → OnOk result
        (Ran sql.now (bound params.now) (state S.Store conn.old) (state S.Store conn.new)) }
    ensures count { HasCleanDisk (state S.Store conn.new)
        → IfOk result
        (RanOn sql.now (bound params.now) (state S.Store conn.old) (state S.Store conn.new)) }
    ensures fails { HasCleanDisk (state S.Store conn.new)
        → IfErr result
        (λ e. Executes sql.now (bound params.now) (state S.Store conn.old) (state S.Store conn.new)
        (Err e)) }
    ensures keeps { HasCleanDisk (state S.Store conn.new)
        → OnErr result (Keeps (state S.Store conn.old) (state S.Store conn.new)) }
    ensures stop { Survives (state S.Store conn.old) (state S.Store conn.new)
        (MayLeave sql.now (bound params.now) (state S.Store conn.old)) }
{
    let statement = conn.prepare(sql)?;
    statement.execute(conn, params)
}
