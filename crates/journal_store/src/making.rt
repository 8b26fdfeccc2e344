//! Makes the tables of a journal.
ghost use Rattle.std.specs.Prelude.{◌≡◌, [], false, IsTrue, OnErr, OnOk};
ghost use Rattle.std.specs.FinMap.{empty};
ghost use Rattle.sqlite.specs.Held.{state};
ghost use Rattle.sqlite.specs.State.{HasCleanDisk, Survives};
ghost use Rattle.sql_tables.specs.Layouts.{IsBlank};
ghost use Rattle.sql_tables.specs.Statements.{GoesOn, IsInside, LeavesStore, WhileOpen};
ghost use Rattle.journal_store.specs.Older.Carrying.{MakesTables};
ghost use Rattle.journal_store.specs.Opening.{IsSecond, IsStore, LeavesNone};

use crate::older::carrying::{Older, make_first};
use crate::older::format::First;
use sqlite::{Alter, Connection, Error, Transaction};

/// Makes the tables of the entries, beside those of the second format.
pub(crate) fn make_entries<S: Alter>(tables: &mut Transaction<'_, S>) -> Result<(), Error>
    requires inside { IsInside (state S.Store tables.old.conn.now) }
    requires second { WhileOpen (λ s. IsSecond s.now.schema) (state S.Store tables.old.conn.now) }
    ensures same_reference { tables.new.conn.ghost_name ≡ tables.old.conn.ghost_name }
    ensures made { HasCleanDisk (state S.Store tables.new.conn.now)
        → OnOk result
        (MakesTables (state S.Store tables.old.conn.now) (state S.Store tables.new.conn.now)) }
    ensures goes_on { GoesOn (state S.Store tables.old.conn.now) (state S.Store tables.new.conn.now)
        result }
{
    tables.execute(
        "CREATE TABLE user_entry_3 (name_key TEXT PRIMARY KEY NOT NULL, login TEXT NOT NULL, revision INTEGER NOT NULL, number TEXT NOT NULL, given TEXT NOT NULL, family TEXT NOT NULL, mail TEXT NOT NULL, department TEXT NOT NULL, active INTEGER NOT NULL, confirmed INTEGER NOT NULL, id TEXT, epoch INTEGER NOT NULL, confirmed_epoch INTEGER NOT NULL)",
        &[],
    )?;
    tables.execute(
        "CREATE TABLE group_entry_3 (name_key TEXT PRIMARY KEY NOT NULL, name TEXT NOT NULL, revision INTEGER NOT NULL, members TEXT NOT NULL, confirmed INTEGER NOT NULL, id TEXT, epoch INTEGER NOT NULL, confirmed_epoch INTEGER NOT NULL)",
        &[],
    )?;
    Ok(())
}

/// Makes the tables, all or none.
pub(crate) fn make_tables<S: Alter>(conn: &mut Connection<S>) -> Result<(), Error>
    requires outside { (state S.Store conn.old).in_transaction ≡ false }
    requires blank { WhileOpen IsBlank (state S.Store conn.old) }
    ensures made { HasCleanDisk (state S.Store conn.new)
        → OnOk result (IsTrue (state S.Store conn.new).is_open × IsBlank (state S.Store conn.old)
        × IsStore (state S.Store conn.new) empty) }
    ensures left { HasCleanDisk (state S.Store conn.new)
        → OnErr result (LeavesStore (state S.Store conn.old) (state S.Store conn.new)) }
    ensures stop { Survives (state S.Store conn.old) (state S.Store conn.new) LeavesNone }
{
    let mut tables = conn.transaction();
    make_first(&mut tables)?;
    First::carry_over(&mut tables)?;
    tables.commit()
}
