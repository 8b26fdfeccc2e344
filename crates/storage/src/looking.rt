//! Looks at a journal in files: nothing is made, and nothing is carried over.
ghost use Rattle.std.specs.Prelude.{◌≡◌, IfErr, IfOk, IsTrue, MatchOption, ⊤};
ghost use Rattle.sqlite.specs.Held.{state};
ghost use Rattle.sqlite.specs.State.{Survives};
ghost use Rattle.storage.specs.JournalOpened.{FindsEntries, IsOpenedAt, LeavesEntries, OpensFrom};
ghost use Rattle.storage.specs.Looking.{IsUnseen, LooksAt, LooksOlder};

use crate::database::{Remains, closed, connected};
use journal_core::Journal;
use journal_store::{JournalOpenFault, SqlJournal, is_older};
use sql_tables::is_blank;
use sqlite::{Alter, Connection, Error, FileStore};
use sqlite_disk::{Disk, Files};
use std::alloc::{AllocGlobal, Global};
use std::random::RandomSource;

/// Why a journal couldn't be looked at. Its contents are unchanged.
#[derive(Clone, Copy)]
pub enum LookFault {
    /// It is of an older format, which an opening carries over.
    Older,
    /// An opening refuses it.
    Refused(JournalOpenFault),
}

impl From<JournalOpenFault> for LookFault {
    ghost use Rattle.storage.specs.declared.looking.LookFault.TheVariants.{Refused};

    ghost from_gives = { λ opening fault. fault ≡ Refused opening };

    fn from(fault: JournalOpenFault) -> LookFault {
        LookFault::Refused(fault)
    }
}

impl From<Error> for LookFault {
    fn from(error: Error) -> LookFault {
        LookFault::Refused(JournalOpenFault::from(error))
    }
}

/// The journal of files, if they have tables. If they are refused, what is left of them is handed back: they have
/// what they held.
pub(crate) fn seen_in<D: Disk + Drop>(
    rt: &(impl RandomSource + AllocGlobal),
    files: Files<D>,
) -> Result<Option<SqlJournal<FileStore<D>>>, (LookFault, Remains<D>)>
    requires log { IsTrue (D.Disk.is_usable files.log) }
    requires db { IsTrue (D.Disk.is_usable files.db) }
    ensures opened { IfOk result (λ seen. MatchOption seen ⊤
        (IsOpenedAt ⟦<SqlJournal<FileStore<D>> as Journal>⟧ (FindsEntries D.Disk files))) }
    ensures unwritten { IfOk result (LooksAt files) }
    ensures older { IfErr result (λ e. LooksOlder files e.0 e.1) }
    ensures refused { IfErr result (λ e. LeavesEntries files e.1) }
{
    let conn = match connected(rt, files) {
        Ok(conn) => conn,
        Err(refused) => {
            let fault = LookFault::Refused(JournalOpenFault::from(refused.0));
            return Err((fault, Err(refused)));
        }
    };
    match seen_of(rt.alloc(), conn) {
        Ok(entries) => Ok(Some(entries)),
        Err((Some(fault), conn)) => Err((fault, Ok(conn))),
        Err((None, conn)) => {
            let _ = closed(conn);
            Ok(None)
        }
    }
}

/// The journal of a connection. Otherwise the connection is handed back: without a fault if it has no tables.
fn seen_of<S: Alter>(
    alloc: Global,
    conn: Connection<S>,
) -> Result<SqlJournal<S>, (Option<LookFault>, Connection<S>)>
    ensures opened { IfOk result (OpensFrom S.Store (state S.Store conn)) }
    ensures unwritten { IfOk result
        (λ journal. Survives (state S.Store conn) (state S.Store journal.conn) (λ _. ⊥)) }
    ensures unseen { IfErr result
        (λ e. IsUnseen S.Store conn e.1 e.0) }
{
    if is_older(&conn) {
        return Err((Some(LookFault::Older), conn));
    }
    if is_blank(conn.schema()) {
        return Err((None, conn));
    }
    match SqlJournal::open(alloc, conn) {
        Ok(entries) => Ok(entries),
        Err((fault, conn)) => Err((Some(LookFault::from(fault)), conn)),
    }
}
