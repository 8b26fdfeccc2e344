//! Resets the entries of a journal.
ghost use Rattle.std.specs.Prelude.{IfOk, OnOk};
ghost use Rattle.std.specs.Io.KnownBytes.{Appends};
ghost use Rattle.storage.specs.Resetting.{ResetsFrom, reset_line, ShowsAnswer, ShowsReset};

use crate::entry_storage::{EntryStorage, StoredEntries};
use crate::journal_lines::reset_line;
use crate::show_fault::{ShowFault, journal_fault};
use journal_store::{ResetResult, Scope};
use std::alloc::Global;
use std::io::Write;

/// Opens the entries, forgets what was learnt of these records, closes the entries, and writes a line with the number
/// of entries that this changed. If the line can't be written, the entries are reset all the same. If one of the
/// records isn't in the journal, nothing changes, and there is no line.
pub fn reset_entries<K: EntryStorage, W: Write>(
    alloc: Global,
    storage: &K,
    scope: &Scope,
    out: &mut W,
) -> Result<ResetResult, ShowFault>
    ensures { IfOk result
        (ShowsReset K.Entries.Journal (K.finds storage.now) scope.now (W.contents out.old)
        (W.contents out.new)) }
{
    let answer = reset_stored(storage, scope)?;
    write_answer(alloc, &answer, out)?;
    Ok(answer)
}

/// Opens the entries, forgets what was learnt of these records, and closes the entries.
fn reset_stored<K: EntryStorage>(storage: &K, scope: &Scope) -> Result<ResetResult, ShowFault>
    ensures { IfOk result (ResetsFrom K.Entries.Journal (K.finds storage.now) scope.now) }
{
    let Some(mut entries) = storage.find()? else {
        return Err(ShowFault::NoJournal);
    };
    let reset = entries.reset(scope);
    entries.close();
    reset.map_err(journal_fault)
}

/// Writes the line of a reset, and flushes. If a record isn't in the journal, there is no line.
fn write_answer<W: Write>(alloc: Global, answer: &ResetResult, out: &mut W) -> Result<(), ShowFault>
    ensures { OnOk result (ShowsAnswer (W.contents out.old) (W.contents out.new) answer.now) }
{
    match answer {
        ResetResult::Changed(count) => write_count(alloc, *count, out),
        ResetResult::Absent(_) => Ok(()),
    }
}

/// Writes the line of a reset that changed this many entries, and flushes.
fn write_count<W: Write>(alloc: Global, count: usize, out: &mut W) -> Result<(), ShowFault>
    ensures { OnOk result (Appends (W.contents out.old) (W.contents out.new) (reset_line count)) }
{
    let line = reset_line(alloc, count)?;
    out.write_all(line.as_bytes())?;
    Ok(out.flush()?)
}
