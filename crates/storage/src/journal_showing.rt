//! The entries of a journal as lines.
ghost use Rattle.std.specs.Prelude.{◌≡◌, OnOk};
ghost use Rattle.std.specs.Io.KnownBytes.{Appends};
ghost use Rattle.storage.specs.JournalLines.{lines_of};
ghost use Rattle.storage.specs.JournalShowing.{ReadsAndCloses, ShowsFrom, WritesEntries};

use crate::entry_storage::{EntryStorage, StoredEntries};
use crate::journal_lines::entry_line;
use crate::shared_ids::report_shared_ids;
use crate::show_fault::{ShowFault, journal_fault};
use journal_core::{Entry, Journal};
use std::alloc::Global;
use std::io::{Eprint, Write};

/// Opens the entries, writes a line for each (users by key, then groups by key), and closes them. It reports ids that
/// several records have on standard error.
pub fn show_entries<K: EntryStorage, W: Write>(
    stderr: &impl Eprint,
    alloc: Global,
    storage: &K,
    out: &mut W,
) -> Result<(), ShowFault>
    ensures { OnOk result
        (ShowsFrom K.Entries.Journal (K.finds storage.now) (W.contents out.old)
        (W.contents out.new)) }
{
    let Some(entries) = storage.find()? else {
        return Err(ShowFault::NoJournal);
    };
    show_opened(stderr, alloc, entries, out).0
}

/// Writes a line for each entry, and closes the entries, which were only read.
fn show_opened<E: StoredEntries, W: Write>(
    stderr: &impl Eprint,
    alloc: Global,
    mut entries: E,
    out: &mut W,
) -> (Result<(), ShowFault>, E::Left)
    ensures { ReadsAndCloses E.Journal E.is_closed (W.contents out.old) (W.contents out.new) entries result }
{
    let shown = write_entries(stderr, alloc, &mut entries, out);
    (shown, entries.close())
}

/// Writes a line for each entry (users by key, then groups by key), and flushes. After a fault, any part of
/// the lines may be written. Then it reports ids that several records have on standard error.
pub fn write_entries<J: Journal, W: Write>(
    stderr: &impl Eprint,
    alloc: Global,
    journal: &mut J,
    out: &mut W,
) -> Result<(), ShowFault>
    ensures unwritten { J.writes journal.new ≡ J.writes journal.old }
    ensures lines { J.is_faithful journal.new
        → OnOk result
        (WritesEntries (J.entries journal.old) (W.contents out.old) (W.contents out.new)) }
{
    let entries = journal.load().map_err(journal_fault)?;
    write_lines(alloc, entries.as_slice(), out)?;
    out.flush()?;
    Ok(report_shared_ids(stderr, alloc, entries.as_slice())?)
}

fn write_lines<W: Write>(alloc: Global, entries: &[Entry], out: &mut W) -> Result<(), ShowFault>
    ensures { OnOk result
        (Appends (W.contents out.old) (W.contents out.new) (lines_of entries.now)) }
{
    for entry in entries {
        let line = entry_line(alloc, entry)?;
        out.write_all(line.as_bytes())?;
    }
    Ok(())
}
