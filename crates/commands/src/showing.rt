//! `show`: prints what a file keeps, one line each.
ghost use Rattle.std.specs.Prelude.{IfOk};
ghost use Rattle.storage.specs.JournalShowing.{ShowsFrom as ShowsEntries};
ghost use Rattle.storage.specs.StoreShowing.{ShowsFrom as ShowsRows};
ghost use Rattle.commands.specs.Running.{AreEntriesShown, AreRowsShown, EndsShowing, IsShown};

use crate::endings::shown_status;
use crate::output::{NotedWriter, standard_output};
use crate::status::{CommandFault, Status};
use std::alloc::Global;
use std::io::{Eprint, Write};
use std::rt::Runtime;
use storage::{EntryStorage, RowStorage, show_entries, show_rows};

/// Prints what one of the files keeps: the rows of a provider, in order of creation, or the entries of a
/// connector, users by key, then groups by key.
pub fn show<R: Runtime + AllocGlobal, K: RowStorage, J: EntryStorage>(
    rt: &R,
    store: Option<&K>,
    journal: Option<&J>,
) -> Result<Status, CommandFault>
    ensures { IfOk result (IsShown K.Rows.Registry K.finds J.Entries.Journal J.finds store.entry
        journal.entry) }
{
    match (store, journal) {
        (Some(store), None) => show_store(rt, store),
        (None, Some(journal)) => show_journal(rt, journal),
        (Some(_), Some(_)) | (None, None) => Err(CommandFault::Show),
    }
}

fn show_store<R: Runtime + AllocGlobal, K: RowStorage>(
    rt: &R,
    store: &K,
) -> Result<Status, CommandFault>
    ensures { IfOk result (AreRowsShown K.Rows.Registry (K.finds store.now)) }
{
    let mut out = standard_output(rt)?;
    print_rows(rt.alloc(), store, &mut out)
}

/// Prints the rows of a store.
fn print_rows<K: RowStorage, W: Write + Drop>(
    alloc: Global,
    store: &K,
    out: &mut NotedWriter<W>,
) -> Result<Status, CommandFault>
    ensures { EndsShowing (ShowsRows K.Rows.Registry (K.finds store.now) (W.contents out.old.inner)
        (W.contents out.new.inner)) out.new.last result }
{
    let shown = show_rows(alloc, store, out);
    out.concluded(shown_status(shown))
}

fn show_journal<R: Runtime + AllocGlobal, J: EntryStorage>(
    rt: &R,
    journal: &J,
) -> Result<Status, CommandFault>
    ensures { IfOk result (AreEntriesShown J.Entries.Journal (J.finds journal.now)) }
{
    let mut out = standard_output(rt)?;
    print_entries(rt, rt.alloc(), journal, &mut out)
}

/// Prints the entries of a journal.
fn print_entries<J: EntryStorage, W: Write + Drop>(
    stderr: &impl Eprint,
    alloc: Global,
    journal: &J,
    out: &mut NotedWriter<W>,
) -> Result<Status, CommandFault>
    ensures { EndsShowing (ShowsEntries J.Entries.Journal (J.finds journal.now) (W.contents out.old.inner)
        (W.contents out.new.inner)) out.new.last result }
{
    let shown = show_entries(stderr, alloc, journal, out);
    out.concluded(shown_status(shown))
}
