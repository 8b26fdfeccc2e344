//! `reset`: has a journal forget what the provider has shown.
ghost use Rattle.std.specs.Prelude.{◌≡◌, IfOk};
ghost use Rattle.clap.specs.Matches.{found_of};
ghost use Rattle.storage.specs.Resetting.{ShowsReset};
ghost use Rattle.commands.specs.Running.{EndsResetting, IsResetAt, IsResetOf};
ghost use Rattle.commands.specs.Scopes.{record_texts};
ghost use Rattle.commands.specs.declared.status.Status.TheVariants.{Usage};

use crate::endings::reset_status;
use crate::output::{NotedWriter, standard_output};
use crate::scopes::{Named, records};
use crate::status::{CommandFault, Status};
use clap::ArgMatches;
use journal_core::{Printable, kind_word};
use journal_store::{ResetResult, Scope};
use std::alloc::Global;
use std::io::{Eprint, Write};
use std::rt::Runtime;
use storage::{EntryStorage, ShowFault, reset_entries};

/// Forgets the confirmed revision and the id of each record of a journal, or of the named records, and
/// prints how many records this changed. If one isn't in the journal, it reports the first such on standard error,
/// and changes nothing. If there is no such file, it makes none.
pub fn reset<R: Runtime + AllocGlobal, J: EntryStorage>(
    rt: &R,
    words: &ArgMatches<'_>,
    journal: Option<&J>,
) -> Result<Status, CommandFault>
    ensures { IfOk result (IsResetAt J.Entries.Journal J.finds (record_texts (found_of words.now))
        journal.entry) }
{
    match records(rt.alloc(), words)? {
        Named::Scope(scope) => reset_scope(rt, &scope, journal),
        Named::Wrong(text) => Ok(told_wrong(rt, text)),
    }
}

/// Reports a word that names no record.
fn told_wrong(stderr: &impl Eprint, text: &str) -> Status
    ensures { result ≡ Usage }
{
    let word = Printable(text.as_bytes());
    let _ = eprintln!(stderr; "error: '{word}' isn't user:LOGIN or group:NAME");
    Status::Usage
}

/// Resets these records of a journal.
#[tactic(auto, using(crate::proofs::ScopeLemmas::reset_ended))]
fn reset_scope<R: Runtime + AllocGlobal, J: EntryStorage>(
    rt: &R,
    scope: &Scope,
    journal: Option<&J>,
) -> Result<Status, CommandFault>
    ensures { IfOk result (IsResetOf J.Entries.Journal J.finds scope.now journal.entry) }
{
    let journal = journal.ok_or(CommandFault::File)?;
    let mut out = standard_output(rt)?;
    print_reset(rt, rt.alloc(), journal, scope, &mut out)
}

/// Resets these records of a journal, and prints how many this changed.
fn print_reset<J: EntryStorage, W: Write + Drop>(
    stderr: &impl Eprint,
    alloc: Global,
    journal: &J,
    scope: &Scope,
    out: &mut NotedWriter<W>,
) -> Result<Status, CommandFault>
    ensures { EndsResetting (ShowsReset J.Entries.Journal (J.finds journal.now) scope.now
        (W.contents out.old.inner) (W.contents out.new.inner)) out.new.last result }
{
    let shown = reset_entries(alloc, journal, scope, out);
    tell_absent(stderr, &shown);
    out.concluded(reset_status(shown))
}

/// Reports the record that isn't in the journal, if there is one.
fn tell_absent(stderr: &impl Eprint, shown: &Result<ResetResult, ShowFault>) {
    if let Ok(ResetResult::Absent(name)) = shown {
        let (kind, key) = (kind_word(name.kind), name.key.as_str());
        let _ = eprintln!(stderr; "{kind}:{key} isn't in the journal");
    }
}
