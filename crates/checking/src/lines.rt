//! The lines of a check.
ghost use Rattle.std.specs.Prelude.{◌≡◌, None, OnOk, Some};
ghost use Rattle.std.specs.Io.KnownBytes.{Appends};
ghost use Rattle.checking.specs.Checks.{nothing_noted};
ghost use Rattle.checking.specs.Findings.{is_printed};
ghost use Rattle.checking.specs.Lines.{PrintsIf, above_text, counts_line, finding_line, finding_text, record_text};

use crate::beside::Beside;
use crate::counts::Counts;
use crate::differences::{Differences, RevisionIf};
use crate::findings::Finding;
use crate::telling::TellFinding;
use journal_core::kind_word;
use scim_key::RecordName;
use std::io::{Eprint, Write};
use std::{fmt, io};

/// What is printed behind the record's name: ` active: true, wanted false`, `: gone`, `: unchecked C4`, or
/// `: revision 7, above the wanted 2`.
impl fmt::Display for Finding {
    ghost output = { λ finding. Some (finding_text finding) };

    fn fmt<W: fmt::Write>(&self, f: &mut fmt::Formatter<W>) -> fmt::Result {
        match self {
            Finding::Found(beside) => write!(f, "{}", Differences(beside)),
            Finding::Above(beside) => write!(f, "{}", AboveWanted(beside)),
            Finding::Gone => f.write_str(": gone"),
            Finding::Unchecked(why) => write!(f, ": unchecked {why}"),
        }
    }
}

/// A revision above the wanted one.
#[derive(Clone, Copy)]
struct AboveWanted<'a>(&'a Beside);

impl<'a> fmt::Display for AboveWanted<'a> {
    ghost output = { λ it. Some (above_text it.0.now) };

    fn fmt<W: fmt::Write>(&self, f: &mut fmt::Formatter<W>) -> fmt::Result {
        let found = RevisionIf(self.0.found.content().revision());
        let wanted = RevisionIf(self.0.wanted.revision());
        write!(f, ": revision {found}, above the wanted {wanted}")
    }
}

/// A record and its finding: `user bob active: true, wanted false`.
#[derive(Clone, Copy)]
pub(crate) struct RecordFinding<'a> {
    pub name: &'a RecordName,
    pub finding: &'a Finding,
}

impl<'a> fmt::Display for RecordFinding<'a> {
    ghost output = { λ it. Some (record_text it.name.now it.finding.now) };

    fn fmt<W: fmt::Write>(&self, f: &mut fmt::Formatter<W>) -> fmt::Result {
        let (kind, key) = (kind_word(self.name.kind), self.name.key.as_str());
        write!(f, "{kind} {key}{}", self.finding)
    }
}

/// Prints a line for each record that differs or is unchecked; in a quiet run only for a record whose account is active
/// and shouldn't be, or the other way round, or that is unchecked.
#[derive(Drop)]
pub struct FindingLines<W: Drop> {
    pub out: W,
    pub is_quiet: bool,
}

impl<W: Write + Drop> FindingLines<W> {
    /// Prints the counts.
    pub fn conclude(&mut self, counts: Counts) -> io::Result<()>
        ensures { OnOk result (Appends (W.contents self.old.out) (W.contents self.new.out)
            (counts_line counts)) }
    {
        writeln!(self.out, "{counts}")?;
        self.out.flush()
    }
}

impl<W: Write + Drop> TellFinding for FindingLines<W> {
    type Note = ();

    ghost note = { nothing_noted };

    /// Which records the bytes of `out` are of isn't said; each line that is added is, below.
    ghost noted = { λ _. None };

    fn tell(&mut self, name: &RecordName, finding: &Finding) -> io::Result<()>
        ensures manner { self.new.is_quiet ≡ self.old.is_quiet }
        ensures line { OnOk result (PrintsIf (is_printed self.old.is_quiet finding.now)
            (W.contents self.old.out) (W.contents self.new.out) (finding_line name.now finding.now)) }
    {
        if !finding.is_printed(self.is_quiet) {
            return Ok(());
        }
        writeln!(self.out, "{}", RecordFinding { name, finding })?;
        self.out.flush()
    }
}

/// Reports the same records on standard error.
#[derive(Drop)]
pub struct FindingNotices<'a, E> {
    pub stderr: &'a E,
    pub is_quiet: bool,
}

impl<'a, E: Eprint> TellFinding for FindingNotices<'a, E> {
    type Note = ();

    ghost note = { nothing_noted };

    /// No contract says what standard error took.
    ghost noted = { λ _. None };

    fn tell(&mut self, name: &RecordName, finding: &Finding) -> io::Result<()> {
        if finding.is_printed(self.is_quiet) {
            let _ = eprintln!(self.stderr; "{}", RecordFinding { name, finding });
        }
        Ok(())
    }
}
