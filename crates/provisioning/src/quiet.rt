//! The lines of a quiet run: the records that aren't confirmed, and at the end how many there were of each.
ghost use Rattle.std.specs.Prelude.{◌≡◌, ◌∷◌, [], None, OnOk, Some, min, ◌+◌, ◌-◌, ◌^◌};
ghost use Rattle.std.specs.Io.KnownBytes.{Appends};
ghost use Rattle.std.specs.List.{count_by};
ghost use Rattle.std.specs.Result.{is_err};
ghost use Rattle.provisioning.specs.Lines.{record_line, standing_text};
ghost use Rattle.provisioning.specs.Offering.{Hears};
ghost use Rattle.provisioning.specs.Quiet.{PrintsUnless, counts_line, counts_text, rejected_in, with_record, with_row};
ghost use Rattle.provisioning.specs.Runs.{Tells, is_confirmed};

use crate::lines::Lines;
use crate::offering::{Hear, Judged};
use crate::pushing::is_confirmed;
use crate::records::{Pushed, Standing};
use crate::sources::Sources;
use crate::telling::Tell;
use connector_core::{ChangeFault, Verdict};
use scim_key::RecordName;
use source_csv::{Row, RowFault};
use std::io::{Eprint, Write};
use std::{fmt, io};

/// How many records are confirmed and unconfirmed, and how many rows were rejected; up to the greatest `u64`. Its text
/// is `3000 confirmed, 2 unconfirmed, 1 rejected`.
#[derive(Clone, Copy)]
pub(crate) struct Counts {
    confirmed: u64,
    unconfirmed: u64,
    rejected: u64,
}

impl fmt::Display for Counts {
    ghost output = { λ counts. Some (counts_text counts) };

    fn fmt<W: fmt::Write>(&self, f: &mut fmt::Formatter<W>) -> fmt::Result {
        let (confirmed, unconfirmed) = (self.confirmed, self.unconfirmed);
        let rejected = self.rejected;
        write!(
            f,
            "{confirmed} confirmed, {unconfirmed} unconfirmed, {rejected} rejected"
        )
    }
}

impl Counts {
    /// The counts before the first row.
    fn of(rejected: u64) -> Counts
        ensures { result ≡ record { confirmed = 0; unconfirmed = 0; rejected = rejected } }
    {
        Counts {
            confirmed: 0,
            unconfirmed: 0,
            rejected,
        }
    }

    /// The counts with one row more.
    fn with_row(self, verdict: &Result<Verdict, ChangeFault>) -> Counts
        ensures { result ≡ with_row self verdict.now }
    {
        match verdict {
            Ok(_) => self,
            Err(_) => Counts {
                rejected: self.rejected.saturating_add(1),
                ..self
            },
        }
    }

    /// The counts with one record more.
    fn with_record(self, standing: &Standing) -> Counts
        ensures { result ≡ with_record self standing.now }
    {
        if is_confirmed(standing) {
            Counts {
                confirmed: self.confirmed.saturating_add(1),
                ..self
            }
        } else {
            Counts {
                unconfirmed: self.unconfirmed.saturating_add(1),
                ..self
            }
        }
    }
}

/// Prints a line for each record that isn't confirmed, as `Lines` does, and counts all of them. It reports the rows
/// that `Lines` reports.
#[derive(Drop)]
pub(crate) struct QuietLines<'a, W: Drop, E> {
    pub lines: Lines<'a, W, E>,
    counts: Counts,
}

impl<'a, W: Write + Drop, E: Eprint> QuietLines<'a, W, E> {
    /// The lines of a run over these files. Their records that are no rows are rejected already.
    pub fn over(lines: Lines<'a, W, E>, sources: &Sources) -> QuietLines<'a, W, E>
        ensures lines { result.lines ≡ lines.entry }
        ensures counts { result.counts ≡ record {
          confirmed = 0;
          unconfirmed = 0;
          rejected = rejected_in sources.now;
        } }
    {
        QuietLines {
            lines,
            counts: Counts::of(rejected_in(sources)),
        }
    }

    /// Prints the counts.
    pub fn conclude(&mut self) -> io::Result<()>
        ensures { OnOk result (Appends (W.contents self.old.lines.out)
            (W.contents self.new.lines.out) (counts_line self.old.counts)) }
    {
        writeln!(self.lines.out, "{}", self.counts)?;
        self.lines.out.flush()
    }
}

impl<'a, W: Write + Drop, E: Eprint> Hear for QuietLines<'a, W, E> {
    /// No contract says what standard error took.
    ghost heard = { λ _. None };

    fn hear(&mut self, judged: Judged) -> io::Result<()>
        ensures hears { OnOk result (Hears None None (judged ∷ [])) }
        ensures counts { self.new.counts ≡ with_row self.old.counts judged.verdict }
    {
        self.counts = self.counts.with_row(&judged.verdict);
        self.lines.hear(judged)
    }
}

impl<'a, W: Write + Drop, E: Eprint> Tell for QuietLines<'a, W, E> {
    /// Which records the bytes of the lines are of isn't said; each line that is added is, below.
    ghost told = { λ _. None };

    fn is_quiet(&self) -> bool {
        true
    }

    fn tell(&mut self, name: &RecordName, pushed: &Pushed) -> io::Result<()>
        ensures tells { OnOk result (Tells None None ((name.now, pushed.now) ∷ [])) }
        ensures counts { self.new.counts ≡ with_record self.old.counts pushed.now.standing }
        ensures line { OnOk result (PrintsUnless (is_confirmed pushed.now.standing)
            (W.contents self.old.lines.out) (W.contents self.new.lines.out)
            (record_line name.now (standing_text pushed.now.standing))) }
    {
        self.counts = self.counts.with_record(&pushed.standing);
        if is_confirmed(&pushed.standing) {
            return Ok(());
        }
        self.lines.tell(name, pushed)
    }
}

/// How many records of the files are no rows.
fn rejected_in(sources: &Sources) -> u64
    ensures { result ≡ rejected_in sources.now }
{
    let users = rejected_among(sources.users.records()) as u64;
    match &sources.groups {
        Some(groups) => users.saturating_add(rejected_among(groups.records()) as u64),
        None => users,
    }
}

/// How many of these records are no rows.
fn rejected_among(records: &[Result<Row, RowFault>]) -> usize
    ensures { result ≡ count_by is_err records.now }
{
    records.iter().filter(|record| is_rejected(record)).count()
}

fn is_rejected(found: &Result<Row, RowFault>) -> bool
    ensures { result ≡ is_err found.now }
{
    found.is_err()
}
