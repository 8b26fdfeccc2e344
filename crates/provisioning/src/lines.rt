//! The lines of a run.
ghost use Rattle.std.specs.Prelude.{◌∷◌, [], None, OnOk};
ghost use Rattle.std.specs.Io.KnownBytes.{Appends};
ghost use Rattle.provisioning.specs.Runs.{Tells};
ghost use Rattle.provisioning.specs.Lines.{record_line, standing_text};

use crate::offering::{Hear, Judged};
use crate::older::OlderLine;
use crate::records::Pushed;
use crate::sources::label;
use crate::telling::Tell;
use connector_core::ChangeFault;
use journal_core::kind_word;
use scim_key::{Kind, RecordName};
use std::io::{Eprint, Write};
use std::{fmt, io};

/// A row that the connector refuses. Its text is the line on standard error: `users record 2: S7`.
#[derive(Clone, Copy)]
struct RefusedRow<'a> {
    kind: Kind,
    place: usize,
    fault: &'a ChangeFault,
}

impl<'a> fmt::Display for RefusedRow<'a> {
    ghost use Rattle.std.specs.Prelude.{Some};
    ghost use Rattle.provisioning.specs.Lines.{refused_text};

    ghost output = { λ row. Some (refused_text row.kind row.place row.fault.now) };

    fn fmt<W: fmt::Write>(&self, f: &mut fmt::Formatter<W>) -> fmt::Result {
        write!(
            f,
            "{} record {}: {}",
            label(self.kind),
            self.place,
            self.fault
        )
    }
}

/// Reports a row on standard error if the connector refuses it.
fn report_refused<E: Eprint>(stderr: &E, judged: &Judged) {
    if let Err(fault) = &judged.verdict {
        let row = RefusedRow {
            kind: judged.kind,
            place: judged.place,
            fault,
        };
        let _ = eprintln!(stderr; "{row}");
    }
}

/// Reports a row on standard error if it is older than the wanted row of its record.
pub fn report_older<E: Eprint>(stderr: &E, judged: &Judged) {
    if let Some(older) = &judged.older {
        let row = OlderLine {
            kind: judged.kind,
            place: judged.place,
            older,
        };
        let _ = eprintln!(stderr; "{row}");
    }
}

/// Reports rows as `Lines` does. It prints nothing.
#[derive(Clone, Copy)]
pub struct RowReports<'a, E> {
    pub stderr: &'a E,
}

impl<'a, E: Eprint> Hear for RowReports<'a, E> {
    /// No contract says what standard error took.
    ghost heard = { λ _. None };

    fn hear(&mut self, judged: Judged) -> io::Result<()> {
        report_refused(self.stderr, &judged);
        report_older(self.stderr, &judged);
        Ok(())
    }
}

/// Prints a line for each record as soon as the record is done: `user bob confirmed 1`. It reports rows
/// that the connector refuses, and older rows, on standard error.
#[derive(Drop)]
pub struct Lines<'a, W: Drop, E> {
    pub out: W,
    pub stderr: &'a E,
}

impl<'a, W: Write + Drop, E: Eprint> Hear for Lines<'a, W, E> {
    /// No contract says what standard error took.
    ghost heard = { λ _. None };

    fn hear(&mut self, judged: Judged) -> io::Result<()> {
        report_refused(self.stderr, &judged);
        report_older(self.stderr, &judged);
        Ok(())
    }
}

impl<'a, W: Write + Drop, E: Eprint> Tell for Lines<'a, W, E> {
    /// Which records the bytes of `out` are of isn't said; each line that is added is, below.
    ghost told = { λ _. None };

    fn tell(&mut self, name: &RecordName, pushed: &Pushed) -> io::Result<()>
        ensures tells { OnOk result (Tells None None ((name.now, pushed.now) ∷ [])) }
        ensures line { OnOk result (Appends (W.contents self.old.out) (W.contents self.new.out)
            (record_line name.now (standing_text pushed.now.standing))) }
    {
        let (kind, key) = (kind_word(name.kind), name.key.as_str());
        writeln!(self.out, "{kind} {key} {}", pushed.standing)?;
        self.out.flush()
    }
}
