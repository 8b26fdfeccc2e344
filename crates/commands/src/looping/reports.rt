//! The lines of a run of `loop`, one for each row.
ghost use Rattle.std.specs.Prelude.{◌≡◌, ◌+◌, ◌-◌, ◌^◌, ◌∷◌, [], None, min, OnOk};
ghost use Rattle.std.specs.Io.KnownBytes.{Appends};
ghost use Rattle.provisioning.specs.Offering.{Hears};
ghost use Rattle.world_sim.specs.Lines.{report_text};
ghost use Rattle.world_sim.specs.declared.reports.Report.TheVariants.{Judged as JudgedReport};
ghost use Rattle.commands.specs.Loops.{row_line};

use provisioning::{Hear, Judged, Pushed, Tell, report_older};
use scim_key::RecordName;
use std::io;
use std::io::{Eprint, Write};
use world_sim::Report;

/// Prints a line for each row once its file is taken: its number from 1, and the connector's verdict. It
/// reports older rows on standard error, and prints nothing for records.
#[derive(Drop)]
pub(crate) struct Reports<'a, W: Drop, E> {
    pub out: W,
    pub stderr: &'a E,
    pub rows: usize,
}

impl<'a, W: Write + Drop, E: Eprint> Hear for Reports<'a, W, E> {
    /// Which rows the bytes of `out` are of isn't said; each line that is added is, below.
    ghost heard = { λ _. None };

    fn hear(&mut self, judged: Judged) -> io::Result<()>
        ensures hears { OnOk result (Hears None None (judged ∷ [])) }
        ensures line { OnOk result (Appends (W.contents self.old.out) (W.contents self.new.out)
            (row_line self.new.rows (report_text (JudgedReport judged.verdict)))) }
        ensures counted { self.new.rows ≡ min (self.old.rows + 1) (2 ^ 64 - 1) }
    {
        report_older(self.stderr, &judged);
        let Judged { verdict, .. } = judged;
        self.rows = self.rows.saturating_add(1);
        print_row(&mut self.out, self.rows, &Report::Judged(verdict))
    }
}

/// Prints the line of the row with this number.
fn print_row<W: Write>(out: &mut W, number: usize, report: &Report) -> io::Result<()>
    ensures { OnOk result (Appends (W.contents out.old) (W.contents out.new)
        (row_line number (report_text report.now))) }
{
    writeln!(out, "{number} {report}")?;
    out.flush()
}

impl<'a, W: Write + Drop, E: Eprint> Tell for Reports<'a, W, E> {
    /// Nothing is printed.
    ghost told = { λ _. None };

    fn tell(&mut self, _: &RecordName, _: &Pushed) -> io::Result<()> {
        Ok(())
    }
}
