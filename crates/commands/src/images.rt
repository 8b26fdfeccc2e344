//! `map`: prints the image of each row of a users file, one line each. It reads the file once, and holds one
//! record.
ghost use Rattle.std.specs.Prelude.{◌≡◌, IfErr, IfOk};
ghost use Rattle.std.specs.Io.KnownBytes.{Keeps};
ghost use Rattle.commands.specs.Images.{EndsPrinting, IsMapFault, IsMapped, Prints, PrintsNext};
ghost use Rattle.commands.specs.Statuses.{status_of_rows};

use crate::output::{NotedWriter, standard_output};
use crate::status::{CommandFault, Part, Status, unread_fault};
use crate::words::file;
use clap::ArgMatches;
use mapping::{WriteFault, write_record};
use scim_key::Kind;
use source_csv::{Multiline, Row, RowFault, RowReader, multiline_at};
use std::alloc::Global;
use std::fs::File;
use std::io::{Eprint, Read, Write};
use std::rt::Runtime;

/// Prints the images of the rows of a file. It reports the rejected records, and those with a field over several
/// lines, on standard error.
pub fn map<R: Runtime + AllocGlobal>(rt: &R, words: &ArgMatches<'_>) -> Result<Status, CommandFault>
    ensures { IfOk result IsMapped }
{
    let file = File::open(rt, file(words)?).map_err(|error| unread_fault(Part::File, error))?;
    let mut rows = RowReader::open(rt.alloc(), Kind::User, file)?;
    let mut out = standard_output(rt)?;
    map_rows(rt, rt.alloc(), &mut rows, &mut out)
}

/// Prints the images of the rows of a file that was opened.
fn map_rows<E: Eprint, R: Read + Drop, W: Write + Drop>(
    stderr: &E,
    alloc: Global,
    rows: &mut RowReader<R>,
    out: &mut NotedWriter<W>,
) -> Result<Status, CommandFault>
    ensures { EndsPrinting rows.old (W.contents out.old.inner) (W.contents out.new.inner)
        out.new.last result }
{
    let ended = print_images(stderr, alloc, rows, out);
    out.concluded(ended)
}

/// Prints the images of all records that are left, a line each, and returns the exit status. It reports on
/// standard error each record that is rejected or has a field over several lines. It holds one record and one
/// line. More records than `u64` counts are out of memory.
pub fn print_images<E: Eprint, R: Read + Drop, W: Write>(
    stderr: &E,
    alloc: Global,
    rows: &mut RowReader<R>,
    out: &mut W,
) -> Result<Status, CommandFault>
    ensures prints { IfOk result (Prints rows.old (W.contents out.old) (W.contents out.new)) }
    ensures fault { IfErr result IsMapFault }
{
    let mut are_rows = true;
    for _ in 0..u64::MAX {
        match print_next(stderr, alloc, rows, out)? {
            Some(is_row) => are_rows = are_rows && is_row,
            None => {
                flush(out)?;
                return Ok(status_of_rows(are_rows));
            }
        }
    }
    Err(CommandFault::Memory)
}

/// Prints the image of the next record, and returns whether it was read as a row. `None` if no record is
/// left.
fn print_next<E: Eprint, R: Read + Drop, W: Write>(
    stderr: &E,
    alloc: Global,
    rows: &mut RowReader<R>,
    out: &mut W,
) -> Result<Option<bool>, CommandFault>
    ensures prints { IfOk result
        (PrintsNext rows.old rows.new (W.contents out.old) (W.contents out.new)) }
    ensures fault { IfErr result IsMapFault }
{
    if !rows.read_next()? {
        return Ok(None);
    }
    let multiline = multiline_at(rows.place(), rows.record());
    let row = rows.row()?;
    let is_row = row.is_ok();
    tell(stderr, &row, multiline);
    write_record(alloc, row, out)?;
    Ok(Some(is_row))
}

/// Reports a record that is rejected, and one with a field over several lines: a quote may be missing there.
fn tell(stderr: &impl Eprint, row: &Result<Row, RowFault>, multiline: Option<Multiline>) {
    if let Err(fault) = row {
        let _ = eprintln!(stderr; "users {fault}");
    }
    if let Some(found) = multiline {
        let _ = eprintln!(stderr; "users {found}");
    }
}

/// Flushes what was printed.
fn flush<W: Write>(out: &mut W) -> Result<(), WriteFault>
    ensures { Keeps (W.contents out.old) (W.contents out.new) }
{
    Ok(out.flush()?)
}

/// The exit status of a run that printed the images of records, given whether each was read as a row.
fn status_of_rows(are_rows: bool) -> Status
    ensures { result ≡ status_of_rows are_rows }
{
    if are_rows {
        Status::Done
    } else {
        Status::Refused
    }
}
