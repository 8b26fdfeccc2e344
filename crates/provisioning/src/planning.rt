//! A run that is looked at before it happens.
ghost use Rattle.std.specs.Prelude.{◌≡◌, ◌++◌, ◌&&◌, IfErr, IfOk, OnOk, codes};
ghost use Rattle.std.specs.Io.KnownBytes.{Appends};
ghost use Rattle.std.specs.List.{count_by};
ghost use Rattle.connector_core.specs.Maps.{book_of};
ghost use Rattle.provisioning.specs.Changes.{changes_from};
ghost use Rattle.provisioning.specs.Bases.{is_among, row_in};
ghost use Rattle.provisioning.specs.Leavers.{is_switched_off};
ghost use Rattle.provisioning.specs.Plans.{Plans, WritesPlan, plan_line, plan_lines, planned_text};
ghost use Rattle.provisioning.specs.Runs.{IsUntold};
ghost use Rattle.provisioning.specs.Sources.{are_whole};

use crate::bases::Basis;
use crate::changes::changes_from;
use crate::faults::{RunFault, unwritten};
use crate::leavers::{names_in_use, switched_off};
use crate::offering::{Hear, offer_all};
use crate::orders::names_in_order;
use crate::plan_lines::Planned;
use crate::sources::Sources;
use connector_core::Connector;
use journal_core::Journal;
use scim_key::{RecordName, Revision};
use source_csv::Row;
use std::alloc::Global;
use std::io;
use std::io::Write;

/// What a push would do.
#[derive(Clone, Copy)]
pub struct Plan {
    /// Every record of the files is a row, and the connector takes each, new or not.
    pub is_taken: bool,
    /// How many users it would switch off.
    pub leavers: usize,
}

/// Offers the rows of the files to the connector, and writes a line for each record whose wanted revision isn't
/// confirmed then, in the order of a push. It reports each row as `offer_all` does.
pub fn plan_push<J: Journal, T: Hear, W: Write>(
    alloc: Global,
    connector: &mut Connector<J>,
    sources: &Sources,
    teller: &mut T,
    out: &mut W,
) -> Result<Plan, RunFault>
    ensures { Plans J.Journal sources.now connector.old connector.new (T.heard teller.old)
        (T.heard teller.new) (W.contents out.old) (W.contents out.new) result }
{
    let names = names_in_use(connector)?;
    let basis = Basis::of(alloc, connector, sources)?;
    match offer_all(alloc, connector, sources, teller) {
        Ok(is_taken) => write_planned(
            alloc,
            connector,
            &basis,
            names.as_slice(),
            is_taken,
            sources,
            out,
        ),
        Err(fault) => Err(fault),
    }
}

/// Writes the lines of a plan beside this basis. These records were in use before the rows of the files.
fn write_planned<J: Journal, W: Write>(
    alloc: Global,
    connector: &Connector<J>,
    basis: &Basis,
    names: &[RecordName],
    is_taken: bool,
    sources: &Sources,
    out: &mut W,
) -> Result<Plan, RunFault>
    ensures plans { IfOk result (λ plan. (plan ≡ record {
      is_taken = is_taken && are_whole sources.now;
      leavers = count_by (is_switched_off (book_of connector.now.book)) names.now;
    }) × WritesPlan (row_in basis.now) (is_among basis.now) connector.now.book
        (W.contents out.old) (W.contents out.new)) }
    ensures fault { IfErr result IsUntold }
{
    match write_plan(alloc, connector, basis, out) {
        Ok(()) => Ok(Plan {
            is_taken: is_taken && sources.are_whole(),
            leavers: switched_off(connector, names),
        }),
        Err(fault) => Err(fault),
    }
}

/// Writes a line for each record whose wanted revision isn't confirmed, in the order of a push.
fn write_plan<J: Journal, W: Write>(
    alloc: Global,
    connector: &Connector<J>,
    basis: &Basis,
    out: &mut W,
) -> Result<(), RunFault>
    ensures plans { OnOk result (WritesPlan (row_in basis.now) (is_among basis.now)
        connector.now.book (W.contents out.old) (W.contents out.new)) }
    ensures fault { IfErr result IsUntold }
{
    let names = names_in_order(connector)?;
    match write_records(alloc, connector, basis, names.as_slice(), out) {
        Ok(()) => Ok(()),
        Err(error) => Err(unwritten(error)),
    }
}

/// Writes the lines of these records, and flushes.
fn write_records<J: Journal, W: Write>(
    alloc: Global,
    connector: &Connector<J>,
    basis: &Basis,
    names: &[RecordName],
    out: &mut W,
) -> io::Result<()>
    ensures { OnOk result (Appends (W.contents out.old) (W.contents out.new)
        (plan_lines (row_in basis.now) (is_among basis.now) (book_of connector.now.book) names.now)) }
{
    for name in names {
        write_record(alloc, connector, basis, name, out)?;
    }
    out.flush()
}

/// Writes the line of a record, if its wanted revision isn't confirmed.
fn write_record<J: Journal, W: Write>(
    alloc: Global,
    connector: &Connector<J>,
    basis: &Basis,
    name: &RecordName,
    out: &mut W,
) -> io::Result<()>
    ensures { OnOk result (Appends (W.contents out.old) (W.contents out.new)
        (plan_line (row_in basis.now) (is_among basis.now) (book_of connector.now.book) name.now)) }
{
    let confirmed = connector.confirmed(name);
    match connector.row(name) {
        Some(row) if row.revision() != confirmed => {
            write_change(alloc, basis, name, confirmed, row, out)
        }
        _ => Ok(()),
    }
}

/// Writes the line of a record with this row, beside its confirmed one.
fn write_change<'a, W: Write>(
    alloc: Global,
    basis: &'a Basis,
    name: &'a RecordName,
    confirmed: Revision,
    row: &'a Row,
    out: &mut W,
) -> io::Result<()>
    ensures { OnOk result (Appends (W.contents out.old) (W.contents out.new)
        (planned_text name.now confirmed row.now (row_in basis.now name.now)
        (changes_from (row_in basis.now name.now) row.now) (is_among basis.now name.now)
        ++ codes "\n")) }
{
    let before = basis.row(name);
    let changes = changes_from(alloc, before, row)?;
    let planned = Planned {
        name,
        confirmed,
        row,
        before,
        changes: changes.as_slice(),
        is_absent: basis.is_absent(name),
    };
    writeln!(out, "{planned}")
}
