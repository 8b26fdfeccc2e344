//! Offers the rows of files to the connector.
ghost use Rattle.std.specs.Prelude.{◌≡◌, ◌∷◌, [], List, Option, IfOk, OnOk};
ghost use Rattle.provisioning.specs.Offering.{Hears, Tells, OffersFile, OffersGroups, OffersAll, judged_of, judged_row, rows_in, stop_of};
ghost use Rattle.provisioning.specs.declared.offering.Judged.{Judged as JudgedRow};

use crate::faults::{RunFault, unwritten};
use crate::older::{OlderRow, older_of};
use crate::sources::{Source, Sources};
use connector_core::{ChangeFault, Connector, Verdict};
use journal_core::Journal;
use scim_key::Kind;
use source_csv::{Row, RowFault};
use std::alloc::{AllocError, Global};
use std::io;

/// A row of a file, and the connector's verdict on it.
#[derive(Drop)]
pub struct Judged {
    /// The file that the row is in.
    pub kind: Kind,
    /// The place of its record, from 1 after the header.
    pub place: usize,
    pub verdict: Result<Verdict, ChangeFault>,
    /// What the row is beside the wanted row of its record, if it is older.
    pub older: Option<OlderRow>,
}

/// What reports each row of a file, as soon as the connector has taken the file.
pub trait Hear {
    /// What was reported so far, if it is known. There is no default, so that each teller says it.
    ghost heard: { Self → Option (List JudgedRow) };

    fn hear(&mut self, judged: Judged) -> io::Result<()>
        ensures { OnOk result (Hears (heard self.old) (heard self.new) (judged ∷ [])) };
}

/// What ends the run if the connector gives no verdict on the rows.
fn stop_of(cause: &ChangeFault) -> RunFault
    ensures { result ≡ stop_of cause.now }
{
    match cause {
        ChangeFault::Store => RunFault::Journal,
        _ => RunFault::Memory,
    }
}

/// The rows among the records.
pub(crate) fn rows_in(
    alloc: Global,
    records: &[Result<Row, RowFault>],
) -> Result<Vec<Row>, AllocError>
    ensures { IfOk result (λ rows. rows.items ≡ rows_in records.now) }
{
    let mut rows = Vec::new(alloc);
    for record in records {
        if let Ok(row) = record {
            rows.push(row.clone()?)?;
        }
    }
    Ok(rows)
}

/// Reports a row. It returns whether the connector took the row, new or not.
fn tell<T: Hear>(judged: Judged, teller: &mut T) -> Result<bool, RunFault>
    ensures { Tells (judged ∷ []) (T.heard teller.old) (T.heard teller.new) result }
{
    let is_taken = judged.verdict.is_ok();
    match teller.hear(judged) {
        Ok(()) => Ok(is_taken),
        Err(error) => Err(unwritten(error)),
    }
}

/// Reports the row of the record at this place, with its verdict.
fn tell_row<J: Journal, T: Hear>(
    alloc: Global,
    connector: &Connector<J>,
    kind: Kind,
    place: usize,
    row: &Row,
    verdict: Result<Verdict, ChangeFault>,
    teller: &mut T,
) -> Result<bool, RunFault>
    ensures { Tells (judged_row connector.now.book kind place row.now verdict ∷ [])
        (T.heard teller.old) (T.heard teller.new) result }
{
    match older_of(alloc, connector, row, &verdict) {
        Ok(older) => tell(
            Judged {
                kind,
                place,
                verdict,
                older,
            },
            teller,
        ),
        Err(AllocError) => Err(RunFault::Memory),
    }
}

/// Reports each row with its verdict, once the connector has taken the rows.
fn tell_all<J: Journal, T: Hear>(
    alloc: Global,
    connector: &Connector<J>,
    kind: Kind,
    records: &[Result<Row, RowFault>],
    said: Vec<Result<Verdict, ChangeFault>>,
    teller: &mut T,
) -> Result<bool, RunFault>
    ensures { Tells (judged_of connector.now.book kind 1 records.now said.items)
        (T.heard teller.old) (T.heard teller.new) result }
{
    let mut is_taken = true;
    let mut verdicts = said.into_iter();
    for (index, record) in records.iter().enumerate() {
        let Ok(row) = record else {
            continue;
        };
        let Some(verdict) = verdicts.next() else {
            return Ok(is_taken);
        };
        let place = index + 1;
        let taken = tell_row(alloc, connector, kind, place, row, verdict, teller)?;
        is_taken = is_taken && taken;
    }
    Ok(is_taken)
}

/// Offers the rows of a file together, and reports each once they are taken.
fn offer_file<J: Journal, T: Hear>(
    alloc: Global,
    connector: &mut Connector<J>,
    kind: Kind,
    records: &[Result<Row, RowFault>],
    teller: &mut T,
) -> Result<bool, RunFault>
    ensures { OffersFile J.Journal kind records.now connector.old connector.new
        (T.heard teller.old) (T.heard teller.new) result }
{
    let rows = rows_in(alloc, records)?;
    match connector.change_all(rows) {
        Ok(said) => tell_all(alloc, connector, kind, records, said, teller),
        Err(cause) => Err(stop_of(&cause)),
    }
}

/// Offers the rows of the file of groups, if there is one.
fn offer_groups<J: Journal, T: Hear>(
    alloc: Global,
    connector: &mut Connector<J>,
    groups: &Option<Source>,
    teller: &mut T,
) -> Result<bool, RunFault>
    ensures { OffersGroups J.Journal groups.now connector.old connector.new
        (T.heard teller.old) (T.heard teller.new) result }
{
    match groups {
        Some(groups) => offer_file(alloc, connector, groups.kind, groups.records(), teller),
        None => Ok(true),
    }
}

/// Offers the rows of the files, users first, the rows of each file together. It reports each row once its
/// file is taken. It returns whether the connector took every row, new or not. The run ends early if the
/// journal fails, a row can't be reported, or memory runs out.
pub fn offer_all<J: Journal, T: Hear>(
    alloc: Global,
    connector: &mut Connector<J>,
    sources: &Sources,
    teller: &mut T,
) -> Result<bool, RunFault>
    ensures { OffersAll J.Journal sources.now connector.old connector.new
        (T.heard teller.old) (T.heard teller.new) result }
{
    let users = &sources.users;
    let are_users_taken = offer_file(alloc, connector, users.kind, users.records(), teller)?;
    match offer_groups(alloc, connector, &sources.groups, teller) {
        Ok(are_groups_taken) => Ok(are_users_taken && are_groups_taken),
        Err(fault) => Err(fault),
    }
}
