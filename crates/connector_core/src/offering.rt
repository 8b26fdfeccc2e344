//! Accepts rows that the source offers together.
ghost use Rattle.std.specs.Prelude.{◌≡◌, ◌++◌, ◌∷◌, [], IfErr, IfOk, Ok, OnErr, OnOk};
ghost use Rattle.std.specs.FinMap.{get, insert, keys};
ghost use Rattle.source_csv.specs.Records.{row_name};
ghost use Rattle.journal_core.specs.Calls.{Writes};
ghost use Rattle.connector_core.specs.declared.accepting.Verdict.TheVariants.{New};
ghost use Rattle.connector_core.specs.Book.{wanting};
ghost use Rattle.connector_core.specs.Changing.{CountsChange, IsNoVerdict, entries_all, if_new, judged, new_rows, taking, taking_all, verdicts};
ghost use Rattle.connector_core.specs.Maps.{book_of};
ghost use Rattle.connector_core.specs.Offering.{AreOffered, all_back, taken_back};
ghost use Rattle.connector_core.specs.State.{IsKept, Leaves, LeavesBook};

use crate::accepting::Verdict;
use crate::books::Book;
use crate::changing::{ChangeFault, judge};
use crate::connectors::Connector;
use crate::taking::{Note, take_back, take_row};
use journal_core::Journal;
use scim_key::RecordName;
use source_csv::Row;
use std::alloc::{AllocError, Global};

/// The result of offering rows: the verdicts, the new rows, and how to take them back.
#[derive(Drop)]
pub(crate) struct Offered {
    said: Vec<Result<Verdict, ChangeFault>>,
    fresh: Vec<Row>,
    notes: Vec<Note>,
}

/// Takes rows back, the last one first.
fn take_all_back(book: &mut Book, mut notes: Vec<Note>)
    ensures { book.new ≡ all_back notes.items book.old }
{
    while let Some(note) = notes.pop() {
        take_back(book, note);
    }
}

/// Keeps how to take a row back. If memory is out, it takes the row back.
fn keep(book: &mut Book, notes: &mut Vec<Note>, note: Note) -> Result<(), AllocError>
    ensures ok { OnOk result (book.new ≡ book.old) }
    ensures back { all_back notes.new.items book.new
        ≡ all_back notes.old.items (taken_back book.old note) }
{
    if let Err(failed) = notes.push(note) {
        take_back(book, failed.value);
        return Err(AllocError);
    }
    Ok(())
}

/// The verdict of the book on a row of the record with this name.
fn verdict_on(
    alloc: Global,
    book: &Book,
    name: &RecordName,
    row: &Row,
) -> Result<Result<Verdict, ChangeFault>, AllocError>
    requires { name.now ≡ row_name row.now }
    ensures { IfOk result (λ verdict. verdict ≡ judged book.now row.now) }
{
    match judge(alloc, book, name, row) {
        Ok(verdict) => Ok(Ok(verdict)),
        Err(ChangeFault::Memory) => Err(AllocError),
        Err(fault) => Ok(Err(fault)),
    }
}

impl Offered {
    /// The result of offering no rows.
    fn new(alloc: Global) -> Offered
        ensures said { result.said.items ≡ [] }
        ensures fresh { result.fresh.items ≡ [] }
        ensures notes { result.notes.items ≡ [] }
    {
        Offered {
            said: Vec::new(alloc),
            fresh: Vec::new(alloc),
            notes: Vec::new(alloc),
        }
    }

    /// Takes one more row that is offered.
    fn take(&mut self, alloc: Global, book: &mut Book, row: Row) -> Result<(), AllocError>
        ensures said { OnOk result
            (self.new.said.items ≡ self.old.said.items ++ judged book.old row ∷ []) }
        ensures fresh { OnOk result (self.new.fresh.items ≡ self.old.fresh.items
            ++ if_new row (judged book.old row)) }
        ensures taken { OnOk result (book.new ≡ taking book.old row) }
        ensures back { all_back self.new.notes.items book.new
            ≡ all_back self.old.notes.items book.old }
    {
        let name = row.record_name(alloc)?;
        match verdict_on(alloc, book, &name, &row)? {
            Ok(Verdict::New) => self.take_new(book, name, row),
            Ok(Verdict::Known) => self.say(Ok(Verdict::Known)),
            Ok(Verdict::Older) => self.say(Ok(Verdict::Older)),
            Err(fault) => self.say(Err(fault)),
        }
    }

    /// Appends the verdict on a row.
    fn say(&mut self, verdict: Result<Verdict, ChangeFault>) -> Result<(), AllocError>
        ensures said { OnOk result (self.new.said.items ≡ self.old.said.items ++ verdict ∷ []) }
        ensures fresh { self.new.fresh.items ≡ self.old.fresh.items }
        ensures notes { self.new.notes.items ≡ self.old.notes.items }
    {
        self.said.push(verdict)?;
        Ok(())
    }

    /// Takes a new row.
    fn take_new(&mut self, book: &mut Book, name: RecordName, row: Row) -> Result<(), AllocError>
        requires named { name ≡ row_name row }
        ensures said { OnOk result
            (self.new.said.items ≡ self.old.said.items ++ Ok New ∷ []) }
        ensures fresh { OnOk result (self.new.fresh.items ≡ self.old.fresh.items ++ row ∷ []) }
        ensures taken { OnOk result (book.new
            ≡ insert book.old (row_name row) (wanting (get book.old (row_name row)) row)) }
        ensures back { all_back self.new.notes.items book.new
            ≡ all_back self.old.notes.items book.old }
    {
        let note = take_row(book, name, row.clone()?)?;
        keep(book, &mut self.notes, note)?;
        self.fresh.push(row)?;
        self.say(Ok(Verdict::New))
    }

    /// Takes rows, one after another.
    fn take_all(&mut self, alloc: Global, book: &mut Book, rows: Vec<Row>) -> Result<(), AllocError>
        requires said { self.old.said.items ≡ [] }
        requires fresh { self.old.fresh.items ≡ [] }
        ensures ok { OnOk result (AreOffered book.old book.new rows.items self.new) }
        ensures back { all_back self.new.notes.items book.new
            ≡ all_back self.old.notes.items book.old }
    {
        for row in rows {
            self.take(alloc, book, row)?;
        }
        Ok(())
    }
}

/// Takes rows into the book, one after another: all of them or none.
fn offer(alloc: Global, book: &mut Book, rows: Vec<Row>) -> Result<Offered, AllocError>
    ensures ok { IfOk result (AreOffered book.old book.new rows.items) }
    ensures back { IfOk result (λ offered. all_back offered.notes.items book.new ≡ book.old) }
    ensures err { OnErr result (book.new ≡ book.old) }
{
    let mut offered = Offered::new(alloc);
    match offered.take_all(alloc, book, rows) {
        Ok(()) => Ok(offered),
        Err(fault) => {
            take_all_back(book, offered.notes);
            Err(fault)
        }
    }
}

impl<J: Journal> Connector<J> {
    /// Takes rows that the source offers, as `change` would one after another, but by one write of the
    /// journal: all of them or none.
    pub fn change_all(
        &mut self,
        rows: Vec<Row>,
    ) -> Result<Vec<Result<Verdict, ChangeFault>>, ChangeFault>
        ensures verdicts { IfOk result (λ said. said.items ≡ verdicts self.old.book rows.items) }
        ensures fault { IfErr result IsNoVerdict }
        ensures ok { OnOk result (self.new.book ≡ taking_all self.old.book rows.items) }
        ensures err { OnErr result (self.new.book ≡ self.old.book) }
        ensures kept { J.is_faithful self.new.journal
            → IsKept (J.entries self.new.journal) self.new.book }
        ensures journal { Writes J.Journal CountsChange self.old.journal self.new.journal
            (entries_all (J.entries self.old.journal) self.old.book rows.items) result }
        ensures quiet { OnOk result (new_rows self.old.book rows.items ≡ []
            → J.writes self.new.journal ≡ J.writes self.old.journal) }
        ensures open { J.is_honest self.new.journal → J.is_faithful self.old.journal
            → OnOk result (J.is_faithful self.new.journal) }
        ensures leaves { J.is_honest self.new.journal → LeavesBook J.Journal self.old
            → Leaves J.Journal self.old self.new (book_of (taking_all self.old.book rows.items))
            (keys (taking_all self.old.book rows.items)) result }
    {
        let Offered { said, fresh, notes } = offer(self.alloc, &mut self.book, rows)?;
        if fresh.as_slice().is_empty() {
            return Ok(said);
        }
        match self.journal.put_rows(fresh) {
            Ok(()) => Ok(said),
            Err(fault) => {
                take_all_back(&mut self.book, notes);
                Err(ChangeFault::from(fault))
            }
        }
    }
}
