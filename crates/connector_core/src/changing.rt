//! Accepts rows that the source offers.
ghost use Rattle.std.specs.Prelude.{◌≡◌, ◌≢◌, ℕ, IfErr, IfOk, Ok, Err, OnErr, OnOk, is_none};
ghost use Rattle.std.specs.FinMap.{get, insert, keys};
ghost use Rattle.std.specs.List.{position_from};
ghost use Rattle.std.specs.Option.{option_copied};
ghost use Rattle.scim_key.specs.Outcome.{Gives};
ghost use Rattle.source_csv.specs.Records.{row_name};
ghost use Rattle.journal_core.specs.Entries.{with_row};
ghost use Rattle.journal_core.specs.Calls.{Writes};
ghost use Rattle.connector_core.specs.History.{user};
ghost use Rattle.connector_core.specs.declared.accepting.Verdict.TheVariants as verdicts;
ghost use Rattle.connector_core.specs.Book.{wanted_row, wanting};
ghost use Rattle.connector_core.specs.Changing.{CountsChange, IsNoVerdict, IsRejection, accepted_entries, accepted_map, book_after, is_full, judging, limited, member_at, unknown_member};
ghost use Rattle.connector_core.specs.Maps.{GivesUnless, book_of};
ghost use Rattle.connector_core.specs.State.{IsKept, Leaves, LeavesBook};

use crate::accepting::{BookFault, Verdict, accept};
use crate::books::Book;
use crate::connectors::Connector;
use crate::taking::{take_back, take_row};
use journal_core::{GROUP_LIMIT, Journal, USER_LIMIT};
use scim_key::{Key, Kind, RecordName, StoreFault};
use source_csv::{GroupRow, Row};
use std::alloc::{AllocError, Global};
use std::{error, fmt};

/// Why a row isn't accepted. Nothing was changed.
#[derive(Debug, Drop)]
pub enum ChangeFault {
    /// It has the revision of the last row of its record, but another field.
    Differs,
    /// Its first member by key that isn't a user record.
    NoSuchMember(Key),
    /// It would be the first row of a record beyond the limit of its type.
    TooMany,
    /// The journal's store failed.
    Store,
    Memory,
}

impl fmt::Display for ChangeFault {
    ghost use Rattle.std.specs.Prelude.{Some};
    ghost use Rattle.connector_core.specs.Codes.{change_fault_text};

    ghost output = { λ fault. Some (change_fault_text fault) };

    fn fmt<W: fmt::Write>(&self, f: &mut fmt::Formatter<W>) -> fmt::Result {
        match self {
            ChangeFault::Differs => f.write_str("S7"),
            ChangeFault::NoSuchMember(member) => write!(f, "S8 {}", member.as_str()),
            ChangeFault::TooMany => f.write_str("S12"),
            ChangeFault::Store => f.write_str("C5"),
            ChangeFault::Memory => f.write_str("C6"),
        }
    }
}

impl error::Error for ChangeFault {}

impl From<AllocError> for ChangeFault {
    ghost use Rattle.connector_core.specs.declared.changing.ChangeFault.TheVariants.{Memory};

    ghost from_gives = { λ _ fault. fault ≡ Memory };

    fn from(_: AllocError) -> ChangeFault {
        ChangeFault::Memory
    }
}

impl From<StoreFault> for ChangeFault {
    ghost use Rattle.connector_core.specs.Changing.{change_fault};

    ghost from_gives = { λ from fault. fault ≡ change_fault from };

    fn from(fault: StoreFault) -> ChangeFault {
        match fault {
            StoreFault::Store => ChangeFault::Store,
            StoreFault::Memory => ChangeFault::Memory,
        }
    }
}

/// The place, from 0, of the first of a group's members that isn't a user in the book.
fn missing_user(book: &Book, row: &GroupRow) -> Option<usize>
    ensures { result ≡ position_from (λ key. is_none (get book.now (user key))) 0 row.now.members }
{
    row.members()
        .iter()
        .position(|key| book.user(key).is_none())
}

/// The place, from 0, of a row's first member by key that isn't a user in the book.
fn missing_member(book: &Book, row: &Row) -> Option<usize>
    ensures { result ≡ unknown_member (book_of book.now) row.now }
{
    match row {
        Row::User(_) => None,
        Row::Group(row) => missing_user(book, row),
    }
}

/// The last row of a record, if there is one.
fn last_row<'a>(book: &'a Book, name: &RecordName) -> Option<&'a Row>
    ensures { option_copied result ≡ wanted_row (book_of book.now) name.now }
{
    match book.get(name) {
        Some(known) => Some(&known.wanted),
        None => None,
    }
}

/// Whether a type has as many records as it may have.
fn is_full(book: &Book, kind: Kind) -> bool
    ensures { result ≡ is_full kind (keys book.now) }
{
    let most = match kind {
        Kind::User => USER_LIMIT,
        Kind::Group => GROUP_LIMIT,
    };
    most <= book.count(kind)
}

/// The member of a row at a place.
pub fn member_at(alloc: Global, row: &Row, place: usize) -> Result<Key, AllocError>
    ensures { IfOk result (λ key. key ≡ member_at row.now place) }
{
    match row {
        Row::Group(row) if place < row.members().len() => row.members()[place].clone(),
        _ => Key::of(alloc, ""),
    }
}

/// The refusal of a row for its fields or its members.
fn refusal(
    alloc: Global,
    no_room: bool,
    row: &Row,
    fault: BookFault,
) -> Result<Verdict, ChangeFault>
    ensures gives { Gives ChangeFault.Memory result (limited no_room row.now (Err fault)) }
    ensures counted { IfErr result (λ fault. (n : ℕ) → CountsChange n n fault) }
{
    match fault {
        BookFault::Differs => Err(ChangeFault::Differs),
        BookFault::NoSuchMember { place } => {
            Err(ChangeFault::NoSuchMember(member_at(alloc, row, place)?))
        }
    }
}

/// The verdict on a row: the verdict of the book, unless the row would be the first of its record and there
/// is no room for another record.
fn limit(
    alloc: Global,
    no_room: bool,
    row: &Row,
    verdict: Result<Verdict, BookFault>,
) -> Result<Verdict, ChangeFault>
    ensures gives { Gives ChangeFault.Memory result (limited no_room row.now verdict) }
    ensures counted { IfErr result (λ fault. (n : ℕ) → CountsChange n n fault) }
{
    match verdict {
        Ok(Verdict::New) if no_room => Err(ChangeFault::TooMany),
        Ok(verdict) => Ok(verdict),
        Err(fault) => refusal(alloc, no_room, row, fault),
    }
}

/// The verdict of the book on a row of the record with this name.
pub(crate) fn judge(
    alloc: Global,
    book: &Book,
    name: &RecordName,
    row: &Row,
) -> Result<Verdict, ChangeFault>
    requires { name.now ≡ row_name row.now }
    ensures gives { Gives ChangeFault.Memory result
        (judging (book_of book.now) (keys book.now) row.now) }
    ensures counted { IfErr result (λ fault. (n : ℕ) → CountsChange n n fault) }
{
    let last = last_row(book, name);
    let no_room = last.is_none() && is_full(book, name.kind);
    let verdict = accept(last, row, missing_member(book, row));
    limit(alloc, no_room, row, verdict)
}

impl<J: Journal> Connector<J> {
    /// Takes a row that the source offers.
    pub fn change(&mut self, row: Row) -> Result<Verdict, ChangeFault>
        ensures verdict { GivesUnless IsNoVerdict result
            (judging (book_of self.old.book) (keys self.old.book) row) }
        ensures ok { OnOk result (self.new.book
            ≡ accepted_map self.old.book row
            (judging (book_of self.old.book) (keys self.old.book) row)) }
        ensures err { OnErr result (self.new.book ≡ self.old.book) }
        ensures kept { J.is_faithful self.new.journal
            → IsKept (J.entries self.new.journal) self.new.book }
        ensures journal { Writes J.Journal CountsChange self.old.journal self.new.journal
            (accepted_entries (J.entries self.old.journal) row
            (judging (book_of self.old.book) (keys self.old.book) row)) result }
        ensures quiet { IfOk result (λ verdict. verdict ≢ verdicts.New
            → J.writes self.new.journal ≡ J.writes self.old.journal) }
        ensures rejected { IfErr result (λ fault. IsRejection fault
            → self.new.journal ≡ self.old.journal) }
        ensures open { J.is_honest self.new.journal → J.is_faithful self.old.journal
            → OnOk result (J.is_faithful self.new.journal) }
        ensures leaves { J.is_honest self.new.journal → LeavesBook J.Journal self.old
            → Leaves J.Journal self.old self.new
            (book_after (book_of self.old.book) row
            (judging (book_of self.old.book) (keys self.old.book) row))
            (keys
            (accepted_map self.old.book row
            (judging (book_of self.old.book) (keys self.old.book) row))) result }
    {
        let name = row.record_name(self.alloc)?;
        match judge(self.alloc, &self.book, &name, &row) {
            Ok(Verdict::New) => self.accept_row(name, &row),
            Ok(Verdict::Known) => Ok(Verdict::Known),
            Ok(Verdict::Older) => Ok(Verdict::Older),
            Err(fault) => Err(fault),
        }
    }

    /// Accepts a new row. It is put into the book first, since a tree can't reserve room.
    fn accept_row(&mut self, name: RecordName, row: &Row) -> Result<Verdict, ChangeFault>
        requires named { name ≡ row_name row.now }
        requires new { judging (book_of self.old.book) (keys self.old.book) row.now
            ≡ Ok verdicts.New }
        ensures new { IfOk result (λ verdict. verdict ≡ verdicts.New) }
        ensures fault { IfErr result IsNoVerdict }
        ensures ok { OnOk result (self.new.book
            ≡ insert self.old.book (row_name row.now)
            (wanting (get self.old.book (row_name row.now)) row.now)) }
        ensures err { OnErr result (self.new.book ≡ self.old.book) }
        ensures kept { J.is_faithful self.new.journal
            → IsKept (J.entries self.new.journal) self.new.book }
        ensures journal { Writes J.Journal CountsChange self.old.journal self.new.journal
            (with_row (J.entries self.old.journal) row.now) result }
        ensures open { J.is_honest self.new.journal → OnOk result (J.is_faithful self.new.journal) }
    {
        let note = take_row(&mut self.book, name, row.clone()?)?;
        match self.journal.put_row(row) {
            Ok(()) => {
                drop(note);
                Ok(Verdict::New)
            }
            Err(fault) => {
                take_back(&mut self.book, note);
                Err(ChangeFault::from(fault))
            }
        }
    }
}
