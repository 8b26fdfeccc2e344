//! Learns from an answer.
ghost use Rattle.std.specs.Prelude.{◌≡◌, ℕ, IfErr, IfOk, OnErr, OnOk};
ghost use Rattle.std.specs.FinMap.{get, keys};
ghost use Rattle.scim_key.specs.Outcome.{Gives};
ghost use Rattle.journal_core.specs.Calls.{Writes};
ghost use Rattle.connector_core.specs.Keeps.{learn_at};
ghost use Rattle.connector_core.specs.Learning.{after_learning, named_alone, or_fault, subject};
ghost use Rattle.connector_core.specs.Maps.{GivesUnless, book_of, changed};
ghost use Rattle.connector_core.specs.Noting.{CountsLearn, IsNewsAt, IsNoted, IsNotNoted, IsOfJournal, IsPassing, IsRejection, KeepsEntries, MayStandFor, after_news, entries_with, learnt_of, news_learnt, note_at, noted_entries};
ghost use Rattle.connector_core.specs.State.{IsKept, Leaves, LeavesBook};

use crate::books::Book;
use crate::connectors::Connector;
use crate::findings::news_in;
use crate::fitting::News;
use crate::keeps::Keeps;
use journal_core::Journal;
use scim_filter::Filter;
use scim_key::{Kind, RecordName, Revision, StoreFault};
use scim_message::{Answer, Request};
use std::alloc::{AllocError, Global};
use std::{error, fmt};

/// What is learnt about a record.
#[derive(Clone, Copy)]
pub enum Learnt {
    /// This revision is now confirmed; it is higher than the one before.
    Confirmed(Revision),
    /// A resource was seen, at no higher revision.
    Seen,
    /// The provider has no resource of the record.
    Absent,
    /// What was seen is outdated.
    Forgotten,
    /// Nothing.
    Nothing,
}

/// Why nothing is learnt. Nothing was changed.
#[derive(Clone, Copy, Debug)]
pub enum LearnFault {
    /// The request or the answer isn't one that the connector can use.
    Unfit,
    /// The resource is shown without an entity tag.
    Unversioned,
    /// The provider refuses, and not for a taken name or another version.
    Refused { status: u16 },
    /// The source gave no row of this record.
    NoSuchRecord,
    /// The journal's store failed.
    Store,
    Memory,
}

impl fmt::Display for LearnFault {
    ghost use Rattle.std.specs.Prelude.{Some};
    ghost use Rattle.connector_core.specs.Codes.{learn_fault_text};

    ghost output = { λ fault. Some (learn_fault_text fault) };

    fn fmt<W: fmt::Write>(&self, f: &mut fmt::Formatter<W>) -> fmt::Result {
        match self {
            LearnFault::Unfit => f.write_str("C1"),
            LearnFault::Unversioned => f.write_str("C2"),
            LearnFault::Refused { status } => write!(f, "C4 {status}"),
            LearnFault::NoSuchRecord => f.write_str("C7"),
            LearnFault::Store => f.write_str("C5"),
            LearnFault::Memory => f.write_str("C6"),
        }
    }
}

impl error::Error for LearnFault {}

impl From<AllocError> for LearnFault {
    ghost use Rattle.connector_core.specs.declared.learning.LearnFault.TheVariants.{Memory};

    ghost from_gives = { λ _ fault. fault ≡ Memory };

    fn from(_: AllocError) -> LearnFault {
        LearnFault::Memory
    }
}

impl From<StoreFault> for LearnFault {
    ghost use Rattle.connector_core.specs.Noting.{learn_fault};

    ghost from_gives = { λ from fault. fault ≡ learn_fault from };

    fn from(fault: StoreFault) -> LearnFault {
        match fault {
            StoreFault::Store => LearnFault::Store,
            StoreFault::Memory => LearnFault::Memory,
        }
    }
}

/// The only record of this type that a filter names.
fn sought(
    alloc: Global,
    kind: Kind,
    filter: &Option<Filter>,
) -> Result<Option<RecordName>, AllocError>
    ensures { IfOk result (λ name. name ≡ named_alone kind filter.now) }
{
    match filter {
        None => Ok(None),
        Some(filter) => match filter.single_key(alloc)? {
            Some(name) if kind == name.kind => Ok(Some(name)),
            _ => Ok(None),
        }
    }
}

/// The record that a request is about: the record of its content, or the one that it searches for by name.
fn subject(alloc: Global, request: &Request) -> Result<RecordName, LearnFault>
    ensures gives { Gives LearnFault.Memory result
        (or_fault LearnFault.Unfit (subject request.now)) }
    ensures counted { IfErr result (λ fault. (n : ℕ) → CountsLearn n n fault) }
{
    match request {
        Request::Create { content } | Request::Replace { content, .. } => Ok(content.name(alloc)?),
        Request::Retrieve { .. } => Err(LearnFault::Unfit),
        Request::Search { kind, filter, .. } => match sought(alloc, *kind, filter)? {
            Some(name) => Ok(name),
            None => Err(LearnFault::Unfit),
        }
    }
}

/// The news in the answer to a request, by the book and the kind of the provider, and the record that it is about.
fn judge(
    alloc: Global,
    keeps: Keeps,
    book: &Book,
    request: &Request,
    answer: &Answer,
) -> Result<(RecordName, News), LearnFault>
    ensures noted { IfOk result (λ found. IsNoted keeps book.now request.now answer.now found.0 found.1) }
    ensures fault { IfErr result (IsNotNoted keeps book.now request.now answer.now) }
    ensures counted { IfErr result (λ fault. (n : ℕ) → CountsLearn n n fault) }
{
    let name = subject(alloc, request)?;
    let Some(known) = book.get(&name) else {
        return Err(LearnFault::NoSuchRecord);
    };
    let news = news_in(alloc, keeps, book, &name, known, request, answer)?;
    Ok((name, news))
}

impl<J: Journal> Connector<J> {
    /// Learns from the answer of a provider of this kind to a request. The answer may be an old one.
    pub fn learn(
        &mut self,
        keeps: Keeps,
        request: &Request,
        answer: &Answer,
    ) -> Result<Learnt, LearnFault>
        ensures learnt { GivesUnless
            (MayStandFor (learn_at keeps (book_of self.old.book) request.now answer.now)) result
            (learnt_of (learn_at keeps (book_of self.old.book) request.now answer.now)) }
        ensures ok { OnOk result (book_of self.new.book
            ≡ after_learning (book_of self.old.book)
            (learn_at keeps (book_of self.old.book) request.now answer.now)) }
        ensures err { OnErr result (self.new.book ≡ self.old.book) }
        ensures names { keys self.new.book ≡ keys self.old.book }
        ensures kept { J.is_faithful self.new.journal
            → IsKept (J.entries self.new.journal) self.new.book }
        ensures journal { Writes J.Journal CountsLearn self.old.journal self.new.journal
            (noted_entries (J.entries self.old.journal)
            (note_at keeps (book_of self.old.book) request.now answer.now)) result }
        ensures quiet { KeepsEntries self.old.book self.new.book
            → J.writes self.new.journal ≡ J.writes self.old.journal }
        ensures rejected { IfErr result (λ fault. IsRejection fault
            → self.new.journal ≡ self.old.journal) }
        ensures open { J.is_honest self.new.journal → J.is_faithful self.old.journal
            → OnOk result (J.is_faithful self.new.journal) }
        ensures leaves { J.is_honest self.new.journal → LeavesBook J.Journal self.old
            → Leaves J.Journal self.old self.new
            (after_learning (book_of self.old.book)
            (learn_at keeps (book_of self.old.book) request.now answer.now))
            (keys self.old.book) result }
    {
        let (name, news) = judge(self.alloc, keeps, &self.book, request, answer)?;
        self.take_news(&name, news)
    }

    /// Takes the news about an existing record.
    fn take_news(&mut self, name: &RecordName, news: News) -> Result<Learnt, LearnFault>
        requires { IsNewsAt (get self.old.book name.now) news }
        ensures learnt { IfOk result (λ learnt. learnt ≡ news_learnt news) }
        ensures fault { IfErr result IsOfJournal }
        ensures ok { OnOk result (self.new.book
            ≡ changed (after_news news) self.old.book name.now) }
        ensures err { OnErr result (self.new.book ≡ self.old.book) }
        ensures kept { J.is_faithful self.new.journal
            → IsKept (J.entries self.new.journal) self.new.book }
        ensures journal { Writes J.Journal CountsLearn self.old.journal self.new.journal
            (entries_with (J.entries self.old.journal) name.now news) result }
        ensures quiet { IsPassing news → J.writes self.new.journal ≡ J.writes self.old.journal }
        ensures open { J.is_honest self.new.journal → J.is_faithful self.old.journal
            → OnOk result (J.is_faithful self.new.journal) }
        ensures leaves { J.is_honest self.new.journal → LeavesBook J.Journal self.old
            → OnOk result (LeavesBook J.Journal self.new) }
    {
        match news {
            News::Lasting {
                confirmed,
                id,
                seen,
                learnt,
            } => {
                self.journal.put_learnt(name, confirmed, &id)?;
                self.book.learn(name, confirmed, id, seen);
                Ok(learnt)
            }
            News::Passing {
                seen,
                is_doubted,
                learnt,
            } => {
                self.book.see(name, seen, is_doubted);
                Ok(learnt)
            }
            News::Nothing => Ok(Learnt::Nothing),
        }
    }
}
