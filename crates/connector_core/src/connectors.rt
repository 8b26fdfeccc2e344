//! The connector over a journal.
ghost use Rattle.std.specs.Prelude.{◌≡◌, IfOk};
ghost use Rattle.std.specs.FinMap.{keys};
ghost use Rattle.std.specs.Option.{option_copied};
ghost use Rattle.journal_core.specs.Calls.{Reads};
ghost use Rattle.connector_core.specs.Book.{confirmed_of, doubted, doubting, known_id, seen_of, wanted_of, wanted_row};
ghost use Rattle.connector_core.specs.Maps.{book_of, changed};
ghost use Rattle.connector_core.specs.State.{CountsOpenFault, IsKept, IsOpened, LeavesBook, journal_after};

use crate::books::Book;
use crate::knowledge::Seen;
use crate::opening::{ConnectorOpenFault, read_book};
use journal_core::Journal;
use scim_key::{RecordName, ResourceId, Revision};
use source_csv::Row;
use std::alloc::{AllocError, Global};
use std::marker::Model;

/// The connector: what the source wants of each record, and what is known about the record at the provider.
///
/// The journal keeps all of this except what was seen, and what is doubted.
#[derive(Drop)]
pub struct Connector<J: Journal> {
    pub(crate) alloc: Global,
    pub(crate) journal: J,
    pub(crate) book: Book,
}

impl<J: Journal> Model for Connector<J> {
    ghost use Rattle.std.specs.Coded.{codes};
    ghost use Rattle.std.specs.FinMap as fin;
    ghost use Rattle.connector_core.specs.State.{State, IsKept};

    ghost Value = { State J };

    ghost coded = { Prim.hlevel (codes, fin.code, J.code) };

    ghost view = { λ c. record { journal = c.journal; book = c.book } };

    ghost invariant = { λ c. J.is_faithful c.journal → IsKept (J.entries c.journal) c.book };
}

impl<J: Journal> Connector<J> {
    /// A connector over the entries of a journal. It has seen nothing yet. If it fails, it hands the
    /// journal back.
    pub fn open(alloc: Global, mut journal: J) -> Result<Connector<J>, (ConnectorOpenFault, J)>
        ensures opened { IfOk result (λ connector. J.is_faithful connector.journal
            → IsOpened (J.entries journal) connector.book) }
        ensures kept { IfOk result (λ connector. J.is_faithful connector.journal
            → IsKept (J.entries connector.journal) connector.book) }
        ensures reads { Reads J.Journal CountsOpenFault journal (journal_after result) result }
        ensures leaves { IfOk result (λ connector. J.is_honest connector.journal
            → LeavesBook J.Journal connector) }
    {
        let list = match journal.load() {
            Ok(list) => list,
            Err(fault) => return Err((ConnectorOpenFault::from(fault), journal)),
        };
        match read_book(alloc, list) {
            Ok(book) => Ok(Connector {
                alloc,
                journal,
                book,
            }),
            Err(_) => Err((ConnectorOpenFault::Memory, journal)),
        }
    }

    /// Gives the journal back, with its current entries. What was seen is forgotten, and so is what is doubted.
    pub fn close(self) -> J
        ensures value { result ≡ self.journal }
        ensures kept { J.is_faithful self.journal → IsKept (J.entries self.journal) self.book }
    {
        let Connector { journal, .. } = self;
        journal
    }

    /// What was seen last of a record since the connector was opened, if the record exists.
    pub fn seen(&self, name: &RecordName) -> Option<&Seen>
        ensures { option_copied result ≡ seen_of (book_of self.now.book) name.now }
    {
        match self.book.get(name) {
            Some(known) => Some(&known.seen),
            None => None,
        }
    }

    /// From now on this record is doubted, if it exists: it is searched for, and counts as confirmed only once it is seen
    /// as it is wanted. Nothing is written, and it allocates nothing.
    pub fn doubt(&mut self, name: &RecordName)
        ensures book { self.new.book ≡ changed doubting self.old.book name.now }
        ensures doubted { book_of self.new.book ≡ doubted (book_of self.old.book) name.now }
        ensures names { keys self.new.book ≡ keys self.old.book }
        ensures journal { self.new.journal ≡ self.old.journal }
        ensures kept { J.is_faithful self.new.journal
            → IsKept (J.entries self.new.journal) self.new.book }
        ensures leaves { LeavesBook J.Journal self.old → LeavesBook J.Journal self.new }
    {
        if self.book.get(name).is_some() {
            self.book.see(name, Seen::Unknown, true);
        }
    }

    /// The revision of a record that counts as confirmed; none if the record doesn't exist.
    pub fn confirmed(&self, name: &RecordName) -> Revision
        ensures { result ≡ confirmed_of (book_of self.now.book) name.now }
    {
        match self.book.get(name) {
            Some(known) => known.confirmed,
            None => Revision::none(),
        }
    }

    /// The revision of a record that the source wants; none if the record doesn't exist.
    pub fn wanted(&self, name: &RecordName) -> Revision
        ensures { result ≡ wanted_of (book_of self.now.book) name.now }
    {
        match self.book.get(name) {
            Some(known) => known.wanted.revision(),
            None => Revision::none(),
        }
    }

    /// The row of a record that the source wants, if the record exists.
    pub fn row(&self, name: &RecordName) -> Option<&Row>
        ensures { option_copied result ≡ wanted_row (book_of self.now.book) name.now }
    {
        match self.book.get(name) {
            Some(known) => Some(&known.wanted),
            None => None,
        }
    }

    /// The id that the provider gave to a record, if one is known.
    pub fn id(&self, name: &RecordName) -> Option<&ResourceId>
        ensures { option_copied result ≡ known_id (book_of self.now.book) name.now }
    {
        match self.book.get(name) {
            Some(known) => known.id.as_ref(),
            None => None,
        }
    }

    /// The names of the records: users by key, then groups by key.
    pub fn names(&self) -> Result<Vec<RecordName>, AllocError>
        ensures { IfOk result (λ names. names.items ≡ keys self.now.book) }
    {
        self.book.names(self.alloc)
    }
}
