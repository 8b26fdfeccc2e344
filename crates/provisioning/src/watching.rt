//! Runs whose exchanges are explained.
use crate::dialing::Dial;
use crate::explaining::Ended;
use crate::explanations::Explanation;
use crate::keeping::{Explanations, keep, take};
use crate::offering::{Hear, Judged};
use crate::recording::Heard;
use crate::records::{Pushed, Standing};
use crate::telling::Tell;
use journal_core::kind_word;
use scim_key::RecordName;
use std::cell::Cell;
use std::io;
use std::io::Eprint;

/// Opens the streams of another, and keeps the last explanation of each record that isn't reported.
#[derive(Drop)]
pub struct Explaining<'a, D: Drop> {
    pub dial: D,
    pub last: &'a Cell<Option<Explanations>>,
}

impl<'a, D: Dial + Drop> Dial for Explaining<'a, D> {
    type Reader = D::Reader;

    type Writer = D::Writer;

    fn dial(&mut self) -> io::Result<(Self::Reader, Self::Writer)> {
        self.dial.dial()
    }

    fn end(&self, reader: Self::Reader, writer: Self::Writer) {
        self.dial.end(reader, writer);
    }

    /// Keeps the explanation of the exchange. If memory runs out, nothing is kept.
    fn explain(&self, ended: &Ended<'_>) {
        keep(self.last, ended);
    }

    fn puts_off(&self, name: &RecordName, heard: &Heard) -> bool {
        self.dial.puts_off(name, heard)
    }

    fn is_due(&self, name: &RecordName) -> bool {
        self.dial.is_due(name)
    }

    fn rest(&self) {
        self.dial.rest();
    }
}

/// Reports by another, and prints on standard error what the fault of an unconfirmed record was. Of a confirmed record it
/// prints there what the provider shows with other values than were asked, unless the other is quiet.
#[derive(Drop)]
pub(crate) struct Explained<'a, T: Drop, E> {
    pub teller: T,
    pub stderr: &'a E,
    pub last: &'a Cell<Option<Explanations>>,
}

impl<'a, T: Hear + Drop, E: Eprint> Hear for Explained<'a, T, E> {
    ghost heard = { λ it. T.heard it.teller };

    fn hear(&mut self, judged: Judged) -> io::Result<()> {
        self.teller.hear(judged)
    }
}

impl<'a, T: Tell + Drop, E: Eprint> Tell for Explained<'a, T, E> {
    ghost told = { λ it. T.told it.teller };

    fn tell(&mut self, name: &RecordName, pushed: &Pushed) -> io::Result<()> {
        let told = self.teller.tell(name, pushed);
        let is_printed = is_printed(&self.teller, &pushed.standing);
        tell_last(self.stderr, self.last, name, is_printed);
        told
    }
}

/// Whether what was kept of a record in this state is printed.
fn is_printed<T: Tell>(teller: &T, standing: &Standing) -> bool {
    match standing {
        Standing::Confirmed(_) => !teller.is_quiet(),
        Standing::Unconfirmed(fault) => fault.is_some(),
        Standing::Waits(_) => false,
    }
}

/// Prints on standard error what was kept of a record, if anything was and it `is_printed`. Nothing is kept of it from then
/// on.
pub fn tell_last<E: Eprint>(
    stderr: &E,
    last: &Cell<Option<Explanations>>,
    name: &RecordName,
    is_printed: bool,
) {
    let kept = take(last, name);
    if let (true, Some(explanation)) = (is_printed, &kept) {
        report(stderr, name, explanation);
    }
}

/// Prints what is said of a record.
fn report<E: Eprint>(stderr: &E, name: &RecordName, explanation: &Explanation) {
    let (kind, key) = (kind_word(name.kind), name.key.as_str());
    let _ = eprintln!(stderr; "{kind} {key}: {explanation}");
}
