//! Why records are unchecked.
ghost use Rattle.std.specs.Prelude.{List, Option};

use crate::findings::Finding;
use crate::looking::Hindrance;
use crate::telling::TellFinding;
use connector_core::Keeps;
use provisioning::{Dial, Ended, Explanations, Heard, RecordFault, tell_last};
use scim_client::ExchangeFault;
use scim_key::{RecordName, Revision};
use scim_message::{Answer, Request};
use scim_resource::Content;
use std::alloc::Global;
use std::cell::Cell;
use std::io;
use std::io::Eprint;

/// Has it explained why what came of the search for a record says nothing of it, if so it is.
pub(crate) fn explain<'x, D: Dial>(
    alloc: Global,
    dial: &D,
    keeps: Keeps,
    name: &'x RecordName,
    wanted: &Content,
    request: &'x Request,
    heard: &'x Heard,
    came: &'x Result<Answer, ExchangeFault>,
) {
    if let Some(fault) = fault_in(wanted, came) {
        dial.explain(&Ended {
            alloc,
            fault: Some(fault),
            name,
            request,
            heard,
            answer: came.as_ref().ok(),
            wanted: wanted.revision().unwrap_or(Revision::none()),
            id: None,
            keeps,
        });
    }
}

/// Why what came of a search says nothing of the record, if so it is.
fn fault_in(wanted: &Content, came: &Result<Answer, ExchangeFault>) -> Option<RecordFault> {
    match came {
        Ok(Answer::List(list)) => match list.resources.as_slice() {
            [] if list.total == 0 => None,
            [only] if list.total == 1 && wanted.has_name_of(only.content()) => None,
            _ => Some(RecordFault::Unfit),
        },
        Ok(Answer::Error(error)) => Some(RecordFault::Refused(error.status())),
        Ok(_) => Some(RecordFault::Unfit),
        Err(fault) => Some(RecordFault::Unanswered(*fault)),
    }
}

/// Reports by another, and prints on standard error why an unchecked record is so.
#[derive(Drop)]
pub(crate) struct Explained<'a, T: Drop, E> {
    pub teller: T,
    pub stderr: &'a E,
    pub last: &'a Cell<Option<Explanations>>,
}

impl<'a, T: TellFinding + Drop, E: Eprint> TellFinding for Explained<'a, T, E> {
    type Note = T::Note;

    ghost note = { T.note };

    ghost noted = { λ it. T.noted it.teller };

    fn tell(&mut self, name: &RecordName, finding: &Finding) -> io::Result<()> {
        let told = self.teller.tell(name, finding);
        let has_fault = matches!(finding, Finding::Unchecked(Hindrance::Fault(_)));
        tell_last(self.stderr, self.last, name, has_fault);
        told
    }
}
