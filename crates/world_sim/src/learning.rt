//! What the connector of a world says of rows and of answers.
ghost use Rattle.std.specs.Prelude.{◌≡◌, IfErr, IfOk, OnErr, OnOk, Err};
ghost use Rattle.std.specs.FinMap.{keys};
ghost use Rattle.connector_core.specs.Changing.{accepted_map, book_after, judging};
ghost use Rattle.connector_core.specs.Learning as spec;
ghost use Rattle.connector_core.specs.Maps.{book_of};
ghost use Rattle.connector_core.specs.State.{Leaves, LeavesBook};
ghost use Rattle.scim_client.specs.Answers.{AnswersSo};
ghost use Rattle.scim_message.specs.declared.messages.Answer.{Answer};
ghost use Rattle.world_model.specs.Reports.{Judged, Taught, learnt_of};
ghost use Rattle.world_sim.specs.Events.{report_of, unaccepted, unlearnt};
ghost use Rattle.world_sim.specs.Running.{Keeps};
ghost use Rattle.world_sim.specs.Sides.{CountsWorldFault};
ghost use Rattle.world_sim.specs.declared.reports.WorldFault.TheVariants.{Memory, Store};

use crate::reading::{ReadingFault, read_answered};
use crate::reports::{Report, WorldFault};
use connector_core::{ChangeFault, Connector, LearnFault};
use journal_core::Journal;
use scim_message::{Answer, Request};
use source_csv::Row;
use std::alloc::Global;

/// The report of an answer from which nothing is learnt. A fault of the journal's store is the world's, and
/// so is out of memory.
fn unlearnt(fault: LearnFault) -> Result<Report, WorldFault>
    ensures { result ≡ unlearnt fault }
{
    match fault {
        LearnFault::Store => Err(WorldFault::Store),
        LearnFault::Memory => Err(WorldFault::Memory),
        LearnFault::Unfit
        | LearnFault::Unversioned
        | LearnFault::NoSuchRecord
        | LearnFault::Refused { .. } => Ok(Report::Taught(Err(fault))),
    }
}

/// The report of a row that isn't accepted. A fault of the journal's store is the world's, and so is out of memory.
fn unaccepted(fault: ChangeFault) -> Result<Report, WorldFault>
    ensures { result ≡ unaccepted fault }
{
    match fault {
        ChangeFault::Store => Err(WorldFault::Store),
        ChangeFault::Memory => Err(WorldFault::Memory),
        ChangeFault::Differs | ChangeFault::NoSuchMember(_) | ChangeFault::TooMany => {
            Ok(Report::Judged(Err(fault)))
        }
    }
}

/// What the connector learns from the answer to a request.
fn learn<J: Journal>(
    connector: &mut Connector<J>,
    request: &Request,
    answer: &Answer,
) -> Result<Report, WorldFault>
    ensures report { IfOk result (λ told. report_of told
        ≡ Taught (learnt_of (spec.learn (book_of connector.old.book) request.now answer.now))) }
    ensures book { OnOk result (book_of connector.new.book
        ≡ spec.after_learning (book_of connector.old.book)
        (spec.learn (book_of connector.old.book) request.now answer.now)) }
    ensures names { keys connector.new.book ≡ keys connector.old.book }
    ensures same { OnErr result (connector.new.book ≡ connector.old.book) }
    ensures still { J.is_faithful connector.new.journal → LeavesBook J.Journal connector.old
        → OnErr result (LeavesBook J.Journal connector.new) }
    ensures honest { J.is_honest connector.new.journal → J.is_honest connector.old.journal }
    ensures open { J.is_honest connector.new.journal → J.is_faithful connector.old.journal
        → OnOk result (J.is_faithful connector.new.journal) }
    ensures leaves { J.is_honest connector.new.journal → LeavesBook J.Journal connector.old
        → Leaves J.Journal connector.old connector.new
        (spec.after_learning (book_of connector.old.book)
        (spec.learn (book_of connector.old.book) request.now answer.now))
        (keys connector.old.book) result }
    ensures counted { IfErr result
        (CountsWorldFault (J.faults connector.old.journal) (J.faults connector.new.journal)) }
{
    match connector.learn(connector_core::Keeps::Revisions, request, answer) {
        Ok(learnt) => Ok(Report::Taught(Ok(learnt))),
        Err(fault) => unlearnt(fault),
    }
}

/// What the connector says about a row.
pub(crate) fn judge<J: Journal>(
    connector: &mut Connector<J>,
    row: Row,
) -> Result<Report, WorldFault>
    ensures report { IfOk result (λ told. report_of told
        ≡ Judged (judging (book_of connector.old.book) (keys connector.old.book) row)) }
    ensures book { OnOk result (connector.new.book
        ≡ accepted_map connector.old.book row
        (judging (book_of connector.old.book) (keys connector.old.book) row)) }
    ensures same { OnErr result (connector.new.book ≡ connector.old.book) }
    ensures still { J.is_faithful connector.new.journal → LeavesBook J.Journal connector.old
        → OnErr result (LeavesBook J.Journal connector.new) }
    ensures honest { J.is_honest connector.new.journal → J.is_honest connector.old.journal }
    ensures open { J.is_honest connector.new.journal → J.is_faithful connector.old.journal
        → OnOk result (J.is_faithful connector.new.journal) }
    ensures leaves { J.is_honest connector.new.journal → LeavesBook J.Journal connector.old
        → Leaves J.Journal connector.old connector.new
        (book_after (book_of connector.old.book) row
        (judging (book_of connector.old.book) (keys connector.old.book) row))
        (keys
        (accepted_map connector.old.book row
        (judging (book_of connector.old.book) (keys connector.old.book) row))) result }
    ensures counted { IfErr result
        (CountsWorldFault (J.faults connector.old.journal) (J.faults connector.new.journal)) }
{
    match connector.change(row) {
        Ok(verdict) => Ok(Report::Judged(Ok(verdict))),
        Err(fault) => unaccepted(fault),
    }
}

/// The answer to a request arrives in these bytes.
pub(crate) fn hear<J: Journal>(
    alloc: Global,
    connector: &mut Connector<J>,
    request: &Request,
    bytes: &[u8],
) -> Result<Report, WorldFault>
    ensures report { (answer : Answer) → AnswersSo bytes.now request.now answer
        → IfOk result (λ told. report_of told
        ≡ Taught (learnt_of (spec.learn (book_of connector.old.book) request.now answer))) }
    ensures book { (answer : Answer) → AnswersSo bytes.now request.now answer
        → OnOk result (book_of connector.new.book
        ≡ spec.after_learning (book_of connector.old.book)
        (spec.learn (book_of connector.old.book) request.now answer)) }
    ensures names { keys connector.new.book ≡ keys connector.old.book }
    ensures same { OnErr result (connector.new.book ≡ connector.old.book) }
    ensures still { J.is_faithful connector.new.journal → LeavesBook J.Journal connector.old
        → OnErr result (LeavesBook J.Journal connector.new) }
    ensures honest { J.is_honest connector.new.journal → J.is_honest connector.old.journal }
    ensures open { J.is_honest connector.new.journal → J.is_faithful connector.old.journal
        → OnOk result (J.is_faithful connector.new.journal) }
    ensures leaves { (answer : Answer) → AnswersSo bytes.now request.now answer
        → J.is_honest connector.new.journal → LeavesBook J.Journal connector.old
        → Leaves J.Journal connector.old connector.new
        (spec.after_learning (book_of connector.old.book)
        (spec.learn (book_of connector.old.book) request.now answer))
        (keys connector.old.book) result }
    ensures counted { IfErr result
        (CountsWorldFault (J.faults connector.old.journal) (J.faults connector.new.journal)) }
{
    match read_answered(alloc, request, bytes) {
        Ok(answer) => learn(connector, request, &answer),
        Err(ReadingFault::Unread) => Ok(Report::NoMessage),
        Err(ReadingFault::Memory) => Err(WorldFault::Memory),
    }
}
