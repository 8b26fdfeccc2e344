//! What comes of an exchange.
ghost use Rattle.std.specs.Prelude.{Ok};
ghost use Rattle.provisioning.specs.Exchanges.{IsTaken, IsTaught};

use crate::dialing::Dial;
use crate::explaining::Ended;
use crate::faults::{RecordFault, RunFault, unanswered, unlearnt};
use crate::recording::Heard;
use crate::services::{ServiceProvider, take_from};
use connector_core::{Connector, Keeps};
use journal_core::Journal;
use scim_client::ExchangeFault;
use scim_key::RecordName;
use scim_message::{Answer, Request};
use std::alloc::Global;

/// Has an exchange explained that had a fault, or after which its record is confirmed.
pub(crate) fn explain<'x, J: Journal, D: Dial>(
    alloc: Global,
    keeps: Keeps,
    connector: &'x Connector<J>,
    dial: &D,
    name: &'x RecordName,
    request: &'x Request,
    heard: &'x Heard,
    came: &'x Result<Answer, ExchangeFault>,
    taken: Result<Option<RecordFault>, RunFault>,
) {
    let Ok(fault) = taken else {
        return;
    };
    if fault.is_some() || connector.is_done(name) {
        let ended = Ended {
            alloc,
            fault,
            name,
            request,
            heard,
            answer: answer_in(came),
            wanted: connector.wanted(name),
            id: connector.id(name),
            keeps,
        };
        dial.explain(&ended);
    }
}

/// The answer, if one came.
fn answer_in(came: &Result<Answer, ExchangeFault>) -> Option<&Answer> {
    match came {
        Ok(answer) => Some(answer),
        Err(_) => None,
    }
}

/// Takes the result of an exchange with a service. It gives the answer back as it was taken.
pub(crate) fn take<J: Journal>(
    alloc: Global,
    service: &ServiceProvider<'_>,
    connector: &mut Connector<J>,
    request: &Request,
    came: Result<Answer, ExchangeFault>,
) -> (
    Result<Answer, ExchangeFault>,
    Result<Option<RecordFault>, RunFault>,
)
    ensures { IsTaken J.Journal service.now request.now came connector.old connector.new result.1 }
{
    match came {
        Ok(answer) => learn(alloc, service, connector, request, answer),
        Err(fault) => (Err(fault), unanswered(fault)),
    }
}

/// Learns from an answer as it is taken from a service.
fn learn<J: Journal>(
    alloc: Global,
    service: &ServiceProvider<'_>,
    connector: &mut Connector<J>,
    request: &Request,
    answer: Answer,
) -> (
    Result<Answer, ExchangeFault>,
    Result<Option<RecordFault>, RunFault>,
)
    ensures { IsTaken J.Journal service.now request.now (Ok answer)
        connector.old connector.new result.1 }
{
    match take_from(alloc, service, answer) {
        Ok(answer) => {
            let taken = teach(service.keeps, connector, request, &answer);
            (Ok(answer), taken)
        }
        Err(_) => (Err(ExchangeFault::OutOfMemory), Err(RunFault::Memory)),
    }
}

/// Teaches the connector an answer.
fn teach<J: Journal>(
    keeps: Keeps,
    connector: &mut Connector<J>,
    request: &Request,
    answer: &Answer,
) -> Result<Option<RecordFault>, RunFault>
    ensures { IsTaught J.Journal keeps request.now answer.now connector.old connector.new result }
{
    match connector.learn(keeps, request, answer) {
        Ok(_) => Ok(None),
        Err(fault) => unlearnt(fault),
    }
}
