//! Where records are carried to.
ghost use Rattle.std.specs.Prelude.{◌≡◌, IfOk};
ghost use Rattle.connector_core.specs.declared.keeps.Keeps.TheVariants.{Versions};
ghost use Rattle.provisioning.specs.Services.{is_held_back, kept_for, service_at, taken_from, written_for};
ghost use Rattle.scim_client.specs.Exchanges.{SpellsSent, Starts};
ghost use Rattle.scim_client.specs.Requests.{text_of};

use crate::faults::RecordFault;
use connector_core::{Keeps, NO_VERSION};
use http_text::Output;
use scim_client::{ExchangeFault, ScimService};
use scim_message::{Answer, Request};
use scim_version::Condition;
use std::alloc::{AllocError, Global};
use std::io::Write;
use std::marker::Model;

/// What a provider keeps of what it is sent.
#[derive(Clone, Copy)]
pub enum ProviderKeeps {
    /// The source extension, and versions.
    Revisions,
    /// Versions, without the source extension.
    Versions,
    /// Neither: it shows no versions, or uses one twice, or doesn't obey `If-Match`.
    Nothing,
}

impl ProviderKeeps {
    /// The service of such a provider.
    pub fn at(self, service: &ScimService) -> ServiceProvider<'_>
        ensures { result ≡ service_at self service.now }
    {
        let (keeps, is_versioned) = match self {
            ProviderKeeps::Revisions => (Keeps::Revisions, true),
            ProviderKeeps::Versions => (Keeps::Versions, true),
            ProviderKeeps::Nothing => (Keeps::Versions, false),
        };
        ServiceProvider {
            service,
            keeps,
            is_versioned,
        }
    }
}

/// A service, and what its provider does.
#[derive(Drop)]
pub struct ServiceProvider<'a> {
    pub service: &'a ScimService,
    pub keeps: Keeps,
    /// It shows a version in every answer, never uses one twice for a resource, and obeys `If-Match`.
    pub is_versioned: bool,
}

impl<'a> Model for ServiceProvider<'a> {
    ghost use Rattle.provisioning.specs.Services.{Service};

    ghost Value = { Service };

    ghost view = { λ s. record {
      base = s.service.now;
      keeps = s.keeps;
      is_versioned = s.is_versioned;
    } };
}

/// Sends a request as it is written for the service. It gives the request back as it was, and says whether it was sent
/// whole.
#[tactic(auto, using(crate::proofs::ServiceLemmas::conditions_again))]
pub(crate) fn send_to<W: Write>(
    alloc: Global,
    service: &ServiceProvider<'_>,
    request: Request,
    writer: &mut Output<W>,
) -> (Request, Result<(), ExchangeFault>)
    ensures same { result.0 ≡ request }
    ensures sent { Starts (text_of service.now.base (written_for service.now request))
        writer.old writer.new result.1 }
    ensures spelled { SpellsSent service.now.base (written_for service.now request)
        writer.old writer.new }
{
    if service.is_versioned {
        return send_kept(alloc, service, request, writer);
    }
    let (bare, if_match, if_none_match) = request.with_conditions(
        Condition::Always,
        Condition::Always,
    );
    let (bare, sent) = send_kept(alloc, service, bare, writer);
    let (request, _, _) = bare.with_conditions(if_match, if_none_match);
    (request, sent)
}

/// Sends a request, without its revision if the service doesn't keep it. It gives the request back with it.
fn send_kept<W: Write>(
    alloc: Global,
    service: &ServiceProvider<'_>,
    request: Request,
    writer: &mut Output<W>,
) -> (Request, Result<(), ExchangeFault>)
    ensures same { result.0 ≡ request }
    ensures sent { Starts (text_of service.now.base (kept_for service.now.keeps request))
        writer.old writer.new result.1 }
    ensures spelled { SpellsSent service.now.base (kept_for service.now.keeps request)
        writer.old writer.new }
{
    match service.keeps {
        Keeps::Revisions => {
            let sent = service.service.send_request(alloc, &request, writer);
            (request, sent)
        }
        Keeps::Versions => send_without(alloc, service.service, request, writer),
    }
}

/// Sends a request without its revision. It gives the request back with it.
#[tactic(auto, using(crate::proofs::ServiceLemmas::request_again))]
fn send_without<W: Write>(
    alloc: Global,
    service: &ScimService,
    request: Request,
    writer: &mut Output<W>,
) -> (Request, Result<(), ExchangeFault>)
    ensures same { result.0 ≡ request }
    ensures sent { Starts (text_of service.now (kept_for Versions request))
        writer.old writer.new result.1 }
    ensures spelled { SpellsSent service.now (kept_for Versions request) writer.old writer.new }
{
    let revision = request.revision();
    let written = request.with_revision(None);
    let sent = service.send_request(alloc, &written, writer);
    (written.with_revision(revision), sent)
}

/// The answer as it is taken from the service: without versions, each resource is under the same one.
pub(crate) fn take_from(
    alloc: Global,
    service: &ServiceProvider<'_>,
    answer: Answer,
) -> Result<Answer, AllocError>
    ensures { IfOk result (λ taken. taken ≡ taken_from service.now.is_versioned answer) }
{
    if service.is_versioned {
        Ok(answer)
    } else {
        answer.under_version(alloc, NO_VERSION)
    }
}

/// Whether nothing more is sent for a record after an exchange with this fault, its last one.
pub(crate) fn is_held_back(service: &ServiceProvider<'_>, last: Option<RecordFault>) -> bool
    ensures { result ≡ is_held_back service.now.is_versioned last }
{
    !service.is_versioned
        && matches!(
            last,
            Some(RecordFault::Unanswered(_) | RecordFault::Refused(502 | 504))
        )
}
