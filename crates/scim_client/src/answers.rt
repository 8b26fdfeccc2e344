//! Reads answers from the bytes of responses (RFC 7644 section 3, RFC 9112).
ghost use Rattle.std.specs.Prelude.{◌≡◌, ◌≢◌, option_map, Ok, Err, IfOk, IfErr};
ghost use Rattle.scim_key.specs.Outcome.{Gives};
ghost use Rattle.scim_resource.specs.Showing.{stated_tag};
ghost use Rattle.scim_message.specs.declared.messages.Answer.{Answer};
ghost use Rattle.scim_client.specs.declared.answers.AnswerFault.{AnswerFault};
ghost use Rattle.scim_client.specs.declared.answers.AnswerFault.TheVariants.{OutOfMemory};
ghost use Rattle.scim_client.specs.Answers as spec;
ghost use Rattle.scim_client.specs.Answers.{AnswersSo, RefusesSo, IsOrMemory};

use http_text::{Incoming, response_in};
use scim_message::{Answer, BodyFault, ErrorResponse, Request, read_body};
use scim_resource::Shown;
use std::alloc::{AllocError, Global};
use std::{error, fmt};

/// Why bytes aren't an answer. Its text is its code.
#[derive(Clone, Copy, Debug, PartialEq, Eq)]
pub enum AnswerFault {
    /// The bytes aren't exactly one whole response: only a part, more than one, without a readable length and not in
    /// chunks, with another transfer coding, or beyond a limit.
    NotOneResponse,
    /// The body isn't JSON in UTF-8. This is checked before the status.
    NotJson,
    /// The body isn't an answer to the request, or the status doesn't fit the request.
    WrongShape,
    OutOfMemory,
}

impl fmt::Display for AnswerFault {
    ghost use Rattle.std.specs.Prelude.{Some};
    ghost use Rattle.scim_client.specs.Codes.{answer_fault_text};

    ghost output = { λ fault. Some (answer_fault_text fault) };

    fn fmt<W: fmt::Write>(&self, f: &mut fmt::Formatter<W>) -> fmt::Result {
        f.write_str(match self {
            AnswerFault::NotOneResponse => "K1",
            AnswerFault::NotJson => "K2",
            AnswerFault::WrongShape => "K3",
            AnswerFault::OutOfMemory => "K4",
        })
    }
}

impl error::Error for AnswerFault {}

/// Reads the answer to a request that is exactly these bytes.
pub fn read_answer(alloc: Global, request: &Request, bytes: &[u8]) -> Result<Answer, AnswerFault>
    ensures ok { IfOk result (AnswersSo bytes.now request.now) }
    ensures refused { IfErr result (RefusesSo bytes.now request.now) }

    // The result is what the bytes say, or out of memory.
    ensures only { (a : Answer) → AnswersSo bytes.now request.now a → IsOrMemory (Ok a) result }
    ensures only_refusal { (fault : AnswerFault) → fault ≢ OutOfMemory
        → RefusesSo bytes.now request.now fault → IsOrMemory (Err fault) result }
{
    match response_in(alloc, bytes) {
        Ok(Some(response)) => answer_in(alloc, request, &response),
        Ok(None) => Err(AnswerFault::NotOneResponse),
        Err(_) => Err(AnswerFault::OutOfMemory),
    }
}

/// What a response answers to a request.
pub(crate) fn answer_in(
    alloc: Global,
    request: &Request,
    response: &Incoming,
) -> Result<Answer, AnswerFault>
    ensures { spec.SaysSo request.now response.now result }
{
    match said_in(alloc, request, response) {
        Ok(answer) => Ok(answer),
        Err(BodyFault::NotJson) => Err(AnswerFault::NotJson),
        Err(BodyFault::WrongShape) => Err(AnswerFault::WrongShape),
        Err(BodyFault::Memory) => Err(AnswerFault::OutOfMemory),
    }
}

/// What a response says to a request, under the entity tag that it states.
fn said_in(alloc: Global, request: &Request, response: &Incoming) -> Result<Answer, BodyFault>
    ensures { Gives BodyFault.Memory result (spec.answer_in request.now response.now) }
{
    let etag = etag_of(response);
    let answer = said_by(alloc, request, response.status(), etag, response.body())?;
    Ok(tagged(alloc, answer, etag)?)
}

/// What a status, an entity tag and a body answer to a request.
fn said_by(
    alloc: Global,
    request: &Request,
    status: u16,
    etag: Option<&[u8]>,
    body: &[u8],
) -> Result<Answer, BodyFault>
    ensures { Gives BodyFault.Memory result
        (spec.said_by request.now status (option_map (λ e. e.now) etag.entry) body.now) }
{
    if body.is_empty() {
        if let Some(answer) = silent_answer(alloc, request, status)? {
            return Ok(answer);
        }
    }
    read_body(alloc, request, status, etag, body)
}

/// What a success without a body answers to a request, if it answers anything. A replacement without a source revision
/// is done as it was asked; after a creation the name is taken.
fn silent_answer(
    alloc: Global,
    request: &Request,
    status: u16,
) -> Result<Option<Answer>, AllocError>
    ensures { IfOk result (λ answer. answer ≡ spec.silent_answer request.now status) }
{
    match request {
        Request::Create { .. } if status == 201 => {
            Ok(Some(Answer::Error(ErrorResponse::bare(409))))
        }
        Request::Replace { id, content, .. }
            if (status == 200 || status == 204) && content.revision().is_none() => {
            let shown = Shown::without_tag(alloc, id, content.clone()?)?;
            Ok(Some(Answer::Replaced(shown)))
        }
        _ => Ok(None),
    }
}

/// The answer under the entity tag that its response states.
fn tagged(alloc: Global, answer: Answer, etag: Option<&[u8]>) -> Result<Answer, AllocError>
    ensures { IfOk result (λ tagged. tagged
        ≡ spec.answer_tagged (stated_tag (option_map (λ e. e.now) etag.entry)) answer) }
{
    Ok(match answer {
        Answer::Created(shown) => Answer::Created(shown.tagged(alloc, etag)?),
        Answer::Found(shown) => Answer::Found(shown.tagged(alloc, etag)?),
        Answer::Replaced(shown) => Answer::Replaced(shown.tagged(alloc, etag)?),
        other => other,
    })
}

/// The entity tag of a response, if it states exactly one.
fn etag_of(response: &Incoming) -> Option<&[u8]>
    ensures { option_map (λ t. t.now) result ≡ spec.etag_of response.now.head }
{
    let mut tags = response.fields("etag");
    match (tags.next(), tags.next()) {
        (Some(tag), None) => Some(tag),
        _ => None,
    }
}
